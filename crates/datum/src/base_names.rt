// The numbers of the names that every name table begins with: those of the base forms, then `...` and `_`.
pub const QUOTE: u32 = 0;

pub const IF: u32 = 1;

pub const LAMBDA: u32 = 2;

pub const LET_SYNTAX: u32 = 3;

pub const LETREC_SYNTAX: u32 = 4;

pub const SYNTAX_RULES: u32 = 5;

pub const ELLIPSIS: u32 = 6;

pub const WILDCARD: u32 = 7;
