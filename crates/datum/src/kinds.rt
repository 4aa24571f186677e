// Kinds of items: an empty list, an integer, a boolean, a name, a pair, a decimal.
pub const EMPTY: u32 = 0;

pub const INTEGER: u32 = 1;

pub const BOOLEAN: u32 = 2;

pub const NAME: u32 = 3;

pub const PAIR: u32 = 4;

pub const DECIMAL: u32 = 5;
