// The codes of a core term's nodes; specs/Node.antt has the same numbers for definitions. Codes below LIST are leaves of two words.
pub const VARIABLE: u32 = 0;

pub const OPERATION: u32 = 1;

pub const INTEGER: u32 = 2;

pub const BOOLEAN: u32 = 3;

pub const NAME: u32 = 4;

pub const LIST: u32 = 5;

pub const IF: u32 = 6;

pub const LAMBDA: u32 = 7;

pub const APPLICATION: u32 = 8;

pub const DECIMAL: u32 = 9;
