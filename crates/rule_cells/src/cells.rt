// Cells of parsed rules: tags, and where the words of each kind stand, counted back from the cell's end, by which it is referred
// to. specs/Cells.antt says what they mean. A cell has five words. Reference 0 is the empty pattern, the empty template and the
// empty list of rules. Tags are numbers and no enum, since cells are words of the table that C lends, which definitions read by
// these numbers.

// Where the tag of a pattern or template stands, and the tags.
pub const TAG: u32 = 1;

pub const VARIABLE: u32 = 1;

pub const NAME: u32 = 2;

pub const WILDCARD: u32 = 3;

pub const CONSTANT: u32 = 4;

pub const PAIR: u32 = 6;

pub const ELLIPSIS: u32 = 7;

// A pair's head and rest; an ellipsis has its element for head.
pub const HEAD: u32 = 3;

pub const REST: u32 = 2;

// A constant's kind and two words.
pub const KIND: u32 = 4;

pub const FIRST: u32 = 3;

pub const SECOND: u32 = 2;

// Of a pattern: a variable's number; how many elements follow an ellipsis; the number and the binding's key that a literal's lookup
// has found, before which its node and pending wrap stand.
pub const PATTERN_NUMBER: u32 = 2;

pub const FOLLOWING: u32 = 4;

pub const LITERAL_NUMBER: u32 = 3;

pub const LITERAL_KEY: u32 = 2;

// Of a template: a variable's number and depth; an inserted name's node and pending wrap.
pub const NUMBER: u32 = 3;

pub const DEPTH: u32 = 2;

pub const NODE: u32 = 3;

pub const WRAP: u32 = 2;

// A rule's pattern and template, and the rules after it.
pub const PATTERN: u32 = 3;

pub const TEMPLATE: u32 = 2;

pub const NEXT: u32 = 1;
