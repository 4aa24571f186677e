// The limits of documents 01 and 02, for code; specs/Limits.antt has the same numbers for definitions. And the grounds of refusals, and signed
// numbers.
#![tactic(auto)]

pub mod ground;
pub mod signed;

// Reading: words and bytes to lend, bytes of a text, elements, names, names that are fixed, open lists, bytes of a name and of its slot,
// digits behind a decimal's dot.
pub const ITEM_WORDS: usize = 12288;

pub const NAME_BYTES: usize = 65536;

pub const TEXT_BYTES: usize = 65535;

pub const ELEMENTS: usize = 2047;

pub const NAMES: usize = 1024;

pub const BASE_NAMES: usize = 8;

pub const OPEN_LISTS: usize = 64;

pub const NAME_LENGTH: usize = 63;

pub const SLOT: usize = 64;

pub const PLACES: u32 = 4;

// Words of an item.
pub const ITEM: usize = 3;

// Expansion: items of a table, fuel, work and core words for each item and unit of fuel, operations.
pub const LEAST_ITEMS: usize = 5;

pub const MOST_ITEMS: usize = 4096;

pub const FUEL: u32 = 8192;

pub const WORK_RATE: usize = 24;

pub const CORE_RATE: usize = 3;

pub const OPERATIONS: u32 = 256;

// Forms and rules: formals of a lambda, macros of a form, literals, rules, variables of a pattern, ellipses over one.
pub const FORMALS: u32 = 8;

pub const MACROS: u32 = 16;

pub const LITERALS: u32 = 8;

pub const RULES: u32 = 16;

pub const VARIABLES: u32 = 16;

pub const DEPTH: u32 = 2;

// Running: units of a budget, and words to lend for each of them and one more.
pub const BUDGET: u32 = 65535;

pub const RUN_RATE: usize = 16;

// The filing program: its fuel, and the lengths of the work and core tables that it lends.
pub const FILING_FUEL: u32 = 512;

pub const FILING_WORK: usize = 16368;

pub const FILING_CORE: usize = 2046;
