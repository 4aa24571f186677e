// Constants, data and the name table stand in specs/; code has the kinds of items, the base names and the matching of constants.
#![tactic(auto)]

pub mod base_names;
pub mod constants;
pub mod kinds;
