// What a pattern's variables take from a use: parts, environments, and the lists that drive copies (ground 17).
#![tactic(auto)]

pub mod agree;
pub mod bind;
pub mod blocks;
pub mod columns;
pub mod driving;
pub mod entries;
pub mod environment;
pub mod fill;
pub mod lengths;
mod marks;
mod parts;
pub mod shares;
pub mod taken;
