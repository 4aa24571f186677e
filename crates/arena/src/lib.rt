// The arena in the lent work table: its cells, its nodes, lists of them, and those of an item table.
#![tactic(auto)]

pub mod cells;
pub mod item_nodes;
pub mod lists;
pub mod nodes;
pub mod origins;
