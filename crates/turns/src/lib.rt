// One turn of an expression: what it is and what its head finds say what is written and what is left to expand.
#![tactic(auto)]

pub mod answers;
mod base_forms;
pub mod dispatch;
pub mod leaf;
mod listed;
mod macros;
mod output;
mod uses;
