// Forms on cells: what a form needs outside the cycle of expansion. Shapes, distinct names, binders, quoting.
#![tactic(auto)]

pub mod binders;
pub mod quotes;
pub mod shapes;
