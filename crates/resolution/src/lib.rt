// Names in the arena, with the marks and binders that wait on them: looked up, compared and bound.
#![tactic(auto)]

mod direct;
mod marks;
pub mod names;
mod wraps;
