// A macro step on cells: matching, and the result's nodes.
#![tactic(auto)]

pub mod apply; // one step
mod build;
mod copy;
mod fits;
