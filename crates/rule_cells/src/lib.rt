// Rules as cells of the arena: read once, when their form is reached. What the cells mean stands in specs/.
#![tactic(auto)]

pub mod cells; // tags, and where words stand
mod constructors;
mod dots;
mod patterns;
pub mod rules; // the rules of a form
mod rules_form;
mod templates;
mod variables;
