//! Which kinds of tokens can come at a place of a text?
//!
//! For every table of `wb_text_predictive`: the tokens before the place are taken by the same stack, without the values that they make, and
//! each kind is tried on a copy of it. So the text is read once, whatever number of kinds is asked for.
#![tactic(auto)]

mod choice;
mod kinds;
mod machine;
mod walk;

pub use kinds::expected;
