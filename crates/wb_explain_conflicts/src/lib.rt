//! What is said of a conflict: a text that has two trees, and both, where one is found, and else two texts that begin alike, with a tree of
//! each.
//!
//! The specification is certified once more, and the conflict is the one at which that ends. How trees are found is in
//! `wb_explain_readings`.
#![tactic(auto)]

mod conflict;
mod flags;
mod names;
mod shown;
mod words;

pub use conflict::push_conflict;
