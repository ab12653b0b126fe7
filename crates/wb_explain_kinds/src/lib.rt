//! What is said of a specification that is refused for a kind, or for a number of arguments, by the contents of its file and of its host's.
//!
//! Contents are read and their names numbered as `wb_certify_files` does. What is said of the numbered value is in `wb_explain_mismatches`.
#![tactic(auto)]

mod kinds;

pub use kinds::push_kinds;
