//! What could come in a specification at a place at which it can't be read?
//!
//! All kinds are asked for at once, by the table by which a specification is read (`wb_reader`). What is said besides is in
//! `wb_explain_lines`.
#![tactic(auto)]

mod candidates;
mod coming;
mod expected;

pub use coming::can_come;
pub use expected::push_expected;
