//! What does the program `explain` write for words and files?
//!
//! The lines of `workbench`, with their status, and after them what they mean. One call, over any shelf and sink. What is said is made in
//! `wb_explain_lines`.
#![tactic(auto)]

mod program;
mod words;

pub use program::{explain, picture};
pub use wb_program::Status;
pub use words::take_picture;
