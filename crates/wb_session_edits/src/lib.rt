//! Edits of a text, and the file that lists them: `read_edits` reads it.
//!
//! Other bytes are refused at the first that can follow in no list of edits. Whether an edit fits the text that it meets is no matter of
//! this crate, but its definitions say which text is made by edits, each in turn.
#![tactic(auto)]

mod edit;
pub mod laws;
mod line;
mod read;
mod refusal;
mod string;
mod string_part;

pub use edit::Edit;
pub use read::read_edits;
pub use refusal::EditsRefusal;
