//! Editing sessions: what a parser has kept of a text serves for the text after an edit, and its answer is that of the new text.
//!
//! The definitions are in `specs/`. Each function is a law, whose body is empty.
#![tactic(auto)]

pub mod laws;
