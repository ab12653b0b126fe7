//! Certificates of kernels and lookaheads.
//!
//! A certificate lists the kernels of a grammar's prefixes and every lookahead of their items, each with the earlier one that it comes
//! from. A pass over it shows two things. What is listed follows from what is listed before it, so all of it is true. And what follows
//! from anything in the list is in the list, so nothing is left out. Who checks it so need not trust who wrote it, and looks for no
//! lookaheads.
//!
//! The definitions are in `specs/`, over those of `wb_grammar_theory`. Each function is a law, whose body is empty.
#![tactic(auto)]

mod entry;
pub mod laws;
mod line;

pub use entry::Entry;
pub use line::Line;
