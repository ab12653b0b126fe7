//! What a grammar's prefixes decide together: the tables of a parser, and what its scanner considers.
//!
//! A prefix shows each conflict and each clash, so that whoever reads a refusal sees a text with which it happens. The parts are those of
//! the crates below.
#![tactic(auto)]

mod clash;
mod considered;
mod lexicon;
mod parts;

pub use clash::{ContextClash, clash_at};
pub use considered::considered_sets;
pub use lexicon::Lexicon;
pub use parts::{Conflict, Parts, PartsRefusal, parts_of, valid_sets_of};
