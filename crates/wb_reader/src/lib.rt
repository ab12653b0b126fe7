//! Reads bytes as a specification, or says why they aren't one.
//!
//! A table decides by one token of lookahead, so nothing recurses; regular expressions are read after all else. What is read so far is
//! in `wb_reader_builder`, what a specification is in `wb_syntax`.
#![tactic(auto)]

mod expected;
mod expression_rules;
mod first_fault;
mod format;
mod item_rules;
mod laws;
mod part;
mod part_rules;
mod patterns;
mod refusal;
mod spec;
mod table;
mod written;

pub use expected::expected_kinds;
pub use first_fault::first_fault_law;
pub use laws::one_answer_law;
pub use refusal::SpecRefusal;
pub use spec::read_spec;
pub use wb_reader_printer::print_spec;
