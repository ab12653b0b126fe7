//! The rows of a numbered value, one sort after the other: those of a base in other numbers, and those that a file writes.
//!
//! Which value a file stands for is in `wb_names_numbers_theory/specs`, and which name rule fails in `wb_names_theory/specs`; the call that
//! puts rows together is in `wb_names`.
#![tactic(auto)]

pub mod base;
pub mod body;
pub mod child;
mod equation;
pub mod grammar;
pub mod grammar_names;
pub mod in_grammar;
pub mod index;
mod labels;
mod local;
pub mod moves;
mod node;
pub mod plains;
pub mod row;
pub mod scope;
pub mod signatures;
pub mod terminals;
