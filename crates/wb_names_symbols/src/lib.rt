//! The symbols that a file has on its base, in the order of their numbers: rows of terminals and nonterminals, the names of all sorts by
//! number, the new numbers of a base's, and which items write on a production.
//!
//! Which value a file stands for is in `wb_names_numbers_theory/specs`, and which name rule fails in `wb_names_theory/specs`; productions
//! and the rest, which read these numbers, are in `wb_names`.
#![tactic(auto)]

mod forwards;
pub mod joined;
pub mod lent;
mod named;
pub mod names;
mod nonterminals;
mod said;
pub mod symbols;
mod tables;
pub mod writers;
