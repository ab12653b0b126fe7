//! Name resolution: the numbered value that a specification stands for, where each of its names is right.
//!
//! The rows of each sort are made in `wb_names_rows`, and those of terminals and nonterminals get their order in `wb_names_symbols`; here
//! the others do. Which value a file stands for is in `wb_names_numbers_theory/specs`, and which name rule fails in
//! `wb_names_theory/specs`.
#![tactic(auto)]

mod empty;
mod numbered;
mod production;
mod productions;
mod resolve;
mod rest;
mod rows;

pub use resolve::{resolve_extension, resolve_host};
