//! The LALR(1) lookaheads of a grammar's items, found by relations between the items of kernels.
//!
//! Items that take each other's lookaheads share one set (DeRemer and Pennello). Kernels and the answer's type are in `wb_items`, the words
//! in `wb_grammar_theory`.
#![tactic(auto)]

mod bases;
mod chains;
mod context;
mod digraph;
mod fill;
mod firsts;
pub mod laws;
mod links;
mod numbers;
mod pool;
mod reads;
mod runs;
mod spread;
mod tails;

pub use digraph::digraph_lookaheads;
