//! Is this text in a grammar, with which values, or where is its first error?
//!
//! A predictive parser with one token of lookahead, an LL(1) parser, that keeps a stack and doesn't
//! recurse. A format gives a `Table`: its tokens, the right sides of its nonterminals with actions
//! between their symbols, and for each nonterminal what decides between its right sides. `read_all`
//! is proved once for every table whose test computes to true: a text is accepted exactly where the
//! grammar derives its tokens, with exactly the values that the grammar gives, and any other text is
//! stopped at the first thing that can't follow what is before it. `nested` is a small table, whole.
//! Lemmas for the crates above are in `proofs/CallerLemmas.antt`.
#![tactic(auto)]

mod choice;
mod machine;
pub mod nested;
mod reading;
mod symbol;
mod table;

pub use reading::{Outcome, read_all};
pub use symbol::{Rule, Symbol};
pub use table::{Next, Placed, Table};
