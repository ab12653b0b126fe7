//! Whether a grammar is fit for parsing, and if so, which nonterminals derive the empty text and which terminals begin what each derives.
//!
//! A grammar is refused where it isn't reduced, has a unit cycle, or has hidden left recursion, in this order and with an example.
//! The layers above rely on it: their loops end because there are no such cycles. What the words mean is in `wb_grammar_theory`.
#![tactic(auto)]

mod analysis;
mod edges;
mod facts;
mod first;
mod first_sets;
mod hidden_left_recursion;
mod least_fixpoint;
mod neighbours;
mod occurrence;
mod order;
mod paths;
mod reduced;
mod refusal;
mod unit_cycles;

pub use analysis::{analyse, refusals_law};
pub use facts::Facts;
pub use refusal::{GrammarRefusal, Reason};
