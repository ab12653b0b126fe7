//! Demand-driven evaluation of attribute grammars with forwarding: the value or the fault of an attribute of a root, within a number of
//! steps.
//!
//! Where it ends without a value, the instances that wait are answered by a second call, which does the same work.
//!
//! What is answered is in `wb_eval_theory`: this crate's clauses cite its relations, and never a memo or a stack.
#![tactic(auto)]

mod answering;
mod context;
mod evaluated;
mod evaluation;
mod expression;
mod frame;
mod halt;
mod halting;
mod machine;
mod perform;
mod ran;
mod run;
mod start;
mod steps;
mod visit;

pub use answering::evaluate;
pub use evaluated::Evaluated;
pub use halt::{Halt, Waiting};
pub use halting::waiting_instances;
pub use machine::Key;
