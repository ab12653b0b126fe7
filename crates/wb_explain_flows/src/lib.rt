//! Why are the attributes of a specification not well defined, by its own equations?
//!
//! What is missing, from `wb_explain_flows_lists`; the reads that lead to an attribute that isn't in a flow type, or round in a circle, each
//! with the place of its equation; and the declaration to change. The rules are defined in `wb_flow_theory`.
#![tactic(auto)]

mod chain;
mod needs;
mod reads;
mod rule;
mod said;
mod steps;

pub use said::push_value;
