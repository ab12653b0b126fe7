//! Why are the attributes of a specification refused, by the contents of its files?
//!
//! The numbered value of the file is found once more; what is said of it is in `wb_explain_flows`.
#![tactic(auto)]

mod flow;
mod resolved;

pub use flow::push_flow;
