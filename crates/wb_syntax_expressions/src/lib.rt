//! What is an expression, whatever stands for its names?
//!
//! Written specifications have names there and resolved ones have numbers, and both keep an expression as one list of nodes. So its
//! trees, their nodes and the walk over them are defined and proved here once. What an expression means lies elsewhere.
#![tactic(auto)]

mod laws;
mod node;

pub use laws::whole_law;
pub use node::Node;
