//! Attribute grammars with forwarding: the flow graph of a production, and when attributes are well defined.
//!
//! The definitions are in `specs/`, and speak of resolved attributions. Each function is a law, whose body is empty. What computes by
//! these definitions is in `wb_flow` and the crates above it.
#![tactic(auto)]

pub mod laws;
