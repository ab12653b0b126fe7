//! The attributes of a host and its extensions in one world of names: when those of the host, of the host with an extension, and of the
//! union of all are well defined.
//!
//! The definitions are in `specs/`. Each function is a law, whose body is empty. Those of one attribution are in `wb_flow_theory`.
#![tactic(auto)]

pub mod laws;
