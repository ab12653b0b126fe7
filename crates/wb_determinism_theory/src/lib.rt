//! What of a host with an extension is known from the host alone, and what the extension adds: kernels, lookaheads, conflicts and clashes.
//!
//! By these laws an extension can be certified at the cost of what it adds. The definitions are in `specs/`. Each function is a law, whose
//! body is empty.
#![tactic(auto)]

pub mod laws;
