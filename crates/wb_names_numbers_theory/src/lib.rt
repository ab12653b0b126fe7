//! Which numbered value does a specification stand for?
//!
//! The definitions are in `specs/`: the number of a name, the numbers of one value in another, and the value that a host or an extension
//! resolves to. Each function is a law, whose body is empty. What computes the value is in `wb_names`.
#![tactic(auto)]

mod laws;

pub use laws::{carried_law, one_value_law, resolved_law};
