//! The attributes of a host and its extensions in the numbers of their union: what was tested of the host, and of each extension with the
//! host alone, in numbers of its own, holds in the union's.
//!
//! The definitions are in `specs/`. Each function is a law, whose body is empty. Those of one world are in `wb_compose_theory_worlds`.
#![tactic(auto)]

pub mod laws;
