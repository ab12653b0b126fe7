//! The union of a host's grammar and its extensions, in numbers: what of the host, and of each extension with the host alone, holds of it.
//!
//! The definitions are in `specs/`. Each function is a law, whose body is empty. What holds in one world of names is in
//! `wb_compose_theory`.
#![tactic(auto)]

pub mod laws;
