//! The kernels, moves and lookaheads of a union, from those of the grammars that are certified apart: the host with holes, and with each
//! extension.
//!
//! The definitions are in `specs/`. Each function is a law, whose body is empty. What holds in one world of names is in
//! `wb_compose_theory`.
#![tactic(auto)]

pub mod laws;
