//! Grammars of a host and its extensions in one world of names: what of the host, and of each extension with the host alone, holds of the
//! union of all.
//!
//! The definitions are in `specs/`. Each function is a law, whose body is empty. What holds of one grammar is in `wb_grammar_theory`.
#![tactic(auto)]

pub mod laws;
