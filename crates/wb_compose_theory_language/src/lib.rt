//! How the union of a host and its extensions is written: forms, withdrawn markers, and that one form wins at each place of a text.
//!
//! The definitions are in `specs/`. Each function is a law, whose body is empty. What holds of the union's grammar is in
//! `wb_compose_theory_grammar`.
#![tactic(auto)]

pub mod laws;
