//! Languages in other numbers, as unions of a host with the same extensions in two orders are: a text has the same tree and the same stop.
//!
//! The definitions are in `specs/`. Each function is a law, whose body is empty.
#![tactic(auto)]

pub mod laws;
