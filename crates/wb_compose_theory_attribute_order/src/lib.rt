//! Attributes in other numbers, as those of a host with the same extensions in two orders are: what is asked at the root of a tree has the
//! same value or fault, and needs as many instances.
//!
//! The definitions are in `specs/`. Each function is a law, whose body is empty.
#![tactic(auto)]

pub mod laws;
