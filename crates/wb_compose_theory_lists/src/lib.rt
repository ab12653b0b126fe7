//! The attributes of a host and its extensions as lists in the numbers of their union: the host's rows, and then those of each extension.
//!
//! With its host an extension's attribution is the host's rows with what it adds. The definitions are in `specs/`. Each function is a law,
//! whose body is empty.
#![tactic(auto)]

pub mod laws;
