//! What is said of an expression of another kind than is wanted, or of a call with another number of arguments: which part it is, where it is,
//! which kind is wanted there, and what makes the one of the other.
//!
//! Whether a specification is refused so is found by `wb_types`. How files are read, and what their names stand for, is elsewhere.
#![tactic(auto)]

mod arity;
mod context;
mod expected;
mod kinds;
mod layout;
mod mismatch;
mod names;
mod place;
mod rest;
mod said;
mod search;
mod step;
mod steps;
mod wrong;

pub use mismatch::push_mismatch;
