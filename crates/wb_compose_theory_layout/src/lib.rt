//! Where a kernel of a union holds an item of an extension: what is valid there, and that it holds none of another extension.
//!
//! What an extension says of the text around its own terminals, as layout, holds where a kernel has an item of its own.
//! The definitions are in `specs/`. Each function is a law, whose body is empty.
#![tactic(auto)]

pub mod laws;
