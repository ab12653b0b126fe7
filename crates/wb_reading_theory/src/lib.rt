//! The host reading: where no marker is matched in a text, it has in a language that extends another the tree, the stop and the attributes
//! that it has in the other; and the language of a host with extensions extends the host's.
//!
//! The definitions are in `specs/`. Each function is a law, whose body is empty.
#![tactic(auto)]

pub mod laws;
