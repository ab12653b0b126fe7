//! Where are the tokens of a specification, and of which kind is each?
//!
//! What the tokens mean is no matter of this crate, and neither is whether the text is a specification.
#![tactic(auto)]

mod tokens;

pub use tokens::{TokenPlace, dialect_of, tokens_of};
