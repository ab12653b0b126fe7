//! What is a conflict about? Two derivation trees of one text, where such a text is found, or of two texts that begin alike.
//!
//! Trees are searched for without any promise, by the conflict's two actions; what is found is read once more, and only what is a
//! derivation tree of the grammar is answered. Names, and which conflict is meant, are no matter of this crate.
#![tactic(auto)]

mod automaton;
mod completion;
mod conflict;
mod first;
mod found;
mod least;
mod piece;
mod pieces;
mod prefix;
mod search;
mod stacks;
mod symbols;
mod text;
mod tree;

pub use conflict::{Conflict, Turn, readings};
pub use found::Found;
pub use piece::Piece;
