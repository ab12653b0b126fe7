//! The automaton of several regular expressions with a start for each set of them, which texts they share, and the least text of one.
//!
//! The automaton is Glushkov's position automaton, made deterministic by the subset construction from the start of each set, with a table
//! of moves that has a column for each class of bytes that no expression tells apart. What expressions share is found over pairs of their
//! places instead: there are no more of them than the product of the sizes, where states may double with each position.
#![tactic(auto)]

mod automaton;
mod bytes;
mod chains;
mod common_texts;
mod explore;
mod flat_rows;
mod groups;
mod least;
mod met;
mod moves;
mod plain_text;
mod predecessor;
mod shared;
mod states;
mod steps;
mod stuck;
mod text;
mod walk;
mod ways;

pub use automaton::Automaton;
pub use common_texts::{overlap, shared_text, sharing};
pub use least::least_text;
pub use plain_text::only_text;
pub use shared::{Overlap, SharedText};
