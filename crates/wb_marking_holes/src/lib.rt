//! Grammars with holes: what a host's grammar is for every extension at once.
//!
//! A hole is a terminal that matches no text. It takes the place of the markers by which extensions may begin a construct of a
//! nonterminal, so that a host is tested once for all extensions that may come.
#![tactic(auto)]

mod holes;
mod laws;

pub use holes::with_holes;
pub use laws::holes_law;
