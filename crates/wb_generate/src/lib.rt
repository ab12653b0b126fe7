//! A text of a grammar, made from a number: which one is fixed by the number and by how many leaves it may have.
//!
//! From the start on, the leftmost nonterminal is replaced by the right side of a production that the number chooses, as long as few
//! enough leaves come of it. Each leaf is then written as the least text of its expression.
#![tactic(auto)]

mod choices;
mod choose;
mod counts;
mod draw;
mod generated;
mod groups;
pub mod laws;
mod make;
mod sentence;
mod texts;
mod totals;

pub use generated::Generated;
pub use sentence::generate;
