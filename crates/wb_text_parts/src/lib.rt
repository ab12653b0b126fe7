//! Parts of a text that is read byte by byte: words and numbers, and where the text first goes wrong.
//!
//! Each call answers what comes after the part, or the text from the first byte on with which no such part goes on. So who reads whole
//! lines can report the first byte that is wrong. What lines are is no matter of this crate.
#![tactic(auto)]

mod numbers;
mod words;

pub use numbers::number;
pub use words::{begins, first, rest, word};
