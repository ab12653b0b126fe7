//! Tests of bytes, lists, graphs, sets of terminals, regular expressions and automata. Each public call is tested with ample memory.
//!
//! Tests are in crates of their own, since a crate with tests is proved twice. Nothing depends on this crate.
#![tactic(auto)]

#[cfg(test)]
mod automata;
#[cfg(test)]
mod base;
#[cfg(test)]
mod common_texts;
#[cfg(test)]
mod graph;
#[cfg(test)]
mod lexical;
#[cfg(test)]
mod lists;
#[cfg(test)]
mod regex;
#[cfg(test)]
mod termset;

// Whether a check could be made, and holds.
#[cfg(test)]
fn holds<E: Drop>(answer: Result<bool, E>) -> bool {
    matches!(answer, Ok(true))
}
