//! Tests of grammars: their analysis, kernels, lookaheads and tables. Each public call is tested with ample memory.
//!
//! Tests are in crates of their own, since a crate with tests is proved twice. Nothing depends on this crate.
#![tactic(auto)]

#[cfg(test)]
mod grammar;
#[cfg(test)]
mod items;
#[cfg(test)]
mod items_rows;
#[cfg(test)]
mod items_sets;
#[cfg(test)]
mod lookahead;
#[cfg(test)]
mod lookahead_canonical;
#[cfg(test)]
mod lookahead_conflicts;
#[cfg(test)]
mod lookahead_random;
#[cfg(test)]
mod lookahead_relations;
#[cfg(test)]
mod lookahead_tables;
#[cfg(test)]
mod parts;
#[cfg(test)]
mod small;
