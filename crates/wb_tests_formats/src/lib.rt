//! Tests of the readers and printers of the formats, and of files in memory.
//!
//! Tests of the program are in `wb_tests`. Nothing depends on this crate.
#![tactic(auto)]

#[cfg(test)]
mod expected;
#[cfg(test)]
mod predictive;
#[cfg(test)]
mod printer;
#[cfg(test)]
mod reader;
#[cfg(test)]
mod recheck_text;
#[cfg(test)]
mod terms;
#[cfg(test)]
mod tokens;
#[cfg(test)]
mod world;
