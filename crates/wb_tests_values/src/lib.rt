//! Tests of values, operations, resolved specifications and their kinds. Each public call is tested with ample memory.
//!
//! Tests of the libraries below these are in `wb_tests_library`. Nothing depends on this crate.
#![tactic(auto)]

#[cfg(test)]
mod operation_tables;
#[cfg(test)]
mod operations;
#[cfg(test)]
mod trees_in_place;
#[cfg(test)]
mod types;
#[cfg(test)]
mod values;

#[cfg(test)]
use std::alloc::AllocError;

// Whether memory sufficed for a check, and it holds.
#[cfg(test)]
fn holds(answer: Result<bool, AllocError>) -> bool {
    matches!(answer, Ok(true))
}
