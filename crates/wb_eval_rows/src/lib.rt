//! Numbers by row and column, as the evaluation of attributes keeps them.
//!
//! What was not written is 0. All is found by number in constant time, and takes the memory of what was written, and 16 bytes for each row
//! up to the last that was.
#![tactic(auto)]

mod rows;
mod sparse;

pub use rows::Rows;
pub use sparse::SparseRows;
