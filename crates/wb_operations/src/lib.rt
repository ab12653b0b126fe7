//! Which operations are there, and what does one answer?
//!
//! What is meant is a `Meaning`, which has no code, so that what holds of an evaluation holds for every table. Values are in `wb_values`.
#![tactic(auto)]

pub mod arithmetic;
pub mod comparison;
mod meaning;
mod operation;
mod signatures;
mod standard;
mod table;
pub mod texts;

pub use arithmetic::{
    OUTSIDE, ZERO_DIVISOR, standard_add, standard_div, standard_mul, standard_neg, standard_rem,
    standard_sub,
};
pub use comparison::{
    standard_and, standard_eq, standard_less, standard_not, standard_or, standard_same,
};
pub use meaning::{Meaning, OperationRefusal};
pub use operation::Run;
pub use signatures::OperationSignatures;
pub use standard::{Standard, run_standard};
pub use table::{OperationTable, standard_table};
pub use texts::{
    LONGEST_TEXT, NO_NUMBER, TOO_LONG, standard_concat, standard_length, standard_to_int,
    standard_to_text,
};
