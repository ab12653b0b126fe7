//! What does an evaluation answer?
//!
//! A step is an instance that is needed, counted once. When each answer comes is in `specs/Evaluates`.

use wb_values::Value;

/// What an evaluation answers.
#[derive(Drop)]
pub enum Evaluated {
    /// The value, whose trees are in the store.
    Value(Value),
    /// The fault of an operation: its number in the table, and the code.
    Fault {
        /// The operation.
        operation: usize,
        /// Its code.
        code: u32,
    },
    /// More instances are needed than there are steps.
    MoreSteps,
}
