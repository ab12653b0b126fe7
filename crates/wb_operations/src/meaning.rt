//! What may an operation mean?
//!
//! Any function of its number and of plain values, which has no code: whoever calls an operation knows its answers by that alone.

ghost use Rattle.std.specs.Prelude.{ℕ, List};
ghost use Rattle.wb_values.specs.Tree.{Plain};
ghost use Rattle.wb_operations.specs.Given.{Given};

use std::alloc::AllocError;

/// What each operation number gives on each list of plain values, for contracts alone.
pub trait Meaning {
    ghost meaning: { ℕ → List Plain → Given };
}

/// Why an operation gives no value.
#[derive(Debug, Drop)]
pub enum OperationRefusal {
    /// The fault with this code, which is meant.
    Fault(u32),
    NoMemory(AllocError),
}
