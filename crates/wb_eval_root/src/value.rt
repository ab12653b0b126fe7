//! What comes of an attribute at the root of a tree?

use wb_base::Bytes;

/// What comes of an attribute at the root of a tree within so many steps, as a report shows it.
#[derive(Drop)]
pub enum TreeValue {
    /// It has a value, which is printed so.
    Value(Bytes),
    /// It has a value whose printed text is longer than 16,777,216 bytes.
    TooLong,
    /// It has no value, since the operation of this name fails with this code.
    Fault { operation: Bytes, code: u32 },
    /// More instances are needed than there are steps.
    MoreSteps,
}
