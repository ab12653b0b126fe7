//! Why is an edit refused?

use std::alloc::AllocError;

/// Why an edit is refused. Where several reasons hold, the first of this list.
#[derive(Clone, Copy, Debug)]
pub enum EditRefusal {
    /// The places are not in order, or the second is past the end of the text.
    OutOfRange,
    /// The text after the edit would have more than 1,048,576 bytes.
    TooLong,
    /// Out of memory.
    NoMemory(AllocError),
}
