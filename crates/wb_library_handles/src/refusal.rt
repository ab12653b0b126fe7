//! Why is a value not added to a table?

use std::alloc::AllocError;

/// Why a value isn't added to a table.
#[derive(Clone, Copy, Debug)]
pub enum AddRefusal {
    /// The table has 65,536 places, and each of them is taken or had 4,294,967,295 values.
    Full,
    /// Out of memory.
    NoMemory(AllocError),
}
