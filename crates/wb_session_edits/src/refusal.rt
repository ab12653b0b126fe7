//! Why are bytes no list of edits?

use std::alloc::AllocError;

/// Why a list of edits isn't read.
#[derive(Debug, Drop)]
pub enum EditsRefusal {
    /// At this place is the first byte that can't follow those before it in any list of edits, or the text ends there too early.
    Syntax(usize),
    NoMemory(AllocError),
}
