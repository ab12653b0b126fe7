//! Why are bytes no text of a certificate?

use std::alloc::AllocError;

/// Why a text isn't read.
#[derive(Debug, Drop)]
pub enum TextRefusal {
    /// At this place is the first byte that can't follow those before it in any certificate, or the text ends there too early.
    Syntax(usize),
    NoMemory(AllocError),
}
