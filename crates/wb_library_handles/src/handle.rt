//! What names a value that is kept in a table?

/// A value of a table, by its place there, counted from 0, and by how many values had the place before it and were let go.
///
/// Once a value was let go, no other has its handle.
#[repr(C)]
#[derive(Clone, Copy, Debug, PartialEq, Eq)]
pub struct Handle {
    pub place: u32,
    pub generation: u32,
}
