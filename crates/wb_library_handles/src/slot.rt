//! What is at one place of a table?

/// A place of a table: how many values were let go there, whether that was the last one that the place can have, and the value that is there.
#[derive(Drop)]
pub struct Slot<T: Drop> {
    pub generation: u32,
    pub is_spent: bool,
    pub value: Option<T>,
}
