//! Where in a text does a leaf of its tree lie?

/// Where a leaf lies in its text. Places are counted in bytes, from 0.
#[derive(Clone, Copy, Debug, PartialEq, Eq)]
pub struct LeafPlace {
    /// Its terminal.
    pub terminal: usize,
    /// The place of its first byte, which is the first of the prefix where its form has one.
    pub begin: usize,
    /// The place of its lexeme, which is after that prefix.
    pub lexeme: usize,
    /// The place after its last byte.
    pub end: usize,
}
