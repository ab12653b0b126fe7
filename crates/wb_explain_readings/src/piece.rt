//! How is a derivation tree written in one line?

/// A part of a derivation tree as it is written: a production and an opening bracket, a terminal, or a closing bracket.
#[derive(Clone, Copy, PartialEq, Eq)]
pub enum Piece {
    /// A node of this production; its children follow, and a closing bracket.
    Open(usize),
    /// A leaf of this terminal.
    Leaf(usize),
    /// The end of the innermost node.
    Close,
}
