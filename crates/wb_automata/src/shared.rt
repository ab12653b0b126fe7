//! What the walks over pairs of places answer.

use wb_base::Bytes;

/// Whether two expressions match a common text.
#[derive(Debug, Drop)]
pub enum Overlap {
    /// Both match this text, and no text before it, by length and then by bytes.
    Both(Bytes),
    /// No text matches both.
    Disjoint,
}

/// Two expressions of a list, by their places in it, and the least text that both match.
#[derive(Debug, Drop)]
pub struct SharedText {
    pub left: usize,
    pub right: usize,
    pub text: Bytes,
}
