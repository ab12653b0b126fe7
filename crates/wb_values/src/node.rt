//! What is kept of a node?
//!
//! A child that ends directly before the next one, or before the node, lies in place, and takes no more than its own 16 bytes.

// A node of a store. Each number has 32 bits.
#[derive(Clone, Copy)]
pub(crate) struct Node {
    pub production: u32,
    // How many nodes its tree takes in place: itself, and those of its children that lie in place.
    pub size: u32,
    // Where the cells of its other children end, the last of which comes first.
    pub end: u32,
    // Which children lie in place: a binary digit for each, the lowest for the last.
    pub inner: u32,
}
