//! What is at a node of a tree?

/// A node of a tree: the number of its production, and how many children it has.
#[repr(C)]
#[derive(Clone, Copy, Debug, PartialEq, Eq)]
pub struct Node {
    pub production: usize,
    pub children: usize,
}

/// A child of a node: the node of this number, or a leaf.
#[derive(Clone, Copy, Debug, PartialEq, Eq)]
pub enum Child {
    Node(usize),
    Leaf,
}
