//! What is a flow graph made of?
//!
//! What its vertices and edges mean is in `specs/Vertices` and `specs/Graphs`.

use wb_base::Sequence;

/// What a production defines or reads: an attribute by its number, or the tree that an expression makes.
#[derive(Clone, Copy, PartialEq, Eq, Hash)]
pub enum Vertex {
    /// An attribute of the production's top.
    Top(usize),
    /// An attribute of a child: the child's number from 0 on, and the attribute's.
    Child(usize, usize),
    /// An attribute of a local: the local's number from 0 on, and the attribute's.
    Local(usize, usize),
    /// An attribute of the forwarded tree.
    Forward(usize),
    /// The tree of the local of this number.
    LocalTree(usize),
    /// The forwarded tree.
    ForwardTree,
}

/// The flow graph of a production.
pub struct FlowGraph {
    /// The vertices, each once, in any order.
    pub vertices: Sequence<Vertex>,
    /// The edges, by the positions of vertices: the first needs the second. An edge may be there several times.
    pub edges: Sequence<(usize, usize)>,
}

impl Drop for FlowGraph {
    fn drop(self) {
        let FlowGraph { vertices, edges } = self;
        drop(vertices);
        drop(edges);
    }
}
