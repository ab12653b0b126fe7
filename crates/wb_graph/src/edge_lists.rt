//! The edges that are not yet taken, in a chain for each vertex, from its last edge to its first.
//!
//! Chains take two lists of numbers and one pass over the edges. Both the search and the worklist take each edge once, so each is linear.

ghost use Rattle.std.specs.Prelude.{◌≡◌, ◌<◌, All, length, slice_index, sum, IfOk, IfSome, IfNone};
ghost use Rattle.wb_graph.specs.Graphs.{IsEdgeBelow};
ghost use Rattle.wb_graph.specs.Inner.Taking.{IsLinked, NothingTaken, Takes};

use std::alloc::{AllocError, Global};

// For each vertex one more than the number of its last edge that is not taken, or 0; and for each edge the same of the edges before it that
// leave its vertex.
#[derive(Drop)]
pub(crate) struct EdgeLists {
    pub(crate) firsts: Vec<usize>,
    pub(crate) links: Vec<usize>,
}

impl EdgeLists {
    // The chains of all edges, of which none is taken.
    pub(crate) fn new(
        alloc: Global,
        count: usize,
        edges: &[(usize, usize)],
    ) -> Result<EdgeLists, AllocError>
        requires { All (IsEdgeBelow count) edges.now }
        ensures linked { IfOk result (λ made. IsLinked edges.now made.firsts.items made.links.items) }
        ensures len { IfOk result (λ made. length made.firsts.items ≡ count) }
        ensures nothing { IfOk result (λ made. NothingTaken edges.now made.firsts.items) }
    {
        let mut firsts = vec![in alloc; 0; count]?;
        let mut links = Vec::new(alloc);
        for (number, edge) in edges.iter().enumerate() {
            links.push(firsts[edge.0])?;
            firsts[edge.0] = number + 1;
        }
        Ok(EdgeLists { firsts, links })
    }

    // Takes an edge that leaves the vertex, if one is left, and answers where it leads to.
    pub(crate) fn take(&mut self, edges: &[(usize, usize)], vertex: usize) -> Option<usize>
        requires vertex { vertex < length self.old.firsts.items }
        requires linked { IsLinked edges.now self.old.firsts.items self.old.links.items }
        ensures linked { IsLinked edges.now self.new.firsts.items self.new.links.items }
        ensures len { length self.new.firsts.items ≡ length self.old.firsts.items }
        ensures some { IfSome result (Takes edges.now self.old.firsts.items self.new.firsts.items vertex) }
        ensures none { IfNone result ((slice_index self.old.firsts.items vertex ≡ 0) × (self.new.firsts.items ≡ self.old.firsts.items)) }
    {
        let first = self.firsts[vertex];
        if first == 0 {
            return None;
        }
        self.firsts[vertex] = self.links[first - 1];
        Some(edges[first - 1].1)
    }
}
