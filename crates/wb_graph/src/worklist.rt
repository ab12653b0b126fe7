//! What walks reach, by a worklist: edges are taken one by one from the vertices on it.

ghost use Rattle.std.specs.Prelude.{◌≡◌, ◌<◌, All, length, slice_index_or, false, None, IfOk, OnOk};
ghost use Rattle.wb_graph.specs.Graphs.{IsEdgeBelow, AreReached};
ghost use Rattle.wb_graph.specs.Inner.Worklist.{worklist_of, marked, IsReaching, IsWorklist, AdvancesTo};

use crate::edge_lists::EdgeLists;
use std::alloc::{AllocError, Global};

/// For each vertex from 0 to below the count, whether a walk of zero or more edges leads to it from a vertex of `from`.
///
/// A vertex may be in `from` several times.
pub fn reachable_from(
    alloc: Global,
    count: usize,
    edges: &[(usize, usize)],
    from: &[usize],
) -> Result<Vec<bool>, AllocError>
    requires edges { All (IsEdgeBelow count) edges.now }
    requires from { All (λ v. v < count) from.now }
    ensures { IfOk result (λ flags. AreReached count edges.now from.now flags.items) }
{
    let mut worklist = Worklist {
        untaken: EdgeLists::new(alloc, count, edges)?,
        reached: vec![in alloc; false; count]?,
        waiting: Vec::new(alloc),
    };
    worklist.reach(edges, from)?;
    Ok(worklist.reached)
}

// The vertices reached so far, and those of them of which edges may be left.
#[derive(Drop)]
struct Worklist {
    untaken: EdgeLists,
    reached: Vec<bool>,
    waiting: Vec<usize>,
}

impl Worklist {
    // Reaches what walks from these vertices reach.
    fn reach(&mut self, edges: &[(usize, usize)], from: &[usize]) -> Result<(), AllocError>
        requires from { All (λ v. v < length self.old.reached.items) from.now }
        requires reaching { IsReaching (length self.old.reached.items) edges.now from.now (worklist_of self.old) }
        ensures { OnOk result (AreReached (length self.old.reached.items) edges.now from.now self.new.reached.items) }
    {
        'starts: for &start in from {
            self.mark(start)?;
        }
        'steps: while !self.waiting.is_empty() {
            self.advance(edges)?;
        }
        Ok(())
    }

    // Takes one edge of the vertex that waits last, or lets it wait no more.
    fn advance(&mut self, edges: &[(usize, usize)]) -> Result<(), AllocError>
        requires waiting { 0 < length self.old.waiting.items }
        requires worklist { IsWorklist edges.now None (worklist_of self.old) }
        ensures { OnOk result (AdvancesTo edges.now (worklist_of self.old) (worklist_of self.new)) }
    {
        let vertex = self.waiting[self.waiting.len() - 1];
        if let Some(target) = self.untaken.take(edges, vertex) {
            self.mark(target)?;
            return Ok(());
        }
        self.waiting.pop();
        Ok(())
    }

    // Reaches a vertex, which then waits if it is new.
    fn mark(&mut self, vertex: usize) -> Result<(), AllocError>
        requires { vertex < length self.old.reached.items }
        ensures { OnOk result (worklist_of self.new ≡ marked (worklist_of self.old) vertex (slice_index_or self.old.reached.items vertex false)) }
    {
        if self.reached[vertex] {
            return Ok(());
        }
        self.waiting.push(vertex)?;
        self.reached[vertex] = true;
        Ok(())
    }
}
