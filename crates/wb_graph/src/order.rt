//! A topological order of a graph, or a cycle, which rules every order out.

ghost use Rattle.std.specs.Prelude.{◌≡◌, ℕ, [], All, Contains, IfOk, Some, length, slice_get, drop};
ghost use Rattle.wb_graph.specs.Graphs.{IsEdgeBelow};
ghost use Rattle.wb_graph.specs.Orders.{IsAnswer, ExcludesOther};
ghost use Rattle.wb_graph.specs.Inner.Search.{state_of, IsSearch};

use crate::search::Search;
use std::alloc::{AllocError, Global};
use std::mem::replace;

/// What `order_of` answers.
#[derive(Debug, Drop)]
pub enum Order {
    /// Every vertex once, each after the ends of its edges.
    Sorted(Vec<usize>),
    /// The vertices of a cycle, each once: an edge leads from each to the next, and from the last to the first.
    Cycle(Vec<usize>),
}

/// A topological order of the vertices from 0 to below the count, or a cycle where there is one.
///
/// An edge `(u, v)` leads from u to v, so v comes before u. Which of several orders or cycles is answered is left open.
pub fn order_of(alloc: Global, count: usize, edges: &[(usize, usize)]) -> Result<Order, AllocError>
    requires { All (IsEdgeBelow count) edges.now }
    ensures ok { IfOk result (IsAnswer count edges.now) }
    ensures exact { IfOk result (ExcludesOther count edges.now) }
{
    let mut search = Search::new(alloc, count, edges)?;
    order_by(alloc, count, edges, &mut search)
}

// Like `order_of`, by a search that has met no vertex.
fn order_by(
    alloc: Global,
    count: usize,
    edges: &[(usize, usize)],
    search: &mut Search,
) -> Result<Order, AllocError>
    requires edges { All (IsEdgeBelow count) edges.now }
    requires search { IsSearch edges.now [] (state_of search.old) }
    requires path { search.old.path.items ≡ [] }
    requires len { length search.old.colours.items ≡ count }
    ensures ok { IfOk result (IsAnswer count edges.now) }
    ensures exact { IfOk result (ExcludesOther count edges.now) }
{
    'roots: for root in 0..count {
        if let Some(vertex) = search.visit(edges, root)? {
            return Ok(Order::Cycle(cycle_from(alloc, &search.path, vertex)?));
        }
    }
    Ok(Order::Sorted(replace(&mut search.finished, Vec::new(alloc))))
}

// The path from the vertex on.
fn cycle_from(alloc: Global, path: &[usize], vertex: usize) -> Result<Vec<usize>, AllocError>
    requires { Contains path.now vertex }
    ensures { IfOk result (λ cycle. (i : ℕ) × (slice_get path.now i ≡ Some vertex) × (cycle.items ≡ drop i path.now)) }
{
    let mut start = 0;
    'places: while path[start] != vertex {
        start += 1;
    }
    path[start..].to_vec(alloc)
}
