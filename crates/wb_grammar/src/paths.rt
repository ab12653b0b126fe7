//! Which path leads from one vertex of a graph to another? It is found by going back from its end, so it has no vertex twice.
//!
//! Used once a refusal is certain; whether there is a path is tested by `reachable_from`.

ghost use Rattle.std.specs.Prelude.{◌≡◌, ◌≢◌, ◌↔◌, ◌<◌, ◌≤◌, ◌∷◌, [], ℕ, List, false, All, Some, length, IfOk, OnOk, MatchOption, IsTrue, slice_get, slice_index};
ghost use Rattle.wb_graph.specs.Graphs.{Edge, IsEdge, IsEdgeBelow, IsReached};
ghost use Rattle.wb_grammar.specs.Inner.Paths.{IsPathTo, IsTrail, IsBackClosed};

use std::alloc::{AllocError, Global};
use wb_base::push;
use wb_graph::reachable_from;

// A path from a vertex to another, if there is one: both are in it, the one first and the other last.
//
// The walks are tested first, in linear time; the search goes over all edges as often as the path is long at most.
pub(crate) fn path(
    alloc: Global,
    count: usize,
    edges: &[(usize, usize)],
    from: usize,
    to: usize,
) -> Result<Option<Vec<usize>>, AllocError>
    requires edges { All (IsEdgeBelow count) edges.now }
    requires from { from < count }
    requires to { to < count }
    ensures { IfOk result (λ found. MatchOption found (¬ IsReached edges.now (from ∷ []) to) (λ path. IsPathTo edges.now from path.items to)) }
{
    if !leads(alloc, count, edges, from, to)? {
        return Ok(None);
    }
    let mut places = vec![in alloc; 0; count]?;
    let trail = trail_to(alloc, edges, to, &mut places)?;
    path_by(alloc, &places, &trail, from)
}

// The trail that goes back from a vertex, and for each vertex that was met one more than the place of its link, else 0.
fn trail_to(
    alloc: Global,
    edges: &[(usize, usize)],
    to: usize,
    places: &mut Vec<usize>,
) -> Result<Vec<(usize, usize)>, AllocError>
    requires edges { All (IsEdgeBelow (length places.old.items)) edges.now }
    requires to { to < length places.old.items }
    requires none { (v : ℕ) → slice_index places.old.items v ≡ 0 }
    ensures len { OnOk result (length places.new.items ≡ length places.old.items) }
    ensures trail { IfOk result (λ trail. IsTrail edges.now to places.new.items trail.items) }
    ensures closed { OnOk result (IsBackClosed edges.now places.new.items) }
{
    let mut trail = Vec::new(alloc);
    push(&mut trail, (to, 0))?;
    places[to] = 1;
    'sweeps: while sweep(edges, places, &mut trail)? {}
    Ok(trail)
}

// The path from a vertex by the trail, if the vertex was met.
fn path_by(
    alloc: Global,
    places: &[usize],
    trail: &[(usize, usize)],
    from: usize,
) -> Result<Option<Vec<usize>>, AllocError>
    requires from { from < length places.now }
    requires trail { (edges : List Edge) × (to : ℕ) × IsTrail edges to places.now trail.now }
    ensures { IfOk result (λ found. (edges : List Edge) (to : ℕ) → IsTrail edges to places.now trail.now → IsBackClosed edges places.now → MatchOption found (¬ IsReached edges (from ∷ []) to) (λ path. IsPathTo edges from path.items to)) }
{
    if places[from] == 0 {
        return Ok(None);
    }
    let back = walk_back(alloc, trail, places[from] - 1)?;
    Ok(Some(back))
}

// Whether a walk leads from a vertex to another.
fn leads(
    alloc: Global,
    count: usize,
    edges: &[(usize, usize)],
    from: usize,
    to: usize,
) -> Result<bool, AllocError>
    requires edges { All (IsEdgeBelow count) edges.now }
    requires from { from < count }
    requires to { to < count }
    ensures { IfOk result (λ leads. IsTrue leads ↔ IsReached edges.now (from ∷ []) to) }
{
    let start = [from];
    let reached = reachable_from(alloc, count, edges, &start)?;
    Ok(reached[to])
}

// Goes over the edges once, and answers whether a vertex was met.
fn sweep(
    edges: &[(usize, usize)],
    places: &mut Vec<usize>,
    trail: &mut Vec<(usize, usize)>,
) -> Result<bool, AllocError>
    requires edges { All (IsEdgeBelow (length places.old.items)) edges.now }
    ensures len { OnOk result (length places.new.items ≡ length places.old.items) }
    ensures trail { OnOk result ((to : ℕ) → IsTrail edges.now to places.old.items trail.old.items → IsTrail edges.now to places.new.items trail.new.items) }
    ensures grew { IfOk result (λ grew. IsTrue grew → length trail.old.items < length trail.new.items) }
    ensures closed { IfOk result (λ grew. grew ≡ false → IsBackClosed edges.now places.new.items) }
{
    let mut grew = false;
    'edges: for &(above, below) in edges {
        if extend(edges, above, below, places, trail)? {
            grew = true;
        }
    }
    Ok(grew)
}

// Meets the vertex that an edge leaves, where the edge's end has been met, and answers whether it is new.
fn extend(
    edges: &[(usize, usize)],
    above: usize,
    below: usize,
    places: &mut Vec<usize>,
    trail: &mut Vec<(usize, usize)>,
) -> Result<bool, AllocError>
    requires edge { IsEdge edges.now above below }
    requires above { above < length places.old.items }
    requires below { below < length places.old.items }
    ensures len { OnOk result (length places.new.items ≡ length places.old.items) }
    ensures trail { OnOk result ((to : ℕ) → IsTrail edges.now to places.old.items trail.old.items → IsTrail edges.now to places.new.items trail.new.items) }
    ensures grew { IfOk result (λ grew. IsTrue grew → length trail.old.items < length trail.new.items) }
    ensures keeps { OnOk result (length trail.old.items ≤ length trail.new.items) }
    ensures stayed { IfOk result (λ grew. grew ≡ false → places.new.items ≡ places.old.items) }
    ensures closed { IfOk result (λ grew. grew ≡ false → 0 < slice_index places.new.items below → 0 < slice_index places.new.items above) }
{
    if places[below] == 0 {
        return Ok(false);
    }
    if places[above] != 0 {
        return Ok(false);
    }
    push(trail, (above, places[below] - 1))?;
    places[above] = trail.len();
    Ok(true)
}

// The vertices from a link of a trail on, back to where the trail began.
fn walk_back(
    alloc: Global,
    trail: &[(usize, usize)],
    place: usize,
) -> Result<Vec<usize>, AllocError>
    requires place { place < length trail.now }
    requires lower { (i : ℕ) (link : ℕ × ℕ) → slice_get trail.now i ≡ Some link → i ≢ 0 → link.1 < i }
    ensures { IfOk result (λ path. (edges : List Edge) (to : ℕ) (places : List ℕ) (link : ℕ × ℕ) → IsTrail edges to places trail.now → slice_get trail.now place ≡ Some link → IsPathTo edges link.0 path.items to) }
{
    let mut path = Vec::new(alloc);
    let mut at = place;
    push(&mut path, trail[at].0)?;
    'back: while at != 0 {
        at = trail[at].1;
        push(&mut path, trail[at].0)?;
    }
    Ok(path)
}
