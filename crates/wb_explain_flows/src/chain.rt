//! By which reads does one vertex of a flow graph need another?
//!
//! A shortest chain of edges is looked for by breadth-first search, without a promise; what was found is then tested, edge by edge.

ghost use Rattle.std.specs.Prelude.{◌≡◌, Contains, Some, slice_get, true};
ghost use Rattle.wb_explain_flows.specs.declared.chain.Step.{Step as Walked};
ghost use Rattle.wb_explain_flows.specs.Chains.{IsChain, IsNeeded};
ghost use Rattle.wb_flow.specs.Graphs.{IsFlowGraph, IsNeededBy};
ghost use Rattle.wb_syntax_resolved.specs.declared.attribution.AttributionParts.{AttributionParts};
ghost use Rattle.wb_syntax_resolved.specs.declared.production.Production.{Production as Row};

use std::alloc::{AllocError, Global};
use wb_base::push;
use wb_flow::{FlowGraph, Vertex};

// That one vertex needs another.
#[derive(Clone, Copy)]
pub(crate) struct Step {
    pub(crate) from: Vertex,
    pub(crate) to: Vertex,
}

// Whether the steps are a chain from one vertex to another in a flow graph.
pub(crate) fn is_chain(graph: &FlowGraph, steps: &[Step], from: Vertex, to: Vertex) -> bool
    ensures chain { result ≡ true → IsChain from to steps.now }
    ensures needed { result ≡ true → (a : AttributionParts) (p : Row) → IsFlowGraph a p graph.now → (step : Walked) → Contains steps.now step → IsNeeded a p step }
{
    let mut at = from;
    'steps: for step in steps {
        if !same(step.from, at) {
            return false;
        }
        if !is_edge(graph, step.from, step.to) {
            return false;
        }
        at = step.to;
    }
    same(at, to)
}

// Whether two vertices are one.
pub(crate) fn same(left: Vertex, right: Vertex) -> bool
    ensures { result ≡ true → left ≡ right }
{
    left == right
}

// Whether an edge leads from one vertex to another.
fn is_edge(graph: &FlowGraph, from: Vertex, to: Vertex) -> bool
    ensures { result ≡ true → (a : AttributionParts) (p : Row) → IsFlowGraph a p graph.now → IsNeededBy a p from to }
{
    let vertices = graph.vertices.as_slice();
    'edges: for edge in graph.edges.as_slice() {
        if is_between(vertices, edge, from, to) {
            return true;
        }
    }
    false
}

// Whether an edge is between these.
fn is_between(vertices: &[Vertex], edge: &(usize, usize), from: Vertex, to: Vertex) -> bool
    ensures { result ≡ true → (slice_get vertices.now edge.now.0 ≡ Some from) × (slice_get vertices.now edge.now.1 ≡ Some to) }
{
    if !is_at(vertices, edge.0, from) {
        return false;
    }
    is_at(vertices, edge.1, to)
}

// Whether this vertex is at a place.
fn is_at(vertices: &[Vertex], place: usize, vertex: Vertex) -> bool
    ensures { result ≡ true → slice_get vertices.now place ≡ Some vertex }
{
    if place < vertices.len() {
        return same(vertices[place], vertex);
    }
    false
}

// What is known of a search: by which edge each vertex was first reached, and in which pass, from 1 on.
struct Search {
    edges: Vec<usize>,
    passes: Vec<usize>,
}

impl Drop for Search {
    fn drop(self) {
        let Search { edges, passes } = self;
        drop(edges);
        drop(passes);
    }
}

// A chain of edges from one vertex to another, where there is one.
pub(crate) fn chain_of(
    alloc: Global,
    graph: &FlowGraph,
    from: Vertex,
    to: Vertex,
) -> Result<Vec<Step>, AllocError> {
    let mut steps = Vec::new(alloc);
    match push_chain(alloc, &mut steps, graph, from, to) {
        Ok(()) => Ok(steps),
        Err(error) => {
            drop(steps);
            Err(error)
        }
    }
}

// Adds its steps.
fn push_chain(
    alloc: Global,
    steps: &mut Vec<Step>,
    graph: &FlowGraph,
    from: Vertex,
    to: Vertex,
) -> Result<(), AllocError> {
    let vertices = graph.vertices.as_slice();
    let start = place_of(vertices, from);
    let end = place_of(vertices, to);
    let mut search = Search {
        edges: Vec::new(alloc),
        passes: Vec::new(alloc),
    };
    let answer = search_in(steps, graph, &mut search, start, end);
    drop(search);
    answer
}

// Searches, and adds the steps.
fn search_in(
    steps: &mut Vec<Step>,
    graph: &FlowGraph,
    search: &mut Search,
    start: usize,
    end: usize,
) -> Result<(), AllocError> {
    let count = graph.vertices.len();
    fill(&mut search.edges, count)?;
    fill(&mut search.passes, count)?;
    reach(search, graph.edges.as_slice(), start, end, count);
    push_back(steps, graph, search, end)?;
    steps.reverse();
    Ok(())
}

// As many zeros as there are vertices.
fn fill(list: &mut Vec<usize>, count: usize) -> Result<(), AllocError> {
    'places: for _ in 0..count {
        push(list, 0)?;
    }
    Ok(())
}

// The place of a vertex, or the count where it isn't there.
fn place_of(vertices: &[Vertex], vertex: Vertex) -> usize {
    'vertices: for place in 0..vertices.len() {
        if vertices[place] == vertex {
            return place;
        }
    }
    vertices.len()
}

// Goes over the edges once for each length of a chain, until the end is reached.
fn reach(search: &mut Search, edges: &[(usize, usize)], start: usize, end: usize, count: usize) {
    'passes: for pass in 0..count {
        if number_at(&search.passes, end) != 0 {
            return;
        }
        if !pass_over(search, edges, start, pass) {
            return;
        }
    }
}

// One pass: whether a vertex was reached by it.
fn pass_over(search: &mut Search, edges: &[(usize, usize)], start: usize, pass: usize) -> bool {
    let mut is_new = false;
    'edges: for number in 0..edges.len() {
        let (from, to) = edges[number];
        let leads = if pass == 0 {
            from == start
        } else {
            number_at(&search.passes, from) == pass
        };
        if leads && number_at(&search.passes, to) == 0 {
            put(&mut search.passes, to, pass.saturating_add(1));
            put(&mut search.edges, to, number);
            is_new = true;
        }
    }
    is_new
}

// The number at a place, and 0 beyond.
fn number_at(list: &[usize], place: usize) -> usize {
    if place < list.len() { list[place] } else { 0 }
}

// Puts a number at a place.
fn put(list: &mut Vec<usize>, place: usize, number: usize) {
    if place < list.len() {
        list[place] = number;
    }
}

// Adds the steps of the chain to the end, the last first.
fn push_back(
    steps: &mut Vec<Step>,
    graph: &FlowGraph,
    search: &Search,
    end: usize,
) -> Result<(), AllocError> {
    let mut at = end;
    'steps: for _ in 0..graph.vertices.len() {
        let pass = number_at(&search.passes, at);
        if pass == 0 {
            return Ok(());
        }
        let Some(edge) = edge_at(graph.edges.as_slice(), number_at(&search.edges, at)) else {
            return Ok(());
        };
        push_edge(steps, graph.vertices.as_slice(), edge)?;
        if pass == 1 {
            return Ok(());
        }
        at = edge.0;
    }
    Ok(())
}

// The edge of a number.
fn edge_at(edges: &[(usize, usize)], number: usize) -> Option<(usize, usize)> {
    if number < edges.len() {
        return Some(edges[number]);
    }
    None
}

// Adds an edge as a step.
fn push_edge(
    steps: &mut Vec<Step>,
    vertices: &[Vertex],
    edge: (usize, usize),
) -> Result<(), AllocError> {
    if edge.0 < vertices.len() && edge.1 < vertices.len() {
        return push(
            steps,
            Step {
                from: vertices[edge.0],
                to: vertices[edge.1],
            },
        );
    }
    Ok(())
}
