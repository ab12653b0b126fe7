//! Are topological orders, cycles, reachable vertices and strongly connected components right?
ghost use Rattle.std.specs.Prelude.{All, length};
ghost use Rattle.wb_graph.specs.Graphs.{IsEdgeBelow};

use crate::holds;
use std::alloc::{AllocError, Global};
use wb_graph::{Order, order_of, reachable_from, strong_components};

// Whether the graph has a cycle of this number of vertices, with 0 among them or not.
fn has_cycle(
    alloc: Global,
    count: usize,
    edges: &[(usize, usize)],
    len: usize,
    through_0: bool,
) -> Result<bool, AllocError>
    requires { All (IsEdgeBelow count) edges.now }
{
    match order_of(alloc, count, edges)? {
        Order::Sorted(_) => Ok(false),
        Order::Cycle(list) => Ok(list.len() == len && list.contains(&0) == through_0),
    }
}

// Whether the graph has no cycle, and its vertices have this order.
fn has_order(
    alloc: Global,
    count: usize,
    edges: &[(usize, usize)],
    order: &[usize],
) -> Result<bool, AllocError>
    requires { All (IsEdgeBelow count) edges.now }
{
    match order_of(alloc, count, edges)? {
        Order::Sorted(list) => Ok(list.as_slice() == order),
        Order::Cycle(_) => Ok(false),
    }
}

// Whether these are the numbers of the vertices' components.
fn has_numbers(
    alloc: Global,
    edges: &[(usize, usize)],
    numbers: &[usize],
) -> Result<bool, AllocError>
    requires { All (IsEdgeBelow (length numbers.now)) edges.now }
{
    let components = strong_components(alloc, numbers.len(), edges)?;
    for (vertex, number) in numbers.iter().enumerate() {
        if components.of(vertex) != *number {
            return Ok(false);
        }
    }
    Ok(true)
}

// Whether there is this number of components, each with a vertex that has its number.
fn has_roots(
    alloc: Global,
    count: usize,
    edges: &[(usize, usize)],
    len: usize,
) -> Result<bool, AllocError>
    requires { All (IsEdgeBelow count) edges.now }
{
    let components = strong_components(alloc, count, edges)?;
    for component in 0..components.len() {
        let vertex = components.root(component);
        if vertex >= count || components.of(vertex) != component {
            return Ok(false);
        }
    }
    Ok(components.len() == len)
}

#[test]
fn vertices_come_after_the_ends_of_their_edges(rt: HostRuntime) {
    assert!(rt; holds(has_order(rt.alloc(), 2, &[(0, 1)], &[1, 0])));
}

#[test]
fn a_cycle_is_shown_without_what_leads_to_it(rt: HostRuntime) {
    assert!(rt; holds(has_cycle(rt.alloc(), 1, &[(0, 0)], 1, true)));
    assert!(rt; holds(has_cycle(rt.alloc(), 4, &[(0, 1), (1, 2), (2, 3), (3, 1)], 3, false)));
}

// Whether these, and not 2, are reachable from 0 over the edge to 1.
fn reaches_the_first_two(alloc: Global) -> Result<bool, AllocError> {
    let reached = reachable_from(alloc, 3, &[(0, 1)], &[0])?;
    Ok(reached.as_slice() == [true, true, false].as_slice())
}

#[test]
fn a_walk_reaches_its_start_and_its_end(rt: HostRuntime) {
    assert!(rt; holds(reaches_the_first_two(rt.alloc())));
}

#[test]
fn components_are_numbered_so_that_edges_fall(rt: HostRuntime) {
    let edges = [(0, 1), (1, 2), (2, 0), (2, 3), (3, 4), (4, 3)];
    assert!(rt; holds(has_numbers(rt.alloc(), &edges, &[1, 1, 1, 0, 0])));
}

#[test]
fn each_component_has_a_vertex_of_its_number(rt: HostRuntime) {
    assert!(rt; holds(has_roots(rt.alloc(), 3, &[(0, 1), (1, 0), (1, 2)], 2)));
}

#[test]
fn no_vertices_have_no_component(rt: HostRuntime) {
    assert!(rt; holds(has_roots(rt.alloc(), 0, &[], 0)));
}

#[test]
fn one_edge_back_makes_one_component(rt: HostRuntime) {
    let edges = [(0, 1), (1, 2), (2, 3), (3, 1), (3, 0)];
    assert!(rt; holds(has_numbers(rt.alloc(), &edges, &[0, 0, 0, 0])));
}
