//! What spreads along the edges of a graph? Vertices that lead to each other have one set, and each such group takes the sets of the groups
//! that it leads to.
//!
//! Groups are numbered so that edges lead to smaller numbers. So each is found once, after all that it leads to.

ghost use Rattle.std.specs.Prelude.{◌≡◌, ◌<◌, ℕ, All, IfOk, OnOk, length};
ghost use Rattle.wb_graph.specs.Components.{AreComponents};
ghost use Rattle.wb_graph.specs.Graphs.{IsEdgeBelow};
ghost use Rattle.wb_digraph.specs.Inner.Chains.{AreChained};
ghost use Rattle.wb_digraph.specs.Inner.Pools.{AreNumbers, Extends};
ghost use Rattle.wb_digraph.specs.Inner.Spreading.{AreFound, AreSpread, IsGraph, IsInGroup, LeavesGroup};

use crate::chains::Chains;
use crate::pool::Pool;
use crate::runs::{Graph, find_parts};
use std::alloc::{AllocError, Global};
use wb_base::push;
use wb_graph::{Components, strong_components};

// For each vertex the number of the set of what spreads to it, from the sets whose numbers vertices have.
pub(crate) fn spread(
    alloc: Global,
    edges: &[(usize, usize)],
    firsts: &[usize],
    pool: &mut Pool,
) -> Result<Vec<usize>, AllocError>
    requires edges { All (IsEdgeBelow (length firsts.now)) edges.now }
    requires firsts { AreNumbers pool.old firsts.now }
    ensures extends { OnOk result (Extends pool.old pool.new) }
    ensures spread { IfOk result (λ numbers. AreSpread edges.now firsts.now pool.old pool.new numbers.items) }
{
    let components = strong_components(alloc, firsts.len(), edges)?;
    spread_in(alloc, edges, firsts, &components, pool)
}

// The same in these groups.
fn spread_in(
    alloc: Global,
    edges: &[(usize, usize)],
    firsts: &[usize],
    components: &Components,
    pool: &mut Pool,
) -> Result<Vec<usize>, AllocError>
    requires edges { All (IsEdgeBelow (length firsts.now)) edges.now }
    requires firsts { AreNumbers pool.old firsts.now }
    requires components { AreComponents (length firsts.now) edges.now components.now }
    ensures extends { OnOk result (Extends pool.old pool.new) }
    ensures spread { IfOk result (λ numbers. AreSpread edges.now firsts.now pool.old pool.new numbers.items) }
{
    let vertices = vertex_chains(alloc, firsts.len(), components)?;
    spread_by(alloc, edges, firsts, components, &vertices, pool)
}

// The same with chains of each group's vertices.
fn spread_by(
    alloc: Global,
    edges: &[(usize, usize)],
    firsts: &[usize],
    components: &Components,
    vertices: &Chains,
    pool: &mut Pool,
) -> Result<Vec<usize>, AllocError>
    requires edges { All (IsEdgeBelow (length firsts.now)) edges.now }
    requires firsts { AreNumbers pool.old firsts.now }
    requires components { AreComponents (length firsts.now) edges.now components.now }
    requires vertices { AreChained (IsInGroup components.now.numbers) vertices.now.lasts.items vertices.now.earlier.items }
    requires vertices_len { length vertices.now.earlier.items ≡ length firsts.now }
    requires vertices_keys { length vertices.now.lasts.items ≡ length components.now.roots }
    ensures extends { OnOk result (Extends pool.old pool.new) }
    ensures spread { IfOk result (λ numbers. AreSpread edges.now firsts.now pool.old pool.new numbers.items) }
{
    let leaving = edge_chains(alloc, edges, components)?;
    let graph = Graph {
        edges,
        firsts,
        components,
        vertices,
        leaving: &leaving,
    };
    numbers_in(alloc, &graph, pool)
}

// The same in a graph with its groups.
fn numbers_in(alloc: Global, graph: &Graph, pool: &mut Pool) -> Result<Vec<usize>, AllocError>
    requires graph { IsGraph graph.now.edges.now graph.now.firsts.now graph.now.components.now graph.now.vertices.now.lasts.items graph.now.vertices.now.earlier.items graph.now.leaving.now.lasts.items graph.now.leaving.now.earlier.items }
    requires firsts { AreNumbers pool.old graph.now.firsts.now }
    ensures extends { OnOk result (Extends pool.old pool.new) }
    ensures spread { IfOk result (λ numbers. AreSpread graph.now.edges.now graph.now.firsts.now pool.old pool.new numbers.items) }
{
    let found = found_in(alloc, graph, pool)?;
    let mut numbers = Vec::with_capacity(alloc, graph.firsts.len())?;
    'vertices: for vertex in 0..graph.firsts.len() {
        push(&mut numbers, found[graph.components.of(vertex)])?;
    }
    Ok(numbers)
}

// For each group the number of its set.
fn found_in(alloc: Global, graph: &Graph, pool: &mut Pool) -> Result<Vec<usize>, AllocError>
    requires graph { IsGraph graph.now.edges.now graph.now.firsts.now graph.now.components.now graph.now.vertices.now.lasts.items graph.now.vertices.now.earlier.items graph.now.leaving.now.lasts.items graph.now.leaving.now.earlier.items }
    requires firsts { AreNumbers pool.old graph.now.firsts.now }
    ensures extends { OnOk result (Extends pool.old pool.new) }
    ensures len { IfOk result (λ found. length found.items ≡ length graph.now.components.now.roots) }
    ensures found { IfOk result (λ found. AreFound graph.now.edges.now graph.now.firsts.now graph.now.components.now.numbers pool.old pool.new found.items) }
{
    let mut found = Vec::with_capacity(alloc, graph.components.len())?;
    let mut parts = Vec::new(alloc);
    'groups: for group in 0..graph.components.len() {
        find_parts(graph, group, &found, &mut parts)?;
        push(&mut found, pool.union_of(alloc, &parts)?)?;
    }
    Ok(found)
}

// Chains of the vertices of each group.
fn vertex_chains(alloc: Global, count: usize, components: &Components) -> Result<Chains, AllocError>
    requires len { length components.now.numbers ≡ count }
    requires below { All (λ k. k < length components.now.roots) components.now.numbers }
    ensures chained { IfOk result (λ chains. AreChained (IsInGroup components.now.numbers) chains.lasts.items chains.earlier.items) }
    ensures len { IfOk result (λ chains. length chains.earlier.items ≡ count) }
    ensures keys { IfOk result (λ chains. length chains.lasts.items ≡ length components.now.roots) }
{
    let mut chains = Chains::new(alloc, components.len())?;
    'vertices: for vertex in 0..count {
        chains.push(components.of(vertex))?;
    }
    Ok(chains)
}

// Chains of the edges that leave each group.
fn edge_chains(
    alloc: Global,
    edges: &[(usize, usize)],
    components: &Components,
) -> Result<Chains, AllocError>
    requires edges { All (IsEdgeBelow (length components.now.numbers)) edges.now }
    requires below { All (λ k. k < length components.now.roots) components.now.numbers }
    ensures chained { IfOk result (λ chains. AreChained (LeavesGroup edges.now components.now.numbers) chains.lasts.items chains.earlier.items) }
    ensures len { IfOk result (λ chains. length chains.earlier.items ≡ length edges.now) }
    ensures keys { IfOk result (λ chains. length chains.lasts.items ≡ length components.now.roots) }
{
    let mut chains = Chains::new(alloc, components.len())?;
    'edges: for number in 0..edges.len() {
        chains.push(components.of(edges[number].0))?;
    }
    Ok(chains)
}
