//! What does a group of vertices take together? The sets of its vertices, and those of the groups to which edges lead from it.
//!
//! A number is listed once where it comes several times one after the other.

ghost use Rattle.std.specs.Prelude.{◌≡◌, ◌<◌, ◌⊎◌, ◌↔◌, ℕ, [], Contains, OnOk, length};
ghost use Rattle.wb_digraph.specs.Inner.Spreading.{AreParts, ComesFrom, IsFirstAt, IsFoundAt, IsGraph, LeavesGroup};

use crate::chains::Chains;
use std::alloc::AllocError;
use wb_base::push;
use wb_graph::Components;

// A graph with its groups: its edges, the number of each vertex' first set, and chains of the vertices and of the edges of each group.
#[derive(Clone, Copy)]
pub(crate) struct Graph<'a> {
    pub(crate) edges: &'a [(usize, usize)],
    pub(crate) firsts: &'a [usize],
    pub(crate) components: &'a Components,
    pub(crate) vertices: &'a Chains,
    pub(crate) leaving: &'a Chains,
}

// The numbers that a group takes, in the place of those that were there.
pub(crate) fn find_parts(
    graph: &Graph,
    group: usize,
    found: &[usize],
    parts: &mut Vec<usize>,
) -> Result<(), AllocError>
    requires graph { IsGraph graph.now.edges.now graph.now.firsts.now graph.now.components.now graph.now.vertices.now.lasts.items graph.now.vertices.now.earlier.items graph.now.leaving.now.lasts.items graph.now.leaving.now.earlier.items }
    requires group { group < length graph.now.components.now.roots }
    requires found { length found.now ≡ group }
    ensures { OnOk result (AreParts graph.now.edges.now graph.now.components.now.numbers graph.now.firsts.now found.now group parts.new.items) }
{
    parts.clear();
    add_firsts(graph, group, parts)?;
    add_found(graph, group, found, parts)?;
    Ok(())
}

// Adds those of the vertices.
fn add_firsts(graph: &Graph, group: usize, parts: &mut Vec<usize>) -> Result<(), AllocError>
    requires graph { IsGraph graph.now.edges.now graph.now.firsts.now graph.now.components.now graph.now.vertices.now.lasts.items graph.now.vertices.now.earlier.items graph.now.leaving.now.lasts.items graph.now.leaving.now.earlier.items }
    requires group { group < length graph.now.components.now.roots }
    ensures { OnOk result ((n : ℕ) → Contains parts.new.items n ↔ (Contains parts.old.items n ⊎ ComesFrom (IsFirstAt graph.now.firsts.now graph.now.components.now.numbers group) 0 n)) }
{
    let mut place = graph.vertices.lasts[group];
    'vertices: while place > 0 {
        let vertex = place - 1;
        add(parts, graph.firsts[vertex])?;
        place = graph.vertices.earlier[vertex];
    }
    Ok(())
}

// Adds those of the groups to which edges lead.
fn add_found(
    graph: &Graph,
    group: usize,
    found: &[usize],
    parts: &mut Vec<usize>,
) -> Result<(), AllocError>
    requires graph { IsGraph graph.now.edges.now graph.now.firsts.now graph.now.components.now graph.now.vertices.now.lasts.items graph.now.vertices.now.earlier.items graph.now.leaving.now.lasts.items graph.now.leaving.now.earlier.items }
    requires group { group < length graph.now.components.now.roots }
    requires found { length found.now ≡ group }
    ensures { OnOk result ((n : ℕ) → Contains parts.new.items n ↔ (Contains parts.old.items n ⊎ ComesFrom (IsFoundAt graph.now.edges.now graph.now.components.now.numbers found.now group) 0 n)) }
{
    let mut place = graph.leaving.lasts[group];
    'edges: while place > 0 {
        let edge = place - 1;
        add_target(graph, group, found, edge, parts)?;
        place = graph.leaving.earlier[edge];
    }
    Ok(())
}

// Adds that of the group to which an edge leads, if it is another.
fn add_target(
    graph: &Graph,
    group: usize,
    found: &[usize],
    edge: usize,
    parts: &mut Vec<usize>,
) -> Result<(), AllocError>
    requires graph { IsGraph graph.now.edges.now graph.now.firsts.now graph.now.components.now graph.now.vertices.now.lasts.items graph.now.vertices.now.earlier.items graph.now.leaving.now.lasts.items graph.now.leaving.now.earlier.items }
    requires found { length found.now ≡ group }
    requires leaves { LeavesGroup graph.now.edges.now graph.now.components.now.numbers edge group }
    ensures { OnOk result ((n : ℕ) → Contains parts.new.items n ↔ (Contains parts.old.items n ⊎ IsFoundAt graph.now.edges.now graph.now.components.now.numbers found.now group edge n)) }
{
    let target = graph.components.of(graph.edges[edge].1);
    if target >= group {
        return Ok(());
    }
    add(parts, found[target])?;
    Ok(())
}

// Adds a number, if it isn't the last one.
fn add(parts: &mut Vec<usize>, number: usize) -> Result<(), AllocError>
    ensures { OnOk result ((n : ℕ) → Contains parts.new.items n ↔ (Contains parts.old.items n ⊎ (n ≡ number))) }
{
    let count = parts.len();
    if count > 0 && parts[count - 1] == number {
        return Ok(());
    }
    push(parts, number)
}
