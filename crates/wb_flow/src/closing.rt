//! Makes the set of each strongly connected component, of those vertices of a list that are reached from it.
//!
//! First a set has the vertices of its component alone. Then, in the order of components, it gets the members of those that edges lead to.

ghost use Rattle.std.specs.Prelude.{◌≡◌, ◌≢◌, ◌<◌, ℕ, All, Contains, IfOk, OnOk, length, replicate, false, slice_get, Some};
ghost use Rattle.std.specs.List.Sorted.{IsNonDecreasingBy};
ghost use Rattle.wb_flow.specs.declared.vertex.Vertex.{Vertex};
ghost use Rattle.wb_flow.specs.Adding.{Adds};
ghost use Rattle.wb_flow.specs.Inner.Closing.{AreEven, AreStarts, AddsStart, AreStepsOf, AreFalling, AreJoined, AreClosed, AreClosedOver};
ghost use Rattle.wb_flow.specs.ReachSets.{set_at, AreReachSets};
ghost use Rattle.wb_graph.specs.Components.{AreComponents};
ghost use Rattle.wb_graph.specs.Graphs.{Edge, IsEdgeBelow};

use crate::vertex_set::VertexSet;
use crate::{FlowGraph, Vertex};
use std::alloc::{AllocError, Global};
use wb_base::push;
use wb_graph::Components;
use wb_termset::TermSet;

// The sets of these components, of the numbers of `tops`.
pub(crate) fn sets_of(
    alloc: Global,
    graph: &FlowGraph,
    tops: &VertexSet,
    components: &Components,
) -> Result<Vec<TermSet>, AllocError>
    requires within { All (IsEdgeBelow (length graph.now.vertices)) graph.now.edges }
    requires components { AreComponents (length graph.now.vertices) graph.now.edges components.now }
    ensures { IfOk result (λ sets. AreReachSets graph.now.vertices tops.now graph.now.edges components.now sets.items) }
{
    let mut sets = starts_of(alloc, graph.vertices.as_slice(), tops, components)?;
    add_reached(alloc, graph.edges.as_slice(), components, &mut sets)?;
    Ok(sets)
}

// The sets with the vertices of their components.
fn starts_of(
    alloc: Global,
    vertices: &[Vertex],
    tops: &VertexSet,
    components: &Components,
) -> Result<Vec<TermSet>, AllocError>
    requires len { length components.now.numbers ≡ length vertices.now }
    requires below { (v n : ℕ) → slice_get components.now.numbers v ≡ Some n → n < length components.now.roots }
    ensures { IfOk result (λ sets. AreStarts vertices.now tops.now components.now sets.items) }
{
    let mut sets = empty_sets(alloc, components.len(), tops.len())?;
    'places: for place in 0..vertices.len() {
        add_start(&mut sets, tops, vertices[place], components.of(place));
    }
    Ok(sets)
}

// So many empty sets of numbers below a count.
fn empty_sets(alloc: Global, sets: usize, count: usize) -> Result<Vec<TermSet>, AllocError>
    ensures { IfOk result (λ made. made.items ≡ replicate sets (replicate count false)) }
{
    let mut made = Vec::with_capacity(alloc, sets)?;
    'sets: for _set in 0..sets {
        push(&mut made, TermSet::new(alloc, count)?)?;
    }
    Ok(made)
}

// Adds a vertex to the set of its component, where it is listed.
fn add_start(sets: &mut Vec<TermSet>, tops: &VertexSet, vertex: Vertex, component: usize)
    requires component { component < length sets.old.items }
    requires len { length (set_at sets.old.items component) ≡ length tops.now }
    ensures { AddsStart tops.now vertex component sets.old.items sets.new.items }
{
    let Some(number) = tops.find(vertex) else {
        return;
    };
    sets[component].insert(number);
}

// Adds to each set the members of those to which edges lead.
fn add_reached(
    alloc: Global,
    edges: &[(usize, usize)],
    components: &Components,
    sets: &mut Vec<TermSet>,
) -> Result<(), AllocError>
    requires edges { All (IsEdgeBelow (length components.now.numbers)) edges.now }
    requires components { AreComponents (length components.now.numbers) edges.now components.now }
    requires len { length sets.old.items ≡ length components.now.roots }
    requires even { AreEven sets.old.items }
    ensures { OnOk result (AreClosedOver edges.now components.now sets.old.items sets.new.items) }
{
    let steps = steps_of(alloc, edges, components)?;
    close(sets, &steps);
    Ok(())
}

// The steps of these edges from component to component, by where they lead from.
fn steps_of(
    alloc: Global,
    edges: &[(usize, usize)],
    components: &Components,
) -> Result<Vec<(usize, usize)>, AllocError>
    requires { All (IsEdgeBelow (length components.now.numbers)) edges.now }
    ensures { IfOk result (λ steps. AreStepsOf edges.now components.now steps.items) }
{
    let mut steps = Vec::new(alloc);
    'edges: for edge in edges {
        add_step(&mut steps, components.of(edge.0), components.of(edge.1))?;
    }
    steps.sort_unstable_by_key(|step| step.0);
    Ok(steps)
}

// Adds a step, where it leads to another component.
fn add_step(steps: &mut Vec<(usize, usize)>, from: usize, to: usize) -> Result<(), AllocError>
    ensures { OnOk result (Adds steps.old.items steps.new.items (λ step. (step ≡ (from, to)) × (from ≢ to))) }
{
    if from == to {
        return Ok(());
    }
    push(steps, (from, to))
}

// Adds to each set the members of those to which steps lead in a row. Each step leads to a set that has all of its own by then.
fn close(sets: &mut Vec<TermSet>, steps: &[(usize, usize)])
    requires even { AreEven sets.old.items }
    requires falls { AreFalling (length sets.old.items) steps.now }
    requires rising { IsNonDecreasingBy (λ (s : Edge). s.0) steps.now }
    ensures { AreClosed steps.now sets.old.items sets.new.items }
{
    'steps: for step in steps {
        join(sets, step.0, step.1);
    }
}

// Adds the members of a set to a later one.
fn join(sets: &mut Vec<TermSet>, to: usize, from: usize)
    requires to { to < length sets.old.items }
    requires from { from < to }
    requires len { length (set_at sets.old.items to) ≡ length (set_at sets.old.items from) }
    ensures { AreJoined to from sets.old.items sets.new.items }
{
    let (front, back) = sets.split_at_mut(to);
    back[0].union_with(&front[from]);
}
