//! Which inherited attributes of the top do the vertices of a flow graph reach?
//!
//! Vertices of one strongly connected component reach the same, so each component has one set. A set has the members of those that edges
//! lead to, which are made before it: the time is about linear in the graph, for each word of a set.

ghost use Rattle.std.specs.Prelude.{◌≡◌, ◌<◌, ◌↔◌, ℕ, Some, All, IfOk, IfSome, IfNone, OnOk, Contains, length, slice_get};
ghost use Rattle.wb_flow.specs.declared.vertex.Vertex.{Vertex};
ghost use Rattle.wb_flow.specs.Adding.{Adds};
ghost use Rattle.wb_flow.specs.Inner.Closing.{IsOutsideAt};
ghost use Rattle.wb_flow.specs.ReachSets.{set_at};
ghost use Rattle.wb_flow.specs.Tops.{AddsSelected, HasSet, IsBeyond, IsTop, IsSelection, KnowsTops};
ghost use Rattle.wb_graph.specs.Graphs.{IsEdgeBelow};

use crate::closing::sets_of;
use crate::vertex_set::VertexSet;
use crate::{FlowGraph, Scope, Vertex};
use std::alloc::{AllocError, Global};
use wb_graph::{Components, strong_components};
use wb_termset::TermSet;

/// The inherited attributes of the top that the vertices of a flow graph reach.
pub struct TopReach {
    /// Those attributes, by number.
    pub tops: VertexSet,
    /// The strongly connected components of the graph.
    pub components: Components,
    /// The numbers of those attributes that the vertices of each component reach.
    pub sets: Vec<TermSet>,
}

impl Drop for TopReach {
    fn drop(self) {
        let TopReach {
            tops,
            components,
            sets,
        } = self;
        drop(tops);
        drop(components);
        drop(sets);
    }
}

impl TopReach {
    /// Those of this graph.
    ///
    /// The time is about linear in the graph, for each 64 inherited attributes of the top; no clause bounds it.
    pub fn new(alloc: Global, scope: &Scope, graph: &FlowGraph) -> Result<TopReach, AllocError>
        requires { All (IsEdgeBelow (length graph.now.vertices)) graph.now.edges }
        ensures { IfOk result (KnowsTops scope.now.attributes.now graph.now) }
    {
        let vertices = graph.vertices.as_slice();
        let edges = graph.edges.as_slice();
        let tops = tops_of(alloc, scope, vertices)?;
        let components = strong_components(alloc, vertices.len(), edges)?;
        let sets = sets_of(alloc, graph, &tops, &components)?;
        Ok(TopReach {
            tops,
            components,
            sets,
        })
    }

    /// The set of the inherited attributes of the top that are listed.
    pub fn selection(&self, alloc: Global, listed: &[usize]) -> Result<TermSet, AllocError>
        ensures { IfOk result (IsSelection self.now (Contains listed.now)) }
    {
        let mut set = TermSet::new(alloc, self.tops.len())?;
        'listed: for &attribute in listed {
            self.select(&mut set, attribute);
        }
        Ok(set)
    }

    /// Adds an inherited attribute of the top to a set of such, where it is one.
    pub fn select(&self, set: &mut TermSet, attribute: usize)
        requires { length set.old ≡ length self.now.tops }
        ensures { AddsSelected self.now attribute set.old set.new }
    {
        let Some(number) = self.tops.find(Vertex::Top(attribute)) else {
            return;
        };
        set.insert(number);
    }

    /// An inherited attribute of the top that the vertex at this place reaches and that the set hasn't.
    ///
    /// Where the set has all, the time is about linear in the words of a set; no clause bounds it.
    pub fn first_outside(&self, place: usize, allowed: &TermSet) -> Option<usize>
        requires place { HasSet self.now place }
        requires allowed { length allowed.now ≡ length self.now.tops }
        ensures some { IfSome result (IsBeyond self.now place allowed.now) }
        ensures none { IfNone result ((i : ℕ) → ¬ IsBeyond self.now place allowed.now i) }
    {
        let set = self.set_of(place);
        if set.is_subset(allowed) {
            return None;
        }
        'numbers: for number in 0..self.tops.len() {
            let found = outside_at(self.tops.as_slice(), set, allowed, number);
            if found.is_some() {
                return found;
            }
        }
        None
    }

    // The set of the vertex at a place.
    fn set_of(&self, place: usize) -> &TermSet
        requires { HasSet self.now place }
        ensures at { (c : ℕ) → slice_get self.now.components.numbers place ≡ Some c → result.now ≡ set_at self.now.sets.items c }
        ensures len { length result.now ≡ length self.now.tops }
    {
        &self.sets[self.components.of(place)]
    }
}

// The attribute of a number that a set has and the other hasn't.
fn outside_at(tops: &[Vertex], set: &TermSet, allowed: &TermSet, number: usize) -> Option<usize>
    requires number { number < length tops.now }
    requires len { length set.now ≡ length tops.now }
    requires allowed { length allowed.now ≡ length tops.now }
    ensures some { IfSome result (IsOutsideAt tops.now set.now allowed.now number) }
    ensures none { IfNone result ((i : ℕ) → ¬ IsOutsideAt tops.now set.now allowed.now number i) }
{
    let Vertex::Top(attribute) = tops[number] else {
        return None;
    };
    if !set.contains(number) {
        return None;
    }
    if allowed.contains(number) {
        return None;
    }
    Some(attribute)
}

// The inherited attributes of the top among these vertices.
fn tops_of(alloc: Global, scope: &Scope, vertices: &[Vertex]) -> Result<VertexSet, AllocError>
    ensures { IfOk result (λ tops. (vertex : Vertex) → Contains tops vertex ↔ (Contains vertices.now vertex × IsTop scope.now.attributes.now vertex)) }
{
    let mut tops = VertexSet::new(alloc);
    'vertices: for &vertex in vertices {
        add_top(&mut tops, scope, vertex)?;
    }
    Ok(tops)
}

// Adds a vertex, where it is an inherited attribute of the top.
fn add_top(tops: &mut VertexSet, scope: &Scope, vertex: Vertex) -> Result<(), AllocError>
    ensures { OnOk result (Adds tops.old tops.new (λ added. (added ≡ vertex) × IsTop scope.now.attributes.now added)) }
{
    let Vertex::Top(attribute) = vertex else {
        return Ok(());
    };
    if !scope.is_inherited(attribute) {
        return Ok(());
    }
    tops.add(vertex)
}
