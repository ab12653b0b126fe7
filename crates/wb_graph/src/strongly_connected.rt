//! The strongly connected components of a graph, numbered so that edges lead to smaller numbers or stay.
//!
//! With them 'is on a cycle' is a comparison of two numbers. The search is in `groups`.
ghost use Rattle.std.specs.Prelude.{◌≡◌, ◌<◌, ◌↔◌, [], All, IfOk, IsTrue, None, length, slice_get, Some};
ghost use Rattle.wb_graph.specs.Components.{ComponentsView, AreComponents};
ghost use Rattle.wb_graph.specs.Graphs.{IsEdgeBelow};
ghost use Rattle.wb_graph.specs.Inner.Groups.{state_of, IsGrouping, IsClosedMark, AreNumbers};

use crate::groups::{Groups, Mark};
use std::alloc::{AllocError, Global};
use std::marker::Model;
use std::mem::replace;

/// The strongly connected components of a graph: a number for each vertex, from 0 to below `len()`.
///
/// Two vertices have one number exactly where walks lead both ways, and an edge leads to the same number or a smaller one.
pub struct Components {
    // The number of each vertex.
    numbers: Vec<usize>,
    // The first vertex met of each component.
    roots: Vec<usize>,
}

impl Model for Components {
    ghost use Rattle.wb_graph.specs.Components.{ComponentsView};

    ghost Value = { ComponentsView };

    ghost view = { λ c. record { numbers = c.numbers.items; roots = c.roots.items } };
}

impl Components {
    /// How many components there are.
    pub fn len(&self) -> usize
        ensures { result ≡ length self.now.roots }
    {
        self.roots.len()
    }

    /// Whether there is no component, so that there is no vertex.
    pub fn is_empty(&self) -> bool
        ensures { IsTrue result ↔ (self.now.roots ≡ []) }
    {
        self.roots.is_empty()
    }

    /// The number of a vertex' component.
    pub fn of(&self, vertex: usize) -> usize
        requires { vertex < length self.now.numbers }
        ensures { slice_get self.now.numbers vertex ≡ Some result }
    {
        self.numbers[vertex]
    }

    /// A vertex of a component.
    pub fn root(&self, component: usize) -> usize
        requires { component < length self.now.roots }
        ensures { slice_get self.now.roots component ≡ Some result }
    {
        self.roots[component]
    }
}

impl Drop for Components {
    fn drop(self) {
        let Components { numbers, roots } = self;
        drop(numbers);
        drop(roots);
    }
}

/// The strongly connected components of the vertices from 0 to below the count.
///
/// An edge `(u, v)` leads from u to v. The time is linear in vertices and edges; no clause bounds it.
pub fn strong_components(
    alloc: Global,
    count: usize,
    edges: &[(usize, usize)],
) -> Result<Components, AllocError>
    requires { All (IsEdgeBelow count) edges.now }
    ensures { IfOk result (AreComponents count edges.now) }
{
    let mut groups = Groups::new(alloc, count, edges)?;
    components_by(alloc, count, edges, &mut groups)
}

// Like `strong_components`, by a search that has met no vertex.
fn components_by(
    alloc: Global,
    count: usize,
    edges: &[(usize, usize)],
    groups: &mut Groups,
) -> Result<Components, AllocError>
    requires grouping { IsGrouping edges.now None (state_of groups.old) }
    requires len { length groups.old.marks.items ≡ count }
    requires path { groups.old.path.items ≡ [] }
    ensures { IfOk result (AreComponents count edges.now) }
{
    'roots: for root in 0..count {
        groups.visit(edges, root)?;
    }
    let numbers = numbers_of(alloc, &groups.marks)?;
    let roots = replace(&mut groups.roots, Vec::new(alloc));
    Ok(Components { numbers, roots })
}

// The numbers of vertices that are all closed.
fn numbers_of(alloc: Global, marks: &[Mark]) -> Result<Vec<usize>, AllocError>
    requires { All IsClosedMark marks.now }
    ensures { IfOk result (λ numbers. AreNumbers numbers.items marks.now) }
{
    let mut numbers = Vec::new(alloc);
    'marks: for mark in marks {
        match mark {
            Mark::Closed(number) => numbers.push(*number)?,
            Mark::New | Mark::Open(_) => unreachable!(),
        }
    }
    Ok(numbers)
}
