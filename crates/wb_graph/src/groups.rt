//! A path-based search for strongly connected components, without recursion (Cheriyan, Mehlhorn; Gabow).
//!
//! Open vertices are in groups that lie on a path; an edge back joins groups, and a group whose edges are all taken is a component.
ghost use Rattle.std.specs.Prelude.{◌≡◌, ◌<◌, ◌≤◌, ◌-◌, ℕ, [], All, None, length, slice_get, take, IfOk, OnOk, Some};
ghost use Rattle.wb_graph.specs.Graphs.{IsEdgeBelow};
ghost use Rattle.wb_graph.specs.Inner.Groups.{state_of, entered, IsGrouping, Advances, Visits, AreKept, Closes, ClosesGroup, Leaves};

use crate::edge_lists::EdgeLists;
use std::alloc::{AllocError, Global};

// How far a search is with a vertex: not met, at a place among the open vertices, or in a component.
#[derive(Clone, Copy)]
pub(crate) enum Mark {
    New,
    Open(usize),
    Closed(usize),
}

// A search that has closed some components and is at the last vertex of its path.
#[derive(Drop)]
pub(crate) struct Groups {
    untaken: EdgeLists,
    // How far it is with each vertex.
    pub(crate) marks: Vec<Mark>,
    // The open vertices, in the order in which they were met.
    opened: Vec<usize>,
    // The places among them at which groups begin.
    starts: Vec<usize>,
    // The open vertices of which edges may be left, each with an edge to the next.
    path: Vec<usize>,
    // A vertex of each component that is closed, in the order of closing.
    pub(crate) roots: Vec<usize>,
}

impl Groups {
    // A search that has met no vertex.
    pub(crate) fn new(
        alloc: Global,
        count: usize,
        edges: &[(usize, usize)],
    ) -> Result<Groups, AllocError>
        requires { All (IsEdgeBelow count) edges.now }
        ensures grouping { IfOk result (λ made. IsGrouping edges.now None (state_of made)) }
        ensures len { IfOk result (λ made. length made.marks.items ≡ count) }
        ensures path { IfOk result (λ made. made.path.items ≡ []) }
    {
        let untaken = EdgeLists::new(alloc, count, edges)?;
        let marks = vec![in alloc; Mark::New; count]?;
        Ok(Groups {
            untaken,
            marks,
            opened: Vec::new(alloc),
            starts: Vec::new(alloc),
            path: Vec::new(alloc),
            roots: Vec::new(alloc),
        })
    }

    // Closes the root and every vertex that it leads to.
    pub(crate) fn visit(&mut self, edges: &[(usize, usize)], root: usize) -> Result<(), AllocError>
        requires root { root < length self.old.marks.items }
        requires grouping { IsGrouping edges.now None (state_of self.old) }
        requires path { self.old.path.items ≡ [] }
        ensures { OnOk result (Visits edges.now root (state_of self.old) (state_of self.new)) }
    {
        if let Mark::New = self.marks[root] {
            self.enter(root)?;
            'path: while !self.path.is_empty() {
                self.advance(edges)?;
            }
        }
        Ok(())
    }

    // Takes one edge of the path's last vertex, or leaves that vertex.
    fn advance(&mut self, edges: &[(usize, usize)]) -> Result<(), AllocError>
        requires path { 0 < length self.old.path.items }
        requires grouping { IsGrouping edges.now None (state_of self.old) }
        ensures { OnOk result (Advances edges.now (state_of self.old) (state_of self.new)) }
    {
        let vertex = self.path[self.path.len() - 1];
        let Some(target) = self.untaken.take(edges, vertex) else {
            self.leave(vertex)?;
            return Ok(());
        };
        match self.marks[target] {
            Mark::New => {
                self.enter(target)?;
                Ok(())
            }
            Mark::Open(place) => {
                let kept = kept_starts(&self.starts, place);
                self.starts.truncate(kept);
                Ok(())
            }
            Mark::Closed(_) => Ok(()),
        }
    }

    // Puts a vertex on the path, in a group of its own.
    fn enter(&mut self, vertex: usize) -> Result<(), AllocError>
        requires { vertex < length self.old.marks.items }
        ensures { OnOk result (state_of self.new ≡ entered (state_of self.old) vertex) }
    {
        let place = self.opened.len();
        self.opened.push(vertex)?;
        self.starts.push(place)?;
        self.path.push(vertex)?;
        self.marks[vertex] = Mark::Open(place);
        Ok(())
    }

    // Takes the last vertex off the path, and closes its group where that begins with it.
    fn leave(&mut self, vertex: usize) -> Result<(), AllocError>
        requires path { slice_get self.old.path.items (length self.old.path.items - 1) ≡ Some vertex }
        requires starts { 0 < length self.old.starts.items }
        requires within { All (λ p. p < length self.old.opened.items) self.old.starts.items }
        requires marks { All (λ v. v < length self.old.marks.items) self.old.opened.items }
        ensures { OnOk result (Leaves vertex (state_of self.old) (state_of self.new)) }
    {
        self.path.pop();
        let start = self.starts[self.starts.len() - 1];
        if self.opened[start] == vertex {
            self.close(start)?;
        }
        Ok(())
    }

    // Closes the last group, which begins at this place.
    fn close(&mut self, start: usize) -> Result<(), AllocError>
        requires last { slice_get self.old.starts.items (length self.old.starts.items - 1) ≡ Some start }
        requires within { start < length self.old.opened.items }
        requires marks { All (λ v. v < length self.old.marks.items) self.old.opened.items }
        ensures { OnOk result (ClosesGroup start (state_of self.old) (state_of self.new)) }
    {
        let number = self.roots.len();
        self.roots.push(self.opened[start])?;
        close_all(&mut self.marks, &self.opened[start..], number);
        self.opened.truncate(start);
        self.starts.pop();
        Ok(())
    }
}

// How many starts are at most the place: since they rise, those before the first greater one.
fn kept_starts(starts: &[usize], place: usize) -> usize
    requires { (p q m n : ℕ) → m < n → slice_get starts.now m ≡ Some p → slice_get starts.now n ≡ Some q → p < q }
    ensures { AreKept starts.now place result }
{
    let mut kept = starts.len();
    'starts: while kept > 0 {
        if starts[kept - 1] <= place {
            return kept;
        }
        kept -= 1;
    }
    kept
}

// Closes these vertices with this number.
fn close_all(marks: &mut [Mark], vertices: &[usize], number: usize)
    requires { All (λ v. v < length marks.old) vertices.now }
    ensures { Closes vertices.now number marks.old marks.new }
{
    'vertices: for &vertex in vertices {
        marks[vertex] = Mark::Closed(number);
    }
}
