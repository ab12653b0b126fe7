//! A depth-first search without recursion: its path is a list, and edges are taken from the path's last vertex one by one.

ghost use Rattle.std.specs.Prelude.{◌≡◌, ◌<◌, ◌-◌, ◌++◌, ◌∷◌, ℕ, [], All, Contains, length, slice_get, slice_set, IfOk, IfSome, IfNone, OnOk};
ghost use Rattle.wb_graph.specs.Graphs.{IsEdgeBelow};
ghost use Rattle.wb_graph.specs.Inner.Search.{state_of, IsSearch, Advances, Visits, ClosesPath};

use crate::edge_lists::EdgeLists;
use std::alloc::{AllocError, Global};

// How far a search has come with a vertex: not met, on the path, or finished.
#[derive(Clone, Copy, PartialEq)]
pub(crate) enum Colour {
    White,
    Grey,
    Black,
}

// A search that has finished some vertices and is at the last vertex of its path.
#[derive(Drop)]
pub(crate) struct Search {
    untaken: EdgeLists,
    colours: Vec<Colour>,
    pub(crate) path: Vec<usize>,
    pub(crate) finished: Vec<usize>,
}

impl Search {
    // A search that has met no vertex.
    pub(crate) fn new(
        alloc: Global,
        count: usize,
        edges: &[(usize, usize)],
    ) -> Result<Search, AllocError>
        requires { All (IsEdgeBelow count) edges.now }
        ensures search { IfOk result (λ made. IsSearch edges.now [] (state_of made)) }
        ensures len { IfOk result (λ made. length made.colours.items ≡ count) }
        ensures path { IfOk result (λ made. made.path.items ≡ []) }
    {
        let untaken = EdgeLists::new(alloc, count, edges)?;
        let colours = vec![in alloc; Colour::White; count]?;
        Ok(Search {
            untaken,
            colours,
            path: Vec::new(alloc),
            finished: Vec::new(alloc),
        })
    }

    // Finishes the root and every vertex that it leads to, or answers a vertex of the path that the path's last vertex leads to.
    pub(crate) fn visit(
        &mut self,
        edges: &[(usize, usize)],
        root: usize,
    ) -> Result<Option<usize>, AllocError>
        requires root { root < length self.old.colours.items }
        requires search { IsSearch edges.now [] (state_of self.old) }
        requires path { self.old.path.items ≡ [] }
        ensures none { IfOk result (λ met. IfNone met (Visits edges.now root (state_of self.old) (state_of self.new))) }
        ensures met { IfOk result (λ met. IfSome met (ClosesPath edges.now self.new.path.items)) }
    {
        if self.colours[root] != Colour::White {
            return Ok(None);
        }
        self.enter(root)?;
        'path: while !self.path.is_empty() {
            let met = self.advance(edges)?;
            if met.is_some() {
                return Ok(met);
            }
        }
        Ok(None)
    }

    // Takes one edge of the path's last vertex, or finishes that vertex.
    fn advance(&mut self, edges: &[(usize, usize)]) -> Result<Option<usize>, AllocError>
        requires path { 0 < length self.old.path.items }
        requires search { IsSearch edges.now self.old.path.items (state_of self.old) }
        ensures none { IfOk result (λ met. IfNone met (Advances edges.now (state_of self.old) (state_of self.new))) }
        ensures met { IfOk result (λ met. IfSome met (ClosesPath edges.now self.new.path.items)) }
    {
        let vertex = self.path[self.path.len() - 1];
        let Some(target) = self.untaken.take(edges, vertex) else {
            self.leave(vertex)?;
            return Ok(None);
        };
        match self.colours[target] {
            Colour::White => {
                self.enter(target)?;
                Ok(None)
            }
            Colour::Grey => Ok(Some(target)),
            Colour::Black => Ok(None),
        }
    }

    // Puts a vertex on the path.
    fn enter(&mut self, vertex: usize) -> Result<(), AllocError>
        requires { vertex < length self.old.colours.items }
        ensures { OnOk result (state_of self.new ≡ record (state_of self.old) { colours = slice_set self.old.colours.items vertex Colour.Grey; path = self.old.path.items ++ vertex ∷ [] }) }
    {
        self.path.push(vertex)?;
        self.colours[vertex] = Colour::Grey;
        Ok(())
    }

    // Takes the last vertex off the path, and finishes it.
    fn leave(&mut self, vertex: usize) -> Result<(), AllocError>
        requires vertex { vertex < length self.old.colours.items }
        requires last { slice_get self.old.path.items (length self.old.path.items - 1) ≡ Some vertex }
        ensures rest { OnOk result (self.old.path.items ≡ self.new.path.items ++ vertex ∷ []) }
        ensures ok { OnOk result (state_of self.new ≡ record (state_of self.old) { colours = slice_set self.old.colours.items vertex Colour.Black; path = self.new.path.items; finished = self.old.finished.items ++ vertex ∷ [] }) }
    {
        self.path.pop();
        self.finished.push(vertex)?;
        self.colours[vertex] = Colour::Black;
        Ok(())
    }
}
