//! How are vertices numbered?
//!
//! A table of hashes finds one in about constant time, so that a graph takes time linear in its vertices and edges.

ghost use Rattle.std.specs.Prelude.{◌≡◌, ◌↔◌, [], Contains, IfSome, IfNone, IsTrue, OnOk, Some, length, slice_get};
ghost use Rattle.wb_base.specs.Different.{Differ};
ghost use Rattle.wb_flow.specs.Adding.{Adds};

use crate::Vertex;
use indexmap::IndexSet;
use std::alloc::{AllocError, Global};
use std::marker::Model;

/// Different vertices, numbered from 0 in the order in which they were added.
pub struct VertexSet {
    vertices: IndexSet<Vertex>,
}

impl Drop for VertexSet {
    fn drop(self) {
        let VertexSet { vertices } = self;
        drop(vertices);
    }
}

impl Model for VertexSet {
    ghost use Rattle.std.specs.Prelude.{List};
    ghost use Rattle.wb_base.specs.Different.{Differ};
    ghost use Rattle.wb_flow.specs.declared.vertex.Vertex.{Vertex};

    ghost Value = { List Vertex };

    ghost view = { λ s. s.vertices.keys };

    ghost invariant = { λ s. Differ s.vertices.keys };
}

impl VertexSet {
    pub(crate) fn new(alloc: Global) -> VertexSet
        ensures { result ≡ [] }
    {
        VertexSet {
            vertices: IndexSet::new(alloc),
        }
    }

    // Adds a vertex, where it isn't there yet.
    pub(crate) fn add(&mut self, vertex: Vertex) -> Result<(), AllocError>
        ensures { OnOk result (Adds self.old self.new (λ v. v ≡ vertex)) }
    {
        self.vertices.insert_full(vertex)?;
        Ok(())
    }

    // The number of a vertex.
    pub(crate) fn number(&self, vertex: Vertex) -> usize
        requires { Contains self.now vertex }
        ensures at { slice_get self.now result ≡ Some vertex }
        ensures different { Differ self.now }
    {
        self.vertices.get_index_of(&vertex).unwrap()
    }

    // The number of a vertex, where it is there.
    pub(crate) fn find(&self, vertex: Vertex) -> Option<usize>
        ensures some { IfSome result (λ number. slice_get self.now number ≡ Some vertex) }
        ensures none { IfNone result (¬ Contains self.now vertex) }
        ensures different { Differ self.now }
    {
        self.vertices.get_index_of(&vertex)
    }

    /// Whether a vertex is there.
    pub fn contains(&self, vertex: Vertex) -> bool
        ensures { IsTrue result ↔ Contains self.now vertex }
    {
        self.find(vertex).is_some()
    }

    // How many vertices there are.
    pub(crate) fn len(&self) -> usize
        ensures { result ≡ length self.now }
    {
        self.vertices.as_slice().len()
    }

    // The vertices by number.
    pub(crate) fn as_slice(&self) -> &[Vertex]
        ensures vertices { result.now ≡ self.now }
        ensures different { Differ self.now }
    {
        self.vertices.as_slice()
    }
}
