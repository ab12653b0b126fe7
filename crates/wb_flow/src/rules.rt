//! What does an equation define, and what does a node read?
//!
//! By vertices, so that both are ends of edges.

ghost use Rattle.std.specs.Prelude.{◌≡◌, ◌↔◌, Contains, IfOk};
ghost use Rattle.wb_flow.specs.declared.vertex.Vertex.{Vertex};
ghost use Rattle.wb_flow.specs.Rules.{attribute_at, target_of, IsDefined};
ghost use Rattle.wb_flow.specs.Reads.{label_read, read_by};

use crate::Vertex;
use crate::vertex_set::VertexSet;
use std::alloc::{AllocError, Global};
use wb_syntax_resolved::{Node, Place, Production, Target};

/// The vertices for which a production has equations.
pub fn defined_vertices(alloc: Global, production: &Production) -> Result<VertexSet, AllocError>
    ensures { IfOk result (λ set. (v : Vertex) → Contains set v ↔ IsDefined production.now v) }
{
    let mut vertices = VertexSet::new(alloc);
    'equations: for equation in production.equations.as_slice() {
        vertices.add(defined(equation.target))?;
    }
    Ok(vertices)
}

// What an equation of this target defines.
pub(crate) fn defined(target: Target) -> Vertex
    ensures { result ≡ target_of target }
{
    match target {
        Target::Top(attribute) => Vertex::Top(attribute),
        Target::Place { place, attribute } => below(place, attribute),
        Target::Forward(attribute) => Vertex::Forward(attribute),
    }
}

// An attribute of a child or local.
fn below(place: Place, attribute: usize) -> Vertex
    ensures { result ≡ attribute_at place attribute }
{
    match place {
        Place::Child(child) => Vertex::Child(child, attribute),
        Place::Local(local) => Vertex::Local(local, attribute),
    }
}

// What a node reads, where it reads a vertex.
pub(crate) fn read(node: &Node) -> Option<Vertex>
    ensures { result ≡ read_by node.now }
{
    match node {
        Node::Label(place) => local_tree(*place),
        Node::Read { label, attribute } => Some(below(*label, *attribute)),
        Node::Top(attribute) => Some(Vertex::Top(*attribute)),
        Node::Forward(attribute) => Some(Vertex::Forward(*attribute)),
        _ => None,
    }
}

// The tree that a label as a value reads: a child's is there, and isn't read.
fn local_tree(place: Place) -> Option<Vertex>
    ensures { result ≡ label_read place }
{
    match place {
        Place::Child(_) => None,
        Place::Local(local) => Some(Vertex::LocalTree(local)),
    }
}
