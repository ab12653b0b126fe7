//! Lists the vertices of the flow graph of a production.
//!
//! The attributes of each of its trees, and the trees that expressions make.

ghost use Rattle.std.specs.Prelude.{◌≡◌, ◌↔◌, Some, Contains, IfOk, OnOk};
ghost use Rattle.wb_flow.specs.declared.vertex.Vertex.{Vertex};
ghost use Rattle.wb_flow.specs.Inner.Adding.{SomeOf};
ghost use Rattle.wb_flow.specs.Adding.{Adds};
ghost use Rattle.wb_flow.specs.Inner.Positions.{tree_at, IsAttributeOf, IsVertexOf};
ghost use Rattle.wb_flow.specs.Occurrences.{IsIndexOf};

use crate::Scope;
use crate::positions::TreeAt;
use crate::vertex_set::VertexSet;
use std::alloc::{AllocError, Global};

// Those of these trees.
pub(crate) fn vertices_of(
    alloc: Global,
    scope: &Scope,
    trees: &[TreeAt],
) -> Result<VertexSet, AllocError>
    requires { IsIndexOf scope.now.attributes.now.occurrences scope.now.index.now }
    ensures { IfOk result (λ set. (v : Vertex) → Contains set v ↔ SomeOf trees.now (IsVertexOf scope.now.attributes.now) v) }
{
    let mut vertices = VertexSet::new(alloc);
    'trees: for tree in trees {
        add_vertices(&mut vertices, scope, *tree)?;
    }
    Ok(vertices)
}

// Adds those of a tree.
fn add_vertices(vertices: &mut VertexSet, scope: &Scope, tree: TreeAt) -> Result<(), AllocError>
    requires { IsIndexOf scope.now.attributes.now.occurrences scope.now.index.now }
    ensures { OnOk result (Adds vertices.old vertices.new (IsVertexOf scope.now.attributes.now tree)) }
{
    add_made(vertices, tree)?;
    add_attributes(vertices, scope, tree)
}

// Adds the tree itself, where an expression makes it.
fn add_made(vertices: &mut VertexSet, tree: TreeAt) -> Result<(), AllocError>
    ensures { OnOk result (Adds vertices.old vertices.new (λ v. tree_at tree.position ≡ Some v)) }
{
    let Some(vertex) = tree.position.tree() else {
        return Ok(());
    };
    vertices.add(vertex)
}

// Adds its attributes.
fn add_attributes(vertices: &mut VertexSet, scope: &Scope, tree: TreeAt) -> Result<(), AllocError>
    requires { IsIndexOf scope.now.attributes.now.occurrences scope.now.index.now }
    ensures { OnOk result (Adds vertices.old vertices.new (IsAttributeOf scope.now.attributes.now tree)) }
{
    'occurrences: for &number in scope.index.on(tree.nonterminal) {
        let attribute = scope.occurrence(number).attribute;
        vertices.add(tree.position.vertex(attribute))?;
    }
    Ok(())
}
