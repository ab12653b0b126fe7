//! What is the flow graph of a production?
//!
//! Its edges are found by their ends and then given by the positions of these among the vertices.

ghost use Rattle.std.specs.Prelude.{◌<◌, ◌↔◌, ℕ, Contains, IfOk, length};
ghost use Rattle.wb_flow_theory.specs.Modular.{IsProduction};
ghost use Rattle.wb_flow.specs.declared.arrows.Arrow.{Arrow};
ghost use Rattle.wb_flow.specs.declared.positions.TreeAt.{TreeAt};
ghost use Rattle.wb_flow.specs.declared.vertex.Vertex.{Vertex};
ghost use Rattle.wb_flow.specs.Graphs.{IsFlowGraph};
ghost use Rattle.wb_flow.specs.Inner.Adding.{SomeOf};
ghost use Rattle.wb_flow.specs.Inner.Arrows.{IsArrow, IsNumbered};
ghost use Rattle.wb_flow.specs.Inner.Positions.{HasTree, IsVertexOf};
ghost use Rattle.wb_flow.specs.Occurrences.{IsIndexOf};
ghost use Rattle.wb_syntax_resolved.specs.Attribution.{IsAttribution};
ghost use Rattle.wb_syntax_resolved.specs.declared.production.Production.{Production};

use crate::arrows::{Arrow, add_copies, add_needs, add_reads};
use crate::positions::{TreeAt, trees_of};
use crate::vertex_set::VertexSet;
use crate::vertices::vertices_of;
use crate::{FlowGraph, OccurrenceIndex, Scope};
use std::alloc::{AllocError, Global};
use wb_base::{Sequence, push};
use wb_syntax_resolved::{Attribution, Production};

/// The flow graph of the production of this number.
///
/// The time is about linear in the attribution, for the index of its occurrences, and in the graph; no clause bounds it.
pub fn production_graph(
    alloc: Global,
    attributes: &Attribution,
    production: usize,
) -> Result<FlowGraph, AllocError>
    requires { production < length attributes.now.productions }
    ensures { IfOk result (λ graph. (p : Production) → IsProduction attributes.now production p → IsFlowGraph attributes.now p graph) }
{
    let parts = attributes.parts();
    let index = OccurrenceIndex::new(alloc, parts)?;
    let scope = Scope {
        attributes: parts,
        index: &index,
    };
    graph_of(alloc, &scope, &parts.productions.as_slice()[production])
}

/// Like `production_graph`, where occurrences are by nonterminal.
pub fn graph_of(
    alloc: Global,
    scope: &Scope,
    production: &Production,
) -> Result<FlowGraph, AllocError>
    requires attribution { IsAttribution scope.now.attributes.now }
    requires index { IsIndexOf scope.now.attributes.now.occurrences scope.now.index.now }
    requires listed { Contains scope.now.attributes.now.productions production.now }
    ensures { IfOk result (IsFlowGraph scope.now.attributes.now production.now) }
{
    let trees = trees_of(alloc, production)?;
    let vertices = vertices_of(alloc, scope, &trees)?;
    graph_over(alloc, scope, production, &trees, &vertices)
}

// Like `graph_of`, with the production's trees and vertices.
fn graph_over(
    alloc: Global,
    scope: &Scope,
    production: &Production,
    trees: &[TreeAt],
    vertices: &VertexSet,
) -> Result<FlowGraph, AllocError>
    requires attribution { IsAttribution scope.now.attributes.now }
    requires index { IsIndexOf scope.now.attributes.now.occurrences scope.now.index.now }
    requires listed { Contains scope.now.attributes.now.productions production.now }
    requires trees { (t : TreeAt) → Contains trees.now t ↔ HasTree production.now t }
    requires vertices { (v : Vertex) → Contains vertices.now v ↔ SomeOf trees.now (IsVertexOf scope.now.attributes.now) v }
    ensures { IfOk result (IsFlowGraph scope.now.attributes.now production.now) }
{
    let arrows = arrows_of(alloc, scope, production, trees)?;
    let edges = edges_of(alloc, vertices, &arrows)?;
    let vertices = Vec::from_slice(alloc, vertices.as_slice())?;
    Ok(FlowGraph {
        vertices: Sequence::from_vec(vertices),
        edges: Sequence::from_vec(edges),
    })
}

// Its edges, by their ends.
fn arrows_of(
    alloc: Global,
    scope: &Scope,
    production: &Production,
    trees: &[TreeAt],
) -> Result<Vec<Arrow>, AllocError>
    requires attribution { IsAttribution scope.now.attributes.now }
    requires index { IsIndexOf scope.now.attributes.now.occurrences scope.now.index.now }
    requires listed { Contains scope.now.attributes.now.productions production.now }
    requires trees { (t : TreeAt) → Contains trees.now t ↔ HasTree production.now t }
    ensures { IfOk result (λ arrows. (r : Arrow) → Contains arrows.items r ↔ IsArrow scope.now.attributes.now production.now r) }
{
    let mut arrows = Vec::new(alloc);
    add_reads(&mut arrows, production)?;
    add_needs(&mut arrows, scope, trees)?;
    add_copies(alloc, &mut arrows, scope, production)?;
    Ok(arrows)
}

// The edges, by the positions of their ends.
fn edges_of(
    alloc: Global,
    vertices: &VertexSet,
    arrows: &[Arrow],
) -> Result<Vec<(usize, usize)>, AllocError>
    requires { (r : Arrow) → Contains arrows.now r → Contains vertices.now r.from × Contains vertices.now r.to }
    ensures { IfOk result (λ edges. (e : ℕ × ℕ) → Contains edges.items e ↔ SomeOf arrows.now (IsNumbered vertices.now) e) }
{
    let mut edges = Vec::new(alloc);
    'arrows: for arrow in arrows {
        push(
            &mut edges,
            (vertices.number(arrow.from), vertices.number(arrow.to)),
        )?;
    }
    Ok(edges)
}
