//! Lists the edges of the flow graph of a production.
//!
//! Each kind of edge is found by itself, by the vertices of its ends; positions of vertices are given in `graph`.

ghost use Rattle.std.specs.Prelude.{◌≡◌, ◌↔◌, Contains, OnOk, length};
ghost use Rattle.wb_flow_theory.specs.Rules.{Forwards};
ghost use Rattle.wb_flow.specs.declared.vertex.Vertex.{Vertex};
ghost use Rattle.wb_flow.specs.Rules.{IsDefined};
ghost use Rattle.wb_flow.specs.Inner.Adding.{SomeOf, SomeBelow};
ghost use Rattle.wb_flow.specs.Adding.{Adds};
ghost use Rattle.wb_flow.specs.Inner.Arrows.{IsReadArrow, IsExpressionArrow, IsEquationArrow, IsLocalArrow, IsForwardArrow, IsRuleArrow};
ghost use Rattle.wb_flow.specs.Inner.Arrows.{IsNeedArrow, IsTreeArrow, IsOccurrenceArrow, IsBelowArrow, IsCopyArrow, IsLeftCopyArrow};
ghost use Rattle.wb_flow.specs.Occurrences.{IsIndexOf};

use crate::positions::{Position, TreeAt};
use crate::rules::{defined, defined_vertices, read};
use crate::vertex_set::VertexSet;
use crate::{Scope, Vertex};
use std::alloc::{AllocError, Global};
use wb_base::push;
use wb_syntax_resolved::{Node, Occurrence, Production};

// An edge, by its ends.
#[derive(Clone, Copy)]
pub(crate) struct Arrow {
    pub(crate) from: Vertex,
    pub(crate) to: Vertex,
}

// Adds one for each read.
pub(crate) fn add_reads(arrows: &mut Vec<Arrow>, production: &Production) -> Result<(), AllocError>
    ensures { OnOk result (Adds arrows.old.items arrows.new.items (IsRuleArrow production.now)) }
{
    add_equations(arrows, production)?;
    add_locals(arrows, production)?;
    add_forward(arrows, production)
}

// Adds one for each read of an equation.
fn add_equations(arrows: &mut Vec<Arrow>, production: &Production) -> Result<(), AllocError>
    ensures { OnOk result (Adds arrows.old.items arrows.new.items (SomeOf production.now.equations IsEquationArrow)) }
{
    'equations: for equation in production.equations.as_slice() {
        add_expression(arrows, defined(equation.target), equation.nodes.as_slice())?;
    }
    Ok(())
}

// Adds one for each read of a local's expression.
fn add_locals(arrows: &mut Vec<Arrow>, production: &Production) -> Result<(), AllocError>
    ensures { OnOk result (Adds arrows.old.items arrows.new.items (SomeBelow (length production.now.locals) (IsLocalArrow production.now))) }
{
    let locals = production.locals.as_slice();
    'locals: for local in 0..locals.len() {
        add_expression(
            arrows,
            Vertex::LocalTree(local),
            locals[local].nodes.as_slice(),
        )?;
    }
    Ok(())
}

// Adds one for each read of what is forwarded to.
fn add_forward(arrows: &mut Vec<Arrow>, production: &Production) -> Result<(), AllocError>
    ensures { OnOk result (Adds arrows.old.items arrows.new.items (IsForwardArrow production.now)) }
{
    let Some(forward) = &production.forward else {
        return Ok(());
    };
    add_expression(arrows, Vertex::ForwardTree, forward.nodes.as_slice())
}

// Adds one for each read of an expression.
fn add_expression(arrows: &mut Vec<Arrow>, from: Vertex, nodes: &[Node]) -> Result<(), AllocError>
    ensures { OnOk result (Adds arrows.old.items arrows.new.items (IsExpressionArrow from nodes.now)) }
{
    'nodes: for node in nodes {
        add_node(arrows, from, node)?;
    }
    Ok(())
}

// Adds one for what a node reads.
fn add_node(arrows: &mut Vec<Arrow>, from: Vertex, node: &Node) -> Result<(), AllocError>
    ensures { OnOk result (Adds arrows.old.items arrows.new.items (IsReadArrow from node.now)) }
{
    let Some(to) = read(node) else {
        return Ok(());
    };
    push(arrows, Arrow { from, to })
}

// Adds those from attributes one step down, by their flow types and to the trees that expressions make.
pub(crate) fn add_needs(
    arrows: &mut Vec<Arrow>,
    scope: &Scope,
    trees: &[TreeAt],
) -> Result<(), AllocError>
    requires { IsIndexOf scope.now.attributes.now.occurrences scope.now.index.now }
    ensures { OnOk result (Adds arrows.old.items arrows.new.items (SomeOf trees.now (IsBelowArrow scope.now.attributes.now))) }
{
    'trees: for tree in trees {
        add_needs_of(arrows, scope, *tree)?;
    }
    Ok(())
}

// Adds those from attributes of a tree.
fn add_needs_of(arrows: &mut Vec<Arrow>, scope: &Scope, tree: TreeAt) -> Result<(), AllocError>
    requires { IsIndexOf scope.now.attributes.now.occurrences scope.now.index.now }
    ensures { OnOk result (Adds arrows.old.items arrows.new.items (IsBelowArrow scope.now.attributes.now tree)) }
{
    if tree.position.is_top() {
        return Ok(());
    }
    'occurrences: for &number in scope.index.on(tree.nonterminal) {
        add_occurrence(arrows, scope, tree.position, scope.occurrence(number))?;
    }
    Ok(())
}

// Adds those from the attribute of an occurrence.
fn add_occurrence(
    arrows: &mut Vec<Arrow>,
    scope: &Scope,
    position: Position,
    occurrence: &Occurrence,
) -> Result<(), AllocError>
    ensures { OnOk result (Adds arrows.old.items arrows.new.items (IsOccurrenceArrow scope.now.attributes.now position occurrence.now)) }
{
    add_flow_type(arrows, position, occurrence)?;
    add_tree(arrows, scope, position, occurrence.attribute)
}

// Adds one for each attribute of its flow type.
fn add_flow_type(
    arrows: &mut Vec<Arrow>,
    position: Position,
    occurrence: &Occurrence,
) -> Result<(), AllocError>
    ensures { OnOk result (Adds arrows.old.items arrows.new.items (SomeOf occurrence.now.needs (IsNeedArrow position occurrence.now.attribute))) }
{
    let from = position.vertex(occurrence.attribute);
    'needs: for &inherited in occurrence.needs.as_slice() {
        push(
            arrows,
            Arrow {
                from,
                to: position.vertex(inherited),
            },
        )?;
    }
    Ok(())
}

// Adds one from a synthesized attribute to the tree, where an expression makes it.
fn add_tree(
    arrows: &mut Vec<Arrow>,
    scope: &Scope,
    position: Position,
    attribute: usize,
) -> Result<(), AllocError>
    ensures { OnOk result (Adds arrows.old.items arrows.new.items (IsTreeArrow scope.now.attributes.now position attribute)) }
{
    let Some(to) = position.tree() else {
        return Ok(());
    };
    if !scope.is_synthesized(attribute) {
        return Ok(());
    }
    let from = position.vertex(attribute);
    push(arrows, Arrow { from, to })
}

// Adds those for attributes that have no equation, where the production forwards.
pub(crate) fn add_copies(
    alloc: Global,
    arrows: &mut Vec<Arrow>,
    scope: &Scope,
    production: &Production,
) -> Result<(), AllocError>
    requires { IsIndexOf scope.now.attributes.now.occurrences scope.now.index.now }
    ensures { OnOk result (Adds arrows.old.items arrows.new.items (IsLeftCopyArrow scope.now.attributes.now production.now)) }
{
    if production.forward.is_none() {
        return Ok(());
    }
    let defined = defined_vertices(alloc, production)?;
    let answer = add_undefined_of(arrows, scope, production, &defined);
    drop(defined);
    answer
}

// Adds those for attributes of the left side that have no equation.
fn add_undefined_of(
    arrows: &mut Vec<Arrow>,
    scope: &Scope,
    production: &Production,
    defined: &VertexSet,
) -> Result<(), AllocError>
    requires forwards { Forwards production.now }
    requires index { IsIndexOf scope.now.attributes.now.occurrences scope.now.index.now }
    requires defined { (v : Vertex) → Contains defined.now v ↔ IsDefined production.now v }
    ensures { OnOk result (Adds arrows.old.items arrows.new.items (IsLeftCopyArrow scope.now.attributes.now production.now)) }
{
    'occurrences: for &number in scope.index.on(production.left) {
        let attribute = scope.occurrence(number).attribute;
        add_copy(arrows, scope, production, defined, attribute)?;
    }
    Ok(())
}

// Adds one for an attribute of the left side that has no equation.
fn add_copy(
    arrows: &mut Vec<Arrow>,
    scope: &Scope,
    production: &Production,
    defined: &VertexSet,
    attribute: usize,
) -> Result<(), AllocError>
    requires { (v : Vertex) → Contains defined.now v ↔ IsDefined production.now v }
    ensures { OnOk result (Adds arrows.old.items arrows.new.items (IsCopyArrow scope.now.attributes.now production.now attribute)) }
{
    let top = Vertex::Top(attribute);
    let forward = Vertex::Forward(attribute);
    if scope.is_synthesized(attribute) {
        return add_undefined(
            arrows,
            production,
            defined,
            Arrow {
                from: top,
                to: forward,
            },
        );
    }
    if scope.is_inherited(attribute) {
        return add_undefined(
            arrows,
            production,
            defined,
            Arrow {
                from: forward,
                to: top,
            },
        );
    }
    Ok(())
}

// Adds an edge, where no equation is for where it leads from.
fn add_undefined(
    arrows: &mut Vec<Arrow>,
    production: &Production,
    defined: &VertexSet,
    arrow: Arrow,
) -> Result<(), AllocError>
    requires { (v : Vertex) → Contains defined.now v ↔ IsDefined production.now v }
    ensures { OnOk result (Adds arrows.old.items arrows.new.items (λ r. (r ≡ arrow) × ¬ IsDefined production.now arrow.from)) }
{
    if defined.contains(arrow.from) {
        return Ok(());
    }
    push(arrows, arrow)
}
