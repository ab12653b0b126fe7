//! Finds the kind of each node of an expression.
//!
//! Nodes are visited in order, so the kinds of a node's parts are known when it is met; a node without a kind has None.

ghost use Rattle.std.specs.Prelude.{◌≡◌, ◌↔◌, Some, IfOk, IsTrue, length};
ghost use Rattle.wb_base.specs.declared.symbol.Kind.{Kind};
ghost use Rattle.wb_base.specs.declared.symbol.Kind.TheVariants.{Bool};
ghost use Rattle.wb_syntax_expressions.specs.Expression.{IsWhole};
ghost use Rattle.wb_syntax_expressions.specs.Places.{HasPartsBefore};
ghost use Rattle.wb_syntax_resolved.specs.declared.production.ChildKind.TheVariants.{Value};
ghost use Rattle.wb_syntax_resolved.specs.Visible.{kind_at};
ghost use Rattle.wb_types.specs.Kinds.{IsAttributeKind};
ghost use Rattle.wb_types.specs.Rules.{IsOfKind};
ghost use Rattle.wb_types.specs.Inner.Nodes.{IsAt, AreAt, BuildsKind, CallsKind, NodeHasKind, AreKept};

use crate::context::Context;
use std::alloc::{AllocError, Global};
use wb_base::{Kind, push};
use wb_operations::OperationSignatures;
use wb_syntax_resolved::{AttributionParts, ChildKind, Node, Place, Production};
use wb_values::Signatures;

// Whether an expression is of a kind.
pub(crate) fn has_kind(
    alloc: Global,
    context: &Context,
    nodes: &[Node],
    kind: Kind,
) -> Result<bool, AllocError>
    requires { IsWhole nodes.now }
    ensures { IfOk result (λ yes. IsTrue yes ↔ IsOfKind context.now.attributes.now context.now.operations.now context.now.production.now nodes.now kind) }
{
    let mut kinds = Vec::new(alloc);
    'nodes: for place in 0..nodes.len() {
        let found = kind_of(context, &nodes[place], &kinds);
        push(&mut kinds, found)?;
    }
    Ok(is_at(&kinds, nodes.len() - 1, kind))
}

// The kind of a node by those of its parts.
fn kind_of(context: &Context, node: &Node, kinds: &[Option<Kind>]) -> Option<Kind>
    ensures { (is : Kind) → (result ≡ Some is) ↔ NodeHasKind context.now.attributes.now context.now.operations.now context.now.production.now kinds.now node.now is }
{
    match node {
        Node::Int(_) => Some(Kind::Int),
        Node::Text(_) | Node::Lexeme(_) => Some(Kind::Text),
        Node::Bool(_) => Some(Kind::Bool),
        Node::Label(place) => place_kind(context.production, *place),
        Node::Read { attribute, .. } | Node::Top(attribute) | Node::Forward(attribute) => {
            attribute_kind(context.attributes, *attribute)
        }
        Node::Build {
            production,
            children,
        } => kind_built(
            &context.attributes.signatures,
            *production,
            children.as_slice(),
            kinds,
        ),
        Node::Call {
            operation,
            arguments,
        } => kind_called(
            context.operations,
            operation.as_slice(),
            arguments.as_slice(),
            kinds,
        ),
        Node::If {
            condition,
            holds,
            fails,
        } => kind_chosen(kinds, *condition, *holds, *fails),
    }
}

// The kind of the value at a place of a production. A terminal is no value.
fn place_kind(production: &Production, place: Place) -> Option<Kind>
    ensures { (is : Kind) → (result ≡ Some is) ↔ (kind_at production.now place ≡ Some (Value is)) }
{
    match place {
        Place::Child(number) => {
            let children = production.children.as_slice();
            if number >= children.len() {
                return None;
            }
            match children[number].kind {
                ChildKind::Terminal(_) => None,
                ChildKind::Value(kind) => Some(kind),
            }
        }
        Place::Local(number) => {
            let locals = production.locals.as_slice();
            if number >= locals.len() {
                return None;
            }
            Some(Kind::Tree(locals[number].nonterminal))
        }
    }
}

// The kind of an attribute.
pub(crate) fn attribute_kind(attributes: &AttributionParts, number: usize) -> Option<Kind>
    ensures { (is : Kind) → (result ≡ Some is) ↔ IsAttributeKind attributes.now number is }
{
    let attributes = attributes.attributes.as_slice();
    if number >= attributes.len() {
        return None;
    }
    Some(attributes[number].kind)
}

// The kind of a tree of a production with these children.
fn kind_built(
    signatures: &Signatures,
    production: usize,
    children: &[usize],
    kinds: &[Option<Kind>],
) -> Option<Kind>
    ensures { (is : Kind) → (result ≡ Some is) ↔ BuildsKind signatures.now kinds.now production children.now is }
{
    if production >= signatures.len() {
        return None;
    }
    if !are_at(kinds, children, signatures.children(production)) {
        return None;
    }
    Some(Kind::Tree(signatures.left(production)))
}

// The kind of what an operation gives on these arguments.
fn kind_called(
    operations: &OperationSignatures,
    name: &[u8],
    arguments: &[usize],
    kinds: &[Option<Kind>],
) -> Option<Kind>
    ensures { (is : Kind) → (result ≡ Some is) ↔ CallsKind operations.now kinds.now name.now arguments.now is }
{
    let number = operations.find(name)?;
    if !are_at(kinds, arguments, operations.takes(number)) {
        return None;
    }
    Some(operations.gives(number))
}

// The kind of a choice between two parts by a third.
fn kind_chosen(kinds: &[Option<Kind>], condition: usize, holds: usize, fails: usize) -> Option<Kind>
    ensures { (is : Kind) → (result ≡ Some is) ↔ (IsAt kinds.now condition Bool × IsAt kinds.now holds is × IsAt kinds.now fails is) }
{
    if !is_at(kinds, condition, Kind::Bool) || holds >= kinds.len() {
        return None;
    }
    let kind = kinds[holds]?;
    if !is_at(kinds, fails, kind) {
        return None;
    }
    Some(kind)
}

// Whether the parts at these places are of these kinds, one by one.
fn are_at(kinds: &[Option<Kind>], places: &[usize], wanted: &[Kind]) -> bool
    ensures { IsTrue result ↔ AreAt kinds.now places.now wanted.now }
{
    if places.len() != wanted.len() {
        return false;
    }
    'places: for number in 0..places.len() {
        if !is_at(kinds, places[number], wanted[number]) {
            return false;
        }
    }
    true
}

// Whether the part at a place is of a kind.
fn is_at(kinds: &[Option<Kind>], place: usize, kind: Kind) -> bool
    ensures { IsTrue result ↔ IsAt kinds.now place kind }
{
    place < kinds.len() && kinds[place] == Some(kind)
}
