//! Of which kind is a node, where the kinds of its parts are known?

ghost use Rattle.std.specs.Prelude.{◌≡◌, Some, IfSome, IsTrue, slice_get};
ghost use Rattle.wb_base.specs.declared.symbol.Kind.{Kind};
ghost use Rattle.wb_syntax_resolved.specs.declared.production.ChildKind.TheVariants.{Value};
ghost use Rattle.wb_syntax_resolved.specs.Visible.{kind_at};
ghost use Rattle.wb_types.specs.Kinds.{IsAttributeKind};
ghost use Rattle.wb_explain_mismatches.specs.Inner.Known.{AreAt, BuildsKind, CallsKind, ChoosesKind, NodeKind};

use crate::context::Context;
use wb_base::Kind;
use wb_operations::OperationSignatures;
use wb_syntax_resolved::{AttributionParts, ChildKind, Node, Place, Production};
use wb_values::Signatures;

// The kind of a node by those of its parts, where they are of the kinds that it wants.
pub(crate) fn kind_of(context: &Context<'_>, node: &Node, kinds: &[Kind]) -> Option<Kind>
    ensures { IfSome result (NodeKind context.now.attributes.now context.now.operations.now context.now.production.now kinds.now node.now) }
{
    match node {
        Node::Int(_) => Some(Kind::Int),
        Node::Text(_) => Some(Kind::Text),
        Node::Lexeme(_) => Some(Kind::Text),
        Node::Bool(_) => Some(Kind::Bool),
        Node::Label(place) => place_kind(context.production, *place),
        Node::Read { attribute, .. } => attribute_kind(context.attributes, *attribute),
        Node::Top(attribute) => attribute_kind(context.attributes, *attribute),
        Node::Forward(attribute) => attribute_kind(context.attributes, *attribute),
        Node::Build {
            production,
            children,
        } => kind_built(
            &context.attributes.signatures,
            *production,
            children.as_slice(),
            kinds,
        ),
        Node::Call {
            operation,
            arguments,
        } => kind_called(
            context.operations,
            operation.as_slice(),
            arguments.as_slice(),
            kinds,
        ),
        Node::If {
            condition,
            holds,
            fails,
        } => kind_chosen(kinds, *condition, *holds, *fails),
    }
}

// The kind of the value at a place of a production. A terminal is no value.
fn place_kind(production: &Production, place: Place) -> Option<Kind>
    ensures { IfSome result (λ (is : Kind). kind_at production.now place ≡ Some (Value is)) }
{
    match place {
        Place::Child(number) => {
            let children = production.children.as_slice();
            if number >= children.len() {
                return None;
            }
            match children[number].kind {
                ChildKind::Terminal(_) => None,
                ChildKind::Value(kind) => Some(kind),
            }
        }
        Place::Local(number) => {
            let locals = production.locals.as_slice();
            if number >= locals.len() {
                return None;
            }
            Some(Kind::Tree(locals[number].nonterminal))
        }
    }
}

// The kind of an attribute.
pub(crate) fn attribute_kind(attributes: &AttributionParts, number: usize) -> Option<Kind>
    ensures { IfSome result (IsAttributeKind attributes.now number) }
{
    let attributes = attributes.attributes.as_slice();
    if number >= attributes.len() {
        return None;
    }
    Some(attributes[number].kind)
}

// The kind of a tree of a production with these children.
fn kind_built(
    signatures: &Signatures,
    production: usize,
    children: &[usize],
    kinds: &[Kind],
) -> Option<Kind>
    ensures { IfSome result (BuildsKind signatures.now kinds.now production children.now) }
{
    if production >= signatures.len() {
        return None;
    }
    if !are_at(kinds, children, signatures.children(production)) {
        return None;
    }
    Some(Kind::Tree(signatures.left(production)))
}

// The kind of what an operation gives on these arguments.
fn kind_called(
    operations: &OperationSignatures,
    name: &[u8],
    arguments: &[usize],
    kinds: &[Kind],
) -> Option<Kind>
    ensures { IfSome result (CallsKind operations.now kinds.now name.now arguments.now) }
{
    let number = operations.find(name)?;
    if !are_at(kinds, arguments, operations.takes(number)) {
        return None;
    }
    Some(operations.gives(number))
}

// The kind of a choice between two parts by a third.
fn kind_chosen(kinds: &[Kind], condition: usize, holds: usize, fails: usize) -> Option<Kind>
    ensures { IfSome result (ChoosesKind kinds.now condition holds fails) }
{
    if !is_at(kinds, condition, Kind::Bool) || holds >= kinds.len() {
        return None;
    }
    let kind = kinds[holds];
    if !is_at(kinds, fails, kind) {
        return None;
    }
    Some(kind)
}

// Whether the parts at these places are of these kinds, one by one.
fn are_at(kinds: &[Kind], places: &[usize], wanted: &[Kind]) -> bool
    ensures { IsTrue result → AreAt kinds.now places.now wanted.now }
{
    if places.len() != wanted.len() {
        return false;
    }
    'places: for number in 0..places.len() {
        if !is_at(kinds, places[number], wanted[number]) {
            return false;
        }
    }
    true
}

// Whether the part at a place is of a kind.
fn is_at(kinds: &[Kind], place: usize, kind: Kind) -> bool
    ensures { IsTrue result → slice_get kinds.now place ≡ Some kind }
{
    place < kinds.len() && kinds[place] == kind
}
