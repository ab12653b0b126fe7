//! Which part of an expression is of another kind than is wanted?
//!
//! Nodes are visited in order, so the first without a kind has parts that have one, and one of these isn't what is wanted.

ghost use Rattle.std.specs.Prelude.{◌≡◌, ◌<◌, [], List, IfOk, IfSome, length};
ghost use Rattle.wb_base.specs.declared.symbol.Kind.{Kind};
ghost use Rattle.wb_explain_mismatches.specs.Wrong.{HasChildren, TakesKinds};
ghost use Rattle.wb_explain_mismatches.specs.Inner.Known.{AreKnown, IsFinding, IsLastFound, IsOther, IsOtherBranch, IsOtherChoice, IsOtherCondition, IsOtherIn};

use crate::context::Context;
use crate::kinds::kind_of;
use std::alloc::{AllocError, Global};
use wb_base::{Kind, push};
use wb_operations::OperationSignatures;
use wb_syntax_resolved::Node;
use wb_values::Signatures;

// A part of a node: its number among the parts, its place among the nodes, the kind that is wanted there, and its own.
#[derive(Clone, Copy)]
pub(crate) struct Wrong {
    pub(crate) number: usize,
    pub(crate) part: usize,
    pub(crate) wanted: Kind,
    pub(crate) found: Kind,
}

// What is of another kind than is wanted.
#[derive(Clone, Copy)]
pub(crate) enum Finding {
    // A part of the node at this place.
    Part { at: usize, wrong: Wrong },
    // The whole expression, which is of this kind.
    Whole(Kind),
}

// What is of another kind than is wanted in an expression, where the whole has to be of this kind.
pub(crate) fn find_wrong(
    alloc: Global,
    context: &Context<'_>,
    nodes: &[Node],
    wanted: Kind,
) -> Result<Option<Finding>, AllocError>
    ensures { IfOk result (λ found. IfSome found (IsFinding context.now.attributes.now context.now.operations.now context.now.production.now nodes.now wanted)) }
{
    let mut kinds = Vec::new(alloc);
    let answer = find_with(context, nodes, wanted, &mut kinds);
    drop(kinds);
    answer
}

// The same, with a list for the kinds of the nodes.
fn find_with(
    context: &Context<'_>,
    nodes: &[Node],
    wanted: Kind,
    kinds: &mut Vec<Kind>,
) -> Result<Option<Finding>, AllocError>
    requires { kinds.old.items ≡ [] }
    ensures { IfOk result (λ found. IfSome found (IsFinding context.now.attributes.now context.now.operations.now context.now.production.now nodes.now wanted)) }
{
    'nodes: for at in 0..nodes.len() {
        match kind_of(context, &nodes[at], kinds) {
            Some(kind) => push(kinds, kind)?,
            None => {
                return Ok(part_at(context, nodes, at, kinds));
            }
        }
    }
    Ok(whole_of(kinds, wanted))
}

// The part of the node at a place that is of another kind than is wanted.
fn part_at(context: &Context<'_>, nodes: &[Node], at: usize, kinds: &[Kind]) -> Option<Finding>
    requires { at < length nodes.now }
    ensures { (wanted : Kind) → AreKnown context.now.attributes.now context.now.operations.now context.now.production.now nodes.now kinds.now → IfSome result (IsFinding context.now.attributes.now context.now.operations.now context.now.production.now nodes.now wanted) }
{
    match wrong_in(context, &nodes[at], kinds) {
        Some(wrong) => Some(Finding::Part { at, wrong }),
        None => None,
    }
}

// The last kind, where another is wanted.
fn whole_of(kinds: &[Kind], wanted: Kind) -> Option<Finding>
    ensures { IfSome result (IsLastFound kinds.now wanted) }
{
    if kinds.len() == 0 {
        return None;
    }
    let found = kinds[kinds.len() - 1];
    if found == wanted {
        return None;
    }
    Some(Finding::Whole(found))
}

// The part of a node that is of another kind than is wanted.
fn wrong_in(context: &Context<'_>, node: &Node, kinds: &[Kind]) -> Option<Wrong>
    ensures { IfSome result (IsOtherIn context.now.attributes.now context.now.operations.now kinds.now node.now) }
{
    match node {
        Node::Build {
            production,
            children,
        } => wrong_child(
            &context.attributes.signatures,
            *production,
            children.as_slice(),
            kinds,
        ),
        Node::Call {
            operation,
            arguments,
        } => wrong_argument(
            context.operations,
            operation.as_slice(),
            arguments.as_slice(),
            kinds,
        ),
        Node::If {
            condition,
            holds,
            fails,
        } => wrong_choice(kinds, *condition, *holds, *fails),
        _ => None,
    }
}

// The child of a production that is.
fn wrong_child(
    signatures: &Signatures,
    production: usize,
    children: &[usize],
    kinds: &[Kind],
) -> Option<Wrong>
    ensures { IfSome result (λ w. (wanted : List Kind) × HasChildren signatures.now production wanted × IsOther kinds.now children.now wanted w) }
{
    if production >= signatures.len() {
        return None;
    }
    first_other(kinds, children, signatures.children(production))
}

// The argument of an operation that is.
fn wrong_argument(
    operations: &OperationSignatures,
    name: &[u8],
    arguments: &[usize],
    kinds: &[Kind],
) -> Option<Wrong>
    ensures { IfSome result (λ w. (wanted : List Kind) × TakesKinds operations.now name.now wanted × IsOther kinds.now arguments.now wanted w) }
{
    let number = operations.find(name)?;
    first_other(kinds, arguments, operations.takes(number))
}

// The part of an if that is.
fn wrong_choice(kinds: &[Kind], condition: usize, holds: usize, fails: usize) -> Option<Wrong>
    ensures { IfSome result (IsOtherChoice kinds.now condition holds fails) }
{
    match wrong_condition(kinds, condition) {
        Some(wrong) => Some(wrong),
        None => wrong_branch(kinds, holds, fails),
    }
}

// The condition, where it is no truth value.
fn wrong_condition(kinds: &[Kind], condition: usize) -> Option<Wrong>
    ensures { IfSome result (IsOtherCondition kinds.now condition) }
{
    if condition >= kinds.len() {
        return None;
    }
    let found = kinds[condition];
    if found == Kind::Bool {
        return None;
    }
    Some(Wrong {
        number: 0,
        part: condition,
        wanted: Kind::Bool,
        found,
    })
}

// What is after else, where it is of another kind than what is after then.
fn wrong_branch(kinds: &[Kind], holds: usize, fails: usize) -> Option<Wrong>
    ensures { IfSome result (IsOtherBranch kinds.now holds fails) }
{
    if holds >= kinds.len() || fails >= kinds.len() {
        return None;
    }
    let found = kinds[fails];
    let wanted = kinds[holds];
    if found == wanted {
        return None;
    }
    Some(Wrong {
        number: 2,
        part: fails,
        wanted,
        found,
    })
}

// The first of some parts that is of another kind than is wanted.
fn first_other(kinds: &[Kind], places: &[usize], wanted: &[Kind]) -> Option<Wrong>
    ensures { IfSome result (IsOther kinds.now places.now wanted.now) }
{
    'places: for number in 0..places.len() {
        if let Some(wrong) = other_at(kinds, places, wanted, number) {
            return Some(wrong);
        }
    }
    None
}

// The part of this number, where it is.
fn other_at(kinds: &[Kind], places: &[usize], wanted: &[Kind], number: usize) -> Option<Wrong>
    ensures { IfSome result (IsOther kinds.now places.now wanted.now) }
{
    if number >= places.len() || number >= wanted.len() {
        return None;
    }
    let part = places[number];
    if part >= kinds.len() {
        return None;
    }
    let found = kinds[part];
    let kind = wanted[number];
    if found == kind {
        return None;
    }
    Some(Wrong {
        number,
        part,
        wanted: kind,
        found,
    })
}
