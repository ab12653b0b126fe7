//! What is said of a specification that is refused for a kind, or for a number of arguments?

ghost use Rattle.std.specs.Prelude.{◌≡◌, ◌⊎◌, ◌<◌, ◌+◌, ◌^◌, IfOk, OnOk};
ghost use Rattle.wb_syntax_expressions.specs.Places.{HasNode};
ghost use Rattle.wb_syntax_resolved.specs.Expression.{Node};
ghost use Rattle.wb_types.specs.Refusals.{IsTrueRefusal};
ghost use Rattle.wb_explain_mismatches.specs.Said.{IsSaid, Says, part_said, whole_said};
ghost use Rattle.wb_explain_mismatches.specs.Inner.Found.{IsExpectedAt};
ghost use Rattle.wb_explain_mismatches.specs.Inner.Known.{IsFinding};
ghost use Rattle.wb_explain_mismatches.specs.Inner.Saying.{CountIsSaid, MayBeSaid, MaySayCount, MaySayKind};

use crate::arity::{Miscount, find_miscount};
use crate::context::{Context, World};
use crate::expected::{Expected, Spot, expected_at};
use crate::names::push_part;
use crate::place::before_of;
use crate::rest::push_declared_after;
use crate::said::{Claim, push_claim, push_count_said};
use crate::wrong::{Finding, Wrong, find_wrong};
use std::alloc::{AllocError, Global};
use wb_base::Kind;
use wb_explain_places::Source;
use wb_operations::{Meaning, OperationTable};
use wb_syntax_resolved::{AttributionParts, Node, Resolved};
use wb_types::{TypeRefusal, check_types};

/// Appends which part of an expression is of another kind than is wanted, or which call has another number of arguments than it takes, where
/// the specification is refused for that.
///
/// The specification is that of the source's file, by numbers; with its host, where it is an extension. Nothing is appended where it isn't
/// refused so, or where the equation is in another file. Of several parts the first is shown whose own parts are right. The only error is out
/// of memory.
pub fn push_mismatch<M: Meaning>(
    alloc: Global,
    out: &mut Vec<u8>,
    source: &Source<'_>,
    resolved: &Resolved,
    operations: &OperationTable<M>,
) -> Result<(), AllocError>
    ensures { OnOk result (Says resolved.now.attributes operations.now.signatures out.old.items out.new.items) }
{
    match check_types(alloc, resolved, operations) {
        Ok(()) => Ok(()),
        Err(refusal) => {
            let world = World {
                source,
                attributes: resolved.parts().attributes.parts(),
                operations: operations.signatures(),
            };
            let answer = push_refused(alloc, out, &world, &refusal);
            refusal.release();
            answer
        }
    }
}

// Appends what is said of a refusal.
fn push_refused(
    alloc: Global,
    out: &mut Vec<u8>,
    world: &World<'_>,
    refusal: &TypeRefusal,
) -> Result<(), AllocError>
    requires { IsTrueRefusal world.now.attributes.now world.now.operations.now refusal.now }
    ensures { OnOk result (Says world.now.attributes.now world.now.operations.now out.old.items out.new.items) }
{
    match refusal {
        TypeRefusal::TypeMismatch(offset) => push_kind_at(alloc, out, world, *offset),
        TypeRefusal::WrongArity(offset) => push_arity_at(alloc, out, world, *offset),
        TypeRefusal::UnknownOperation(_) => Ok(()),
        TypeRefusal::NoMemory(error) => Err(*error),
    }
}

// The owner of a file: the host where no host is beside it, and else the one extension.
fn owner_of(source: &Source<'_>) -> usize {
    match source.host {
        Some(_) => 1,
        None => 0,
    }
}

// Appends what is said of the expression whose equation begins at an offset, where a kind is wrong.
fn push_kind_at(
    alloc: Global,
    out: &mut Vec<u8>,
    world: &World<'_>,
    offset: usize,
) -> Result<(), AllocError>
    ensures { OnOk result (MaySayKind world.now.attributes.now world.now.operations.now offset out.old.items out.new.items) }
{
    let spot = Spot {
        owner: owner_of(world.source),
        offset,
    };
    match expected_at(world.attributes, spot) {
        Some(expected) => push_kind_in(alloc, out, world, &expected),
        None => Ok(()),
    }
}

// The same, of this expression.
fn push_kind_in(
    alloc: Global,
    out: &mut Vec<u8>,
    world: &World<'_>,
    expected: &Expected<'_>,
) -> Result<(), AllocError>
    requires { IsExpectedAt world.now.attributes.now expected.now.offset expected.now }
    ensures { OnOk result (MaySayKind world.now.attributes.now world.now.operations.now expected.now.offset out.old.items out.new.items) }
{
    let context = Context {
        attributes: world.attributes,
        operations: world.operations,
        production: expected.production,
    };
    match find_wrong(alloc, &context, expected.nodes, expected.kind)? {
        Some(finding) => push_finding(alloc, out, world, expected, finding),
        None => Ok(()),
    }
}

// Appends what is said of what is found in it.
fn push_finding(
    alloc: Global,
    out: &mut Vec<u8>,
    world: &World<'_>,
    expected: &Expected<'_>,
    finding: Finding,
) -> Result<(), AllocError>
    requires at { IsExpectedAt world.now.attributes.now expected.now.offset expected.now }
    requires found { IsFinding world.now.attributes.now world.now.operations.now expected.now.production.now expected.now.nodes.now expected.now.kind finding }
    ensures { OnOk result (MaySayKind world.now.attributes.now world.now.operations.now expected.now.offset out.old.items out.new.items) }
{
    match finding {
        Finding::Part { at, wrong } => push_part_at(alloc, out, world, expected, at, wrong),
        Finding::Whole(found) => push_whole(alloc, out, world, expected, found),
    }
}

// Appends what is said of a part of the node at a place.
fn push_part_at(
    alloc: Global,
    out: &mut Vec<u8>,
    world: &World<'_>,
    expected: &Expected<'_>,
    at: usize,
    wrong: Wrong,
) -> Result<(), AllocError>
    ensures { (node : Node) → HasNode expected.now.nodes.now at node → OnOk result (MayBeSaid world.now.attributes.now world.now.operations.now (part_said world.now.attributes.now node wrong.number) wrong.wanted wrong.found out.old.items out.new.items) }
{
    let count = expected.nodes.len();
    if at >= count || wrong.part >= count || wrong.number >= count {
        return Ok(());
    }
    let asker = &expected.nodes[at];
    let role = role_of(alloc, world.attributes, asker, wrong.number)?;
    let claim = Claim {
        role: &role,
        wanted: wrong.wanted,
        found: wrong.found,
        node: &expected.nodes[wrong.part],
        asker: Some(asker),
    };
    let answer = push_shown(alloc, out, world, expected, wrong.part, &claim);
    drop(role);
    answer
}

// Which part of a node it is, in words.
fn role_of(
    alloc: Global,
    attributes: &AttributionParts,
    node: &Node,
    number: usize,
) -> Result<Vec<u8>, AllocError>
    requires { number + 1 < 2 ^ 64 }
    ensures { IfOk result (λ role. role.items ≡ part_said attributes.now node.now number) }
{
    let mut role = Vec::new(alloc);
    match push_part(&mut role, attributes, node, number) {
        Ok(()) => Ok(role),
        Err(error) => {
            drop(role);
            Err(error)
        }
    }
}

// Appends what is said of the whole.
fn push_whole(
    alloc: Global,
    out: &mut Vec<u8>,
    world: &World<'_>,
    expected: &Expected<'_>,
    found: Kind,
) -> Result<(), AllocError>
    ensures { OnOk result (MayBeSaid world.now.attributes.now world.now.operations.now whole_said expected.now.kind found out.old.items out.new.items) }
{
    if expected.nodes.len() == 0 {
        return Ok(());
    }
    let place = expected.nodes.len() - 1;
    let claim = Claim {
        role: b"the value of this equation",
        wanted: expected.kind,
        found,
        node: &expected.nodes[place],
        asker: None,
    };
    push_shown(alloc, out, world, expected, place, &claim)
}

// Appends the lines that show the node at a place, and what is said of it.
fn push_shown(
    alloc: Global,
    out: &mut Vec<u8>,
    world: &World<'_>,
    expected: &Expected<'_>,
    place: usize,
    claim: &Claim<'_>,
) -> Result<(), AllocError>
    ensures { OnOk result (IsSaid world.now.attributes.now world.now.operations.now claim.now.role.now claim.now.wanted claim.now.found out.old.items out.new.items) }
{
    let heading = b"\nWhat is here is of another kind than is wanted here:\n\n";
    let before = before_of(alloc, world.source, expected, place, heading)?;
    let answer = push_claim(alloc, out, world, &before, claim);
    drop(before);
    answer
}

// Appends what is said of the expression whose equation begins at an offset, where a number of arguments is wrong.
fn push_arity_at(
    alloc: Global,
    out: &mut Vec<u8>,
    world: &World<'_>,
    offset: usize,
) -> Result<(), AllocError>
    ensures { OnOk result (MaySayCount world.now.attributes.now world.now.operations.now offset out.old.items out.new.items) }
{
    let spot = Spot {
        owner: owner_of(world.source),
        offset,
    };
    match expected_at(world.attributes, spot) {
        Some(expected) => push_arity_in(alloc, out, world, &expected),
        None => Ok(()),
    }
}

// The same, of this expression.
fn push_arity_in(
    alloc: Global,
    out: &mut Vec<u8>,
    world: &World<'_>,
    expected: &Expected<'_>,
) -> Result<(), AllocError>
    requires { IsExpectedAt world.now.attributes.now expected.now.offset expected.now }
    ensures { OnOk result (MaySayCount world.now.attributes.now world.now.operations.now expected.now.offset out.old.items out.new.items) }
{
    let context = Context {
        attributes: world.attributes,
        operations: world.operations,
        production: expected.production,
    };
    match find_miscount(&context, expected.nodes) {
        Some(found) => push_count_at(alloc, out, world, expected, found),
        None => Ok(()),
    }
}

// Appends what is said of the node at a place.
fn push_count_at(
    alloc: Global,
    out: &mut Vec<u8>,
    world: &World<'_>,
    expected: &Expected<'_>,
    found: Miscount,
) -> Result<(), AllocError>
    ensures { (node : Node) → HasNode expected.now.nodes.now found.at node → OnOk result ((out.new.items ≡ out.old.items) ⊎ CountIsSaid world.now.attributes.now node found.takes out.old.items out.new.items) }
{
    if found.at >= expected.nodes.len() {
        return Ok(());
    }
    let heading = b"\nHere is another number of arguments than is wanted:\n\n";
    let before = before_of(alloc, world.source, expected, found.at, heading)?;
    let node = &expected.nodes[found.at];
    let answer = push_count_lines(alloc, out, world, &before, node, found.takes);
    drop(before);
    answer
}

// Appends these lines, and how many arguments a node takes and has.
fn push_count_lines(
    alloc: Global,
    out: &mut Vec<u8>,
    world: &World<'_>,
    before: &[u8],
    node: &Node,
    takes: usize,
) -> Result<(), AllocError>
    ensures { OnOk result (CountIsSaid world.now.attributes.now node.now takes out.old.items out.new.items) }
{
    out.extend_from_slice(before)?;
    push_count_said(out, world.attributes, node, takes)?;
    push_declared_after(alloc, out, world, node)
}
