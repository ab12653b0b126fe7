//! How is said which kind is wanted, which is there, and what makes the one of the other?

ghost use Rattle.std.specs.Prelude.{◌≡◌, ◌⊎◌, ◌++◌, ◌∷◌, [], OnOk, length};
ghost use Rattle.std.specs.List.{flat_map};
ghost use lib.Chars.{codes};
ghost use Rattle.wb_syntax_expressions.specs.Places.{parts_of};
ghost use Rattle.wb_explain_mismatches.specs.Said.{IsSaid, count_said, found_said, mismatch_said, role_said, step_said, steps_said, wanted_kind_said, wanted_said};
ghost use Rattle.wb_explain_mismatches.specs.Steps.{Leads};

use crate::context::World;
use crate::names::{push_caller, push_kind, push_maker, push_number};
use crate::rest::push_after;
use crate::step::Step;
use crate::steps::steps_between;
use std::alloc::{AllocError, Global};
use wb_base::Kind;
use wb_syntax_resolved::{AttributionParts, Node};

// What is said: which kind is wanted, as what, and which is there; of which node, and by which, where it is a part of one.
#[derive(Clone, Copy)]
pub(crate) struct Claim<'a> {
    pub(crate) role: &'a [u8],
    pub(crate) wanted: Kind,
    pub(crate) found: Kind,
    pub(crate) node: &'a Node,
    pub(crate) asker: Option<&'a Node>,
}

// Appends these lines, and what is said.
pub(crate) fn push_claim(
    alloc: Global,
    out: &mut Vec<u8>,
    world: &World<'_>,
    before: &[u8],
    claim: &Claim<'_>,
) -> Result<(), AllocError>
    ensures { OnOk result (IsSaid world.now.attributes.now world.now.operations.now claim.now.role.now claim.now.wanted claim.now.found out.old.items out.new.items) }
{
    let steps = steps_between(
        alloc,
        &world.attributes.signatures,
        world.operations,
        claim.found,
        claim.wanted,
    )?;
    let answer = push_lines(alloc, out, world, before, claim, &steps);
    drop(steps);
    answer
}

// The same, with these steps.
fn push_lines(
    alloc: Global,
    out: &mut Vec<u8>,
    world: &World<'_>,
    before: &[u8],
    claim: &Claim<'_>,
    steps: &[Step],
) -> Result<(), AllocError>
    requires { (steps.now ≡ []) ⊎ Leads world.now.attributes.now.signatures world.now.operations.now steps.now claim.now.found claim.now.wanted }
    ensures { OnOk result (IsSaid world.now.attributes.now world.now.operations.now claim.now.role.now claim.now.wanted claim.now.found out.old.items out.new.items) }
{
    out.extend_from_slice(before)?;
    push_mismatch_said(out, world.attributes, claim)?;
    push_steps(out, world, steps)?;
    push_after(alloc, out, world, claim, steps)
}

// Appends which kind is wanted, and which is there.
fn push_mismatch_said(
    out: &mut Vec<u8>,
    attributes: &AttributionParts,
    claim: &Claim<'_>,
) -> Result<(), AllocError>
    ensures { OnOk result (out.new.items ≡ out.old.items ++ mismatch_said attributes.now claim.now.role.now claim.now.wanted claim.now.found) }
{
    push_wanted(out, attributes, claim.role, claim.wanted)?;
    push_found(out, attributes, claim.found)
}

// Appends which kind is wanted, and as what.
fn push_wanted(
    out: &mut Vec<u8>,
    attributes: &AttributionParts,
    role: &[u8],
    wanted: Kind,
) -> Result<(), AllocError>
    ensures { OnOk result (out.new.items ≡ out.old.items ++ wanted_said attributes.now role.now wanted) }
{
    push_wanted_kind(out, attributes, wanted)?;
    push_role(out, role)
}

// Appends which kind is wanted.
fn push_wanted_kind(
    out: &mut Vec<u8>,
    attributes: &AttributionParts,
    wanted: Kind,
) -> Result<(), AllocError>
    ensures { OnOk result (out.new.items ≡ out.old.items ++ wanted_kind_said attributes.now wanted) }
{
    out.extend_from_slice(b"    wanted: ")?;
    push_kind(out, attributes, wanted)
}

// Appends as what it is wanted.
fn push_role(out: &mut Vec<u8>, role: &[u8]) -> Result<(), AllocError>
    ensures { OnOk result (out.new.items ≡ out.old.items ++ role_said role.now) }
{
    out.extend_from_slice(b", as ")?;
    push_line_end(out, role)
}

// Appends bytes, and a line feed.
fn push_line_end(out: &mut Vec<u8>, bytes: &[u8]) -> Result<(), AllocError>
    ensures { OnOk result (out.new.items ≡ out.old.items ++ (bytes.now ++ codes "\n")) }
{
    out.extend_from_slice(bytes)?;
    out.extend_from_slice(b"\n")
}

// Appends which kind is there.
fn push_found(
    out: &mut Vec<u8>,
    attributes: &AttributionParts,
    found: Kind,
) -> Result<(), AllocError>
    ensures { OnOk result (out.new.items ≡ out.old.items ++ found_said attributes.now found) }
{
    out.extend_from_slice(b"    found:  ")?;
    push_kind(out, attributes, found)?;
    out.extend_from_slice(b"\n")
}

// Appends the steps, where there are some.
fn push_steps(out: &mut Vec<u8>, world: &World<'_>, steps: &[Step]) -> Result<(), AllocError>
    ensures { OnOk result (out.new.items ≡ out.old.items ++ steps_said world.now.attributes.now world.now.operations.now steps.now) }
{
    match steps {
        [] => Ok(()),
        [first, rest @ ..] => push_some_steps(out, world, *first, rest),
    }
}

// Appends these steps.
fn push_some_steps(
    out: &mut Vec<u8>,
    world: &World<'_>,
    first: Step,
    rest: &[Step],
) -> Result<(), AllocError>
    ensures { OnOk result (out.new.items ≡ out.old.items ++ steps_said world.now.attributes.now world.now.operations.now (first ∷ rest.now)) }
{
    out.extend_from_slice(
        b"\nWritten around it, from the outside in, this makes what is wanted:\n\n",
    )?;
    push_step(out, world, first)?;
    push_each_step(out, world, rest)
}

// Appends a line for each step.
fn push_each_step(out: &mut Vec<u8>, world: &World<'_>, steps: &[Step]) -> Result<(), AllocError>
    ensures { OnOk result (out.new.items ≡ out.old.items ++ flat_map (step_said world.now.attributes.now world.now.operations.now) steps.now) }
{
    'steps: for &step in steps {
        push_step(out, world, step)?;
    }
    Ok(())
}

// Appends a line for a step.
fn push_step(out: &mut Vec<u8>, world: &World<'_>, step: Step) -> Result<(), AllocError>
    ensures { OnOk result (out.new.items ≡ out.old.items ++ step_said world.now.attributes.now world.now.operations.now step) }
{
    out.extend_from_slice(b"    ")?;
    push_maker(
        out,
        &world.attributes.signatures,
        world.operations,
        step.maker,
    )?;
    out.extend_from_slice(b" makes ")?;
    push_kind(out, world.attributes, step.to)?;
    out.extend_from_slice(b" of ")?;
    push_kind(out, world.attributes, step.from)?;
    out.extend_from_slice(b"\n")
}

// Appends how many arguments a node takes, and how many are there.
pub(crate) fn push_count_said(
    out: &mut Vec<u8>,
    attributes: &AttributionParts,
    node: &Node,
    takes: usize,
) -> Result<(), AllocError>
    ensures { OnOk result (out.new.items ≡ out.old.items ++ count_said attributes.now node.now takes) }
{
    out.extend_from_slice(b"    ")?;
    push_caller(out, attributes, node)?;
    out.extend_from_slice(b" takes ")?;
    push_number(out, takes)?;
    out.extend_from_slice(b", and here are ")?;
    push_number(out, count_of(node))?;
    out.extend_from_slice(b"\n")
}

// How many parts a node has.
fn count_of(node: &Node) -> usize
    ensures { result ≡ length (parts_of node.now) }
{
    match node {
        Node::Build { children, .. } => children.len(),
        Node::Call { arguments, .. } => arguments.len(),
        Node::If { .. } => 3,
        _ => 0,
    }
}
