//! What is said where something needs what isn't in a flow type, or needs itself?

ghost use Rattle.std.specs.Prelude.{◌≡◌, OnOk, Some, Option};
ghost use Rattle.wb_complete.specs.ForwardRefusals.{HasForwardRead, IsTrueForwardRefusal};
ghost use Rattle.wb_flow.specs.Occurrences.{IsIndexOf};
ghost use Rattle.wb_flow.specs.Refusals.{HasReadOutside, IsTrueFlowRefusal};
ghost use Rattle.wb_syntax_resolved.specs.Attribution.{IsAttribution};
ghost use Rattle.wb_explain_flows.specs.Inner.Either.{SaysReadsOr};
ghost use Rattle.wb_explain_flows.specs.Reads.{source_vertex};

use crate::chain::Step;
use crate::needs::needs_line;
use crate::steps::{Wanted, push_chain};
use std::alloc::{AllocError, Global};
use wb_base::push;
use wb_explain_flows_lists::told::Told;
use wb_flow::{AttributeRefusal, Vertex};

// Appends by which reads a production doesn't keep to a flow type, or goes round in a circle.
pub(crate) fn push_flow_refusal(
    alloc: Global,
    out: &mut Vec<u8>,
    told: &Told<'_>,
    refusal: &AttributeRefusal,
) -> Result<(), AllocError>
    requires attribution { IsAttribution told.now.scope.now.attributes.now }
    requires index { IsIndexOf told.now.scope.now.attributes.now.occurrences told.now.scope.now.index.now }
    requires refusal { IsTrueFlowRefusal told.now.scope.now.attributes.now refusal.now }
    ensures { OnOk result (SaysReadsOr told.now.source.now told.now.scope.now.attributes.now out.old.items out.new.items) }
{
    match refusal {
        AttributeRefusal::Reads {
            production,
            attribute,
            inherited,
        } => push_outside(alloc, out, told, *production, *attribute, *inherited),
        AttributeRefusal::Cycle {
            production,
            vertices,
        } => push_circle(alloc, out, told, *production, vertices.as_slice()),
        _ => Ok(()),
    }
}

// Appends by which reads an attribute or the forwarded tree needs what isn't in its flow type.
fn push_outside(
    alloc: Global,
    out: &mut Vec<u8>,
    told: &Told<'_>,
    number: usize,
    attribute: Option<usize>,
    inherited: usize,
) -> Result<(), AllocError>
    requires attribution { IsAttribution told.now.scope.now.attributes.now }
    requires index { IsIndexOf told.now.scope.now.attributes.now.occurrences told.now.scope.now.index.now }
    requires outside { HasReadOutside told.now.scope.now.attributes.now number attribute inherited }
    ensures { OnOk result (SaysReadsOr told.now.source.now told.now.scope.now.attributes.now out.old.items out.new.items) }
{
    let Some(production) = told.scope.attributes.productions.as_slice().get(number) else {
        return Ok(());
    };
    let rest = needs_line(alloc, told, attribute, production.left, inherited)?;
    let ends = Step {
        from: source_vertex(attribute),
        to: Vertex::Top(inherited),
    };
    let wanted = Wanted {
        ends,
        given: &[],
        rest: &rest,
    };
    let answer = push_chain(alloc, out, told, production, &wanted);
    drop(rest);
    answer
}

// The vertex that needs too much.
fn source_vertex(attribute: Option<usize>) -> Vertex
    ensures { result ≡ source_vertex attribute }
{
    match attribute {
        Some(attribute) => Vertex::Top(attribute),
        None => Vertex::ForwardTree,
    }
}

// Appends the reads of a circle.
fn push_circle(
    alloc: Global,
    out: &mut Vec<u8>,
    told: &Told<'_>,
    number: usize,
    vertices: &[Vertex],
) -> Result<(), AllocError>
    requires attribution { IsAttribution told.now.scope.now.attributes.now }
    requires index { IsIndexOf told.now.scope.now.attributes.now.occurrences told.now.scope.now.index.now }
    ensures { OnOk result (SaysReadsOr told.now.source.now told.now.scope.now.attributes.now out.old.items out.new.items) }
{
    let steps = steps_round(alloc, vertices)?;
    let answer = push_round(alloc, out, told, number, &steps);
    drop(steps);
    answer
}

// Appends these steps, where they are a circle.
fn push_round(
    alloc: Global,
    out: &mut Vec<u8>,
    told: &Told<'_>,
    number: usize,
    steps: &[Step],
) -> Result<(), AllocError>
    requires attribution { IsAttribution told.now.scope.now.attributes.now }
    requires index { IsIndexOf told.now.scope.now.attributes.now.occurrences told.now.scope.now.index.now }
    ensures { OnOk result (SaysReadsOr told.now.source.now told.now.scope.now.attributes.now out.old.items out.new.items) }
{
    let Some(production) = told.scope.attributes.productions.as_slice().get(number) else {
        return Ok(());
    };
    if steps.len() == 0 {
        return Ok(());
    }
    let first = steps[0].from;
    let ends = Step {
        from: first,
        to: first,
    };
    let wanted = Wanted {
        ends,
        given: steps,
        rest: b"\nOne of these equations has to read something else.\n",
    };
    push_chain(alloc, out, told, production, &wanted)
}

// A step from each vertex to the next, and from the last to the first.
fn steps_round(alloc: Global, vertices: &[Vertex]) -> Result<Vec<Step>, AllocError> {
    let mut steps = Vec::new(alloc);
    match add_steps(&mut steps, vertices) {
        Ok(()) => Ok(steps),
        Err(error) => {
            drop(steps);
            Err(error)
        }
    }
}

// Adds them.
fn add_steps(steps: &mut Vec<Step>, vertices: &[Vertex]) -> Result<(), AllocError> {
    'vertices: for place in 0..vertices.len() {
        let from = vertices[place];
        let next = if place + 1 < vertices.len() {
            place + 1
        } else {
            0
        };
        push(
            steps,
            Step {
                from,
                to: vertices[next],
            },
        )?;
    }
    Ok(())
}

// Appends by which reads an equation for the forwarded tree needs what isn't in the flow type of the forward.
pub(crate) fn push_forward_refusal(
    alloc: Global,
    out: &mut Vec<u8>,
    told: &Told<'_>,
    refusal: &AttributeRefusal,
) -> Result<(), AllocError>
    requires attribution { IsAttribution told.now.scope.now.attributes.now }
    requires index { IsIndexOf told.now.scope.now.attributes.now.occurrences told.now.scope.now.index.now }
    requires refusal { IsTrueForwardRefusal told.now.scope.now.attributes.now 1 refusal.now }
    ensures { OnOk result (SaysReadsOr told.now.source.now told.now.scope.now.attributes.now out.old.items out.new.items) }
{
    match refusal {
        AttributeRefusal::ForwardReads {
            production,
            attribute,
            inherited,
        } => push_given(alloc, out, told, *production, *attribute, *inherited),
        _ => Ok(()),
    }
}

// Appends by which reads the equation for an attribute of the forwarded tree does.
fn push_given(
    alloc: Global,
    out: &mut Vec<u8>,
    told: &Told<'_>,
    number: usize,
    attribute: usize,
    inherited: usize,
) -> Result<(), AllocError>
    requires attribution { IsAttribution told.now.scope.now.attributes.now }
    requires index { IsIndexOf told.now.scope.now.attributes.now.occurrences told.now.scope.now.index.now }
    requires read { HasForwardRead told.now.scope.now.attributes.now 1 number attribute inherited }
    ensures { OnOk result (SaysReadsOr told.now.source.now told.now.scope.now.attributes.now out.old.items out.new.items) }
{
    let Some(production) = told.scope.attributes.productions.as_slice().get(number) else {
        return Ok(());
    };
    let rest = needs_line(alloc, told, None, production.left, inherited)?;
    let ends = Step {
        from: Vertex::Forward(attribute),
        to: Vertex::Top(inherited),
    };
    let wanted = Wanted {
        ends,
        given: &[],
        rest: &rest,
    };
    let answer = push_chain(alloc, out, told, production, &wanted);
    drop(rest);
    answer
}
