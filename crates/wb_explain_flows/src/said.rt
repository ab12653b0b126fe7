//! What is said of the attributes of a numbered value?

ghost use Rattle.std.specs.Prelude.{◌≡◌, OnOk};
ghost use Rattle.wb_flow.specs.Occurrences.{IsIndexOf};
ghost use Rattle.wb_syntax_resolved.specs.Attribution.{IsAttribution};
ghost use Rattle.wb_explain_flows.specs.Inner.Either.{SaysReadsOr};
ghost use Rattle.wb_explain_flows.specs.Said.{SaysOf};

use crate::reads::{push_flow_refusal, push_forward_refusal};
use std::alloc::{AllocError, Global};
use wb_complete::check_forward;
use wb_explain_flows_lists::handed::push_handed;
use wb_explain_flows_lists::held::push_unheld;
use wb_explain_flows_lists::missing::push_missing;
use wb_explain_flows_lists::told::Told;
use wb_explain_places::Source;
use wb_flow::{AttributeRefusal, OccurrenceIndex, Scope, check_flow};
use wb_syntax_resolved::{Attribution, Resolved};

/// Appends what is said for a code of attributes, of the numbered value that the file stands for, with its host's where it is an
/// extension. Of another code than A1, A2, A6 and E8 it is what is said for A3 and A4.
pub fn push_value(
    alloc: Global,
    out: &mut Vec<u8>,
    source: &Source<'_>,
    resolved: &Resolved,
    code: &[u8],
) -> Result<(), AllocError>
    ensures { OnOk result (SaysOf source.now resolved.now.attributes out.old.items out.new.items) }
{
    let attributes = &resolved.parts().attributes;
    let parts = attributes.parts();
    let index = OccurrenceIndex::new(alloc, parts)?;
    let scope = Scope {
        attributes: parts,
        index: &index,
    };
    let told = Told {
        scope: &scope,
        source,
    };
    let answer = push_code(alloc, out, &told, attributes, code);
    drop(index);
    answer
}

// Appends what is said for a code.
fn push_code(
    alloc: Global,
    out: &mut Vec<u8>,
    told: &Told<'_>,
    attributes: &Attribution,
    code: &[u8],
) -> Result<(), AllocError>
    requires attribution { IsAttribution told.now.scope.now.attributes.now }
    requires index { IsIndexOf told.now.scope.now.attributes.now.occurrences told.now.scope.now.index.now }
    requires same { told.now.scope.now.attributes.now ≡ attributes.now }
    ensures { OnOk result (SaysOf told.now.source.now attributes.now out.old.items out.new.items) }
{
    match code {
        b"A1" => say_missing(alloc, out, told, attributes),
        b"A2" => say_handed(alloc, out, told, attributes),
        b"A6" => say_unheld(alloc, out, told, attributes),
        b"E8" => say_forward(alloc, out, told, attributes),
        _ => say_reads(alloc, out, told, attributes),
    }
}

// Appends what is said where attributes don't keep to their flow types.
fn push_reads(
    alloc: Global,
    out: &mut Vec<u8>,
    told: &Told<'_>,
    attributes: &Attribution,
) -> Result<(), AllocError>
    requires attribution { IsAttribution told.now.scope.now.attributes.now }
    requires index { IsIndexOf told.now.scope.now.attributes.now.occurrences told.now.scope.now.index.now }
    requires same { told.now.scope.now.attributes.now ≡ attributes.now }
    ensures { OnOk result (SaysReadsOr told.now.source.now attributes.now out.old.items out.new.items) }
{
    match check_flow(alloc, attributes) {
        Ok(()) => Ok(()),
        Err(AttributeRefusal::NoMemory(error)) => Err(error),
        Err(refusal) => {
            let answer = push_flow_refusal(alloc, out, told, &refusal);
            refusal.release();
            answer
        }
    }
}

// Appends what is said where an equation for a forwarded tree reads too much.
fn push_forward(
    alloc: Global,
    out: &mut Vec<u8>,
    told: &Told<'_>,
    attributes: &Attribution,
) -> Result<(), AllocError>
    requires attribution { IsAttribution told.now.scope.now.attributes.now }
    requires index { IsIndexOf told.now.scope.now.attributes.now.occurrences told.now.scope.now.index.now }
    requires same { told.now.scope.now.attributes.now ≡ attributes.now }
    ensures { OnOk result (SaysReadsOr told.now.source.now attributes.now out.old.items out.new.items) }
{
    match check_forward(alloc, attributes, 1) {
        Ok(()) => Ok(()),
        Err(AttributeRefusal::NoMemory(error)) => Err(error),
        Err(refusal) => {
            let answer = push_forward_refusal(alloc, out, told, &refusal);
            refusal.release();
            answer
        }
    }
}

// Appends what is said of equations of left sides that are missing.
fn say_missing(
    alloc: Global,
    out: &mut Vec<u8>,
    told: &Told<'_>,
    attributes: &Attribution,
) -> Result<(), AllocError>
    requires attribution { IsAttribution told.now.scope.now.attributes.now }
    requires index { IsIndexOf told.now.scope.now.attributes.now.occurrences told.now.scope.now.index.now }
    requires same { told.now.scope.now.attributes.now ≡ attributes.now }
    ensures { OnOk result (SaysOf told.now.source.now attributes.now out.old.items out.new.items) }
{
    push_missing(alloc, out, told)
}

// Appends what is said of attributes that aren't handed down.
fn say_handed(
    alloc: Global,
    out: &mut Vec<u8>,
    told: &Told<'_>,
    attributes: &Attribution,
) -> Result<(), AllocError>
    requires attribution { IsAttribution told.now.scope.now.attributes.now }
    requires index { IsIndexOf told.now.scope.now.attributes.now.occurrences told.now.scope.now.index.now }
    requires same { told.now.scope.now.attributes.now ≡ attributes.now }
    ensures { OnOk result (SaysOf told.now.source.now attributes.now out.old.items out.new.items) }
{
    push_handed(alloc, out, told)
}

// Appends what is said of flow types that lack something.
fn say_unheld(
    alloc: Global,
    out: &mut Vec<u8>,
    told: &Told<'_>,
    attributes: &Attribution,
) -> Result<(), AllocError>
    requires attribution { IsAttribution told.now.scope.now.attributes.now }
    requires index { IsIndexOf told.now.scope.now.attributes.now.occurrences told.now.scope.now.index.now }
    requires same { told.now.scope.now.attributes.now ≡ attributes.now }
    ensures { OnOk result (SaysOf told.now.source.now attributes.now out.old.items out.new.items) }
{
    push_unheld(alloc, out, told)
}

// Appends what is said of equations for forwarded trees.
fn say_forward(
    alloc: Global,
    out: &mut Vec<u8>,
    told: &Told<'_>,
    attributes: &Attribution,
) -> Result<(), AllocError>
    requires attribution { IsAttribution told.now.scope.now.attributes.now }
    requires index { IsIndexOf told.now.scope.now.attributes.now.occurrences told.now.scope.now.index.now }
    requires same { told.now.scope.now.attributes.now ≡ attributes.now }
    ensures { OnOk result (SaysOf told.now.source.now attributes.now out.old.items out.new.items) }
{
    push_forward(alloc, out, told, attributes)
}

// Appends what is said of reads.
fn say_reads(
    alloc: Global,
    out: &mut Vec<u8>,
    told: &Told<'_>,
    attributes: &Attribution,
) -> Result<(), AllocError>
    requires attribution { IsAttribution told.now.scope.now.attributes.now }
    requires index { IsIndexOf told.now.scope.now.attributes.now.occurrences told.now.scope.now.index.now }
    requires same { told.now.scope.now.attributes.now ≡ attributes.now }
    ensures { OnOk result (SaysOf told.now.source.now attributes.now out.old.items out.new.items) }
{
    push_reads(alloc, out, told, attributes)
}
