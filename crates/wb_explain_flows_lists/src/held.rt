//! Which flow types lack what the flow types of forwards have?
//!
//! All of them, as lines to paste: a report shows one.

ghost use Rattle.std.specs.Prelude.{◌≡◌, ◌⊎◌, ◌++◌, Contains, IfOk, IfSome, OnOk};
ghost use Rattle.wb_syntax_resolved.specs.Attribution.{IsAttribution};
ghost use Rattle.wb_explain_flows_lists.specs.Held.{AreUnheld, IsUnheldText, SaysUnheld, unheld_text};
ghost use Rattle.wb_explain_flows_lists.specs.Inner.Spots.{KeepsUnheld};
ghost use Rattle.wb_explain_flows_lists.specs.Lists.{HasText};

use crate::lists::{Listed, push_found};
use crate::names::{own_attribute, own_nonterminal};
use crate::told::Told;
use crate::writing::push_text;
use std::alloc::{AllocError, Global};
use wb_base::push;
use wb_flow::Scope;
use wb_syntax_resolved::{AttributionParts, Occurrence};

// An attribute on a nonterminal, and what its flow type lacks that the flow type of the nonterminal's forward has.
#[derive(Clone, Copy)]
pub(crate) struct Unheld {
    pub(crate) attribute: usize,
    pub(crate) nonterminal: usize,
    pub(crate) inherited: usize,
}

impl Listed for Unheld {
    ghost IsText = { IsUnheldText };

    fn push(&self, alloc: Global, out: &mut Vec<u8>, told: &Told<'_>) -> Result<(), AllocError> {
        push_one(alloc, out, told, *self)
    }
}

// What comes before them.
static HEADING: &str =
    "\nEvery  occurs  whose  needs  lacks what a  forward on  has, with all that it has to\nhave, to paste in the place of what is there:\n\n";

/// Appends every flow type that lacks something that the flow type of a forward has, as a line to paste.
pub fn push_unheld(alloc: Global, out: &mut Vec<u8>, told: &Told<'_>) -> Result<(), AllocError>
    requires { IsAttribution told.now.scope.now.attributes.now }
    ensures { OnOk result ((out.new.items ≡ out.old.items) ⊎ SaysUnheld told.now.scope.now.attributes.now out.old.items out.new.items) }
{
    let found = all_unheld(alloc, told.scope)?;
    let answer = push_found(alloc, out, told, HEADING, &found);
    drop(found);
    answer
}

// All of them.
fn all_unheld(alloc: Global, scope: &Scope) -> Result<Vec<Unheld>, AllocError>
    requires { IsAttribution scope.now.attributes.now }
    ensures { IfOk result (λ found. AreUnheld scope.now.attributes.now found.items) }
{
    let mut found = Vec::new(alloc);
    match add_all(&mut found, scope) {
        Ok(()) => Ok(found),
        Err(error) => {
            drop(found);
            Err(error)
        }
    }
}

// Adds all of them.
fn add_all(found: &mut Vec<Unheld>, scope: &Scope) -> Result<(), AllocError>
    requires { IsAttribution scope.now.attributes.now }
    ensures { OnOk result (KeepsUnheld scope.now.attributes.now found.old.items found.new.items) }
{
    'occurrences: for occurrence in scope.attributes.occurrences.as_slice() {
        add_one(found, scope, occurrence)?;
    }
    Ok(())
}

// Adds that of an occurrence, where it lacks something.
fn add_one(
    found: &mut Vec<Unheld>,
    scope: &Scope,
    occurrence: &Occurrence,
) -> Result<(), AllocError>
    requires attribution { IsAttribution scope.now.attributes.now }
    requires listed { Contains scope.now.attributes.now.occurrences occurrence.now }
    ensures { OnOk result (KeepsUnheld scope.now.attributes.now found.old.items found.new.items) }
{
    if !scope.is_synthesized(occurrence.attribute) {
        return Ok(());
    }
    let wanted = scope.forward_needs(occurrence.nonterminal);
    match lacking(wanted, occurrence.needs.as_slice()) {
        Some(inherited) => push(
            found,
            Unheld {
                attribute: occurrence.attribute,
                nonterminal: occurrence.nonterminal,
                inherited,
            },
        ),
        None => Ok(()),
    }
}

// One of these that isn't among the others.
fn lacking(wanted: &[usize], listed: &[usize]) -> Option<usize>
    ensures { IfSome result (λ i. Contains wanted.now i × ¬ Contains listed.now i) }
{
    'wanted: for &number in wanted {
        if !listed.contains(&number) {
            return Some(number);
        }
    }
    None
}

// Appends a line.
fn push_one(
    alloc: Global,
    out: &mut Vec<u8>,
    told: &Told<'_>,
    one: Unheld,
) -> Result<(), AllocError>
    ensures { OnOk result (HasText (IsUnheldText told.now.scope.now.attributes.now one) out.old.items out.new.items) }
{
    let more = after(alloc, told.scope, one)?;
    let answer = push_parts(out, told.scope.attributes, one, &more);
    drop(more);
    answer
}

// Appends an attribute on a nonterminal, and what it needs.
fn push_parts(
    out: &mut Vec<u8>,
    parts: &AttributionParts,
    one: Unheld,
    more: &[u8],
) -> Result<(), AllocError>
    ensures { OnOk result (out.new.items ≡ out.old.items ++ (unheld_text parts.now one ++ more.now)) }
{
    out.extend_from_slice(b"    occurs ")?;
    out.extend_from_slice(own_attribute(parts, one.attribute))?;
    out.extend_from_slice(b" on ")?;
    out.extend_from_slice(own_nonterminal(parts, one.nonterminal))?;
    out.extend_from_slice(b" needs { ")?;
    out.extend_from_slice(more)
}

// What an attribute on a nonterminal has to need.
fn after(alloc: Global, scope: &Scope, one: Unheld) -> Result<Vec<u8>, AllocError> {
    let mut more = Vec::new(alloc);
    match push_after(&mut more, scope, one) {
        Ok(()) => Ok(more),
        Err(error) => {
            drop(more);
            Err(error)
        }
    }
}

// Appends it.
fn push_after(out: &mut Vec<u8>, scope: &Scope, one: Unheld) -> Result<(), AllocError> {
    let parts = scope.attributes;
    let wanted = scope.forward_needs(one.nonterminal);
    push_names(out, parts, wanted)?;
    'occurrences: for occurrence in parts.occurrences.as_slice() {
        if occurrence.attribute == one.attribute && occurrence.nonterminal == one.nonterminal {
            push_others(out, parts, occurrence.needs.as_slice(), wanted)?;
        }
    }
    push_text(out, " };\n")
}

// Appends the names of attributes, with commas between them.
fn push_names(
    out: &mut Vec<u8>,
    parts: &AttributionParts,
    attributes: &[usize],
) -> Result<(), AllocError> {
    'attributes: for place in 0..attributes.len() {
        if place > 0 {
            push_text(out, ", ")?;
        }
        out.extend_from_slice(own_attribute(parts, attributes[place]))?;
    }
    Ok(())
}

// Appends the names of attributes that aren't among the others, each after a comma.
fn push_others(
    out: &mut Vec<u8>,
    parts: &AttributionParts,
    attributes: &[usize],
    others: &[usize],
) -> Result<(), AllocError> {
    'attributes: for &attribute in attributes {
        if !others.contains(&attribute) {
            push_text(out, ", ")?;
            out.extend_from_slice(own_attribute(parts, attribute))?;
        }
    }
    Ok(())
}
