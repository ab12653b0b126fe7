//! Which productions lack an equation for an attribute of their left side?
//!
//! All of them, as aspects to paste: a report shows one.

ghost use Rattle.std.specs.Prelude.{◌≡◌, ◌↔◌, ◌⊎◌, ◌++◌, Contains, IfOk, OnOk};
ghost use Rattle.wb_flow.specs.Adding.{Adds};
ghost use Rattle.wb_flow.specs.Occurrences.{IsIndexOf};
ghost use Rattle.wb_flow.specs.Rules.{IsDefined};
ghost use Rattle.wb_flow.specs.declared.vertex.Vertex.{Vertex as Point};
ghost use Rattle.wb_explain_flows_lists.specs.declared.missing.Missing.{Missing as Row};
ghost use Rattle.wb_explain_flows_lists.specs.Inner.Found.{IsMissingOf, IsMissingFor};
ghost use Rattle.wb_explain_flows_lists.specs.Lists.{HasText};
ghost use Rattle.wb_explain_flows_lists.specs.Missing.{IsMissing, IsAspect, SaysMissing, aspect_text};

use crate::files::push_line;
use crate::lists::{Listed, push_found};
use crate::names::{own_attribute, own_nonterminal, own_production};
use crate::told::Told;
use crate::writing::push_text;
use std::alloc::{AllocError, Global};
use wb_base::{Kind, push};
use wb_flow::{Scope, Vertex, VertexSet, defined_vertices};
use wb_syntax_resolved::{AttributionParts, Production};

// That a production has no equation for an attribute.
#[derive(Clone, Copy)]
pub(crate) struct Missing {
    pub(crate) production: usize,
    pub(crate) attribute: usize,
}

impl Listed for Missing {
    ghost IsText = { IsAspect };

    fn push(&self, alloc: Global, out: &mut Vec<u8>, told: &Told<'_>) -> Result<(), AllocError> {
        push_aspect(alloc, out, told, *self)
    }
}

// What comes before them.
static HEADING: &str =
    "\nEvery equation of a left side that is missing, to paste, with an expression in\nthe place of the dots. After it come its kind and where the production is.\n\n";

/// Appends every equation of a left side that is missing, as an aspect to paste.
pub fn push_missing(alloc: Global, out: &mut Vec<u8>, told: &Told<'_>) -> Result<(), AllocError>
    requires index { IsIndexOf told.now.scope.now.attributes.now.occurrences told.now.scope.now.index.now }
    ensures { OnOk result ((out.new.items ≡ out.old.items) ⊎ SaysMissing told.now.scope.now.attributes.now out.old.items out.new.items) }
{
    let found = all_missing(alloc, told.scope)?;
    let answer = push_found(alloc, out, told, HEADING, &found);
    drop(found);
    answer
}

// All that are missing.
fn all_missing(alloc: Global, scope: &Scope) -> Result<Vec<Missing>, AllocError>
    requires { IsIndexOf scope.now.attributes.now.occurrences scope.now.index.now }
    ensures { IfOk result (λ found. (m : Row) → Contains found.items m ↔ IsMissing scope.now.attributes.now m) }
{
    let mut found = Vec::new(alloc);
    match add_all(alloc, &mut found, scope) {
        Ok(()) => Ok(found),
        Err(error) => {
            drop(found);
            Err(error)
        }
    }
}

// Adds all that are missing.
fn add_all(alloc: Global, found: &mut Vec<Missing>, scope: &Scope) -> Result<(), AllocError>
    requires { IsIndexOf scope.now.attributes.now.occurrences scope.now.index.now }
    ensures { OnOk result (Adds found.old.items found.new.items (IsMissing scope.now.attributes.now)) }
{
    let productions = scope.attributes.productions.as_slice();
    'productions: for number in 0..productions.len() {
        add_of(alloc, found, scope, number, &productions[number])?;
    }
    Ok(())
}

// Adds those that a production lacks.
fn add_of(
    alloc: Global,
    found: &mut Vec<Missing>,
    scope: &Scope,
    number: usize,
    production: &Production,
) -> Result<(), AllocError>
    requires { IsIndexOf scope.now.attributes.now.occurrences scope.now.index.now }
    ensures { OnOk result (Adds found.old.items found.new.items (IsMissingOf scope.now.attributes.now number production.now)) }
{
    match &production.forward {
        Some(_) => Ok(()),
        None => add_unforwarded(alloc, found, scope, number, production),
    }
}

// Adds those of a production that doesn't forward.
fn add_unforwarded(
    alloc: Global,
    found: &mut Vec<Missing>,
    scope: &Scope,
    number: usize,
    production: &Production,
) -> Result<(), AllocError>
    requires forward { production.now.forward ≡ None }
    requires index { IsIndexOf scope.now.attributes.now.occurrences scope.now.index.now }
    ensures { OnOk result (Adds found.old.items found.new.items (IsMissingOf scope.now.attributes.now number production.now)) }
{
    let defined = defined_vertices(alloc, production)?;
    let answer = add_undefined(found, scope, number, production, &defined);
    drop(defined);
    answer
}

// The same, where it is given for what it has equations.
fn add_undefined(
    found: &mut Vec<Missing>,
    scope: &Scope,
    number: usize,
    production: &Production,
    defined: &VertexSet,
) -> Result<(), AllocError>
    requires forward { production.now.forward ≡ None }
    requires index { IsIndexOf scope.now.attributes.now.occurrences scope.now.index.now }
    requires defined { (v : Point) → Contains defined.now v ↔ IsDefined production.now v }
    ensures { OnOk result (Adds found.old.items found.new.items (IsMissingOf scope.now.attributes.now number production.now)) }
{
    'occurrences: for &place in scope.index.on(production.left) {
        let attribute = scope.occurrence(place).attribute;
        add_one(
            found,
            scope,
            defined,
            Missing {
                production: number,
                attribute,
            },
        )?;
    }
    Ok(())
}

// Adds one, where the attribute is synthesized and has no equation.
fn add_one(
    found: &mut Vec<Missing>,
    scope: &Scope,
    defined: &VertexSet,
    one: Missing,
) -> Result<(), AllocError>
    ensures { OnOk result (Adds found.old.items found.new.items (IsMissingFor scope.now.attributes.now defined.now one)) }
{
    if !scope.is_synthesized(one.attribute) {
        return Ok(());
    }
    if defined.contains(Vertex::Top(one.attribute)) {
        return Ok(());
    }
    push(found, one)
}

// Appends an aspect.
fn push_aspect(
    alloc: Global,
    out: &mut Vec<u8>,
    told: &Told<'_>,
    one: Missing,
) -> Result<(), AllocError>
    ensures { OnOk result (HasText (IsAspect told.now.scope.now.attributes.now one) out.old.items out.new.items) }
{
    let more = after(alloc, told, one)?;
    let answer = push_parts(out, told.scope.attributes, one, &more);
    drop(more);
    answer
}

// Appends an aspect, and what comes after it.
fn push_parts(
    out: &mut Vec<u8>,
    parts: &AttributionParts,
    one: Missing,
    more: &[u8],
) -> Result<(), AllocError>
    ensures { OnOk result (out.new.items ≡ out.old.items ++ (aspect_text parts.now one ++ more.now)) }
{
    out.extend_from_slice(b"    aspect ")?;
    out.extend_from_slice(own_production(parts, one.production))?;
    out.extend_from_slice(b" { top.")?;
    out.extend_from_slice(own_attribute(parts, one.attribute))?;
    out.extend_from_slice(b" = ..; }")?;
    out.extend_from_slice(more)
}

// What comes after an aspect on its line.
fn after(alloc: Global, told: &Told<'_>, one: Missing) -> Result<Vec<u8>, AllocError> {
    let mut more = Vec::new(alloc);
    match push_after(&mut more, told, one.production, one.attribute) {
        Ok(()) => Ok(more),
        Err(error) => {
            drop(more);
            Err(error)
        }
    }
}

// Appends the kind of an attribute, and where a production is.
pub(crate) fn push_after(
    out: &mut Vec<u8>,
    told: &Told<'_>,
    production: usize,
    attribute: usize,
) -> Result<(), AllocError> {
    let parts = told.scope.attributes;
    push_text(out, "  // ")?;
    push_kind(out, parts, attribute)?;
    if let Some(row) = parts.productions.as_slice().get(production) {
        push_line(out, told.source, row.owner, row.name.as_slice())?;
    }
    push_text(out, "\n")
}

// Appends the kind of an attribute.
pub(crate) fn push_kind(
    out: &mut Vec<u8>,
    parts: &AttributionParts,
    attribute: usize,
) -> Result<(), AllocError> {
    let Some(row) = parts.attributes.as_slice().get(attribute) else {
        return Ok(());
    };
    match row.kind {
        Kind::Int => push_text(out, "int"),
        Kind::Bool => push_text(out, "bool"),
        Kind::Text => push_text(out, "text"),
        Kind::Tree(nonterminal) => out.extend_from_slice(own_nonterminal(parts, nonterminal)),
    }
}
