//! Which rule of attributes does a report show, by names?

ghost use Rattle.std.specs.Prelude.{◌≡◌, IfOk, map, option_map, slice_get};
ghost use Rattle.wb_report.specs.declared.attribute_reason.AttributeReason.TheVariants as shown;
ghost use Rattle.wb_names_theory.specs.Declares.{name_in};
ghost use Rattle.wb_syntax_resolved.specs.declared.production.Child.{Child as Part};
ghost use Rattle.wb_syntax_resolved.specs.declared.production.Local.{Local as Made};
ghost use Rattle.wb_certify_shown.specs.Names as names;
ghost use Rattle.wb_certify_shown.specs.Shows as spec;

use crate::both::both;
use crate::names::{attribute_name, named, nonterminal_name, production_name};
use std::alloc::{AllocError, Global};
use wb_base::{Bytes, Sequence, push};
use wb_flow::{AttributeRefusal, Vertex};
use wb_report::{AttributeReason, Refusal, ShownVertex};
use wb_syntax_resolved::{Child, Local, Resolved};

// A rule of attributes; none for out of memory.
pub(crate) fn attribute_rule(
    alloc: Global,
    resolved: &Resolved,
    refusal: &AttributeRefusal,
) -> Result<Option<Refusal>, AllocError>
    ensures { IfOk result (λ shown. shown ≡ spec.of_attributes (spec.attribute_reason resolved.now refusal.now)) }
{
    let reason = match refusal {
        AttributeRefusal::StartInherits(attribute) => {
            AttributeReason::StartInherits(attribute_name(alloc, resolved, *attribute)?)
        }
        AttributeRefusal::NoForward(production) => {
            AttributeReason::NoForward(production_name(alloc, resolved, *production)?)
        }
        AttributeRefusal::NoEquation {
            production,
            attribute,
        } => no_equation(alloc, resolved, *production, *attribute)?,
        AttributeRefusal::NoInherited { production, vertex } => {
            return no_inherited(alloc, resolved, *production, *vertex);
        }
        AttributeRefusal::LacksForward {
            nonterminal,
            attribute,
            inherited,
        } => lacks_forward(alloc, resolved, *nonterminal, *attribute, *inherited)?,
        AttributeRefusal::Reads {
            production,
            attribute,
            inherited,
        } => reads(alloc, resolved, *production, *attribute, *inherited)?,
        AttributeRefusal::Cycle {
            production,
            vertices,
        } => cycle(alloc, resolved, *production, vertices.as_slice())?,
        AttributeRefusal::ForwardReads {
            production,
            attribute,
            inherited,
        } => forward_reads(alloc, resolved, *production, *attribute, *inherited)?,
        AttributeRefusal::NoMemory(_) => return Ok(None),
    };
    Ok(Some(Refusal::Attributes(reason)))
}

// A production without an equation for an attribute.
fn no_equation(
    alloc: Global,
    resolved: &Resolved,
    production: usize,
    attribute: usize,
) -> Result<AttributeReason, AllocError>
    ensures { IfOk result (λ made. made ≡ shown.NoEquation (names.production_shown resolved.now production) (names.attribute_shown resolved.now attribute)) }
{
    let (production, attribute) = both(
        production_name(alloc, resolved, production),
        attribute_name(alloc, resolved, attribute),
    )?;
    Ok(AttributeReason::NoEquation {
        production,
        attribute,
    })
}

// A production without an equation for an attribute of a child or local; none for another vertex.
fn no_inherited(
    alloc: Global,
    resolved: &Resolved,
    number: usize,
    vertex: Vertex,
) -> Result<Option<Refusal>, AllocError>
    ensures { IfOk result (λ shown. shown ≡ spec.of_attributes (spec.inherited_reason resolved.now number (slice_get resolved.now.attributes.productions number) vertex)) }
{
    let (production, shown) = both(
        production_name(alloc, resolved, number),
        vertex_of(alloc, resolved, number, vertex),
    )?;
    match shown {
        ShownVertex::Label { label, attribute } => {
            Ok(Some(Refusal::Attributes(AttributeReason::NoInherited {
                production,
                label,
                attribute,
            })))
        }
        other => {
            drop(production);
            drop(other);
            Ok(None)
        }
    }
}

// An attribute whose flow type lacks what a forward's has.
fn lacks_forward(
    alloc: Global,
    resolved: &Resolved,
    nonterminal: usize,
    attribute: usize,
    inherited: usize,
) -> Result<AttributeReason, AllocError>
    ensures { IfOk result (λ made. made ≡ shown.LacksForward (names.nonterminal_shown resolved.now nonterminal) (names.attribute_shown resolved.now attribute) (names.attribute_shown resolved.now inherited)) }
{
    let (nonterminal, (attribute, inherited)) = both(
        nonterminal_name(alloc, resolved, nonterminal),
        both(
            attribute_name(alloc, resolved, attribute),
            attribute_name(alloc, resolved, inherited),
        ),
    )?;
    Ok(AttributeReason::LacksForward {
        nonterminal,
        attribute,
        inherited,
    })
}

// An attribute, or the forwarded tree, that needs what isn't in its flow type.
fn reads(
    alloc: Global,
    resolved: &Resolved,
    production: usize,
    attribute: Option<usize>,
    inherited: usize,
) -> Result<AttributeReason, AllocError>
    ensures { IfOk result (λ made. made ≡ shown.Reads (names.production_shown resolved.now production) (option_map (names.attribute_shown resolved.now) attribute) (names.attribute_shown resolved.now inherited)) }
{
    let (production, (attribute, inherited)) = both(
        production_name(alloc, resolved, production),
        both(
            reader_name(alloc, resolved, attribute),
            attribute_name(alloc, resolved, inherited),
        ),
    )?;
    Ok(AttributeReason::Reads {
        production,
        attribute,
        inherited,
    })
}

// The name of an attribute, where it is one.
fn reader_name(
    alloc: Global,
    resolved: &Resolved,
    attribute: Option<usize>,
) -> Result<Option<Bytes>, AllocError>
    ensures { IfOk result (λ shown. shown ≡ option_map (names.attribute_shown resolved.now) attribute) }
{
    match attribute {
        Some(attribute) => Ok(Some(attribute_name(alloc, resolved, attribute)?)),
        None => Ok(None),
    }
}

// Vertices of a production each of which needs the next.
fn cycle(
    alloc: Global,
    resolved: &Resolved,
    number: usize,
    vertices: &[Vertex],
) -> Result<AttributeReason, AllocError>
    ensures { IfOk result (λ made. made ≡ shown.Cycle (names.production_shown resolved.now number) (map (spec.vertex_shown resolved.now (slice_get resolved.now.attributes.productions number)) vertices.now)) }
{
    let (production, vertices) = both(
        production_name(alloc, resolved, number),
        vertices_of(alloc, resolved, number, vertices),
    )?;
    Ok(AttributeReason::Cycle {
        production,
        vertices,
    })
}

// The equation for an attribute of the forwarded tree that needs too much.
fn forward_reads(
    alloc: Global,
    resolved: &Resolved,
    production: usize,
    attribute: usize,
    inherited: usize,
) -> Result<AttributeReason, AllocError>
    ensures { IfOk result (λ made. made ≡ shown.ForwardReads (names.production_shown resolved.now production) (names.attribute_shown resolved.now attribute) (names.attribute_shown resolved.now inherited)) }
{
    let (production, (attribute, inherited)) = both(
        production_name(alloc, resolved, production),
        both(
            attribute_name(alloc, resolved, attribute),
            attribute_name(alloc, resolved, inherited),
        ),
    )?;
    Ok(AttributeReason::ForwardReads {
        production,
        attribute,
        inherited,
    })
}

// Vertices of a production.
fn vertices_of(
    alloc: Global,
    resolved: &Resolved,
    number: usize,
    vertices: &[Vertex],
) -> Result<Sequence<ShownVertex>, AllocError>
    ensures { IfOk result (λ shown. shown ≡ map (spec.vertex_shown resolved.now (slice_get resolved.now.attributes.productions number)) vertices.now) }
{
    let mut made = Vec::new(alloc);
    'vertices: for &vertex in vertices {
        let shown = vertex_of(alloc, resolved, number, vertex)?;
        push(&mut made, shown)?;
    }
    Ok(Sequence::from_vec(made))
}

// A vertex of a production.
fn vertex_of(
    alloc: Global,
    resolved: &Resolved,
    number: usize,
    vertex: Vertex,
) -> Result<ShownVertex, AllocError>
    ensures { IfOk result (λ shown. shown ≡ spec.vertex_shown resolved.now (slice_get resolved.now.attributes.productions number) vertex) }
{
    match vertex {
        Vertex::Top(attribute) => Ok(ShownVertex::Top(attribute_name(alloc, resolved, attribute)?)),
        Vertex::Child(place, attribute) => {
            let (label, attribute) = both(
                child_label(resolved, number, place),
                attribute_name(alloc, resolved, attribute),
            )?;
            Ok(ShownVertex::Label { label, attribute })
        }
        Vertex::Local(place, attribute) => {
            let (label, attribute) = both(
                local_label(alloc, resolved, number, place),
                attribute_name(alloc, resolved, attribute),
            )?;
            Ok(ShownVertex::Label { label, attribute })
        }
        Vertex::Forward(attribute) => {
            Ok(ShownVertex::Forward(attribute_name(alloc, resolved, attribute)?))
        }
        Vertex::LocalTree(place) => {
            Ok(ShownVertex::LocalTree(local_label(alloc, resolved, number, place)?))
        }
        Vertex::ForwardTree => Ok(ShownVertex::ForwardTree),
    }
}

// The label of a child of a production, as its file writes it.
fn child_label(resolved: &Resolved, number: usize, place: usize) -> Result<Bytes, AllocError>
    ensures { IfOk result (λ label. label ≡ names.child_shown resolved.now (slice_get resolved.now.attributes.productions number) place) }
{
    let attributes = resolved.parts().attributes.parts();
    match attributes.productions.as_slice().get(number) {
        Some(production) => label_in(production.children.as_slice(), place),
        None => Ok(Bytes::empty()),
    }
}

// The label of a child.
fn label_in(children: &[Child], place: usize) -> Result<Bytes, AllocError>
    ensures { IfOk result (λ label. label ≡ name_in (λ (c : Part). c.label) (slice_get children.now place)) }
{
    match children.get(place) {
        Some(child) => child.label.copy(),
        None => Ok(Bytes::empty()),
    }
}

// The label of a local of a production, with the extension that it is of.
fn local_label(
    alloc: Global,
    resolved: &Resolved,
    number: usize,
    place: usize,
) -> Result<Bytes, AllocError>
    ensures { IfOk result (λ label. label ≡ names.local_shown resolved.now (slice_get resolved.now.attributes.productions number) place) }
{
    let attributes = resolved.parts().attributes.parts();
    match attributes.productions.as_slice().get(number) {
        Some(production) => local_in(alloc, resolved, production.locals.as_slice(), place),
        None => Ok(Bytes::empty()),
    }
}

// The label of a local, with the extension that it is of.
fn local_in(
    alloc: Global,
    resolved: &Resolved,
    locals: &[Local],
    place: usize,
) -> Result<Bytes, AllocError>
    ensures { IfOk result (λ label. label ≡ name_in (λ (l : Made). names.printed resolved.now l.owner l.label) (slice_get locals.now place)) }
{
    match locals.get(place) {
        Some(local) => named(alloc, resolved.parts(), local.owner, &local.label),
        None => Ok(Bytes::empty()),
    }
}
