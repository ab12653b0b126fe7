//! How is an attribute of a node shown? By its printed name, by the production of the node or by what makes it, and by its place in the text.

ghost use Rattle.std.specs.Prelude.{◌≡◌, ◌++◌, [], OnOk, slice_get, slice_index_or};
ghost use lib.Chars.{codes};
ghost use Rattle.wb_syntax_resolved.specs.Owners.{printed_name};
ghost use Rattle.wb_explain_instances.specs.Inner.Lines.{HasLine};
ghost use Rattle.wb_explain_instances.specs.Said.{attribute_shown, subject};

use crate::Shown;
use crate::position::{made_above, origin_of, push_position};
use crate::shown::production_at;
use crate::writing::push_text;
use std::alloc::{AllocError, Global};
use wb_base::Bytes;
use wb_eval::Key;
use wb_eval_memo::{Origin, Step};
use wb_syntax_resolved::{Attribute, AttributionParts, Production};

// Appends the line of an attribute, or of the tree of a local or forward.
pub(crate) fn push_line(
    alloc: Global,
    out: &mut Vec<u8>,
    shown: &Shown<'_>,
    key: Key,
) -> Result<(), AllocError>
    ensures { OnOk result (HasLine shown.now.attributes.now key out.old.items out.new.items) }
{
    let rest = rest_of(alloc, shown, key)?;
    let answer = push_parts(out, shown.attributes, key, &rest);
    drop(rest);
    answer
}

// Appends what it is, and what comes after it.
fn push_parts(
    out: &mut Vec<u8>,
    attributes: &AttributionParts,
    key: Key,
    rest: &[u8],
) -> Result<(), AllocError>
    ensures { OnOk result (out.new.items ≡ out.old.items ++ codes "    " ++ subject attributes.now key ++ rest.now) }
{
    out.extend_from_slice(b"    ")?;
    push_subject(out, attributes, key)?;
    out.extend_from_slice(rest)
}

// Appends the printed name of an attribute, or that it is a tree.
fn push_subject(
    out: &mut Vec<u8>,
    attributes: &AttributionParts,
    key: Key,
) -> Result<(), AllocError>
    ensures { OnOk result (out.new.items ≡ out.old.items ++ subject attributes.now key) }
{
    match key {
        Key::Synthesized { site: _, attribute } => push_attribute(out, attributes, attribute),
        Key::Inherited { site: _, attribute } => push_attribute(out, attributes, attribute),
        Key::Tree { site: _ } => out.extend_from_slice(b"the tree"),
    }
}

// Appends the printed name of an attribute.
pub(crate) fn push_attribute(
    out: &mut Vec<u8>,
    attributes: &AttributionParts,
    number: usize,
) -> Result<(), AllocError>
    ensures { OnOk result (out.new.items ≡ out.old.items ++ attribute_shown attributes.now.extensions (slice_get attributes.now.attributes number)) }
{
    match attributes.attributes.as_slice().get(number) {
        Some(attribute) => push_printed(out, attributes.extensions.as_slice(), attribute),
        None => Ok(()),
    }
}

// Appends an attribute as it is printed.
fn push_printed(
    out: &mut Vec<u8>,
    extensions: &[Bytes],
    attribute: &Attribute,
) -> Result<(), AllocError>
    ensures { OnOk result (out.new.items ≡ out.old.items ++ printed_name extensions.now attribute.now.owner attribute.now.name) }
{
    if attribute.owner != 0 {
        push_prefix(out, extensions, attribute.owner - 1)?;
    }
    out.extend_from_slice(attribute.name.as_slice())
}

// Appends the name of an extension, and a colon.
fn push_prefix(out: &mut Vec<u8>, extensions: &[Bytes], number: usize) -> Result<(), AllocError>
    ensures { OnOk result (out.new.items ≡ out.old.items ++ (slice_index_or extensions.now number [] ++ codes ":")) }
{
    if let Some(extension) = extensions.get(number) {
        out.extend_from_slice(extension.as_slice())?;
    }
    out.extend_from_slice(b":")
}

// What comes after that on the line.
fn rest_of(alloc: Global, shown: &Shown<'_>, key: Key) -> Result<Vec<u8>, AllocError> {
    let mut rest = Vec::new(alloc);
    match push_rest(&mut rest, shown, key) {
        Ok(()) => Ok(rest),
        Err(error) => {
            drop(rest);
            Err(error)
        }
    }
}

// Appends that.
fn push_rest(out: &mut Vec<u8>, shown: &Shown<'_>, key: Key) -> Result<(), AllocError> {
    push_text(out, " of ")?;
    match key {
        Key::Synthesized { site, attribute: _ } => push_node(out, shown, site)?,
        Key::Inherited { site, attribute: _ } => push_node(out, shown, site)?,
        Key::Tree { site } => push_made_at(out, shown, site)?,
    }
    let site = match key {
        Key::Synthesized { site, attribute: _ } => site,
        Key::Inherited { site, attribute: _ } => site,
        Key::Tree { site } => site,
    };
    push_position(out, shown, site)?;
    push_text(out, "\n")
}

// Appends what the node of a site is: its production, and what makes the tree that it is in, unless that is the tree of the root.
fn push_node(out: &mut Vec<u8>, shown: &Shown<'_>, site: usize) -> Result<(), AllocError> {
    let Some(production) = production_at(shown, site) else {
        return push_made_at(out, shown, site);
    };
    push_production(out, shown, production)?;
    match made_above(shown, site) {
        Some(origin) => {
            push_text(out, ", in ")?;
            push_made(out, shown, origin)
        }
        None => Ok(()),
    }
}

// Appends what makes the tree of a site.
fn push_made_at(out: &mut Vec<u8>, shown: &Shown<'_>, site: usize) -> Result<(), AllocError> {
    match origin_of(shown, site) {
        Some(origin) => push_made(out, shown, origin),
        None => push_text(out, "a tree"),
    }
}

// Appends what makes a tree that is reached so.
fn push_made(out: &mut Vec<u8>, shown: &Shown<'_>, origin: Origin) -> Result<(), AllocError> {
    let Some(production) = production_at(shown, origin.parent as usize) else {
        return push_text(out, "a tree");
    };
    match origin.step {
        Step::Local(local) => push_local(out, shown, production, local as usize),
        Step::Forward => {
            push_text(out, "what ")?;
            push_production(out, shown, production)?;
            push_text(out, " forwards to")
        }
        Step::Child(_) => push_production(out, shown, production),
    }
}

// Appends a local of a production.
fn push_local(
    out: &mut Vec<u8>,
    shown: &Shown<'_>,
    production: &Production,
    number: usize,
) -> Result<(), AllocError> {
    push_text(out, "local ")?;
    if let Some(local) = production.locals.as_slice().get(number) {
        out.extend_from_slice(local.label.as_slice())?;
        push_text(out, " of ")?;
    }
    push_production(out, shown, production)
}

// Appends the printed name of a production.
fn push_production(
    out: &mut Vec<u8>,
    shown: &Shown<'_>,
    production: &Production,
) -> Result<(), AllocError> {
    let extensions = shown.attributes.extensions.as_slice();
    if production.owner != 0 {
        push_prefix(out, extensions, production.owner - 1)?;
    }
    out.extend_from_slice(production.name.as_slice())
}
