//! How are productions, attributes and vertices named?
//!
//! As reports name them, with the extension of which they are; and as a file names them that declares or sees them.

ghost use Rattle.std.specs.Prelude.{◌≡◌, ◌++◌, [], OnOk, slice_get, slice_index_or};
ghost use lib.Chars.{codes};
ghost use Rattle.wb_explain_flows_lists.specs.Names.{attribute_text, child_text, dotted, local_named, local_text, own_attribute, own_nonterminal, own_production, own_vertex, vertex_named, vertex_text};
ghost use Rattle.wb_syntax_resolved.specs.Owners.{printed_name};

use std::alloc::AllocError;
use wb_base::Bytes;
use wb_flow::Vertex;
use wb_syntax_resolved::{Attribute, AttributionParts, Child, Local, Nonterminal, Production};

/// The name of an attribute in its owner's file.
pub fn own_attribute(parts: &AttributionParts, number: usize) -> &[u8]
    ensures { result.now ≡ own_attribute (slice_get parts.now.attributes number) }
{
    attribute_in(parts.attributes.as_slice(), number)
}

// The same, among these.
fn attribute_in(attributes: &[Attribute], number: usize) -> &[u8]
    ensures { result.now ≡ own_attribute (slice_get attributes.now number) }
{
    match attributes.get(number) {
        Some(attribute) => attribute.name.as_slice(),
        None => b"",
    }
}

// The name of a production in its owner's file.
pub(crate) fn own_production(parts: &AttributionParts, number: usize) -> &[u8]
    ensures { result.now ≡ own_production (slice_get parts.now.productions number) }
{
    production_in(parts.productions.as_slice(), number)
}

// The same, among these.
fn production_in(productions: &[Production], number: usize) -> &[u8]
    ensures { result.now ≡ own_production (slice_get productions.now number) }
{
    match productions.get(number) {
        Some(production) => production.name.as_slice(),
        None => b"",
    }
}

/// The name of a nonterminal in its owner's file.
pub fn own_nonterminal(parts: &AttributionParts, number: usize) -> &[u8]
    ensures { result.now ≡ own_nonterminal (slice_get parts.now.nonterminals number) }
{
    nonterminal_in(parts.nonterminals.as_slice(), number)
}

// The same, among these.
fn nonterminal_in(nonterminals: &[Nonterminal], number: usize) -> &[u8]
    ensures { result.now ≡ own_nonterminal (slice_get nonterminals.now number) }
{
    match nonterminals.get(number) {
        Some(nonterminal) => nonterminal.name.as_slice(),
        None => b"",
    }
}

/// Appends a vertex of a production.
pub fn push_vertex(
    out: &mut Vec<u8>,
    parts: &AttributionParts,
    production: &Production,
    vertex: Vertex,
) -> Result<(), AllocError>
    ensures { OnOk result (out.new.items ≡ out.old.items ++ vertex_text parts.now production.now vertex) }
{
    match vertex {
        Vertex::Top(attribute) => push_dotted(out, parts, b"top", attribute),
        Vertex::Child(child, attribute) => push_dotted(
            out,
            parts,
            child_label(production.children.as_slice(), child),
            attribute,
        ),
        Vertex::Local(local, attribute) => push_of_local(out, parts, production, local, attribute),
        Vertex::Forward(attribute) => push_dotted(out, parts, b"forward", attribute),
        Vertex::LocalTree(local) => push_local(
            out,
            parts.extensions.as_slice(),
            production.locals.as_slice(),
            local,
        ),
        Vertex::ForwardTree => out.extend_from_slice(b"forward"),
    }
}

// The label of a child.
fn child_label(children: &[Child], child: usize) -> &[u8]
    ensures { result.now ≡ child_text (slice_get children.now child) }
{
    match children.get(child) {
        Some(child) => child.label.as_slice(),
        None => b"",
    }
}

// Appends an attribute of a local.
fn push_of_local(
    out: &mut Vec<u8>,
    parts: &AttributionParts,
    production: &Production,
    local: usize,
    attribute: usize,
) -> Result<(), AllocError>
    ensures { OnOk result (out.new.items ≡ out.old.items ++ (local_text parts.now.extensions (slice_get production.now.locals local) ++ dotted parts.now attribute)) }
{
    push_local(
        out,
        parts.extensions.as_slice(),
        production.locals.as_slice(),
        local,
    )?;
    out.extend_from_slice(b".")?;
    push_attribute(out, parts, attribute)
}

// Appends the label of a local.
fn push_local(
    out: &mut Vec<u8>,
    extensions: &[Bytes],
    locals: &[Local],
    local: usize,
) -> Result<(), AllocError>
    ensures { OnOk result (out.new.items ≡ out.old.items ++ local_text extensions.now (slice_get locals.now local)) }
{
    match locals.get(local) {
        Some(local) => push_printed(out, extensions, local.owner, local.label.as_slice()),
        None => Ok(()),
    }
}

// Appends an attribute of something.
fn push_dotted(
    out: &mut Vec<u8>,
    parts: &AttributionParts,
    label: &[u8],
    attribute: usize,
) -> Result<(), AllocError>
    ensures { OnOk result (out.new.items ≡ out.old.items ++ (label.now ++ dotted parts.now attribute)) }
{
    out.extend_from_slice(label)?;
    out.extend_from_slice(b".")?;
    push_attribute(out, parts, attribute)
}

// Appends the name of an attribute.
fn push_attribute(
    out: &mut Vec<u8>,
    parts: &AttributionParts,
    number: usize,
) -> Result<(), AllocError>
    ensures { OnOk result (out.new.items ≡ out.old.items ++ attribute_text parts.now.extensions (slice_get parts.now.attributes number)) }
{
    push_attribute_in(
        out,
        parts.extensions.as_slice(),
        parts.attributes.as_slice(),
        number,
    )
}

// The same, among these.
fn push_attribute_in(
    out: &mut Vec<u8>,
    extensions: &[Bytes],
    attributes: &[Attribute],
    number: usize,
) -> Result<(), AllocError>
    ensures { OnOk result (out.new.items ≡ out.old.items ++ attribute_text extensions.now (slice_get attributes.now number)) }
{
    match attributes.get(number) {
        Some(attribute) => push_printed(
            out,
            extensions,
            attribute.owner,
            attribute.name.as_slice(),
        ),
        None => Ok(()),
    }
}

// Appends a name with the extension of which it is.
fn push_printed(
    out: &mut Vec<u8>,
    extensions: &[Bytes],
    owner: usize,
    name: &[u8],
) -> Result<(), AllocError>
    ensures { OnOk result (out.new.items ≡ out.old.items ++ printed_name extensions.now owner name.now) }
{
    if owner != 0 {
        push_prefix(out, extensions, owner - 1)?;
    }
    out.extend_from_slice(name)
}

// Appends the name of an extension, and a colon.
fn push_prefix(out: &mut Vec<u8>, extensions: &[Bytes], number: usize) -> Result<(), AllocError>
    ensures { OnOk result (out.new.items ≡ out.old.items ++ (slice_index_or extensions.now number [] ++ codes ":")) }
{
    if let Some(extension) = extensions.get(number) {
        out.extend_from_slice(extension.as_slice())?;
    }
    out.extend_from_slice(b":")
}

// Appends an attribute of a child or local of a production, as the file names it that sees it.
pub(crate) fn push_own_vertex(
    out: &mut Vec<u8>,
    parts: &AttributionParts,
    number: usize,
    vertex: Vertex,
) -> Result<(), AllocError>
    ensures { OnOk result (out.new.items ≡ out.old.items ++ own_vertex parts.now (slice_get parts.now.productions number) vertex) }
{
    push_own_in(out, parts, parts.productions.as_slice(), number, vertex)
}

// The same, among these.
fn push_own_in(
    out: &mut Vec<u8>,
    parts: &AttributionParts,
    productions: &[Production],
    number: usize,
    vertex: Vertex,
) -> Result<(), AllocError>
    ensures { OnOk result (out.new.items ≡ out.old.items ++ own_vertex parts.now (slice_get productions.now number) vertex) }
{
    match productions.get(number) {
        Some(production) => push_own(out, parts, production, vertex),
        None => Ok(()),
    }
}

// The same, where the production is there.
fn push_own(
    out: &mut Vec<u8>,
    parts: &AttributionParts,
    production: &Production,
    vertex: Vertex,
) -> Result<(), AllocError>
    ensures { OnOk result (out.new.items ≡ out.old.items ++ vertex_named parts.now production.now vertex) }
{
    match vertex {
        Vertex::Child(child, attribute) => push_own_dotted(
            out,
            parts,
            child_label(production.children.as_slice(), child),
            attribute,
        ),
        Vertex::Local(local, attribute) => push_own_dotted(
            out,
            parts,
            local_label(production.locals.as_slice(), local),
            attribute,
        ),
        _ => Ok(()),
    }
}

// The label of a local.
fn local_label(locals: &[Local], local: usize) -> &[u8]
    ensures { result.now ≡ local_named (slice_get locals.now local) }
{
    match locals.get(local) {
        Some(local) => local.label.as_slice(),
        None => b"",
    }
}

// Appends an attribute of something.
fn push_own_dotted(
    out: &mut Vec<u8>,
    parts: &AttributionParts,
    label: &[u8],
    attribute: usize,
) -> Result<(), AllocError>
    ensures { OnOk result (out.new.items ≡ out.old.items ++ (label.now ++ codes "." ++ own_attribute (slice_get parts.now.attributes attribute))) }
{
    out.extend_from_slice(label)?;
    out.extend_from_slice(b".")?;
    out.extend_from_slice(own_attribute(parts, attribute))
}
