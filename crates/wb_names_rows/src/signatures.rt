//! Builds the signatures of the productions of a file and its base, by number, with their names as reports write them.

ghost use Rattle.std.specs.Prelude.{◌≡◌, ◌++◌, ◌∷◌, map, codes, slice_index_or, IfOk, OnOk, []};
ghost use Rattle.wb_syntax_resolved.specs.declared.production.Child.{Child};
ghost use Rattle.wb_syntax_resolved.specs.Numbered.{signature_of, value_kind as kind_of};
ghost use Rattle.wb_syntax_resolved.specs.Owners.{printed_name};

use std::alloc::{AllocError, Global};
use wb_base::{Bytes, Kind, push};
use wb_syntax_resolved::{Child, ChildKind, Production};
use wb_values::Signatures;

/// The signatures of productions, by number.
pub fn signatures_of(
    alloc: Global,
    extensions: &[Bytes],
    productions: &[Production],
) -> Result<Signatures, AllocError>
    ensures { IfOk result (λ made. made ≡ map (signature_of extensions.now) productions.now) }
{
    let mut made = Signatures::new(alloc);
    'productions: for production in productions {
        add_signature(alloc, extensions, production, &mut made)?;
    }
    Ok(made)
}

// Adds the signature of a production.
fn add_signature(
    alloc: Global,
    extensions: &[Bytes],
    production: &Production,
    made: &mut Signatures,
) -> Result<(), AllocError>
    ensures { OnOk result (made.new ≡ made.old ++ signature_of extensions.now production.now ∷ []) }
{
    let name = printed(
        alloc,
        extensions,
        production.owner,
        production.name.as_slice(),
    )?;
    add_named(alloc, &name, production, made)
}

// Adds the signature of a production that is printed so.
fn add_named(
    alloc: Global,
    name: &[u8],
    production: &Production,
    made: &mut Signatures,
) -> Result<(), AllocError>
    ensures { OnOk result (made.new ≡ made.old ++ record { name = name.now; left = production.now.left; children = map (λ (c : Child). kind_of c.kind) production.now.children } ∷ []) }
{
    let kinds = value_kinds(alloc, production.children.as_slice())?;
    made.add(name, production.left, &kinds)?;
    Ok(())
}

/// A name as reports write it.
pub fn printed(
    alloc: Global,
    extensions: &[Bytes],
    owner: usize,
    name: &[u8],
) -> Result<Vec<u8>, AllocError>
    ensures { IfOk result (λ text. text.items ≡ printed_name extensions.now owner name.now) }
{
    let mut text = Vec::new(alloc);
    if owner != 0 {
        add_prefix(extensions, owner - 1, &mut text)?;
    }
    text.extend_from_slice(name)?;
    Ok(text)
}

// Adds the name of an extension, and a colon.
fn add_prefix(extensions: &[Bytes], number: usize, text: &mut Vec<u8>) -> Result<(), AllocError>
    ensures { OnOk result (text.new.items ≡ text.old.items ++ (slice_index_or extensions.now number [] ++ codes ":")) }
{
    if let Some(extension) = extensions.get(number) {
        text.extend_from_slice(extension.as_slice())?;
    }
    push(text, b':')
}

// The kinds of children's values.
fn value_kinds(alloc: Global, children: &[Child]) -> Result<Vec<Kind>, AllocError>
    ensures { IfOk result (λ kinds. kinds.items ≡ map (λ (c : Child). kind_of c.kind) children.now) }
{
    let mut kinds = Vec::new(alloc);
    'children: for child in children {
        push(&mut kinds, value_kind(child.kind))?;
    }
    Ok(kinds)
}

// The kind of a child's value.
fn value_kind(kind: ChildKind) -> Kind
    ensures { result ≡ kind_of kind }
{
    match kind {
        ChildKind::Terminal(_) => Kind::Text,
        ChildKind::Value(is) => is,
    }
}
