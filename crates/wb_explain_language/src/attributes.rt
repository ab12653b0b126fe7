//! Which attributes can be asked at the root of a text?
//!
//! Those that may be are looked for among all that occur on the start, and each is asked for by its name before it is listed.

ghost use Rattle.std.specs.Prelude.{◌≡◌, ◌++◌, IfOk, MatchOption, OnOk};
ghost use lib.Chars.{codes};
ghost use Rattle.wb_compose_files.specs.Composed.{IsOfUnion};
ghost use Rattle.wb_compose_files.specs.Roots.{HasNoRootAttribute, IsRootAttribute};
ghost use Rattle.wb_compose_files.specs.Unions.{all_resolved};
ghost use Rattle.wb_explain_language.specs.Inner.Asked.{AddsAsked, HasAsked};
ghost use Rattle.wb_explain_language.specs.Asked.{HasEnd, ListsAsked, SaysAsked};

use crate::certified::certified_of;
use std::alloc::{AllocError, Global};
use wb_base::{Bytes, push};
use wb_compose_files::{Certified, composed_attributes, root_attribute};
use wb_names_rows::signatures::printed;
use wb_operations::{Meaning, OperationTable};
use wb_syntax_resolved::{Attribution, AttributionParts, Direction};

// The most attributes that are listed.
const MOST: usize = 40;

/// Appends the names of the attributes that can be asked at the root of a text of these files, as `--attr` wants them written. Nothing where
/// one of the files isn't certified, or no attribute can be asked.
///
/// `files` are the contents of the host's file and of the extensions' files, in their order. All of them are certified once more, and 40
/// attributes are listed at most. The only error is out of memory.
pub fn push_attributes_in<M: Meaning>(
    alloc: Global,
    out: &mut Vec<u8>,
    operations: &OperationTable<M>,
    files: &[Bytes],
) -> Result<(), AllocError>
    ensures { OnOk result (SaysAsked operations.now.signatures files.now out.old.items out.new.items) }
{
    match certified_of(alloc, operations, files) {
        Some(certified) => {
            let answer = push_of(alloc, out, &certified);
            certified.release();
            answer
        }
        None => Ok(()),
    }
}

// Appends the attributes that can be asked of a host with extensions.
fn push_of(alloc: Global, out: &mut Vec<u8>, certified: &Certified) -> Result<(), AllocError>
    ensures { OnOk result (ListsAsked certified.now out.old.items out.new.items) }
{
    let attributes = composed_attributes(
        alloc,
        certified.certified_host(),
        certified.extensions(),
    )?;
    let answer = push_those(alloc, out, certified, &attributes);
    attributes.release();
    answer
}

// Appends those of these attributes.
fn push_those(
    alloc: Global,
    out: &mut Vec<u8>,
    certified: &Certified,
    attributes: &Attribution,
) -> Result<(), AllocError>
    requires { IsOfUnion certified.now.host.resolved certified.now.host.operations (all_resolved certified.now.extensions) attributes.now }
    ensures { OnOk result (ListsAsked certified.now out.old.items out.new.items) }
{
    let mut numbers = Vec::new(alloc);
    match add_free(certified, attributes.parts(), &mut numbers) {
        Ok(()) => {
            let answer = push_some(alloc, out, certified, attributes, &numbers);
            drop(numbers);
            answer
        }
        Err(error) => {
            drop(numbers);
            Err(error)
        }
    }
}

// Adds the numbers of the attributes that occur on the start, are synthesized there and need nothing, at most one more than are listed.
fn add_free(
    certified: &Certified,
    parts: &AttributionParts,
    numbers: &mut Vec<usize>,
) -> Result<(), AllocError> {
    let Some(start) = start_of(certified) else {
        return Ok(());
    };
    'occurrences: for occurrence in parts.occurrences.as_slice() {
        if occurrence.nonterminal == start
            && occurrence.needs.is_empty()
            && is_synthesized(parts, occurrence.attribute)
            && numbers.len() <= MOST
        {
            push(numbers, occurrence.attribute)?;
        }
    }
    Ok(())
}

// The start of a host.
fn start_of(certified: &Certified) -> Option<usize> {
    match &certified.certified_host().resolved().parts().grammar {
        Some(grammar) => Some(grammar.start()),
        None => None,
    }
}

// Whether the values of an attribute go up.
fn is_synthesized(parts: &AttributionParts, attribute: usize) -> bool {
    match parts.attributes.as_slice().get(attribute) {
        Some(row) => goes_up(row.direction),
        None => false,
    }
}

// Whether values go up.
fn goes_up(direction: Direction) -> bool {
    matches!(direction, Direction::Synthesized)
}

// Appends the first of these attributes, where there are some.
fn push_some(
    alloc: Global,
    out: &mut Vec<u8>,
    certified: &Certified,
    attributes: &Attribution,
    numbers: &[usize],
) -> Result<(), AllocError>
    requires { IsOfUnion certified.now.host.resolved certified.now.host.operations (all_resolved certified.now.extensions) attributes.now }
    ensures { OnOk result (ListsAsked certified.now out.old.items out.new.items) }
{
    if numbers.is_empty() {
        return Ok(());
    }
    out.extend_from_slice(b"\nWhat can be asked there:\n\n")?;
    push_each(alloc, out, certified, attributes, first_of(numbers))?;
    push_more(out, numbers.len() > MOST)
}

// The first of these numbers, so many as are listed.
fn first_of(numbers: &[usize]) -> &[usize] {
    &numbers[..numbers.len().min(MOST)]
}

// Appends that there are more, where there are.
fn push_more(out: &mut Vec<u8>, more: bool) -> Result<(), AllocError>
    ensures { OnOk result (HasEnd out.old.items out.new.items) }
{
    if more {
        return out.extend_from_slice(b"    and more\n");
    }
    Ok(())
}

// Appends a line for each of these attributes.
fn push_each(
    alloc: Global,
    out: &mut Vec<u8>,
    certified: &Certified,
    attributes: &Attribution,
    numbers: &[usize],
) -> Result<(), AllocError>
    requires { IsOfUnion certified.now.host.resolved certified.now.host.operations (all_resolved certified.now.extensions) attributes.now }
    ensures { OnOk result (HasAsked certified.now out.old.items out.new.items) }
{
    'numbers: for &number in numbers {
        push_one(alloc, out, certified, attributes, number)?;
    }
    Ok(())
}

// Appends a line for an attribute.
fn push_one(
    alloc: Global,
    out: &mut Vec<u8>,
    certified: &Certified,
    attributes: &Attribution,
    number: usize,
) -> Result<(), AllocError>
    requires { IsOfUnion certified.now.host.resolved certified.now.host.operations (all_resolved certified.now.extensions) attributes.now }
    ensures { OnOk result (AddsAsked certified.now out.old.items out.new.items) }
{
    let name = name_of(alloc, attributes.parts(), number)?;
    let answer = push_named(alloc, out, certified, attributes, &name);
    drop(name);
    answer
}

// The name of an attribute as reports show it; an empty one where it has none.
fn name_of(alloc: Global, parts: &AttributionParts, number: usize) -> Result<Vec<u8>, AllocError> {
    match parts.attributes.as_slice().get(number) {
        Some(row) => printed(
            alloc,
            parts.extensions.as_slice(),
            row.owner,
            row.name.as_slice(),
        ),
        None => Ok(Vec::new(alloc)),
    }
}

// Appends a line with a name, where an attribute can be asked by it.
fn push_named(
    alloc: Global,
    out: &mut Vec<u8>,
    certified: &Certified,
    attributes: &Attribution,
    name: &[u8],
) -> Result<(), AllocError>
    requires { IsOfUnion certified.now.host.resolved certified.now.host.operations (all_resolved certified.now.extensions) attributes.now }
    ensures { OnOk result (AddsAsked certified.now out.old.items out.new.items) }
{
    match attribute_of(alloc, certified, attributes, name)? {
        Some(_) => push_line(out, name),
        None => Ok(()),
    }
}

// The attribute that can be asked by a name, among these attributes.
fn attribute_of(
    alloc: Global,
    certified: &Certified,
    attributes: &Attribution,
    name: &[u8],
) -> Result<Option<usize>, AllocError>
    requires { IsOfUnion certified.now.host.resolved certified.now.host.operations (all_resolved certified.now.extensions) attributes.now }
    ensures { IfOk result (λ found. MatchOption found
        (HasNoRootAttribute certified.now.host.resolved certified.now.host.operations (all_resolved certified.now.extensions) name.now)
        (IsRootAttribute certified.now.host.resolved certified.now.host.operations (all_resolved certified.now.extensions) name.now)) }
{
    root_attribute(alloc, certified.certified_host(), attributes, name)
}

// Appends a name further in, on a line of its own.
fn push_line(out: &mut Vec<u8>, name: &[u8]) -> Result<(), AllocError>
    ensures { OnOk result (out.new.items ≡ out.old.items ++ (codes "    " ++ name.now ++ codes "\n")) }
{
    out.extend_from_slice(b"    ")?;
    out.extend_from_slice(name)?;
    out.extend_from_slice(b"\n")
}
