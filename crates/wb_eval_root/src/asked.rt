//! Which attribute of a nonterminal or of a tree may be asked for by a name?
//!
//! One that is synthesized, occurs there and needs nothing there. Names are compared as reports print them.

ghost use Rattle.std.specs.Prelude.{◌≡◌, ◌↔◌, ◌<◌, ℕ, [], length, IfOk, IsTrue, MatchOption};
ghost use Rattle.wb_syntax_resolved.specs.declared.attributes.Direction.TheVariants.{Synthesized};
ghost use Rattle.wb_syntax_resolved.specs.Owners.{printed_name};
ghost use Rattle.wb_eval_root.specs.Asked.{IsAskedAs, IsAskedOn};
ghost use Rattle.wb_eval_root.specs.Inner.Free.{HasNoneFree, IsFree, IsFreeOn, IsUpAs};
ghost use Rattle.wb_values.specs.Fits.{FitsTree};
ghost use Rattle.wb_values.specs.ValuesIn.{tree_in};

use std::alloc::{AllocError, Global};
use wb_base::Bytes;
use wb_names_rows::signatures::printed;
use wb_syntax_resolved::{Attribute, Attribution, AttributionParts, Direction, Occurrence};
use wb_values::{Signatures, TreeId, TreeStore};

/// The attribute that may be asked by a printed name on a nonterminal.
pub fn asked_on(
    alloc: Global,
    attributes: &Attribution,
    nonterminal: usize,
    name: &[u8],
) -> Result<Option<usize>, AllocError>
    ensures { IfOk result (λ found. MatchOption found
        ((attribute : ℕ) → ¬ IsAskedOn attributes.now name.now nonterminal attribute)
        (IsAskedOn attributes.now name.now nonterminal)) }
{
    free_on(alloc, attributes.parts(), nonterminal, name)
}

// The attribute that may be asked by a name of a tree.
pub(crate) fn asked_at(
    alloc: Global,
    attributes: &Attribution,
    store: &TreeStore,
    root: TreeId,
    name: &[u8],
) -> Result<Option<usize>, AllocError>
    requires there { root.0 < length store.now }
    requires fits { (nonterminal : ℕ) × FitsTree attributes.now.signatures (tree_in store.now root.0) nonterminal }
    ensures { IfOk result (λ found. MatchOption found
        ((attribute : ℕ) → ¬ IsAskedAs attributes.now (tree_in store.now root.0) name.now attribute)
        (IsAskedAs attributes.now (tree_in store.now root.0) name.now)) }
{
    let nonterminal = nonterminal_of(&attributes.parts().signatures, store, root);
    asked_on(alloc, attributes, nonterminal, name)
}

// The nonterminal of a tree.
fn nonterminal_of(signatures: &Signatures, store: &TreeStore, root: TreeId) -> usize
    requires there { root.0 < length store.now }
    requires fits { (nonterminal : ℕ) × FitsTree signatures.now (tree_in store.now root.0) nonterminal }
    ensures { FitsTree signatures.now (tree_in store.now root.0) result }
{
    signatures.left(store.production(root))
}

// The synthesized attribute that is printed so, occurs on a nonterminal and needs nothing there.
fn free_on(
    alloc: Global,
    attributes: &AttributionParts,
    nonterminal: usize,
    name: &[u8],
) -> Result<Option<usize>, AllocError>
    ensures { IfOk result (λ found. MatchOption found (HasNoneFree attributes.now name.now nonterminal) (IsFreeOn attributes.now name.now nonterminal)) }
{
    'occurrences: for occurrence in attributes.occurrences.as_slice() {
        if is_free(alloc, attributes, occurrence, nonterminal, name)? {
            return Ok(Some(occurrence.attribute));
        }
    }
    Ok(None)
}

// Whether an occurrence is of such an attribute.
fn is_free(
    alloc: Global,
    attributes: &AttributionParts,
    occurrence: &Occurrence,
    nonterminal: usize,
    name: &[u8],
) -> Result<bool, AllocError>
    ensures { IfOk result (λ holds. IsTrue holds ↔ IsFree attributes.now name.now nonterminal occurrence.now) }
{
    if !needs_nothing_on(occurrence, nonterminal) {
        return Ok(false);
    }
    is_up_as(alloc, attributes, occurrence.attribute, name)
}

// Whether an occurrence is on this nonterminal and needs nothing.
fn needs_nothing_on(occurrence: &Occurrence, nonterminal: usize) -> bool
    ensures { IsTrue result ↔ ((occurrence.now.nonterminal ≡ nonterminal) × (occurrence.now.needs ≡ [])) }
{
    occurrence.nonterminal == nonterminal && occurrence.needs.is_empty()
}

// Whether an attribute is synthesized and printed so.
fn is_up_as(
    alloc: Global,
    attributes: &AttributionParts,
    number: usize,
    name: &[u8],
) -> Result<bool, AllocError>
    ensures { IfOk result (λ holds. IsTrue holds ↔ IsUpAs attributes.now name.now number) }
{
    let list = attributes.attributes.as_slice();
    if number < list.len() && is_synthesized(list[number].direction) {
        return is_printed(alloc, attributes.extensions.as_slice(), &list[number], name);
    }
    Ok(false)
}

// Whether values go up.
fn is_synthesized(direction: Direction) -> bool
    ensures { IsTrue result ↔ (direction ≡ Synthesized) }
{
    matches!(direction, Direction::Synthesized)
}

// Whether an attribute is printed so.
fn is_printed(
    alloc: Global,
    extensions: &[Bytes],
    attribute: &Attribute,
    name: &[u8],
) -> Result<bool, AllocError>
    ensures { IfOk result (λ holds. IsTrue holds ↔ (printed_name extensions.now attribute.now.owner attribute.now.name ≡ name.now)) }
{
    let shown = printed(
        alloc,
        extensions,
        attribute.owner,
        attribute.name.as_slice(),
    )?;
    Ok(shown.as_slice() == name)
}
