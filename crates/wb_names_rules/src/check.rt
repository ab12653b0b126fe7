//! Which name rule fails first?
//!
//! Rules are tested in the order in which they are refused. What each asks is in `wb_names_theory`.

ghost use Rattle.std.specs.Prelude.{◌≡◌, ◌≤◌, length, IfOk, IfErr, OnOk};
ghost use Rattle.wb_syntax_resolved.specs.Resolved.{IsResolved};
ghost use Rattle.wb_names_theory.specs.Declares.{declarations as declarations_of};
ghost use Rattle.wb_names_theory.specs.Hold.{NamesHold};
ghost use Rattle.wb_names_theory.specs.NamesOk.{NamesOk, bounds_of, scope_of};
ghost use Rattle.wb_names_theory.specs.Refusals.{IsTrueRefusal};
ghost use Rattle.wb_names_theory.specs.Uses.{uses};
ghost use Rattle.wb_names_rules.specs.Inner.Closed.{IsOver};
ghost use Rattle.wb_names_rules.specs.Inner.Passing as spec;

use crate::NameIndex;
use crate::kinds::check_kinds;
use crate::orphans::check_owned;
use crate::unknown::check_declared;
use std::alloc::Global;
use wb_names_lists::{add_base_declarations, add_item_declarations, add_misplaced, add_uses};
use wb_names_theory::{NameRefusal, Usage};
use wb_syntax::{Item, Pattern};
use wb_syntax_resolved::ResolvedParts;

/// Whether the name rules hold of the items of a file, over what is there before: nothing for a host, whose owner is 0, and the resolved
/// host for an extension, whose owner is another number. Answers an index of what is declared. Nothing here asks that the base be a host
/// alone: over a base with extensions, what these declare counts as the host's, so callers give a host alone.
///
/// The first rule that fails is refused: that nothing is declared twice (N2), that each name is declared (N1) and of the right kind (N4),
/// and that an extension says only what it may in a file of its format (N3). Which of several names that show it is answered is open. No
/// clause bounds the time; it is about linear in what is declared and used.
pub fn check_names(
    alloc: Global,
    base: &ResolvedParts,
    owner: usize,
    format: u32,
    items: &[Item<Pattern>],
) -> Result<NameIndex, NameRefusal>
    requires { IsResolved base.now }
    ensures index { IfOk result (λ index. index ≡ declarations_of base.now items.now) }
    ensures ok { IfOk result (λ index. NamesOk (scope_of base.now owner format items.now)) }
    ensures hold { IfOk result (λ index. NamesHold (scope_of base.now owner format items.now)) }
    ensures refused { IfErr result (IsTrueRefusal (scope_of base.now owner format items.now)) }
{
    let mut declarations = Vec::new(alloc);
    add_base_declarations(base, &mut declarations)?;
    let from = declarations.len();
    add_item_declarations(items, &mut declarations)?;
    let index = NameIndex::new(alloc, declarations)?;
    check_uses(alloc, &index, owner, items)?;
    check_owner(alloc, &index, base, format, from, owner)?;
    Ok(index)
}

// Whether what items use is declared and of the right kind, and nothing is where it has no place.
fn check_uses(
    alloc: Global,
    index: &NameIndex,
    owner: usize,
    items: &[Item<Pattern>],
) -> Result<(), NameRefusal>
    ensures ok { OnOk result (spec.UsesPass index.now owner items.now) }
    ensures refused { IfErr result (spec.UsesFail index.now owner items.now) }
{
    let mut used = Vec::new(alloc);
    add_uses(items, &mut used)?;
    check_used(alloc, index, owner, items, &used)
}

// The same, with all that they use.
fn check_used(
    alloc: Global,
    index: &NameIndex,
    owner: usize,
    items: &[Item<Pattern>],
    used: &[Usage],
) -> Result<(), NameRefusal>
    requires { used.now ≡ uses items.now }
    ensures ok { OnOk result (spec.UsesPass index.now owner items.now) }
    ensures refused { IfErr result (spec.UsesFail index.now owner items.now) }
{
    check_declared(alloc, index, used)?;
    let mut unplaced = Vec::new(alloc);
    add_misplaced(owner, items, &mut unplaced)?;
    check_kinds(alloc, index, used, &unplaced)
}

// Whether an extension, whose own declarations begin at a place, says only what it may over its host. A host's owner is 0.
fn check_owner(
    alloc: Global,
    index: &NameIndex,
    base: &ResolvedParts,
    format: u32,
    from: usize,
    owner: usize,
) -> Result<(), NameRefusal>
    requires within { from ≤ length index.now }
    requires over { IsOver base.now index.now }
    ensures ok { OnOk result (spec.OwnerPasses index.now from owner (bounds_of base.now format)) }
    ensures refused { IfErr result (spec.OwnerFails index.now from owner (bounds_of base.now format)) }
{
    if owner == 0 {
        return Ok(());
    }
    check_owned(alloc, index, base, format, from)
}
