//! Is anything missing in the sets? Each set is tested once against those that its members pass to, or against what the host has there.

ghost use Rattle.std.specs.Prelude.{◌≡◌, ◌+◌, ◌<◌, ◌^◌, ◌∷◌, [], ℕ, IfOk, IfSome, IsTrue, List, length, slice_index_or};
ghost use Rattle.wb_base.specs.declared.symbol.Symbol.{Symbol};
ghost use Rattle.wb_termset.specs.Sets.{IsMember};
ghost use Rattle.wb_grammar_theory.specs.Items.{after_dot};
ghost use Rattle.wb_items.specs.Kernels.{prefix_of};
ghost use Rattle.wb_determinism_theory.specs.Beside.{IsKnown};
ghost use Rattle.wb_determinism_lookaheads.specs.Inner.Spreading.{AreLifts, Arrives, IsAllPassed, IsContext, IsMovedOn, IsPassedOn, IsSlotPassed, IsTogetherPassed, both_of, host_of, image_of, own_of, up_of, with_sets};
ghost use Rattle.wb_determinism_lookaheads.specs.NewLookaheads.{Lists};

use crate::context::Context;
use crate::lifts::{Lifts, add_lifts, lift_of, no_lifts};
use crate::pass::{new_place, next_of};
use crate::row::Row;
use crate::slots::{slot, slot_count, slot_place, stands_alone};
use crate::test_open::is_opened;
use crate::test_starts::are_started;
use std::alloc::{AllocError, Global};
use wb_base::Symbol;
use wb_determinism_kernels::host_item;
use wb_items::{Item, symbol_after};
use wb_termset::TermSet;

// Whether what markers bring and each set is passed on.
pub(crate) fn is_all_passed(
    alloc: Global,
    context: &Context,
    sets: &[Row],
) -> Result<bool, AllocError>
    requires { IsContext context.now }
    ensures { IfOk result (λ answer. IsTrue answer → IsAllPassed context.now sets.now) }
{
    if !are_started(alloc, context, sets)? {
        return Ok(false);
    }
    let mut lifts = no_lifts(alloc);
    let answer = are_passed_with(alloc, context, sets, &mut lifts);
    drop(lifts);
    answer
}

// Whether each set is, with what the host has where moves lead back.
fn are_passed_with(
    alloc: Global,
    context: &Context,
    sets: &[Row],
    lifts: &mut Lifts,
) -> Result<bool, AllocError>
    requires context { IsContext context.now }
    requires none { lifts.old.list.items ≡ [] }
    ensures { IfOk result (λ answer. IsTrue answer → (i j : ℕ) → i < length context.now.new.now.index.kernels → IsSlotPassed context.now sets.now i j) }
{
    add_lifts(alloc, context, lifts)?;
    Ok(are_passed(context, lifts, sets))
}

// Whether each set of each kernel is.
fn are_passed(context: &Context, lifts: &Lifts, sets: &[Row]) -> bool
    requires context { IsContext context.now }
    requires lifts { AreLifts context.now lifts.now.list.items }
    ensures { IsTrue result → (i j : ℕ) → i < length context.now.new.now.index.kernels → IsSlotPassed context.now sets.now i j }
{
    'kernels: for place in 0..context.new.len() {
        if !is_kernel_passed(context, lifts, place, sets) {
            return false;
        }
    }
    true
}

// Whether each set of a kernel is.
fn is_kernel_passed(context: &Context, lifts: &Lifts, place: usize, sets: &[Row]) -> bool
    requires context { IsContext context.now }
    requires lifts { AreLifts context.now lifts.now.list.items }
    requires place { place < length context.now.new.now.index.kernels }
    ensures { IsTrue result → (j : ℕ) → IsSlotPassed context.now sets.now place j }
{
    'slots: for at in 0..slot_count(context, place) {
        if !is_slot_passed(context, lifts, place, at, sets) {
            return false;
        }
    }
    true
}

// Whether the set at a place is.
fn is_slot_passed(context: &Context, lifts: &Lifts, place: usize, at: usize, sets: &[Row]) -> bool
    requires context { IsContext context.now }
    requires lifts { AreLifts context.now lifts.now.list.items }
    requires place { place < length context.now.new.now.index.kernels }
    ensures { IsTrue result → IsSlotPassed context.now sets.now place at }
{
    let Some(one) = slot(context, place, at) else {
        return false;
    };
    let Some(set) = set_in(sets, place, at) else {
        return false;
    };
    is_together_passed(context, lifts, place, one, set, sets)
}

// The set at a place of a kernel.
pub(crate) fn set_in(sets: &[Row], place: usize, at: usize) -> Option<&TermSet>
    ensures { IfSome result (λ set. set.now ≡ slice_index_or (slice_index_or sets.now place []) at []) }
{
    if place < sets.len() {
        sets[place].get(at)
    } else {
        None
    }
}

// Whether the members are passed on from each item that belongs with the one.
fn is_together_passed(
    context: &Context,
    lifts: &Lifts,
    place: usize,
    one: Item,
    set: &TermSet,
    sets: &[Row],
) -> bool
    requires context { IsContext context.now }
    requires lifts { AreLifts context.now lifts.now.list.items }
    requires place { place < length context.now.new.now.index.kernels }
    ensures { IsTrue result → IsTogetherPassed context.now sets.now place one set.now }
{
    if stands_alone(context.beside.grammar, one) {
        return is_passed_on(context, lifts, place, one, set, sets);
    }
    let left = context.beside.grammar.left(one.production);
    let numbers = context.rules[left].as_slice();
    'productions: for &production in numbers {
        let item = Item { production, dot: 0 };
        if !is_passed_on(context, lifts, place, item, set, sets) {
            return false;
        }
    }
    true
}

// Whether the members are passed on from an item.
fn is_passed_on(
    context: &Context,
    lifts: &Lifts,
    place: usize,
    item: Item,
    set: &TermSet,
    sets: &[Row],
) -> bool
    requires context { IsContext context.now }
    requires lifts { AreLifts context.now lifts.now.list.items }
    requires place { place < length context.now.new.now.index.kernels }
    ensures { IsTrue result → IsPassedOn context.now sets.now place item set.now }
{
    let Some(symbol) = symbol_after(context.beside.grammar, item) else {
        return true;
    };
    if !is_opened(context, place, item, symbol, set, sets) {
        return false;
    }
    is_moved_on(context, lifts, place, item, symbol, set, sets)
}

// Whether they arrive at the item after the symbol.
fn is_moved_on(
    context: &Context,
    lifts: &Lifts,
    place: usize,
    item: Item,
    symbol: Symbol,
    set: &TermSet,
    sets: &[Row],
) -> bool
    requires context { IsContext context.now }
    requires lifts { AreLifts context.now lifts.now.list.items }
    requires place { place < length context.now.new.now.index.kernels }
    requires symbol { (rest : List Symbol) × (after_dot (both_of context.now) item ≡ symbol ∷ rest) }
    requires room { item.dot + 1 < 2 ^ 64 }
    ensures { IsTrue result → IsMovedOn context.now sets.now place item set.now }
{
    let Some(next) = next_of(context, place, symbol) else {
        return false;
    };
    let moved = Item {
        production: item.production,
        dot: item.dot + 1,
    };
    is_there(context, lifts, next, moved, set, sets)
}

// Whether they are listed, or known, at an item of a number.
fn is_there(
    context: &Context,
    lifts: &Lifts,
    number: usize,
    item: Item,
    set: &TermSet,
    sets: &[Row],
) -> bool
    requires context { IsContext context.now }
    requires lifts { AreLifts context.now lifts.now.list.items }
    ensures { IsTrue result → (t : ℕ) → IsMember set.now t → Arrives context.now sets.now number item t }
{
    match new_place(context, number) {
        Some(place) => is_listed(context, place, item, set, sets),
        None => is_known(context, lifts, number, item, set),
    }
}

// Whether they are listed at an item of a new kernel.
pub(crate) fn is_listed(
    context: &Context,
    place: usize,
    item: Item,
    set: &TermSet,
    sets: &[Row],
) -> bool
    ensures { IsTrue result → (t : ℕ) → IsMember set.now t → Lists (both_of context.now) (with_sets context.now sets.now) place item t }
{
    match slot_place(context, place, item) {
        Some(at) => is_within(set, sets, place, at),
        None => false,
    }
}

// Whether they are in the set at a place.
pub(crate) fn is_within(set: &TermSet, sets: &[Row], place: usize, at: usize) -> bool
    ensures { IsTrue result → (t : ℕ) → IsMember set.now t → IsMember (slice_index_or (slice_index_or sets.now place []) at []) t }
{
    match set_in(sets, place, at) {
        Some(other) => set.count() == other.count() && set.is_subset(other),
        None => false,
    }
}

// Whether they are known at an item of a kernel of the host.
fn is_known(context: &Context, lifts: &Lifts, state: usize, item: Item, set: &TermSet) -> bool
    requires context { IsContext context.now }
    requires lifts { AreLifts context.now lifts.now.list.items }
    requires state { state < own_of context.now }
    ensures { IsTrue result → (t : ℕ) → IsMember set.now t → IsKnown (host_of context.now).grammar (both_of context.now) (up_of context.now) (image_of context.now) (prefix_of (host_of context.now) state) item t }
{
    let Some(own) = host_item(context.beside.numbers, item) else {
        return false;
    };
    match lift_of(context, lifts, state, own) {
        Some(allowed) => are_among(set, allowed),
        None => false,
    }
}

// Whether they are members of the other set.
fn are_among(set: &TermSet, allowed: &TermSet) -> bool
    ensures { IsTrue result → (t : ℕ) → IsMember set.now t → IsMember allowed.now t }
{
    if set.count() != allowed.count() {
        return false;
    }
    set.is_subset(allowed)
}
