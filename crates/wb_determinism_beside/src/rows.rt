//! The items of a new kernel, each complete one with its lookaheads.

ghost use Rattle.std.specs.Prelude.{◌≡◌, ◌≢◌, ◌+◌, ◌<◌, ◌↔◌, ℕ, IfOk, IsTrue, MatchOption, OnOk, length};
ghost use Rattle.wb_determinism_lookaheads.specs.NewLookaheads.{Lists, slots_of};
ghost use Rattle.wb_items.specs.Apart.{BelongTogether, Opens};
ghost use Rattle.wb_termset.specs.Sets.{IsMember};
ghost use Rattle.wb_determinism_beside.specs.Inner.Found.{IsFound, both_in, new_in, prefix_at};
ghost use Rattle.wb_determinism_beside.specs.Inner.Rows.{AddsLooks, HasLooks, IsListedUpTo, IsRow};

use crate::found::Found;
use std::alloc::{AllocError, Global};
use wb_base::{Grammar, push};
use wb_items::{Item, ItemLookahead, symbol_after};
use wb_termset::TermSet;

// The row of a new kernel.
pub(crate) fn row_at(
    alloc: Global,
    found: &Found,
    place: usize,
) -> Result<Vec<ItemLookahead>, AllocError>
    requires found { IsFound found.now }
    requires place { place < new_in found.now }
    ensures { IfOk result (λ row. IsRow (both_in found.now) (prefix_at found.now place) row.items) }
{
    let closure = found.new.closure(place);
    let mut row = Vec::with_capacity(alloc, closure.len())?;
    'items: for &item in closure {
        add_looks(found, place, item, &mut row)?;
    }
    Ok(row)
}

// Adds an item.
fn add_looks(
    found: &Found,
    place: usize,
    item: Item,
    row: &mut Vec<ItemLookahead>,
) -> Result<(), AllocError>
    requires found { IsFound found.now }
    requires place { place < new_in found.now }
    ensures { OnOk result (AddsLooks (both_in found.now) (prefix_at found.now place) item row.old.items row.new.items) }
{
    let alloc = *row.allocator();
    let set = looks_of(alloc, found, place, item)?;
    push(row, ItemLookahead { item, set })?;
    Ok(())
}

// The lookaheads of an item, where it is complete, and else none.
fn looks_of(alloc: Global, found: &Found, place: usize, item: Item) -> Result<TermSet, AllocError>
    requires found { IsFound found.now }
    requires place { place < new_in found.now }
    ensures { IfOk result (λ set. HasLooks (both_in found.now) (prefix_at found.now place) (record { item = item; set = set })) }
{
    match symbol_after(found.beside.grammar, item) {
        Some(_) => TermSet::new(alloc, found.beside.grammar.lookahead_count()?),
        None => listed_set(alloc, found, place, item),
    }
}

// The lookaheads of an item.
fn listed_set(alloc: Global, found: &Found, place: usize, item: Item) -> Result<TermSet, AllocError>
    requires found { IsFound found.now }
    requires place { place < new_in found.now }
    ensures { IfOk result (λ set. (length set ≡ (both_in found.now).terminals + 1) × ((t : ℕ) → IsMember set t ↔ Lists (both_in found.now) found.now.sets.now place item t)) }
{
    let slots = found.sets.slots(place);
    let mut set = TermSet::new(alloc, found.beside.grammar.lookahead_count()?)?;
    'slots: for at in 0..slots.len() {
        add_slot(found, place, at, item, &mut set);
    }
    Ok(set)
}

// Adds the set at a place, if it is that of the item.
fn add_slot(found: &Found, place: usize, at: usize, item: Item, set: &mut TermSet)
    requires found { IsFound found.now }
    requires place { place < new_in found.now }
    requires at { at < length (slots_of found.now.sets.now place) }
    requires before { IsListedUpTo (both_in found.now) found.now.sets.now place item at set.old }
    ensures { IsListedUpTo (both_in found.now) found.now.sets.now place item (at + 1) set.new }
{
    let slots = found.sets.slots(place);
    if !is_together(found.beside.grammar, slots[at], item) {
        return;
    }
    let Some(other) = found.sets.set(place, at) else {
        return;
    };
    set.union_with(other);
}

// Whether both items have one set: they are the same, or one nonterminal opens both.
fn is_together(grammar: &Grammar, one: Item, other: Item) -> bool
    ensures { IsTrue result ↔ BelongTogether grammar.now one other }
{
    if one == other {
        return true;
    }
    are_opened(grammar, one, other)
}

// Whether one nonterminal opens both items.
fn are_opened(grammar: &Grammar, one: Item, other: Item) -> bool
    ensures { IsTrue result ↔ ((b : ℕ) × Opens grammar.now b one × Opens grammar.now b other) }
{
    let Some(left) = opener(grammar, one) else {
        return false;
    };
    let Some(right) = opener(grammar, other) else {
        return false;
    };
    left == right
}

// The nonterminal that opens the item.
fn opener(grammar: &Grammar, item: Item) -> Option<usize>
    ensures { MatchOption result ((b : ℕ) → ¬ Opens grammar.now b item) (λ b. Opens grammar.now b item) }
{
    if item.dot > 0 {
        return None;
    }
    if item.production >= grammar.productions() {
        return None;
    }
    Some(grammar.left(item.production))
}
