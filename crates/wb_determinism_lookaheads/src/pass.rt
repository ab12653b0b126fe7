//! To which items do the members of a set pass? From each item that has the set to the item after its symbol; `open.rt` has the others.

ghost use Rattle.std.specs.Prelude.{◌≡◌, ◌+◌, ◌<◌, ◌^◌, ◌∷◌, [], ℕ, List, IfOk, IfSome, MatchOption, OnOk, length, slice_index_or};
ghost use Rattle.wb_base.specs.declared.symbol.Symbol.{Symbol};
ghost use Rattle.wb_base.specs.declared.symbol.Symbol.TheVariants.{Nonterminal};
ghost use Rattle.wb_termset.specs.Sets.{IsMember};
ghost use Rattle.wb_grammar_theory.specs.Items.{after_dot};
ghost use Rattle.wb_determinism_lookaheads.specs.Inner.Spreading.{AreTrue, AreTrueFor, AreTrueOf, IsContext, IsSlot, LeadsIn, both_of, own_of};

use crate::context::Context;
use crate::marks::mark;
use crate::open::open;
use crate::row::Row;
use crate::search::target_of;
use crate::slots::{slot, slot_place, stands_alone};
use std::alloc::AllocError;
use wb_base::Symbol;
use wb_items::{Item, symbol_after};
use wb_termset::TermSet;

// Passes on the members of the set at a place of a new kernel.
pub(crate) fn pass_slot(
    context: &Context,
    place: usize,
    at: usize,
    sets: &mut Vec<Row>,
    marks: &mut Vec<bool>,
) -> Result<(), AllocError>
    requires context { IsContext context.now }
    requires sound { AreTrue context.now sets.old.items }
    ensures { OnOk result (AreTrue context.now sets.new.items) }
{
    if place >= context.new.len() {
        return Ok(());
    }
    let Some(one) = slot(context, place, at) else {
        return Ok(());
    };
    let Some(set) = copied(sets, place, at)? else {
        return Ok(());
    };
    pass_set(context, place, one, &set, sets, marks);
    drop(set);
    Ok(())
}

// The set at a place of a new kernel.
fn copied(sets: &[Row], place: usize, at: usize) -> Result<Option<TermSet>, AllocError>
    ensures { IfOk result (λ found. IfSome found (λ set. set ≡ slice_index_or (slice_index_or sets.now place []) at [])) }
{
    if place >= sets.len() {
        return Ok(None);
    }
    match sets[place].get(at) {
        Some(set) => Ok(Some(set.copy()?)),
        None => Ok(None),
    }
}

// Passes on members from each item that belongs with the one, if there are any.
fn pass_set(
    context: &Context,
    place: usize,
    one: Item,
    set: &TermSet,
    sets: &mut Vec<Row>,
    marks: &mut Vec<bool>,
)
    requires context { IsContext context.now }
    requires place { place < length context.now.new.now.index.steps }
    requires holds { AreTrueFor context.now place one set.now }
    requires sound { AreTrue context.now sets.old.items }
    ensures { AreTrue context.now sets.new.items }
{
    let Some(_member) = set.next_member(0) else {
        return;
    };
    pass_together(context, place, one, set, sets, marks);
}

// Passes on members from each item that belongs with the one.
fn pass_together(
    context: &Context,
    place: usize,
    one: Item,
    set: &TermSet,
    sets: &mut Vec<Row>,
    marks: &mut Vec<bool>,
)
    requires context { IsContext context.now }
    requires place { place < length context.now.new.now.index.steps }
    requires member { (t : ℕ) × IsMember set.now t }
    requires holds { AreTrueFor context.now place one set.now }
    requires sound { AreTrue context.now sets.old.items }
    ensures { AreTrue context.now sets.new.items }
{
    if stands_alone(context.beside.grammar, one) {
        pass_item(context, place, one, set, sets, marks);
        return;
    }
    let left = context.beside.grammar.left(one.production);
    let numbers = context.rules[left].as_slice();
    'productions: for &production in numbers {
        let item = Item { production, dot: 0 };
        pass_item(context, place, item, set, sets, marks);
    }
}

// Passes on members from an item to the item after its symbol and to the initial items of a nonterminal after its dot.
fn pass_item(
    context: &Context,
    place: usize,
    item: Item,
    set: &TermSet,
    sets: &mut Vec<Row>,
    marks: &mut Vec<bool>,
)
    requires context { IsContext context.now }
    requires place { place < length context.now.new.now.index.steps }
    requires member { (t : ℕ) × IsMember set.now t }
    requires holds { AreTrueOf context.now place item set.now }
    requires sound { AreTrue context.now sets.old.items }
    ensures { AreTrue context.now sets.new.items }
{
    let Some(symbol) = symbol_after(context.beside.grammar, item) else {
        return;
    };
    move_on(context, place, item, symbol, set, sets, marks);
    if let Symbol::Nonterminal(nonterminal) = symbol {
        open(context, place, item, nonterminal, set, sets, marks);
    }
}

// Passes on members to the item after the symbol, where that is at a new kernel.
fn move_on(
    context: &Context,
    place: usize,
    item: Item,
    symbol: Symbol,
    set: &TermSet,
    sets: &mut Vec<Row>,
    marks: &mut Vec<bool>,
)
    requires context { IsContext context.now }
    requires place { place < length context.now.new.now.index.steps }
    requires symbol { (rest : List Symbol) × (after_dot (both_of context.now) item ≡ symbol ∷ rest) }
    requires room { item.dot + 1 < 2 ^ 64 }
    requires holds { AreTrueOf context.now place item set.now }
    requires sound { AreTrue context.now sets.old.items }
    ensures { AreTrue context.now sets.new.items }
{
    let Some(next) = next_of(context, place, symbol) else {
        return;
    };
    let Some(to) = new_place(context, next) else {
        return;
    };
    let moved = Item {
        production: item.production,
        dot: item.dot + 1,
    };
    let Some(at) = slot_place(context, to, moved) else {
        return;
    };
    if unite(context, to, at, moved, set, sets) {
        mark(marks, to);
    }
}

// Where a symbol leads from a new kernel.
pub(crate) fn next_of(context: &Context, place: usize, symbol: Symbol) -> Option<usize>
    requires context { IsContext context.now }
    requires place { place < length context.now.new.now.index.steps }
    ensures { IfSome result (LeadsIn context.now (own_of context.now + place) symbol) }
{
    target_of(context.new.moves(place), symbol)
}

// The place of a number after the host's.
pub(crate) fn new_place(context: &Context, number: usize) -> Option<usize>
    ensures { MatchOption result (number < own_of context.now) (λ i. number ≡ own_of context.now + i) }
{
    let own = context.beside.host.count();
    if number < own {
        None
    } else {
        Some(number - own)
    }
}

// Adds members to the set of an item, which they are lookaheads of, and answers whether it grew.
pub(crate) fn unite(
    context: &Context,
    place: usize,
    at: usize,
    one: Item,
    set: &TermSet,
    sets: &mut Vec<Row>,
) -> bool
    requires slot { IsSlot context.now place at one }
    requires holds { AreTrueFor context.now place one set.now }
    requires sound { AreTrue context.now sets.old.items }
    ensures { AreTrue context.now sets.new.items }
{
    if place >= sets.len() {
        return false;
    }
    sets[place].unite(at, set)
}
