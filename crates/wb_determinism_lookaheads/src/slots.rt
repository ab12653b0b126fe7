//! Which items have a set? Those of the kernel, and for each nonterminal that it opens one of the initial items, which have one set.

ghost use Rattle.std.specs.Prelude.{◌≡◌, ◌<◌, ◌≤◌, [], ℕ, Contains, IfOk, IfSome, IsTrue, Some, false, length, slice_get, slice_index_or};
ghost use Rattle.wb_grammar_theory.specs.Items.{initial_item};
ghost use Rattle.wb_grammar_theory.specs.declared.item.Item.{Item};
ghost use Rattle.wb_items.specs.Apart.{BelongTogether};
ghost use Rattle.wb_items.specs.Table.{AreProductions};
ghost use Rattle.wb_determinism_lookaheads.specs.Inner.Spreading.{IsProductionOf, IsSlot};

use crate::context::Context;
use crate::search::place_of;
use std::alloc::{AllocError, Global};
use wb_base::{Grammar, Sequence, push};
use wb_determinism_kernels::NewKernels;
use wb_items::{Item, Numbers};

// Those of each new kernel.
pub(crate) fn slots_of(
    alloc: Global,
    grammar: &Grammar,
    rules: &[Numbers],
    new: &NewKernels,
) -> Result<Vec<Sequence<Item>>, AllocError>
    requires { length new.now.closures ≡ length new.now.index.kernels }
    ensures { IfOk result (λ slots. length slots.items ≡ length new.now.index.kernels) }
{
    let mut slots = Vec::new(alloc);
    'kernels: for place in 0..new.len() {
        push(
            &mut slots,
            slots_in(alloc, grammar, rules, new.closure(place))?,
        )?;
    }
    Ok(slots)
}

// Those of a closure.
fn slots_in(
    alloc: Global,
    grammar: &Grammar,
    rules: &[Numbers],
    closure: &[Item],
) -> Result<Sequence<Item>, AllocError> {
    let mut slots = Vec::new(alloc);
    'items: for &item in closure {
        if has_set(grammar, rules, item) {
            push(&mut slots, item)?;
        }
    }
    Ok(Sequence::from_vec(slots))
}

// Whether the item is one of the kernel, or the initial item of the first production of its nonterminal.
fn has_set(grammar: &Grammar, rules: &[Numbers], item: Item) -> bool {
    if item.dot > 0 || item.production >= grammar.productions() {
        return true;
    }
    match first_of_rules(rules, grammar.left(item.production)) {
        Some(production) => production == item.production,
        None => false,
    }
}

// The first number of a row.
fn first_of_rules(rules: &[Numbers], nonterminal: usize) -> Option<usize>
    ensures { IfSome result (λ p. Contains (slice_index_or rules.now nonterminal []) p) }
{
    if nonterminal >= rules.len() {
        return None;
    }
    let numbers = rules[nonterminal].as_slice();
    if numbers.len() > 0 {
        Some(numbers[0])
    } else {
        None
    }
}

// The item of the nonterminal that has a set at any kernel which opens it.
pub(crate) fn opened(context: &Context, nonterminal: usize) -> Option<Item>
    requires { AreProductions context.now.beside.now.grammar.now context.now.rules.now }
    ensures { IfSome result (λ one. (p : ℕ) × (one ≡ initial_item p) × IsProductionOf context.now.beside.now.grammar.now nonterminal p) }
{
    match first_of_rules(context.rules, nonterminal) {
        Some(production) => Some(Item { production, dot: 0 }),
        None => None,
    }
}

// The item at a place among those of a new kernel.
pub(crate) fn slot(context: &Context, place: usize, at: usize) -> Option<Item>
    ensures { IfSome result (IsSlot context.now place at) }
{
    if place >= context.slots.len() {
        return None;
    }
    let slots = context.slots[place].as_slice();
    if at < slots.len() {
        Some(slots[at])
    } else {
        None
    }
}

// The place of an item among those of a new kernel.
pub(crate) fn slot_place(context: &Context, place: usize, item: Item) -> Option<usize>
    ensures { IfSome result (λ at. IsSlot context.now place at item) }
{
    if place >= context.slots.len() {
        return None;
    }
    place_of(context.slots[place].as_slice(), item)
}

// How many a new kernel has.
pub(crate) fn slot_count(context: &Context, place: usize) -> usize
    ensures { result ≡ length (slice_index_or context.now.slots.now place []) }
{
    if place < context.slots.len() {
        context.slots[place].len()
    } else {
        0
    }
}

// Whether no other item has the set of this one: it is in the kernel, and no initial item of a production.
pub(crate) fn stands_alone(grammar: &Grammar, one: Item) -> bool
    ensures alone { IsTrue result → (item : Item) → BelongTogether grammar.now one item → one ≡ item }
    ensures others { result ≡ false → (one.dot ≤ 0) × (one.production < length grammar.now.productions) }
{
    if one.dot > 0 {
        return true;
    }
    if one.production < grammar.productions() {
        return false;
    }
    true
}
