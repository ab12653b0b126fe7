//! Which number has an item of a kernel? The items that one nonterminal opens have the number of the first of them.

ghost use Rattle.std.specs.Prelude.{◌≡◌, ◌<◌, ℕ, List, ◌∷◌, Contains, IsTrue, Some, slice_get};
ghost use Rattle.std.specs.Ordering.{MatchOrdering};
ghost use Rattle.wb_base.specs.declared.symbol.Symbol.{Symbol};
ghost use Rattle.wb_grammar_theory.specs.declared.item.Item.{Item};
ghost use Rattle.wb_grammar_theory.specs.Items.{HasItem, after_dot};
ghost use Rattle.wb_items.specs.Kernels.{AreInOrder, LeadsTo, Precedes, count_of, prefix_of};
ghost use Rattle.wb_digraph.specs.Inner.Numbers.{HasNumber, IsContext, StandsFor};

use crate::context::Context;
use std::cmp::Ordering;
use wb_base::Symbol;
use wb_items::{Item, Kernels};

// The number of an item, found at once where the item that stands for it is at the place `near`.
pub(crate) fn number_of(context: &Context, state: usize, item: Item, near: usize) -> usize
    requires context { IsContext context.now.kernels.now context.now.grammar.now context.now.facts.now context.now.productions.now context.now.bases.now context.now.tails.now }
    requires state { state < count_of context.now.kernels.now }
    requires has { HasItem context.now.kernels.now.grammar (prefix_of context.now.kernels.now state) item }
    ensures { HasNumber context.now.kernels.now context.now.productions.now context.now.bases.now state item result }
{
    let one = stand_in(context, item);
    let items = context.kernels.closure(state);
    let place = place_of(items, one, near);
    context.bases[state + 1] - (items.len() - place)
}

// The item that stands for another.
fn stand_in(context: &Context, item: Item) -> Item
    requires { IsContext context.now.kernels.now context.now.grammar.now context.now.facts.now context.now.productions.now context.now.bases.now context.now.tails.now }
    ensures { StandsFor context.now.kernels.now.grammar context.now.productions.now result item }
{
    if item.dot > 0 || item.production >= context.grammar.productions() {
        return item;
    }
    let left = context.grammar.left(item.production);
    let numbers = context.productions[left].as_slice();
    Item {
        production: numbers[0],
        dot: 0,
    }
}

// The place of an item, found by binary search where it isn't the place `near`.
fn place_of(items: &[Item], item: Item, near: usize) -> usize
    requires in_order { AreInOrder items.now }
    requires there { Contains items.now item }
    ensures { slice_get items.now result ≡ Some item }
{
    if is_at(items, item, near) {
        return near;
    }
    let mut low = 0;
    let mut high = items.len();
    'halves: while low < high {
        let middle = low + (high - low) / 2;
        match compare(items[middle], item) {
            Ordering::Less => low = middle + 1,
            Ordering::Equal => return middle,
            Ordering::Greater => high = middle,
        }
    }
    unreachable!()
}

// Whether the item is at the place.
fn is_at(items: &[Item], item: Item, place: usize) -> bool
    ensures { IsTrue result → slice_get items.now place ≡ Some item }
{
    if place >= items.len() {
        return false;
    }
    items[place] == item
}

// Whether an item is before another, or after it.
fn compare(one: Item, other: Item) -> Ordering
    ensures { MatchOrdering result (Precedes one other) (one ≡ other) (Precedes other one) }
{
    match compare_numbers(one.production, other.production) {
        Ordering::Less => Ordering::Less,
        Ordering::Equal => compare_numbers(one.dot, other.dot),
        Ordering::Greater => Ordering::Greater,
    }
}

// Which of the numbers is less.
fn compare_numbers(one: usize, other: usize) -> Ordering
    ensures { MatchOrdering result (one < other) (one ≡ other) (other < one) }
{
    if one < other {
        Ordering::Less
    } else if other < one {
        Ordering::Greater
    } else {
        Ordering::Equal
    }
}

// The kernel that a symbol leads to, which some item has after its dot.
pub(crate) fn next_of(kernels: &Kernels, state: usize, symbol: Symbol) -> usize
    requires state { state < count_of kernels.now }
    requires has { (item : Item) × (rest : List Symbol) × HasItem kernels.now.grammar (prefix_of kernels.now state) item × (after_dot kernels.now.grammar item ≡ symbol ∷ rest) }
    ensures { LeadsTo kernels.now state symbol result }
{
    let Some(next) = kernels.next(state, symbol) else {
        unreachable!()
    };
    next
}
