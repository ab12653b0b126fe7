//! Which of two sets of items comes first? Where they differ, the one that has the least item in which they differ.

ghost use Rattle.std.specs.Prelude.{◌≡◌};
ghost use Rattle.std.specs.Ordering.{MatchOrdering};
ghost use Rattle.wb_items.specs.Kernels.{AreInOrder, Precedes};
ghost use Rattle.wb_items.specs.KernelOrder.{ComesFirst};
ghost use Rattle.wb_items.specs.Table.{SameItems};

use crate::places::item_at;
use std::cmp::Ordering;
use wb_items::Item;

// Which of two lists in order comes first: the first place where they differ decides.
pub(crate) fn compare_in_order(kernel: &[Item], items: &[Item]) -> Ordering
    requires kernel { AreInOrder kernel.now }
    requires items { AreInOrder items.now }
    ensures { MatchOrdering result (ComesFirst kernel.now items.now) (SameItems kernel.now items.now) (ComesFirst items.now kernel.now) }
{
    'places: for place in 0..kernel.len() {
        if place >= items.len() {
            return Ordering::Less;
        }
        match compare_items(item_at(kernel, place), item_at(items, place)) {
            Ordering::Less => return Ordering::Less,
            Ordering::Greater => return Ordering::Greater,
            Ordering::Equal => {}
        }
    }
    if kernel.len() < items.len() {
        Ordering::Greater
    } else {
        Ordering::Equal
    }
}

// Which of the items comes first.
fn compare_items(one: Item, other: Item) -> Ordering
    ensures { MatchOrdering result (Precedes one other) (one ≡ other) (Precedes other one) }
{
    one.cmp(&other)
}
