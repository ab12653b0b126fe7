//! Which of two sets of items comes first? Where they differ, the one that has the least item in which they differ.

ghost use Rattle.std.specs.Prelude.{◌≡◌, ◌<◌, ◌≤◌, ◌+◌, ◌↔◌, IsTrue, length};
ghost use Rattle.std.specs.Ordering.{MatchOrdering};
ghost use Rattle.wb_items.specs.Kernels.{AreInOrder, Precedes};
ghost use Rattle.wb_items.specs.Inner.Searches.{IsAfter, IsLeastAfter};
ghost use Rattle.wb_items.specs.KernelOrder.{ComesFirst};
ghost use Rattle.wb_items.specs.Table.{SameItems};

use crate::dot::item_at;
use std::cmp::Ordering;
use wb_grammar_theory::Item;

// Which of a kernel and a list of items comes first. A list that isn't in order has any order, and an item may repeat.
pub(crate) fn compare(kernel: &[Item], items: &[Item], in_order: bool) -> Ordering
    requires kernel { AreInOrder kernel.now }
    requires items { IsTrue in_order → AreInOrder items.now }
    ensures { MatchOrdering result (ComesFirst kernel.now items.now) (SameItems kernel.now items.now) (ComesFirst items.now kernel.now) }
{
    if in_order {
        compare_in_order(kernel, items)
    } else {
        compare_any(kernel, items)
    }
}

// Like `compare`, for a list in order: the first place where they differ decides.
fn compare_in_order(kernel: &[Item], items: &[Item]) -> Ordering
    requires kernel { AreInOrder kernel.now }
    requires items { AreInOrder items.now }
    ensures { MatchOrdering result (ComesFirst kernel.now items.now) (SameItems kernel.now items.now) (ComesFirst items.now kernel.now) }
{
    'places: for place in 0..kernel.len() {
        if place >= items.len() {
            return Ordering::Less;
        }
        match compare_items(item_at(kernel, place), item_at(items, place)) {
            Ordering::Less => return Ordering::Less,
            Ordering::Greater => return Ordering::Greater,
            Ordering::Equal => {}
        }
    }
    if kernel.len() < items.len() {
        Ordering::Greater
    } else {
        Ordering::Equal
    }
}

// Like `compare`, for any list, item by item of the kernel.
fn compare_any(kernel: &[Item], items: &[Item]) -> Ordering
    requires { AreInOrder kernel.now }
    ensures { MatchOrdering result (ComesFirst kernel.now items.now) (SameItems kernel.now items.now) (ComesFirst items.now kernel.now) }
{
    'places: for place in 0..kernel.len() {
        let item = item_at(kernel, place);
        let Some(found) = least_after(kernel, place, items) else {
            return Ordering::Less;
        };
        if precedes(item, found) {
            return Ordering::Less;
        }
        if precedes(found, item) {
            return Ordering::Greater;
        }
    }
    match least_after(kernel, kernel.len(), items) {
        Some(_) => Ordering::Greater,
        None => Ordering::Equal,
    }
}

// The least of the items that are after the kernel's items before a place.
fn least_after(kernel: &[Item], place: usize, items: &[Item]) -> Option<Item>
    requires { place ≤ length kernel.now }
    ensures { IsLeastAfter kernel.now place items.now (length items.now) result }
{
    let mut least = None;
    'items: for at in 0..items.len() {
        least = least_more(kernel, place, items, at, least);
    }
    least
}

// The least of them and of the item at one place more.
fn least_more(
    kernel: &[Item],
    place: usize,
    items: &[Item],
    at: usize,
    least: Option<Item>,
) -> Option<Item>
    requires place { place ≤ length kernel.now }
    requires at { at < length items.now }
    requires before { IsLeastAfter kernel.now place items.now at least }
    ensures { IsLeastAfter kernel.now place items.now (at + 1) result }
{
    let item = item_at(items, at);
    if !is_after(kernel, place, item) {
        return least;
    }
    let Some(found) = least else {
        return Some(item);
    };
    if precedes(item, found) {
        Some(item)
    } else {
        Some(found)
    }
}

// Whether the item is after the kernel's items before a place.
fn is_after(kernel: &[Item], place: usize, item: Item) -> bool
    requires { place ≤ length kernel.now }
    ensures { IsTrue result ↔ IsAfter kernel.now place item }
{
    if place == 0 {
        return true;
    }
    precedes(item_at(kernel, place - 1), item)
}

// Whether the one item is before the other.
pub(crate) fn precedes(one: Item, other: Item) -> bool
    ensures { IsTrue result ↔ Precedes one other }
{
    one < other
}

// Which of the items comes first.
pub(crate) fn compare_items(one: Item, other: Item) -> Ordering
    ensures { MatchOrdering result (Precedes one other) (one ≡ other) (Precedes other one) }
{
    one.cmp(&other)
}

// Whether each item is before the next.
pub(crate) fn are_in_order(items: &[Item]) -> bool
    ensures { IsTrue result → AreInOrder items.now }
{
    'places: for place in 1..items.len() {
        if !precedes(item_at(items, place - 1), item_at(items, place)) {
            return false;
        }
    }
    true
}
