//! Is there a kernel with these items? Binary search in the order of kernels as sets, which `compare.rt` defines.

ghost use Rattle.std.specs.Prelude.{◌≡◌, ◌<◌, List, IfOk, IfErr, IsTrue, Some, length, slice_get};
ghost use Rattle.wb_grammar_theory.specs.declared.item.Item.{Item};
ghost use Rattle.wb_items.specs.Kernels.{AreInOrder};
ghost use Rattle.wb_items.specs.KernelOrder.{IsIndex, LiesWithin};
ghost use Rattle.wb_items.specs.Table.{SameItems};

use crate::compare::compare;
use std::cmp::Ordering;
use wb_base::Sequence;
use wb_grammar_theory::Item;

// The number of the kernel with these items, or else the place in the order where such a kernel would be.
pub(crate) fn locate(
    kernels: &[Sequence<Item>],
    order: &[usize],
    items: &[Item],
    in_order: bool,
) -> Result<usize, usize>
    requires index { IsIndex order.now kernels.now }
    requires items { IsTrue in_order → AreInOrder items.now }
    ensures ok { IfOk result (λ s. (kernel : List Item) × (slice_get kernels.now s ≡ Some kernel) × SameItems kernel items.now) }
    ensures err { IfErr result (λ place. LiesWithin kernels.now order.now items.now place place) }
{
    let mut low = 0;
    let mut high = order.len();
    'halves: while low < high {
        let middle = low + (high - low) / 2;
        let number = number_at(order, middle);
        match compare(items_at(kernels, number), items, in_order) {
            Ordering::Less => low = middle + 1,
            Ordering::Equal => return Ok(number),
            Ordering::Greater => high = middle,
        }
    }
    Err(low)
}

// Whether the kernel of this number has these items.
pub(crate) fn is_number_of(kernels: &[Sequence<Item>], number: usize, items: &[Item]) -> bool
    requires kernels { (kernel : List Item) → slice_get kernels.now number ≡ Some kernel → AreInOrder kernel }
    requires items { AreInOrder items.now }
    ensures { IsTrue result → (kernel : List Item) × (slice_get kernels.now number ≡ Some kernel) × SameItems kernel items.now }
{
    if number >= kernels.len() {
        return false;
    }
    match compare(items_at(kernels, number), items, true) {
        Ordering::Equal => true,
        _ => false,
    }
}

// The number at a place.
pub(crate) fn number_at(order: &[usize], place: usize) -> usize
    requires { place < length order.now }
    ensures { slice_get order.now place ≡ Some result }
{
    order[place]
}

// The list at a place.
pub(crate) fn items_at(kernels: &[Sequence<Item>], place: usize) -> &[Item]
    requires { place < length kernels.now }
    ensures { slice_get kernels.now place ≡ Some result.now }
{
    kernels[place].as_slice()
}
