//! Is there a kernel with these items? Binary search in the order of kernels as sets, which `compare.rt` has.

ghost use Rattle.std.specs.Prelude.{◌≡◌, ◌<◌, List, IfOk, IfErr, Some, length, slice_get};
ghost use Rattle.wb_grammar_theory.specs.declared.item.Item.{Item};
ghost use Rattle.wb_items.specs.Kernels.{AreInOrder};
ghost use Rattle.wb_items.specs.KernelOrder.{IsIndex, LiesWithin};
ghost use Rattle.wb_items.specs.Table.{SameItems};

use crate::compare::compare_in_order;
use std::cmp::Ordering;
use wb_base::Sequence;
use wb_items::Item;

// The number of the kernel with these items, or else the place in the order where such a kernel would be.
pub(crate) fn locate(
    kernels: &[Sequence<Item>],
    order: &[usize],
    items: &[Item],
) -> Result<usize, usize>
    requires index { IsIndex order.now kernels.now }
    requires items { AreInOrder items.now }
    ensures ok { IfOk result (λ s. (kernel : List Item) × (slice_get kernels.now s ≡ Some kernel) × SameItems kernel items.now) }
    ensures err { IfErr result (λ place. LiesWithin kernels.now order.now items.now place place) }
{
    let mut low = 0;
    let mut high = order.len();
    'halves: while low < high {
        let middle = low + (high - low) / 2;
        let number = number_at(order, middle);
        match compare_in_order(items_at(kernels, number), items) {
            Ordering::Less => low = middle + 1,
            Ordering::Equal => return Ok(number),
            Ordering::Greater => high = middle,
        }
    }
    Err(low)
}

// The number at a place.
fn number_at(order: &[usize], place: usize) -> usize
    requires { place < length order.now }
    ensures { slice_get order.now place ≡ Some result }
{
    order[place]
}

// The list at a place.
fn items_at(kernels: &[Sequence<Item>], place: usize) -> &[Item]
    requires { place < length kernels.now }
    ensures { slice_get kernels.now place ≡ Some result.now }
{
    kernels[place].as_slice()
}
