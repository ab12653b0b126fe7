//! Where in a list of items is an item? Binary search, since items are in order.

ghost use Rattle.std.specs.Prelude.{◌≡◌, Contains, MatchOption, Some, slice_get};
ghost use Rattle.wb_items.specs.Kernels.{AreInOrder};

use crate::compare::precedes;
use wb_grammar_theory::Item;

// The place of an item, if it is in the list.
pub(crate) fn position(items: &[Item], item: Item) -> Option<usize>
    requires { AreInOrder items.now }
    ensures { MatchOption result (¬ Contains items.now item) (λ place. slice_get items.now place ≡ Some item) }
{
    let mut low = 0;
    let mut high = items.len();
    'halves: while low < high {
        let middle = low + (high - low) / 2;
        let found = items[middle];
        if precedes(found, item) {
            low = middle + 1;
        } else if precedes(item, found) {
            high = middle;
        } else {
            return Some(middle);
        }
    }
    None
}
