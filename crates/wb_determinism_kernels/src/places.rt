//! What is at a place of a list, and is it this?

ghost use Rattle.std.specs.Prelude.{◌≡◌, ◌<◌, ◌↔◌, IsTrue, Some, length, slice_get};

use wb_base::Symbol;
use wb_items::Item;

// Whether the symbols are the same.
pub(crate) fn is_symbol(one: Symbol, other: Symbol) -> bool
    ensures { IsTrue result ↔ (one ≡ other) }
{
    one == other
}

// Whether the items are the same.
pub(crate) fn is_item(one: Item, other: Item) -> bool
    ensures { IsTrue result ↔ (one ≡ other) }
{
    one == other
}

// The item at a place.
pub(crate) fn item_at(items: &[Item], place: usize) -> Item
    requires { place < length items.now }
    ensures { slice_get items.now place ≡ Some result }
{
    items[place]
}
