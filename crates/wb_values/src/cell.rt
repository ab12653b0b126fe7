//! How does a value lie in 8 bytes?
//!
//! Most values are trees, short texts and small numbers. Each other value lies among the large ones, and its cell has its place there.

ghost use Rattle.std.specs.Prelude.{◌≡◌, IfSome};
ghost use Rattle.wb_values.specs.Packed.{place_of};
ghost use Rattle.wb_values.specs.Inner.Small.{Holds, IsLarge};
ghost use Rattle.wb_values.specs.declared.value.Value.TheVariants.{Int, Text, Tree as Stored};

use crate::{TreeId, Value};

// How many bytes of a text lie in a cell.
const SHORT: usize = 6;

// How many values are numbered by the low part of a place.
const LOW: usize = 4_294_967_296;

// How many large values have a place. So many take 2^53 bytes, more than an address reaches, so that one without a place is without memory.
const PLACES: usize = 281_474_976_710_656;

// A value in 8 bytes.
#[derive(Clone, Copy)]
pub(crate) enum Cell {
    Tree(u32),
    Int(i32),
    Bool(bool),
    // The length of a text, and its bytes with others after them.
    Text(u8, [u8; 6]),
    // The place of a large value: its high part and its low one.
    Large(u16, u32),
}

const _: () = prove!(size_of::<Cell>() == 8);

// The cell of a value, if it fits into one.
pub(crate) fn cell_of(value: &Value) -> Option<Cell>
    ensures { IfSome result (Holds value.now) }
{
    match value {
        Value::Int(number) => cell_of_int(*number),
        Value::Bool(truth) => Some(Cell::Bool(*truth)),
        Value::Text(text) => cell_of_text(text.as_slice()),
        Value::Tree(tree) => cell_of_tree(*tree),
    }
}

// The cell of a number, if it is small.
fn cell_of_int(number: i64) -> Option<Cell>
    ensures { IfSome result (Holds (Int number)) }
{
    if number < -2_147_483_648 || 2_147_483_647 < number {
        return None;
    }
    Some(Cell::Int(number as i32))
}

// The cell of a text, if it is short.
pub(crate) fn cell_of_text(text: &[u8]) -> Option<Cell>
    ensures { IfSome result (Holds (Text text.now)) }
{
    if text.len() > SHORT {
        return None;
    }
    let mut bytes = [0; 6];
    bytes[..text.len()].copy_from_slice(text);
    Some(Cell::Text(text.len() as u8, bytes))
}

// The cell of a tree, if its number is small.
#[inline]
pub(crate) fn cell_of_tree(tree: TreeId) -> Option<Cell>
    ensures { IfSome result (Holds (Stored tree)) }
{
    if tree.0 >= LOW {
        return None;
    }
    Some(Cell::Tree(tree.0 as u32))
}

// The cell of a large value at a place, if there is one for it.
pub(crate) fn cell_of_place(place: usize) -> Option<Cell>
    ensures { IfSome result (IsLarge place) }
{
    if place >= PLACES {
        return None;
    }
    Some(Cell::Large((place / LOW) as u16, (place % LOW) as u32))
}

// The place that its parts stand for.
pub(crate) fn place_of(high: u16, low: u32) -> usize
    ensures { result ≡ place_of high low }
{
    high as usize * LOW + low as usize
}
