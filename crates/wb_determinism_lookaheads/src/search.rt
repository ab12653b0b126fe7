//! Where is an item or a symbol in a list that is in order? Binary search, of which only what it finds is promised.

ghost use Rattle.std.specs.Prelude.{◌≡◌, IfSome, Contains, Some, slice_get};

use wb_base::Symbol;
use wb_items::{Item, Move};

// The place of an item.
pub(crate) fn place_of(items: &[Item], item: Item) -> Option<usize>
    ensures { IfSome result (λ place. slice_get items.now place ≡ Some item) }
{
    let mut low = 0;
    let mut high = items.len();
    'halves: for _half in 0..64 {
        if low >= high {
            return None;
        }
        let middle = low + (high - low) / 2;
        if middle >= items.len() {
            return None;
        }
        let found = items[middle];
        if found == item {
            return Some(middle);
        }
        if is_before(found, item) {
            low = middle + 1;
        } else {
            high = middle;
        }
    }
    None
}

// Whether the one item comes first.
fn is_before(one: Item, other: Item) -> bool {
    one.production < other.production || one.production == other.production && one.dot < other.dot
}

// Where a row of moves leads by a symbol.
pub(crate) fn target_of(row: &[Move], symbol: Symbol) -> Option<usize>
    ensures { IfSome result (λ next. Contains row.now (record { symbol = symbol; state = next })) }
{
    let mut low = 0;
    let mut high = row.len();
    'halves: for _half in 0..64 {
        if low >= high {
            return None;
        }
        let middle = low + (high - low) / 2;
        if middle >= row.len() {
            return None;
        }
        let found = row[middle];
        if found.symbol == symbol {
            return Some(found.state);
        }
        if comes_first(found.symbol, symbol) {
            low = middle + 1;
        } else {
            high = middle;
        }
    }
    None
}

// Whether the one symbol comes first: terminals before nonterminals, each by number.
fn comes_first(one: Symbol, other: Symbol) -> bool {
    match one {
        Symbol::Terminal(number) => match other {
            Symbol::Terminal(second) => number < second,
            Symbol::Nonterminal(_) => true,
        },
        Symbol::Nonterminal(number) => match other {
            Symbol::Terminal(_) => false,
            Symbol::Nonterminal(second) => number < second,
        },
    }
}
