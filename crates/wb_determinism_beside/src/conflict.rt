//! Has a row of items with their lookaheads no conflict?

ghost use Rattle.std.specs.Prelude.{◌≡◌, ◌<◌, ℕ, All, IsTrue, Some, false, length, slice_get};
ghost use Rattle.wb_determinism.specs.Conflicts.{AreApartBefore, HasNoConflictAt, HasNoConflictIn, IsPairConflict};
ghost use Rattle.wb_items.specs.declared.item_lookahead.ItemLookahead.{ItemLookahead};

use wb_base::Grammar;
use wb_items::{ItemLookahead, symbol_after};
use wb_termset::TermSet;

// Whether it has none, where these terminals can be shifted. An item that isn't complete may have any lookaheads.
pub(crate) fn has_no_conflict(grammar: &Grammar, shifts: &TermSet, row: &[ItemLookahead]) -> bool
    requires { All (λ (looks : ItemLookahead). length looks.set ≡ length shifts.now) row.now }
    ensures { IsTrue result → HasNoConflictIn grammar.now shifts.now row.now }
{
    'items: for place in 0..row.len() {
        if !is_apart(grammar, shifts, row, place) {
            return false;
        }
    }
    true
}

// Whether the item at a place has none with a shift or an item before it.
fn is_apart(grammar: &Grammar, shifts: &TermSet, row: &[ItemLookahead], place: usize) -> bool
    requires widths { All (λ (looks : ItemLookahead). length looks.set ≡ length shifts.now) row.now }
    requires place { place < length row.now }
    ensures { IsTrue result → HasNoConflictAt grammar.now shifts.now row.now place }
{
    let looks = &row[place];
    if let Some(_symbol) = symbol_after(grammar, looks.item) {
        return true;
    }
    if shifts.intersects(&looks.set) {
        return false;
    }
    are_apart_before(grammar, row, place, looks)
}

// Whether it has none with an item before it.
fn are_apart_before(
    grammar: &Grammar,
    row: &[ItemLookahead],
    place: usize,
    looks: &ItemLookahead,
) -> bool
    requires widths { All (λ (one : ItemLookahead). length one.set ≡ length looks.now.set) row.now }
    requires place { place < length row.now }
    ensures { IsTrue result → AreApartBefore grammar.now row.now place looks.now }
{
    'places: for other in 0..place {
        if meets(grammar, &row[other], looks) {
            return false;
        }
    }
    true
}

// Whether an item has a conflict with another, which is complete.
fn meets(grammar: &Grammar, one: &ItemLookahead, looks: &ItemLookahead) -> bool
    requires { length one.now.set ≡ length looks.now.set }
    ensures { result ≡ false → (t : ℕ) → ¬ IsPairConflict grammar.now one.now looks.now t }
{
    if one.item.production == looks.item.production {
        return false;
    }
    if let Some(_symbol) = symbol_after(grammar, one.item) {
        return false;
    }
    one.set.intersects(&looks.set)
}
