//! Does a new kernel of the host's items have a conflict, with the envelope as lookaheads?

ghost use Rattle.std.specs.Prelude.{◌≡◌, ◌<◌, ℕ, All, MatchOption, Some, length, slice_get};
ghost use Rattle.wb_items.specs.declared.item_lookahead.ItemLookahead.{ItemLookahead};
ghost use Rattle.wb_termset.specs.Sets.{IsMember};
ghost use Rattle.wb_determinism.specs.Inner.Conflicts.{IsFound, IsFoundPair};
ghost use Rattle.wb_determinism.specs.Conflicts.{AreApartBefore, HasNoConflictAt, HasNoConflictIn, IsPairConflict, IsShiftConflict};

use crate::apart::are_apart;
use wb_base::Grammar;
use wb_items::{ItemLookahead, symbol_after};
use wb_termset::TermSet;

// Two actions on a terminal of the host: the first is a reduction by a production, or else a shift, and the second a reduction. `S' -> S`
// is numbered after all productions.
#[derive(Clone, Copy, Drop)]
pub(crate) struct ActionPair {
    pub(crate) terminal: usize,
    pub(crate) first: Option<usize>,
    pub(crate) second: usize,
}

// The first conflict of a row of items with their lookaheads, where these terminals can be shifted.
pub(crate) fn row_conflict(
    grammar: &Grammar,
    shifts: &TermSet,
    row: &[ItemLookahead],
) -> Option<ActionPair>
    requires { All (λ (looks : ItemLookahead). length looks.set ≡ length shifts.now) row.now }
    ensures { MatchOption result (HasNoConflictIn grammar.now shifts.now row.now) (IsFound grammar.now shifts.now row.now) }
{
    if are_apart(grammar, shifts, row) {
        return None;
    }
    first_conflict(grammar, shifts, row)
}

// The same, by all pairs.
fn first_conflict(grammar: &Grammar, shifts: &TermSet, row: &[ItemLookahead]) -> Option<ActionPair>
    requires { All (λ (looks : ItemLookahead). length looks.set ≡ length shifts.now) row.now }
    ensures { MatchOption result (HasNoConflictIn grammar.now shifts.now row.now) (IsFound grammar.now shifts.now row.now) }
{
    'items: for place in 0..row.len() {
        if let Some(pair) = conflict_at(grammar, shifts, row, place) {
            return Some(pair);
        }
    }
    None
}

// The first whose second action is a reduction by the item at this place.
fn conflict_at(
    grammar: &Grammar,
    shifts: &TermSet,
    row: &[ItemLookahead],
    place: usize,
) -> Option<ActionPair>
    requires widths { All (λ (looks : ItemLookahead). length looks.set ≡ length shifts.now) row.now }
    requires place { place < length row.now }
    ensures { MatchOption result (HasNoConflictAt grammar.now shifts.now row.now place) (IsFound grammar.now shifts.now row.now) }
{
    let looks = &row[place];
    match shift_conflict(grammar, shifts, looks) {
        Some(terminal) => Some(ActionPair {
            terminal,
            first: None,
            second: looks.item.production,
        }),
        None => earlier_conflict(grammar, row, place, looks),
    }
}

// The first with a reduction by an item before.
fn earlier_conflict(
    grammar: &Grammar,
    row: &[ItemLookahead],
    place: usize,
    looks: &ItemLookahead,
) -> Option<ActionPair>
    requires widths { All (λ (one : ItemLookahead). length one.set ≡ length looks.now.set) row.now }
    requires place { place < length row.now }
    requires looks { slice_get row.now place ≡ Some looks.now }
    ensures { MatchOption result (AreApartBefore grammar.now row.now place looks.now) (IsFoundPair grammar.now row.now) }
{
    'places: for other in 0..place {
        let one = &row[other];
        if let Some(terminal) = pair_conflict(grammar, one, looks) {
            return Some(ActionPair {
                terminal,
                first: Some(one.item.production),
                second: looks.item.production,
            });
        }
    }
    None
}

// A terminal that can be shifted and is a lookahead of this complete item.
fn shift_conflict(grammar: &Grammar, shifts: &TermSet, looks: &ItemLookahead) -> Option<usize>
    requires { length shifts.now ≡ length looks.now.set }
    ensures { MatchOption result ((t : ℕ) → ¬ IsShiftConflict grammar.now shifts.now looks.now t) (IsShiftConflict grammar.now shifts.now looks.now) }
{
    match symbol_after(grammar, looks.item) {
        Some(_) => None,
        None => first_common(shifts, &looks.set),
    }
}

// A terminal that is a lookahead of both items, where both are complete and of different productions.
fn pair_conflict(grammar: &Grammar, one: &ItemLookahead, other: &ItemLookahead) -> Option<usize>
    requires { length one.now.set ≡ length other.now.set }
    ensures { MatchOption result ((t : ℕ) → ¬ IsPairConflict grammar.now one.now other.now t) (IsPairConflict grammar.now one.now other.now) }
{
    if one.item.production == other.item.production {
        return None;
    }
    match symbol_after(grammar, one.item) {
        Some(_) => None,
        None => shift_conflict(grammar, &one.set, other),
    }
}

// The first member of both sets.
fn first_common(one: &TermSet, other: &TermSet) -> Option<usize>
    requires { length one.now ≡ length other.now }
    ensures { MatchOption result ((t : ℕ) → ¬ (IsMember one.now t × IsMember other.now t)) (λ t. IsMember one.now t × IsMember other.now t) }
{
    'numbers: for number in 0..one.count() {
        if one.contains(number) && other.contains(number) {
            return Some(number);
        }
    }
    None
}
