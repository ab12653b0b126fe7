//! Are what can be shifted and the lookaheads of complete items apart?
//!
//! One pass, with the set of all that is taken by an action so far.

ghost use Rattle.std.specs.Prelude.{◌≡◌, All, IsTrue, length};
ghost use Rattle.wb_items.specs.declared.item_lookahead.ItemLookahead.{ItemLookahead};
ghost use Rattle.wb_determinism.specs.Inner.Conflicts.{TakesItem, TakesSet};
ghost use Rattle.wb_determinism.specs.Conflicts.{HasNoConflictIn};

use wb_base::Grammar;
use wb_items::{ItemLookahead, symbol_after};
use wb_termset::TermSet;

// Whether no terminal has two actions with a row of items and their lookaheads, where these terminals can be shifted. Without memory it
// says no.
pub(crate) fn are_apart(grammar: &Grammar, shifts: &TermSet, row: &[ItemLookahead]) -> bool
    requires { All (λ (looks : ItemLookahead). length looks.set ≡ length shifts.now) row.now }
    ensures { IsTrue result → HasNoConflictIn grammar.now shifts.now row.now }
{
    match shifts.copy() {
        Ok(mut taken) => {
            let apart = take_all(grammar, row, &mut taken);
            drop(taken);
            apart
        }
        Err(_) => false,
    }
}

// The same, where the set begins with what can be shifted.
fn take_all(grammar: &Grammar, row: &[ItemLookahead], taken: &mut TermSet) -> bool
    requires { All (λ (looks : ItemLookahead). length looks.set ≡ length taken.old) row.now }
    ensures { IsTrue result → HasNoConflictIn grammar.now taken.old row.now }
{
    'items: for looks in row {
        if !take_item(grammar, looks, taken) {
            return false;
        }
    }
    true
}

// Adds the lookaheads of an item, where it is complete. The answer says whether none of them was taken.
fn take_item(grammar: &Grammar, looks: &ItemLookahead, taken: &mut TermSet) -> bool
    requires { length looks.now.set ≡ length taken.old }
    ensures { IsTrue result → TakesItem grammar.now looks.now taken.old taken.new }
{
    match symbol_after(grammar, looks.item) {
        Some(_) => true,
        None => take_set(&looks.set, taken),
    }
}

// Adds a set, if none of its members was taken.
fn take_set(set: &TermSet, taken: &mut TermSet) -> bool
    requires { length set.now ≡ length taken.old }
    ensures { IsTrue result → TakesSet set.now taken.old taken.new }
{
    if taken.intersects(set) {
        return false;
    }
    taken.union_with(set);
    true
}
