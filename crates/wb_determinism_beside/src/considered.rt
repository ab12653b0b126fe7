//! Has a new kernel a conflict, and which terminals are considered there?

ghost use Rattle.std.specs.Prelude.{◌≡◌, ◌+◌, ◌<◌, ◌⊎◌, ◌↔◌, [], ℕ, All, IfOk, IfSome, IsTrue, List, length};
ghost use Rattle.wb_base.specs.declared.symbol.Symbol.{Symbol};
ghost use Rattle.wb_determinism.specs.Valid.{IsReduced, IsShifted};
ghost use Rattle.wb_determinism_contexts.specs.Sets.{FitsGrammar, lent};
ghost use Rattle.wb_items.specs.declared.item_lookahead.ItemLookahead.{ItemLookahead};
ghost use Rattle.wb_termset.specs.Sets.{IsMember};
ghost use Rattle.wb_determinism_beside.specs.Inner.Found.{AreClear, IsClear, IsFound, both_in, new_in, prefix_at};
ghost use Rattle.wb_determinism_beside.specs.Inner.Rows.{IsRow};

use crate::conflict::has_no_conflict;
use crate::found::Found;
use crate::rows::row_at;
use crate::valid::{add_valid, shifts_of};
use std::alloc::{AllocError, Global};
use wb_base::{Grammar, push};
use wb_determinism_contexts::Lexicon;
use wb_items::ItemLookahead;
use wb_termset::TermSet;

// Adds what is considered at each new kernel, and answers whether none has a conflict.
pub(crate) fn add_considered(
    alloc: Global,
    found: &Found,
    lexicon: &Lexicon,
    sets: &mut Vec<TermSet>,
) -> Result<bool, AllocError>
    requires found { IsFound found.now }
    requires fits { FitsGrammar (both_in found.now).terminals (lent lexicon.now) }
    requires none { sets.old.items ≡ [] }
    ensures { IfOk result (λ answer. IsTrue answer → AreClear found.now (lent lexicon.now) (new_in found.now) sets.new.items) }
{
    'kernels: for place in 0..found.new.len() {
        let Some(set) = considered_at(alloc, found, lexicon, place)? else {
            return Ok(false);
        };
        push(sets, set)?;
    }
    Ok(true)
}

// What is considered at a new kernel, or none where it has a conflict.
fn considered_at(
    alloc: Global,
    found: &Found,
    lexicon: &Lexicon,
    place: usize,
) -> Result<Option<TermSet>, AllocError>
    requires found { IsFound found.now }
    requires fits { FitsGrammar (both_in found.now).terminals (lent lexicon.now) }
    requires place { place < new_in found.now }
    ensures { IfOk result (λ considered. IfSome considered (IsClear (both_in found.now) (lent lexicon.now) (prefix_at found.now place))) }
{
    let row = row_at(alloc, found, place)?;
    let considered = considered_in(alloc, found.beside.grammar, lexicon, &row);
    drop(row);
    considered
}

// What is considered where these are the items, each complete one with its lookaheads; or none where there is a conflict.
fn considered_in(
    alloc: Global,
    grammar: &Grammar,
    lexicon: &Lexicon,
    row: &[ItemLookahead],
) -> Result<Option<TermSet>, AllocError>
    requires widths { All (λ (looks : ItemLookahead). length looks.set ≡ grammar.now.terminals + 1) row.now }
    requires fits { FitsGrammar grammar.now.terminals (lent lexicon.now) }
    ensures { IfOk result (λ considered. IfSome considered (λ set. (prefix : List Symbol) → IsRow grammar.now prefix row.now → IsClear grammar.now (lent lexicon.now) prefix set)) }
{
    let shifts = shifts_of(alloc, grammar, row)?;
    let considered = considered_by(grammar, lexicon, row, &shifts);
    drop(shifts);
    considered
}

// Like `considered_in`, where these terminals can be shifted.
fn considered_by(
    grammar: &Grammar,
    lexicon: &Lexicon,
    row: &[ItemLookahead],
    shifts: &TermSet,
) -> Result<Option<TermSet>, AllocError>
    requires widths { All (λ (looks : ItemLookahead). length looks.set ≡ grammar.now.terminals + 1) row.now }
    requires fits { FitsGrammar grammar.now.terminals (lent lexicon.now) }
    requires len { length shifts.now ≡ grammar.now.terminals + 1 }
    requires each { (t : ℕ) → IsMember shifts.now t ↔ IsShifted grammar.now row.now (length row.now) t }
    ensures { IfOk result (λ considered. IfSome considered (λ set. (prefix : List Symbol) → IsRow grammar.now prefix row.now → IsClear grammar.now (lent lexicon.now) prefix set)) }
{
    if !has_no_conflict(grammar, shifts, row) {
        return Ok(None);
    }
    Ok(Some(considered_set(grammar, lexicon, row, shifts)?))
}

// Layout, and what is scanned of the terminals that are valid with these shifts and lookaheads.
fn considered_set(
    grammar: &Grammar,
    lexicon: &Lexicon,
    row: &[ItemLookahead],
    shifts: &TermSet,
) -> Result<TermSet, AllocError>
    requires widths { All (λ (looks : ItemLookahead). length looks.set ≡ grammar.now.terminals + 1) row.now }
    requires fits { FitsGrammar grammar.now.terminals (lent lexicon.now) }
    requires len { length shifts.now ≡ grammar.now.terminals + 1 }
    ensures { IfOk result (λ set. (t : ℕ) → IsMember set t ↔ (((t < lexicon.now.scanned) × (IsMember shifts.now t ⊎ IsReduced grammar.now row.now (length row.now) t)) ⊎ IsMember lexicon.now.layout.now t)) }
{
    let mut set = lexicon.layout.copy()?;
    add_valid(grammar, shifts, row, lexicon.scanned, &mut set);
    Ok(set)
}
