//! Are terminals listed at the initial items of a nonterminal's productions?

ghost use Rattle.std.specs.Prelude.{◌≡◌, ◌<◌, All, IfOk, MatchBool, OnOk, Some, length, slice_get};
ghost use Rattle.wb_base.specs.Grammar.{IsSymbolBelow};
ghost use Rattle.wb_recheck_entries.specs.Inner.Steps.{AreFirstsListed, AreMembersListed, AreNumbersListed, AreOpenedListed, IsFirstUnlisted, IsMemberUnlisted, IsNumberUnlisted, IsOpenedUnlisted};
ghost use Rattle.wb_recheck_entries.specs.Inner.Walks.{IsKnown, IsListing};

use crate::EntryKeys;
use crate::known::{Known, Listing};
use std::alloc::AllocError;
use wb_base::Symbol;
use wb_termset::TermSet;

// Whether a terminal that begins the symbols isn't listed at some production of the nonterminal.
pub(crate) fn lacks_firsts(
    listing: &Listing,
    kernel: usize,
    nonterminal: usize,
    symbols: &[Symbol],
    known: &mut Known,
) -> Result<bool, AllocError>
    requires listing { IsListing listing.now }
    requires known { IsKnown listing.now.reference.now.grammar.now listing.now.keys.now known.old }
    requires below { nonterminal < listing.now.reference.now.grammar.now.nonterminals }
    requires symbols { All (IsSymbolBelow listing.now.reference.now.grammar.now.terminals listing.now.reference.now.grammar.now.nonterminals) symbols.now }
    ensures known { OnOk result (IsKnown listing.now.reference.now.grammar.now listing.now.keys.now known.new) }
    ensures lacks { IfOk result (λ lacks. MatchBool lacks (IsFirstUnlisted listing.now.reference.now.grammar.now listing.now.keys.now kernel nonterminal symbols.now) (AreFirstsListed listing.now.reference.now.grammar.now listing.now.keys.now kernel nonterminal symbols.now)) }
{
    'symbols: for symbol in symbols {
        match *symbol {
            Symbol::Terminal(terminal) => {
                return lacks_productions(listing, kernel, nonterminal, terminal, known);
            }
            Symbol::Nonterminal(leading) => {
                let set = listing.reference.facts.first(leading);
                let lacks = lacks_members(listing, kernel, nonterminal, set, known)?;
                if lacks {
                    return Ok(true);
                }
                if !listing.reference.facts.nullable(leading) {
                    return Ok(false);
                }
            }
        }
    }
    Ok(false)
}

// Whether a member of the set isn't listed at some production of the nonterminal.
fn lacks_members(
    listing: &Listing,
    kernel: usize,
    nonterminal: usize,
    set: &TermSet,
    known: &mut Known,
) -> Result<bool, AllocError>
    requires listing { IsListing listing.now }
    requires known { IsKnown listing.now.reference.now.grammar.now listing.now.keys.now known.old }
    requires below { nonterminal < listing.now.reference.now.grammar.now.nonterminals }
    ensures known { OnOk result (IsKnown listing.now.reference.now.grammar.now listing.now.keys.now known.new) }
    ensures lacks { IfOk result (λ lacks. MatchBool lacks (IsMemberUnlisted listing.now.reference.now.grammar.now listing.now.keys.now kernel nonterminal set.now) (AreMembersListed listing.now.reference.now.grammar.now listing.now.keys.now kernel nonterminal set.now)) }
{
    let mut from = 0;
    'members: while let Some(terminal) = set.next_member(from) {
        let lacks = lacks_productions(listing, kernel, nonterminal, terminal, known)?;
        if lacks {
            return Ok(true);
        }
        from = terminal + 1;
    }
    Ok(false)
}

// Whether a terminal isn't listed at some production of the nonterminal.
pub(crate) fn lacks_productions(
    listing: &Listing,
    kernel: usize,
    nonterminal: usize,
    terminal: usize,
    known: &mut Known,
) -> Result<bool, AllocError>
    requires listing { IsListing listing.now }
    requires known { IsKnown listing.now.reference.now.grammar.now listing.now.keys.now known.old }
    requires below { nonterminal < listing.now.reference.now.grammar.now.nonterminals }
    ensures known { OnOk result (IsKnown listing.now.reference.now.grammar.now listing.now.keys.now known.new) }
    ensures lacks { IfOk result (λ lacks. MatchBool lacks (IsOpenedUnlisted listing.now.reference.now.grammar.now listing.now.keys.now kernel nonterminal terminal) (AreOpenedListed listing.now.reference.now.grammar.now listing.now.keys.now kernel nonterminal terminal)) }
{
    let key = ((kernel, nonterminal), (terminal, 0));
    if known.opened.has(key) {
        return Ok(false);
    }
    let numbers = listing.productions[nonterminal].as_slice();
    if lacks_one(listing.keys, kernel, numbers, terminal) {
        return Ok(true);
    }
    known.opened.insert(key)?;
    Ok(false)
}

// Whether a terminal isn't listed at one of the productions.
fn lacks_one(keys: &EntryKeys, kernel: usize, numbers: &[usize], terminal: usize) -> bool
    ensures { MatchBool result (IsNumberUnlisted keys.now kernel numbers.now terminal) (AreNumbersListed keys.now kernel numbers.now terminal) }
{
    'numbers: for place in 0..numbers.len() {
        if keys.lacks(((kernel, number_at(numbers, place)), (0, terminal))) {
            return true;
        }
    }
    false
}

// The number at a place.
fn number_at(numbers: &[usize], place: usize) -> usize
    requires { place < length numbers.now }
    ensures { slice_get numbers.now place ≡ Some result }
{
    numbers[place]
}
