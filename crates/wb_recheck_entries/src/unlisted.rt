//! Is what follows from one entry listed? What was found before isn't looked up again.

ghost use Rattle.std.specs.Prelude.{◌≡◌, ◌<◌, ◌+◌, ◌^◌, ◌∷◌, [], All, List, IfOk, MatchBool, OnOk};
ghost use Rattle.wb_base.specs.declared.symbol.Symbol.{Symbol};
ghost use Rattle.wb_base.specs.declared.symbol.Symbol.TheVariants.{Nonterminal};
ghost use Rattle.wb_base.specs.Grammar.{IsSymbolBelow};
ghost use Rattle.wb_grammar_theory.specs.Derives.{Derives};
ghost use Rattle.wb_grammar_theory.specs.Items.{after_dot};
ghost use Rattle.wb_recheck_theory.specs.Lines.{kernel_count};
ghost use Rattle.wb_recheck_entries.specs.Inner.Steps.{AreFirstsListed, AreFollowersIn, AreInitialsListed, AreOpenedListed, AreOpenersListed, IsFirstUnlisted, IsFollowerOut, IsInitialUnlisted, IsMovedListed, IsMovedUnlisted, IsOpenedUnlisted, IsOpenerUnlisted};
ghost use Rattle.wb_recheck_entries.specs.Inner.Walks.{IsKnown, IsListing};

use crate::begins::{is_empty, rest_after};
use crate::known::{Known, Listing};
use crate::opened::{lacks_firsts, lacks_productions};
use std::alloc::AllocError;
use wb_base::Symbol;
use wb_items::symbol_after;
use wb_recheck_theory::Entry;

// Whether something that follows from an entry isn't listed.
pub(crate) fn lacks_follower(
    listing: &Listing,
    entry: Entry,
    known: &mut Known,
) -> Result<bool, AllocError>
    requires listing { IsListing listing.now }
    requires kernel { entry.kernel < kernel_count listing.now.reference.now.lines.now }
    requires known { IsKnown listing.now.reference.now.grammar.now listing.now.keys.now known.old }
    ensures known { OnOk result (IsKnown listing.now.reference.now.grammar.now listing.now.keys.now known.new) }
    ensures lacks { IfOk result (λ lacks. MatchBool lacks (IsFollowerOut listing.now.reference.now.grammar.now listing.now.reference.now.lines.now listing.now.keys.now entry.kernel entry.item entry.terminal) (AreFollowersIn listing.now.reference.now.grammar.now listing.now.reference.now.lines.now listing.now.keys.now entry.kernel entry.item entry.terminal)) }
{
    match symbol_after(listing.reference.grammar, entry.item) {
        None => Ok(false),
        Some(symbol) => {
            if lacks_moved(listing, entry, symbol) {
                return Ok(true);
            }
            lacks_opened(listing, entry, symbol, known)
        }
    }
}

// Whether the lookahead isn't listed where the item is moved over the symbol, at the kernel to which that leads.
fn lacks_moved(listing: &Listing, entry: Entry, symbol: Symbol) -> bool
    requires listing { IsListing listing.now }
    requires kernel { entry.kernel < kernel_count listing.now.reference.now.lines.now }
    requires room { entry.item.dot + 1 < 2 ^ 64 }
    ensures { MatchBool result (IsMovedUnlisted listing.now.reference.now.grammar.now listing.now.reference.now.lines.now listing.now.keys.now entry.kernel entry.item entry.terminal symbol) (IsMovedListed listing.now.reference.now.grammar.now listing.now.reference.now.lines.now listing.now.keys.now entry.kernel entry.item entry.terminal symbol) }
{
    let reference = listing.reference;
    match reference
        .kernels
        .next(reference.found.state(entry.kernel), symbol)
    {
        None => false,
        Some(next) => match reference.found.place(next) {
            None => false,
            Some(place) => listing.keys.lacks((
                (place, entry.item.production),
                (entry.item.dot + 1, entry.terminal),
            )),
        },
    }
}

// Whether something that the symbol opens isn't listed.
fn lacks_opened(
    listing: &Listing,
    entry: Entry,
    symbol: Symbol,
    known: &mut Known,
) -> Result<bool, AllocError>
    requires listing { IsListing listing.now }
    requires known { IsKnown listing.now.reference.now.grammar.now listing.now.keys.now known.old }
    requires symbol { (rest : List Symbol) × (after_dot listing.now.reference.now.grammar.now entry.item ≡ symbol ∷ rest) }
    requires below { IsSymbolBelow listing.now.reference.now.grammar.now.terminals listing.now.reference.now.grammar.now.nonterminals symbol }
    ensures known { OnOk result (IsKnown listing.now.reference.now.grammar.now listing.now.keys.now known.new) }
    ensures lacks { IfOk result (λ lacks. MatchBool lacks (IsOpenerUnlisted listing.now.reference.now.grammar.now listing.now.keys.now entry.kernel entry.item entry.terminal) (AreOpenersListed listing.now.reference.now.grammar.now listing.now.keys.now entry.kernel entry.item entry.terminal)) }
{
    match symbol {
        Symbol::Terminal(_) => Ok(false),
        Symbol::Nonterminal(nonterminal) => {
            let rest = rest_after(listing.reference.grammar, entry.item);
            lacks_initial(listing, entry, nonterminal, rest, known)
        }
    }
}

// Whether something that the nonterminal opens isn't listed, where these symbols are behind it.
fn lacks_initial(
    listing: &Listing,
    entry: Entry,
    nonterminal: usize,
    rest: &[Symbol],
    known: &mut Known,
) -> Result<bool, AllocError>
    requires listing { IsListing listing.now }
    requires known { IsKnown listing.now.reference.now.grammar.now listing.now.keys.now known.old }
    requires rest { after_dot listing.now.reference.now.grammar.now entry.item ≡ Nonterminal nonterminal ∷ rest.now }
    requires below { nonterminal < listing.now.reference.now.grammar.now.nonterminals }
    requires symbols { All (IsSymbolBelow listing.now.reference.now.grammar.now.terminals listing.now.reference.now.grammar.now.nonterminals) rest.now }
    ensures known { OnOk result (IsKnown listing.now.reference.now.grammar.now listing.now.keys.now known.new) }
    ensures lacks { IfOk result (λ lacks. MatchBool lacks (IsInitialUnlisted listing.now.reference.now.grammar.now listing.now.keys.now entry.kernel nonterminal rest.now entry.terminal) (AreInitialsListed listing.now.reference.now.grammar.now listing.now.keys.now entry.kernel nonterminal rest.now entry.terminal)) }
{
    let lacks = lacks_itself(listing, entry, nonterminal, rest, known)?;
    if lacks {
        return Ok(true);
    }
    lacks_rest(listing, entry, nonterminal, rest, known)
}

// Whether the symbols behind the nonterminal derive the empty text, and the terminal itself isn't listed.
fn lacks_itself(
    listing: &Listing,
    entry: Entry,
    nonterminal: usize,
    rest: &[Symbol],
    known: &mut Known,
) -> Result<bool, AllocError>
    requires listing { IsListing listing.now }
    requires known { IsKnown listing.now.reference.now.grammar.now listing.now.keys.now known.old }
    requires below { nonterminal < listing.now.reference.now.grammar.now.nonterminals }
    requires symbols { All (IsSymbolBelow listing.now.reference.now.grammar.now.terminals listing.now.reference.now.grammar.now.nonterminals) rest.now }
    ensures known { OnOk result (IsKnown listing.now.reference.now.grammar.now listing.now.keys.now known.new) }
    ensures lacks { IfOk result (λ lacks. MatchBool lacks (Derives listing.now.reference.now.grammar.now rest.now [] × IsOpenedUnlisted listing.now.reference.now.grammar.now listing.now.keys.now entry.kernel nonterminal entry.terminal) (Derives listing.now.reference.now.grammar.now rest.now [] → AreOpenedListed listing.now.reference.now.grammar.now listing.now.keys.now entry.kernel nonterminal entry.terminal)) }
{
    if !is_empty(listing.reference.grammar, listing.reference.facts, rest) {
        return Ok(false);
    }
    lacks_productions(listing, entry.kernel, nonterminal, entry.terminal, known)
}

// Whether something that begins the symbols behind the nonterminal after the dot isn't listed.
fn lacks_rest(
    listing: &Listing,
    entry: Entry,
    nonterminal: usize,
    rest: &[Symbol],
    known: &mut Known,
) -> Result<bool, AllocError>
    requires listing { IsListing listing.now }
    requires known { IsKnown listing.now.reference.now.grammar.now listing.now.keys.now known.old }
    requires rest { after_dot listing.now.reference.now.grammar.now entry.item ≡ Nonterminal nonterminal ∷ rest.now }
    requires below { nonterminal < listing.now.reference.now.grammar.now.nonterminals }
    requires symbols { All (IsSymbolBelow listing.now.reference.now.grammar.now.terminals listing.now.reference.now.grammar.now.nonterminals) rest.now }
    ensures known { OnOk result (IsKnown listing.now.reference.now.grammar.now listing.now.keys.now known.new) }
    ensures lacks { IfOk result (λ lacks. MatchBool lacks (IsFirstUnlisted listing.now.reference.now.grammar.now listing.now.keys.now entry.kernel nonterminal rest.now) (AreFirstsListed listing.now.reference.now.grammar.now listing.now.keys.now entry.kernel nonterminal rest.now)) }
{
    let key = ((entry.kernel, entry.item.production), (entry.item.dot, 0));
    if known.rests.has(key) {
        return Ok(false);
    }
    let lacks = lacks_firsts(listing, entry.kernel, nonterminal, rest, known)?;
    if lacks {
        return Ok(true);
    }
    known.rests.insert(key)?;
    Ok(false)
}
