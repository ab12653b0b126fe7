//! To which items do an item's lookaheads flow? To the item after its symbol, and to the initial items of a nonterminal after its dot.
//!
//! The initial items of one nonterminal in one kernel have one set, so what spreads to one of them is passed on from all.

ghost use Rattle.std.specs.Prelude.{◌≡◌, ◌+◌, ◌<◌, ◌^◌, ◌∷◌, ◌++◌, [], ℕ, List, MatchOption, OnOk, length};
ghost use Rattle.wb_base.specs.declared.symbol.Symbol.{Symbol};
ghost use Rattle.wb_base.specs.declared.symbol.Symbol.TheVariants.{Terminal, Nonterminal};
ghost use Rattle.wb_base.specs.Grammar.{IsSymbolBelow};
ghost use Rattle.wb_termset.specs.Sets.{IsMember};
ghost use Rattle.wb_grammar_theory.specs.Productions.{IsProduction};
ghost use Rattle.wb_grammar_theory.specs.Derives.{IsFirst};
ghost use Rattle.wb_grammar_theory.specs.Items.{after_dot, advance, initial_item, HasItem};
ghost use Rattle.wb_items.specs.Kernels.{AreKernels, LeadsTo, count_of, prefix_of};
ghost use Rattle.wb_lookahead.specs.Inner.Spreading.{AreSound, FlowsTo, IsContext, IsItemPassed, IsPassedOn, IsPlace, IsProductionOf, Spreads};
ghost use Rattle.wb_items.specs.Lookaheads.{Lists};

use crate::first_of::Rest;
use crate::spread::spread;
use crate::worklist::{Place, Worklist};
use std::alloc::AllocError;
use wb_base::{Grammar, Sequence, Symbol};
use wb_items::{Item, Kernels, Lookaheads, Numbers, symbol_after};
use wb_termset::TermSet;

// What stays while lookaheads spread.
#[derive(Clone, Copy)]
pub(crate) struct Context<'a> {
    pub(crate) grammar: &'a Grammar,
    pub(crate) kernels: &'a Kernels,
    pub(crate) productions: &'a [Numbers],
    pub(crate) rests: &'a [Sequence<Rest>],
}

// Spreads what is listed at a place to each item that it flows to from there.
pub(crate) fn pass_on(
    context: &Context,
    place: Place,
    lookaheads: &mut Lookaheads,
    worklist: &mut Worklist,
) -> Result<(), AllocError>
    requires context { IsContext context.now.kernels.now context.now.grammar.now context.now.productions.now context.now.rests.now }
    requires place { IsPlace context.now.kernels.now place }
    requires sound { AreSound context.now.kernels.now lookaheads.old worklist.old }
    ensures sound { OnOk result (AreSound context.now.kernels.now lookaheads.new worklist.new) }
    ensures spreads { OnOk result (Spreads lookaheads.old worklist.old lookaheads.new worklist.new) }
    ensures passed { OnOk result ((t : ℕ) → Lists lookaheads.old place.state place.item t → IsPassedOn context.now.kernels.now lookaheads.new place.state place.item t) }
{
    let set = lookaheads.at(place.state, place.at).copy()?;
    if place.item.dot > 0 || place.item.production >= context.grammar.productions() {
        return pass_item(context, place.state, place.item, &set, lookaheads, worklist);
    }
    let left = context.grammar.left(place.item.production);
    pass_all(context, place.state, left, &set, lookaheads, worklist)
}

// Spreads the terminals from the initial items of all productions of a nonterminal.
fn pass_all(
    context: &Context,
    state: usize,
    nonterminal: usize,
    set: &TermSet,
    lookaheads: &mut Lookaheads,
    worklist: &mut Worklist,
) -> Result<(), AllocError>
    requires context { IsContext context.now.kernels.now context.now.grammar.now context.now.productions.now context.now.rests.now }
    requires nonterminal { nonterminal < context.now.grammar.now.nonterminals }
    requires state { state < count_of context.now.kernels.now }
    requires has { (q : ℕ) (right : List Symbol) → IsProduction context.now.kernels.now.grammar q nonterminal right → HasItem context.now.kernels.now.grammar (prefix_of context.now.kernels.now state) (initial_item q) }
    requires len { length set.now ≡ context.now.kernels.now.grammar.terminals + 1 }
    requires flows { (q t : ℕ) (right : List Symbol) → IsProduction context.now.kernels.now.grammar q nonterminal right → IsMember set.now t → FlowsTo context.now.kernels.now state (initial_item q) t }
    requires sound { AreSound context.now.kernels.now lookaheads.old worklist.old }
    ensures sound { OnOk result (AreSound context.now.kernels.now lookaheads.new worklist.new) }
    ensures spreads { OnOk result (Spreads lookaheads.old worklist.old lookaheads.new worklist.new) }
    ensures passed { OnOk result ((q t : ℕ) (right : List Symbol) → IsProduction context.now.kernels.now.grammar q nonterminal right → IsMember set.now t → IsItemPassed context.now.kernels.now lookaheads.new state (initial_item q) t) }
{
    let numbers = context.productions[nonterminal].as_slice();
    'productions: for &production in numbers {
        let item = Item { production, dot: 0 };
        pass_item(context, state, item, set, lookaheads, worklist)?;
    }
    Ok(())
}

// Spreads the terminals from an item to the item after its symbol and to the initial items of a nonterminal after its dot.
fn pass_item(
    context: &Context,
    state: usize,
    item: Item,
    set: &TermSet,
    lookaheads: &mut Lookaheads,
    worklist: &mut Worklist,
) -> Result<(), AllocError>
    requires context { IsContext context.now.kernels.now context.now.grammar.now context.now.productions.now context.now.rests.now }
    requires state { state < count_of context.now.kernels.now }
    requires has { HasItem context.now.kernels.now.grammar (prefix_of context.now.kernels.now state) item }
    requires len { length set.now ≡ context.now.kernels.now.grammar.terminals + 1 }
    requires flows { (t : ℕ) → IsMember set.now t → FlowsTo context.now.kernels.now state item t }
    requires sound { AreSound context.now.kernels.now lookaheads.old worklist.old }
    ensures sound { OnOk result (AreSound context.now.kernels.now lookaheads.new worklist.new) }
    ensures spreads { OnOk result (Spreads lookaheads.old worklist.old lookaheads.new worklist.new) }
    ensures passed { OnOk result ((t : ℕ) → IsMember set.now t → IsItemPassed context.now.kernels.now lookaheads.new state item t) }
{
    let Some(symbol) = symbol_after(context.grammar, item) else {
        return Ok(());
    };
    move_on(
        context.kernels,
        state,
        item,
        symbol,
        set,
        lookaheads,
        worklist,
    )?;
    open_after(context, state, item, symbol, set, lookaheads, worklist)
}

// Spreads the terminals to the item after the symbol.
fn move_on(
    kernels: &Kernels,
    state: usize,
    item: Item,
    symbol: Symbol,
    set: &TermSet,
    lookaheads: &mut Lookaheads,
    worklist: &mut Worklist,
) -> Result<(), AllocError>
    requires kernels { AreKernels kernels.now }
    requires state { state < count_of kernels.now }
    requires has { HasItem kernels.now.grammar (prefix_of kernels.now state) item }
    requires symbol { (rest : List Symbol) × (after_dot kernels.now.grammar item ≡ symbol ∷ rest) }
    requires room { item.dot + 1 < 2 ^ 64 }
    requires len { length set.now ≡ kernels.now.grammar.terminals + 1 }
    requires flows { (t : ℕ) → IsMember set.now t → FlowsTo kernels.now state item t }
    requires sound { AreSound kernels.now lookaheads.old worklist.old }
    ensures sound { OnOk result (AreSound kernels.now lookaheads.new worklist.new) }
    ensures spreads { OnOk result (Spreads lookaheads.old worklist.old lookaheads.new worklist.new) }
    ensures lists { OnOk result ((t next : ℕ) → LeadsTo kernels.now state symbol next → IsMember set.now t → Lists lookaheads.new next (advance item) t) }
{
    let Some(next) = kernels.next(state, symbol) else {
        return Ok(());
    };
    let moved = Item {
        production: item.production,
        dot: item.dot + 1,
    };
    spread(kernels, next, moved, set, lookaheads, worklist)
}

// Spreads what begins the symbols after a nonterminal, with the terminals after them, to its initial items, which have one set.
fn open_after(
    context: &Context,
    state: usize,
    item: Item,
    symbol: Symbol,
    set: &TermSet,
    lookaheads: &mut Lookaheads,
    worklist: &mut Worklist,
) -> Result<(), AllocError>
    requires context { IsContext context.now.kernels.now context.now.grammar.now context.now.productions.now context.now.rests.now }
    requires state { state < count_of context.now.kernels.now }
    requires has { HasItem context.now.kernels.now.grammar (prefix_of context.now.kernels.now state) item }
    requires symbol { (rest : List Symbol) × (after_dot context.now.grammar.now item ≡ symbol ∷ rest) }
    requires below { IsSymbolBelow context.now.grammar.now.terminals context.now.grammar.now.nonterminals symbol }
    requires len { length set.now ≡ context.now.kernels.now.grammar.terminals + 1 }
    requires flows { (t : ℕ) → IsMember set.now t → FlowsTo context.now.kernels.now state item t }
    requires sound { AreSound context.now.kernels.now lookaheads.old worklist.old }
    ensures sound { OnOk result (AreSound context.now.kernels.now lookaheads.new worklist.new) }
    ensures spreads { OnOk result (Spreads lookaheads.old worklist.old lookaheads.new worklist.new) }
    ensures lists { OnOk result ((t u b p : ℕ) (rest : List Symbol) → after_dot context.now.grammar.now item ≡ Nonterminal b ∷ rest → IsProductionOf context.now.grammar.now b p → IsMember set.now t → IsFirst context.now.grammar.now (rest ++ Terminal t ∷ []) u → Lists lookaheads.new state (initial_item p) u) }
{
    let Symbol::Nonterminal(nonterminal) = symbol else {
        return Ok(());
    };
    let Some(production) = production_of(context, nonterminal) else {
        return Ok(());
    };
    let opened = Item { production, dot: 0 };
    if item.production >= context.grammar.productions() {
        return spread(context.kernels, state, opened, set, lookaheads, worklist);
    }
    let rest = &context.rests[item.production].as_slice()[item.dot];
    spread(
        context.kernels,
        state,
        opened,
        &rest.set,
        lookaheads,
        worklist,
    )?;
    if rest.empty {
        spread(context.kernels, state, opened, set, lookaheads, worklist)?;
    }
    Ok(())
}

// A production of a nonterminal.
fn production_of(context: &Context, nonterminal: usize) -> Option<usize>
    requires context { IsContext context.now.kernels.now context.now.grammar.now context.now.productions.now context.now.rests.now }
    requires nonterminal { nonterminal < context.now.grammar.now.nonterminals }
    ensures { MatchOption result ((q : ℕ) (right : List Symbol) → ¬ IsProduction context.now.grammar.now q nonterminal right) (IsProductionOf context.now.grammar.now nonterminal) }
{
    let numbers = context.productions[nonterminal].as_slice();
    if numbers.len() > 0 {
        Some(numbers[0])
    } else {
        None
    }
}
