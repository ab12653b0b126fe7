//! Which terminals come after a nonterminal in its own productions that begin with it?
//!
//! They are lookaheads of its initial items in every kernel. `first_of.rt` adds them to what opens the nonterminal, so that its sets
//! are whole before they are passed on.

ghost use Rattle.std.specs.Prelude.{◌≡◌, ◌<◌, ℕ, All, IfOk, OnOk, IsTrue, Some, length, replicate, false, slice_get};
ghost use Rattle.wb_base.specs.declared.symbol.Symbol.TheVariants.{Nonterminal};
ghost use Rattle.wb_grammar.specs.Facts.{AreFacts};
ghost use Rattle.wb_lookahead.specs.Inner.Rests.{AreRepeats, Joins};

use crate::first_of::{Rest, first_of};
use std::alloc::{AllocError, Global};
use wb_base::{Grammar, Symbol, push};
use wb_grammar::Facts;
use wb_termset::TermSet;

// The terminals of each nonterminal.
pub(crate) fn repeats_of(
    alloc: Global,
    grammar: &Grammar,
    facts: &Facts,
) -> Result<Vec<TermSet>, AllocError>
    requires { AreFacts grammar.now facts.now }
    ensures { IfOk result (λ sets. AreRepeats grammar.now sets.items) }
{
    let mut sets = empty_sets(alloc, grammar.nonterminals(), grammar.lookahead_count()?)?;
    'productions: for production in 0..grammar.productions() {
        add_repeats(alloc, grammar, facts, production, &mut sets)?;
    }
    Ok(sets)
}

// So many empty sets of numbers below a count.
fn empty_sets(alloc: Global, sets: usize, count: usize) -> Result<Vec<TermSet>, AllocError>
    ensures { IfOk result (λ made. made.items ≡ replicate sets (replicate count false)) }
{
    let mut made = Vec::with_capacity(alloc, sets)?;
    'sets: for _set in 0..sets {
        push(&mut made, TermSet::new(alloc, count)?)?;
    }
    Ok(made)
}

// Adds what begins the symbols after the left side, where the right side begins with that.
fn add_repeats(
    alloc: Global,
    grammar: &Grammar,
    facts: &Facts,
    production: usize,
    sets: &mut Vec<TermSet>,
) -> Result<(), AllocError>
    requires facts { AreFacts grammar.now facts.now }
    requires production { production < length grammar.now.productions }
    requires sets { AreRepeats grammar.now sets.old.items }
    ensures { OnOk result (AreRepeats grammar.now sets.new.items) }
{
    let left = grammar.left(production);
    let right = grammar.right(production);
    if !begins_with(right, left) {
        return Ok(());
    }
    let rest = first_of(alloc, grammar, facts, &right[1..])?;
    sets[left].union_with(&rest.set);
    Ok(())
}

// Whether the nonterminal is the first symbol.
fn begins_with(symbols: &[Symbol], nonterminal: usize) -> bool
    ensures { IsTrue result → slice_get symbols.now 0 ≡ Some (Nonterminal nonterminal) }
{
    symbols.len() > 0 && symbols[0] == Symbol::Nonterminal(nonterminal)
}

// Adds the terminals of the symbol, where it is a nonterminal.
pub(crate) fn join_repeats(symbol: Symbol, repeats: &[TermSet], rest: &mut Rest)
    requires below { (b : ℕ) → symbol ≡ Nonterminal b → b < length repeats.now }
    requires len { All (λ set. length set ≡ length rest.old.set) repeats.now }
    ensures { Joins symbol repeats.now rest.old rest.new }
{
    if let Symbol::Nonterminal(nonterminal) = symbol {
        rest.set.union_with(&repeats[nonterminal]);
    }
}
