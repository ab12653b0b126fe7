//! Makes small grammars from tables of their productions, with their facts, kernels and lookaheads.

ghost use Rattle.std.specs.Prelude.{◌≡◌, ◌<◌, All, IfOk, IfSome, IsTrue};
ghost use Rattle.wb_base.specs.Grammar.{IsSymbolBelow};
ghost use Rattle.wb_grammar.specs.Facts.{AreFacts};
ghost use Rattle.wb_items.specs.Kernels.{count_of};
ghost use Rattle.wb_items.specs.LookaheadSets.{AreLookaheads};

use std::alloc::{AllocError, Global};
use wb_base::{Grammar, Symbol};
use wb_grammar::{Facts, analyse};
use wb_items::{Kernels, Lookaheads};
use wb_lookahead::plain_lookaheads;

pub const A: Symbol = Symbol::Nonterminal(0);

pub const B: Symbol = Symbol::Nonterminal(1);

pub const C: Symbol = Symbol::Nonterminal(2);

pub const T0: Symbol = Symbol::Terminal(0);

pub const T1: Symbol = Symbol::Terminal(1);

pub const T2: Symbol = Symbol::Terminal(2);

pub const T3: Symbol = Symbol::Terminal(3);

pub const T4: Symbol = Symbol::Terminal(4);

/// A grammar whose start is its first nonterminal.
pub struct Small {
    pub terminals: usize,
    pub nonterminals: usize,
    pub productions: &'static [(usize, &'static [Symbol])],
}

// Whether the symbols are below these counts.
fn are_below(symbols: &[Symbol], terminals: usize, nonterminals: usize) -> bool
    ensures { IsTrue result → All (IsSymbolBelow terminals nonterminals) symbols.now }
{
    symbols.iter().all(|symbol| match *symbol {
        Symbol::Terminal(number) => number < terminals,
        Symbol::Nonterminal(number) => number < nonterminals,
    })
}

// Adds a production if its numbers are in range, and returns whether they are.
pub(crate) fn add_checked(
    grammar: &mut Grammar,
    left: usize,
    right: &[Symbol],
) -> Result<bool, AllocError> {
    if left >= grammar.nonterminals() {
        return Ok(false);
    }
    if !are_below(right, grammar.terminals(), grammar.nonterminals()) {
        return Ok(false);
    }
    grammar.add(left, right)?;
    Ok(true)
}

// Adds productions, and returns whether the numbers of all are in range.
fn add_all(grammar: &mut Grammar, productions: &[(usize, &[Symbol])]) -> Result<bool, AllocError> {
    for (left, right) in productions {
        if !add_checked(grammar, *left, *right)? {
            return Ok(false);
        }
    }
    Ok(true)
}

/// The grammar, or None where a number is out of range.
pub(crate) fn grammar_of(alloc: Global, small: &Small) -> Result<Option<Grammar>, AllocError> {
    if small.nonterminals == 0 {
        return Ok(None);
    }
    let mut grammar = Grammar::new(alloc, small.terminals, small.nonterminals, 0);
    if add_all(&mut grammar, small.productions)? {
        Ok(Some(grammar))
    } else {
        Ok(None)
    }
}

// The facts of a grammar that passes its analysis. For another one the answer is out of memory, so that its test fails.
pub(crate) fn facts_of(alloc: Global, grammar: &Grammar) -> Result<Facts, AllocError>
    ensures { IfOk result (λ facts. AreFacts grammar.now facts) }
{
    match analyse(alloc, grammar) {
        Ok(facts) => Ok(facts),
        Err(_) => Err(AllocError),
    }
}

/// The kernels of a grammar that passes its analysis.
pub(crate) fn kernels_of(alloc: Global, grammar: &Grammar) -> Result<Kernels, AllocError>
    ensures { IfOk result (λ kernels. kernels.grammar ≡ grammar.now) }
{
    let facts = facts_of(alloc, grammar)?;
    Kernels::build(alloc, grammar, &facts)
}

/// The lookaheads of its kernels.
pub(crate) fn lookaheads_of(
    alloc: Global,
    grammar: &Grammar,
    kernels: &Kernels,
) -> Result<Lookaheads, AllocError>
    requires { kernels.now.grammar ≡ grammar.now }
    ensures { IfOk result (AreLookaheads kernels.now) }
{
    let facts = facts_of(alloc, grammar)?;
    plain_lookaheads(alloc, grammar, &facts, kernels)
}

/// The kernel after these symbols.
pub(crate) fn after(kernels: &Kernels, prefix: &[Symbol]) -> Option<usize>
    ensures { IfSome result (λ state. state < count_of kernels.now) }
{
    let mut state = 0;
    for symbol in prefix {
        if state >= kernels.count() {
            return None;
        }
        match kernels.next(state, *symbol) {
            Some(next) => state = next,
            None => return None,
        }
    }
    if state < kernels.count() {
        Some(state)
    } else {
        None
    }
}
