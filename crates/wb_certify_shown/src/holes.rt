//! Which name does a report show for a symbol or a production of a grammar with holes?
//!
//! Those of the grammar come first, and then one for each extensible nonterminal.

ghost use Rattle.std.specs.Prelude.{◌≡◌, ◌++◌, IfOk};
ghost use lib.Chars.{codes};
ghost use Rattle.wb_certify_shown.specs.Names as spec;

use crate::names::{nonterminal_name, production_name, terminal_name};
use std::alloc::{AllocError, Global};
use wb_base::{Bytes, Grammar, Symbol};
use wb_syntax_resolved::Resolved;

// The name of a symbol.
pub(crate) fn symbol_name(
    alloc: Global,
    resolved: &Resolved,
    symbol: Symbol,
) -> Result<Bytes, AllocError>
    ensures { IfOk result (λ name. name ≡ spec.symbol_shown resolved.now symbol) }
{
    match symbol {
        Symbol::Terminal(number) => lookahead_name(alloc, resolved, number),
        Symbol::Nonterminal(number) => nonterminal_name(alloc, resolved, number),
    }
}

// The name of a terminal, or of the end of a text.
pub(crate) fn lookahead_name(
    alloc: Global,
    resolved: &Resolved,
    number: usize,
) -> Result<Bytes, AllocError>
    ensures { IfOk result (λ name. name ≡ spec.lookahead_shown resolved.now number) }
{
    let parts = resolved.parts();
    let terminals = terminals_in(&parts.grammar);
    if number < terminals {
        return terminal_name(alloc, resolved, number);
    }
    match parts.extensible.as_slice().get(number - terminals) {
        Some(nonterminal) => hole_name(alloc, resolved, *nonterminal),
        None => Bytes::from_slice(alloc, b"end"),
    }
}

// The name of a production.
pub(crate) fn reduction_name(
    alloc: Global,
    resolved: &Resolved,
    number: usize,
) -> Result<Bytes, AllocError>
    ensures { IfOk result (λ name. name ≡ spec.reduction_shown resolved.now number) }
{
    let parts = resolved.parts();
    let productions = productions_in(&parts.grammar);
    if number < productions {
        return production_name(alloc, resolved, number);
    }
    match parts.extensible.as_slice().get(number - productions) {
        Some(nonterminal) => hole_name(alloc, resolved, *nonterminal),
        None => Ok(Bytes::empty()),
    }
}

// The name of the hole of a nonterminal.
fn hole_name(alloc: Global, resolved: &Resolved, nonterminal: usize) -> Result<Bytes, AllocError>
    ensures { IfOk result (λ name. name ≡ spec.hole_name resolved.now nonterminal) }
{
    let name = nonterminal_name(alloc, resolved, nonterminal)?;
    let text = prefixed(alloc, name.as_slice());
    drop(name);
    text
}

// A name with `hole:` before it.
fn prefixed(alloc: Global, name: &[u8]) -> Result<Bytes, AllocError>
    ensures { IfOk result (λ text. text ≡ codes "hole:" ++ name.now) }
{
    let mut text = Vec::from_slice(alloc, b"hole:")?;
    text.extend_from_slice(name)?;
    Bytes::from_vec(text)
}

/// How many terminals a grammar has, where there is one.
pub fn terminals_in(grammar: &Option<Grammar>) -> usize
    ensures { result ≡ spec.terminals_in grammar.now }
{
    match grammar {
        Some(grammar) => grammar.terminals(),
        None => 0,
    }
}

// How many productions a grammar has, where there is one.
fn productions_in(grammar: &Option<Grammar>) -> usize
    ensures { result ≡ spec.productions_in grammar.now }
{
    match grammar {
        Some(grammar) => grammar.productions(),
        None => 0,
    }
}
