//! Lists the productions that an extension adds to its host's, in the numbers of a union.
//!
//! The host's symbols keep their numbers, and the extension's own move up by what comes before them.

ghost use Rattle.std.specs.Prelude.{◌≡◌, ◌≤◌, ◌+◌, ◌++◌, IfOk, OnOk, length, map};
ghost use Rattle.wb_compose_theory.specs.Blocks.{lift};
ghost use Rattle.wb_compose_theory.specs.Renamings.{renamed};
ghost use Rattle.wb_compose_theory_grammar.specs.Unions.{added_nonterminals, added_terminals, lifted_by, own_productions, renamed_production};

use std::alloc::{AllocError, Global};
use wb_base::{Grammar, Symbol, push};

// How many terminals and nonterminals of other extensions come before an extension's own.
#[derive(Clone, Copy)]
pub(crate) struct Before {
    pub(crate) terminals: usize,
    pub(crate) nonterminals: usize,
}

// Adds an extension's own productions after those that are there.
pub(crate) fn add_own(
    alloc: Global,
    made: &mut Grammar,
    host: &Grammar,
    extension: &Grammar,
    before: Before,
) -> Result<(), AllocError>
    requires productions { length host.now.productions ≤ length extension.now.productions }
    requires terminals { before.terminals + extension.now.terminals ≤ made.old.terminals }
    requires nonterminals { before.nonterminals + extension.now.nonterminals ≤ made.old.nonterminals }
    ensures { OnOk result (made.new ≡ record made.old { productions = made.old.productions ++ map (renamed_production (lifted_by host.now before.terminals before.nonterminals 0)) (own_productions host.now extension.now) }) }
{
    'productions: for production in host.productions()..extension.productions() {
        let left = lifted(
            host.nonterminals(),
            before.nonterminals,
            extension.left(production),
        )?;
        let right = lifted_symbols(alloc, host, before, extension.right(production))?;
        made.add(left, &right)?;
    }
    Ok(())
}

// Symbols in the numbers of the union.
fn lifted_symbols(
    alloc: Global,
    host: &Grammar,
    before: Before,
    symbols: &[Symbol],
) -> Result<Vec<Symbol>, AllocError>
    ensures { IfOk result (λ made. made.items ≡ map (renamed (lifted_by host.now before.terminals before.nonterminals 0)) symbols.now) }
{
    let mut made = Vec::new(alloc);
    'symbols: for symbol in symbols {
        let symbol = lifted_symbol(host, before, *symbol)?;
        push(&mut made, symbol)?;
    }
    Ok(made)
}

fn lifted_symbol(host: &Grammar, before: Before, symbol: Symbol) -> Result<Symbol, AllocError>
    ensures { IfOk result (λ made. made ≡ renamed (lifted_by host.now before.terminals before.nonterminals 0) symbol) }
{
    match symbol {
        Symbol::Terminal(t) => Ok(Symbol::Terminal(lifted(host.terminals(), before.terminals, t)?)),
        Symbol::Nonterminal(a) => Ok(Symbol::Nonterminal(lifted(
            host.nonterminals(),
            before.nonterminals,
            a,
        )?)),
    }
}

// A number that moves up where it isn't among the first. More numbers than there are need more than any memory.
pub(crate) fn lifted(own: usize, more: usize, number: usize) -> Result<usize, AllocError>
    ensures { IfOk result (λ made. made ≡ lift own more number) }
{
    if number < own {
        return Ok(number);
    }
    match number.checked_add(more) {
        Some(made) => Ok(made),
        None => Err(AllocError),
    }
}

// How many come before the next extension.
pub(crate) fn after(
    host: &Grammar,
    extension: &Grammar,
    before: Before,
) -> Result<Before, AllocError>
    requires terminals { host.now.terminals ≤ extension.now.terminals }
    requires nonterminals { host.now.nonterminals ≤ extension.now.nonterminals }
    ensures terminals { IfOk result (λ next. next.terminals ≡ before.terminals + added_terminals host.now extension.now) }
    ensures nonterminals { IfOk result (λ next. next.nonterminals ≡ before.nonterminals + added_nonterminals host.now extension.now) }
{
    let terminals = sum(before.terminals, extension.terminals() - host.terminals())?;
    let nonterminals = sum(
        before.nonterminals,
        extension.nonterminals() - host.nonterminals(),
    )?;
    Ok(Before {
        terminals,
        nonterminals,
    })
}

// More numbers than there are need more than any memory.
pub(crate) fn sum(one: usize, other: usize) -> Result<usize, AllocError>
    ensures { IfOk result (λ total. total ≡ one + other) }
{
    match one.checked_add(other) {
        Some(total) => Ok(total),
        None => Err(AllocError),
    }
}
