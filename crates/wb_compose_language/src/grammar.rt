//! Builds the grammar of the union of a host and its extensions.
//!
//! The host's symbols and productions come first, then those of each extension, each once.

ghost use Rattle.std.specs.Prelude.{◌≡◌, ◌≤◌, ◌+◌, ◌++◌, [], All, IfOk, OnOk, map};
ghost use Rattle.wb_compose_theory_grammar.specs.Pieces.{Extends};
ghost use Rattle.wb_compose_theory_grammar.specs.Unions.{productions_after, union_of};
ghost use Rattle.wb_compose_language.specs.declared.addition.Addition.{Addition};
ghost use Rattle.wb_compose_language.specs.Additions.{grammar_in};
ghost use Rattle.wb_compose_language.specs.Inner.Totals.{AreTotals};

use crate::Addition;
use crate::own_productions::{Before, add_own, after, sum};
use std::alloc::{AllocError, Global};
use wb_base::Grammar;

/// The union of a host's grammar and those of extensions with it.
pub fn united_grammar(
    alloc: Global,
    host: &Grammar,
    extensions: &[Addition],
) -> Result<Grammar, AllocError>
    requires { All (λ (x : Addition). Extends host.now (grammar_in x)) extensions.now }
    ensures { IfOk result (λ made. made ≡ union_of host.now (map grammar_in extensions.now)) }
{
    let totals = totals_of(host, extensions)?;
    let mut made = Grammar::new(alloc, totals.terminals, totals.nonterminals, host.start());
    add_host(&mut made, host)?;
    add_all(alloc, &mut made, host, extensions)?;
    Ok(made)
}

// How many terminals and nonterminals the union has.
#[derive(Clone, Copy)]
pub(crate) struct Totals {
    pub(crate) terminals: usize,
    pub(crate) nonterminals: usize,
}

fn totals_of(host: &Grammar, extensions: &[Addition]) -> Result<Totals, AllocError>
    requires { All (λ (x : Addition). Extends host.now (grammar_in x)) extensions.now }
    ensures { IfOk result (λ totals. AreTotals host.now (map grammar_in extensions.now) totals.terminals totals.nonterminals) }
{
    let mut terminals = host.terminals();
    let mut nonterminals = host.nonterminals();
    'extensions: for extension in extensions {
        terminals = sum(terminals, extension.grammar.terminals() - host.terminals())?;
        nonterminals = sum(
            nonterminals,
            extension.grammar.nonterminals() - host.nonterminals(),
        )?;
    }
    Ok(Totals {
        terminals,
        nonterminals,
    })
}

// Adds the productions of the host to a grammar without productions.
fn add_host(made: &mut Grammar, host: &Grammar) -> Result<(), AllocError>
    requires empty { made.old.productions ≡ [] }
    requires terminals { host.now.terminals ≤ made.old.terminals }
    requires nonterminals { host.now.nonterminals ≤ made.old.nonterminals }
    ensures { OnOk result (made.new ≡ record made.old { productions = host.now.productions }) }
{
    'productions: for production in 0..host.productions() {
        made.add(host.left(production), host.right(production))?;
    }
    Ok(())
}

// Adds the productions of all extensions to those of the host.
fn add_all(
    alloc: Global,
    made: &mut Grammar,
    host: &Grammar,
    extensions: &[Addition],
) -> Result<(), AllocError>
    requires extends { All (λ (x : Addition). Extends host.now (grammar_in x)) extensions.now }
    requires totals { AreTotals host.now (map grammar_in extensions.now) made.old.terminals made.old.nonterminals }
    ensures { OnOk result (made.new ≡ record made.old { productions = made.old.productions ++ productions_after host.now 0 0 (map grammar_in extensions.now) }) }
{
    let mut before = Before {
        terminals: 0,
        nonterminals: 0,
    };
    'extensions: for extension in extensions {
        add_own(alloc, made, host, extension.grammar, before)?;
        before = after(host, extension.grammar, before)?;
    }
    Ok(())
}
