//! Lists the names of a file on its base, in the order of their numbers, and gives the numbers of the base's names there.
//!
//! Terminals and nonterminals have their rows here. Productions have their names alone, since what is written in them reads all of these.

ghost use Rattle.std.specs.Prelude.{◌≡◌, [], IfOk, OnOk};
ghost use Rattle.wb_names_symbols.specs.Empty.{IsEmpty, no_names};
ghost use Rattle.wb_names_symbols.specs.Lent.{lent_file};
ghost use Rattle.wb_names_symbols.specs.Right.{IsRight};
ghost use Rattle.wb_names_symbols.specs.Symbols.{AreSymbols};
ghost use Rattle.wb_names_symbols.specs.Inner.Tables.{AddsNames, AreTerminals, HaveRows};

use crate::joined::join;
use crate::lent::Lent;
use crate::named;
use crate::names::{add_attribute_names, add_production_names};
use crate::nonterminals::{Nonterminals, add_nonterminals};
use crate::tables::add_tables;
use std::alloc::{AllocError, Global};
use wb_names_rows::index::Index;
use wb_names_rows::moves::Moves;
use wb_names_rows::scope::Scope;
use wb_names_rows::terminals::{Terminals, add_base, add_declared};
use wb_syntax_resolved::{Nonterminal, Terminal};

/// Rows of terminals and nonterminals, the names of all sorts by number, and the new numbers of a base's.
///
/// Once they are filled, layout comes after what is scanned, in one list with it, and other nonterminals after those of the grammar.
pub struct Symbols {
    pub terminals: Terminals,
    pub nonterminals: Nonterminals,
    pub scope: Scope,
    pub moves: Moves,
}

impl Drop for Symbols {
    fn drop(self) {
        let Symbols {
            terminals,
            nonterminals,
            scope,
            moves,
        } = self;
        drop(terminals);
        drop(nonterminals);
        drop(scope);
        drop(moves);
    }
}

/// No rows and no names, for a file of this owner.
pub fn no_symbols(alloc: Global, owner: usize) -> Symbols
    ensures { IsEmpty owner result }
{
    Symbols {
        terminals: Terminals {
            scanned: Vec::new(alloc),
            layout: Vec::new(alloc),
        },
        nonterminals: Nonterminals {
            of_grammar: Vec::new(alloc),
            others: Vec::new(alloc),
        },
        scope: no_scope(alloc, owner),
        moves: Moves {
            nonterminals: Vec::new(alloc),
            terminals: Vec::new(alloc),
            productions: Vec::new(alloc),
        },
    }
}

// No names, in a file of this owner.
fn no_scope(alloc: Global, owner: usize) -> Scope
    ensures { result ≡ no_names owner [] }
{
    Scope {
        owner,
        terminals: Index::new(alloc),
        nonterminals: Index::new(alloc),
        attributes: Index::new(alloc),
        productions: Index::new(alloc),
    }
}

/// How many terminals are scanned, and how many nonterminals are of the grammar.
#[derive(Clone, Copy)]
pub struct Counts {
    pub scanned: usize,
    pub of_grammar: usize,
}

/// Makes the rows, the names, and then the numbers.
pub fn fill(alloc: Global, file: &Lent, symbols: &mut Symbols) -> Result<Counts, AllocError>
    requires right { IsRight (lent_file file.now) }
    requires nothing { IsEmpty file.now.owner symbols.old }
    ensures { IfOk result (λ counts. AreSymbols (lent_file file.now) counts symbols.new) }
{
    let counts = add_rows(alloc, file, symbols)?;
    let terminals = symbols.terminals.scanned.as_slice();
    let nonterminals = symbols.nonterminals.of_grammar.as_slice();
    add_names(file, terminals, nonterminals, &mut symbols.scope)?;
    add_tables(file, &symbols.scope, &mut symbols.moves)?;
    Ok(counts)
}

// Makes the rows. Names of attributes come before nonterminals, since flow types have their numbers.
fn add_rows(alloc: Global, file: &Lent, symbols: &mut Symbols) -> Result<Counts, AllocError>
    requires right { IsRight (lent_file file.now) }
    requires nothing { IsEmpty file.now.owner symbols.old }
    ensures rows { IfOk result (λ counts. HaveRows (lent_file file.now) counts symbols.new.terminals symbols.new.nonterminals symbols.new.scope) }
    ensures moves { OnOk result (symbols.new.moves ≡ symbols.old.moves) }
{
    let scanned = add_terminals(file, &mut symbols.terminals)?;
    add_attribute_names(file, &mut symbols.scope.attributes)?;
    let of_grammar = add_nonterminals(alloc, file, &symbols.scope, &mut symbols.nonterminals)?;
    Ok(Counts {
        scanned,
        of_grammar,
    })
}

// Makes the rows of terminals, and answers how many are scanned. Those of the base go before those that items declare.
fn add_terminals(file: &Lent, made: &mut Terminals) -> Result<usize, AllocError>
    requires scanned { made.old.scanned.items ≡ [] }
    requires layout { made.old.layout.items ≡ [] }
    ensures { IfOk result (λ count. AreTerminals (lent_file file.now) count made.new) }
{
    add_base(file.base.terminals.as_slice(), made)?;
    add_declared(file.owner, file.items, made)?;
    join(&mut made.scanned, &mut made.layout)
}

// Adds the names of these terminals and nonterminals, and those of productions.
fn add_names(
    file: &Lent,
    terminals: &[Terminal],
    nonterminals: &[Nonterminal],
    scope: &mut Scope,
) -> Result<(), AllocError>
    requires terminals { scope.old.terminals ≡ [] }
    requires nonterminals { scope.old.nonterminals ≡ [] }
    requires productions { scope.old.productions ≡ [] }
    ensures { OnOk result (AddsNames (lent_file file.now) terminals.now nonterminals.now scope.old scope.new) }
{
    named::add_names(terminals, &mut scope.terminals)?;
    named::add_names(nonterminals, &mut scope.nonterminals)?;
    add_production_names(file, &mut scope.productions)
}
