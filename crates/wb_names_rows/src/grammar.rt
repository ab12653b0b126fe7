//! Builds the grammar of the concrete productions of a file and its base.
//!
//! Their symbols are the numbers that they have, since terminals and nonterminals of the grammar come first.

ghost use Rattle.std.specs.Prelude.{◌≡◌, ◌<◌, ◌++◌, All, IfOk, IsSome, OnOk, option_to_list};
ghost use Rattle.wb_syntax_resolved.specs.Grammar.{symbol_of as symbol};
ghost use Rattle.wb_names_rows.specs.Grammars as spec;
ghost use Rattle.wb_names_rows.specs.Inner.Grammars.{AreSymbolsOf};

use std::alloc::{AllocError, Global};
use wb_base::{Grammar, Kind, Symbol, push};
use wb_syntax_resolved::{Child, ChildKind, Production};

/// The grammar of concrete productions, of so many terminals and nonterminals and with this start.
pub fn grammar_of(
    alloc: Global,
    terminals: usize,
    nonterminals: usize,
    start: usize,
    productions: &[Production],
) -> Result<Grammar, AllocError>
    requires start { start < nonterminals }
    requires productions { All (spec.IsGrammarLike terminals nonterminals) productions.now }
    ensures { IfOk result (spec.IsMadeOf terminals nonterminals start productions.now) }
{
    let mut grammar = Grammar::new(alloc, terminals, nonterminals, start);
    'productions: for production in productions {
        let symbols = symbols_of(alloc, production.children.as_slice())?;
        grammar.add(production.left, &symbols)?;
    }
    Ok(grammar)
}

// The symbols of children, all of which are of the grammar.
fn symbols_of(alloc: Global, children: &[Child]) -> Result<Vec<Symbol>, AllocError>
    requires { All (λ c. IsSome (symbol c.kind)) children.now }
    ensures { IfOk result (λ symbols. AreSymbolsOf children.now symbols.items) }
{
    let mut symbols = Vec::new(alloc);
    'children: for child in children {
        add_symbol(child.kind, &mut symbols)?;
    }
    Ok(symbols)
}

// Adds the symbol that a child is, where it is one.
fn add_symbol(kind: ChildKind, symbols: &mut Vec<Symbol>) -> Result<(), AllocError>
    ensures { OnOk result (symbols.new.items ≡ symbols.old.items ++ option_to_list (symbol kind)) }
{
    match symbol_of(kind) {
        Some(symbol) => push(symbols, symbol),
        None => Ok(()),
    }
}

// The symbol that a child of a concrete production is.
fn symbol_of(kind: ChildKind) -> Option<Symbol>
    ensures { result ≡ symbol kind }
{
    match kind {
        ChildKind::Terminal(number) => Some(Symbol::Terminal(number)),
        ChildKind::Value(is) => match is {
            Kind::Tree(number) => Some(Symbol::Nonterminal(number)),
            _ => None,
        },
    }
}
