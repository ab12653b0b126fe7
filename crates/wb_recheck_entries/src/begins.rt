//! Does a terminal begin what symbols derive?

ghost use Rattle.std.specs.Prelude.{◌≡◌, ◌↔◌, ◌++◌, ◌∷◌, [], All, List, IsTrue};
ghost use Rattle.wb_base.specs.declared.symbol.Symbol.{Symbol};
ghost use Rattle.wb_base.specs.declared.symbol.Symbol.TheVariants.{Terminal};
ghost use Rattle.wb_base.specs.Grammar.{IsSymbolBelow};
ghost use Rattle.wb_grammar.specs.Facts.{AreFacts};
ghost use Rattle.wb_grammar_theory.specs.Derives.{Derives, IsFirst};
ghost use Rattle.wb_grammar_theory.specs.Items.{after_dot};
ghost use Rattle.wb_termset.specs.Sets.{IsMember};

use wb_base::{Grammar, Symbol};
use wb_grammar::Facts;
use wb_items::Item;
use wb_termset::TermSet;

// Whether a terminal begins what the symbols derive with the last terminal after them.
pub(crate) fn begins(
    grammar: &Grammar,
    facts: &Facts,
    symbols: &[Symbol],
    last: usize,
    terminal: usize,
) -> bool
    requires facts { AreFacts grammar.now facts.now }
    requires symbols { All (IsSymbolBelow grammar.now.terminals grammar.now.nonterminals) symbols.now }
    ensures { IsTrue result ↔ IsFirst grammar.now (symbols.now ++ Terminal last ∷ []) terminal }
{
    'symbols: for symbol in symbols {
        match *symbol {
            Symbol::Terminal(first) => return is_same(first, terminal),
            Symbol::Nonterminal(nonterminal) => {
                if has(facts.first(nonterminal), terminal) {
                    return true;
                }
                if !facts.nullable(nonterminal) {
                    return false;
                }
            }
        }
    }
    is_same(last, terminal)
}

// Whether the numbers are the same.
pub(crate) fn is_same(one: usize, other: usize) -> bool
    ensures { IsTrue result ↔ (one ≡ other) }
{
    one == other
}

// Whether a number, which may be any, is in a set.
fn has(set: &TermSet, number: usize) -> bool
    ensures { IsTrue result ↔ IsMember set.now number }
{
    number < set.count() && set.contains(number)
}

// Whether the symbols derive the empty text.
pub(crate) fn is_empty(grammar: &Grammar, facts: &Facts, symbols: &[Symbol]) -> bool
    requires facts { AreFacts grammar.now facts.now }
    requires symbols { All (IsSymbolBelow grammar.now.terminals grammar.now.nonterminals) symbols.now }
    ensures { IsTrue result ↔ Derives grammar.now symbols.now [] }
{
    'symbols: for symbol in symbols {
        match *symbol {
            Symbol::Terminal(_) => return false,
            Symbol::Nonterminal(nonterminal) => {
                if !facts.nullable(nonterminal) {
                    return false;
                }
            }
        }
    }
    true
}

// The symbols behind the one after the dot of an item.
pub(crate) fn rest_after(grammar: &Grammar, item: Item) -> &[Symbol]
    ensures rest { (x : Symbol) (rest : List Symbol) → after_dot grammar.now item ≡ x ∷ rest → result.now ≡ rest }
    ensures below { All (IsSymbolBelow grammar.now.terminals grammar.now.nonterminals) result.now }
{
    if item.production < grammar.productions() {
        let right = grammar.right(item.production);
        if item.dot < right.len() {
            return &right[item.dot + 1..];
        }
    }
    &[]
}
