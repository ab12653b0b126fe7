//! Which terminals begin what comes after a nonterminal in an item, with a lookahead of the item after that?

ghost use Rattle.std.specs.Prelude.{◌≡◌, ◌≤◌, ◌+◌, ◌∷◌, All, IfOk, List};
ghost use Rattle.wb_base.specs.Grammar.{IsSymbolBelow};
ghost use Rattle.wb_base.specs.declared.symbol.Symbol.{Symbol};
ghost use Rattle.wb_grammar.specs.Facts.{AreFacts};
ghost use Rattle.wb_grammar_theory.specs.Items.{after_dot};
ghost use Rattle.wb_recheck_writer.specs.Inner.Reached.{IsFirstSet};

use std::alloc::{AllocError, Global};
use wb_base::{Grammar, Symbol};
use wb_grammar::Facts;
use wb_items::Item;
use wb_termset::TermSet;

// The terminals that begin what the symbols derive with the terminal after them.
pub(crate) fn first_after(
    alloc: Global,
    grammar: &Grammar,
    facts: &Facts,
    symbols: &[Symbol],
    terminal: usize,
) -> Result<TermSet, AllocError>
    requires facts { AreFacts grammar.now facts.now }
    requires symbols { All (IsSymbolBelow grammar.now.terminals grammar.now.nonterminals) symbols.now }
    requires terminal { terminal ≤ grammar.now.terminals }
    ensures { IfOk result (IsFirstSet grammar.now symbols.now terminal) }
{
    let mut set = TermSet::new(alloc, grammar.lookahead_count()?)?;
    'symbols: for symbol in symbols {
        match *symbol {
            Symbol::Terminal(first) => {
                set.insert(first);
                return Ok(set);
            }
            Symbol::Nonterminal(nonterminal) => {
                set.union_with(facts.first(nonterminal));
                if !facts.nullable(nonterminal) {
                    return Ok(set);
                }
            }
        }
    }
    set.insert(terminal);
    Ok(set)
}

// The symbols after that after the dot.
pub(crate) fn rest_after(grammar: &Grammar, item: Item) -> &[Symbol]
    ensures rest { (x : Symbol) (rest : List Symbol) → after_dot grammar.now item ≡ x ∷ rest → result.now ≡ rest }
    ensures below { All (IsSymbolBelow grammar.now.terminals grammar.now.nonterminals) result.now }
{
    if item.production >= grammar.productions() {
        return &[];
    }
    let right = grammar.right(item.production);
    if item.dot >= right.len() {
        return &[];
    }
    &right[item.dot + 1..]
}
