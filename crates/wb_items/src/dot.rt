//! What is after the dot of an item?

ghost use Rattle.std.specs.Prelude.{◌≡◌, ◌+◌, ◌<◌, ◌^◌, ◌∷◌, [], ℕ, List, MatchOption, IfSome, IsTrue, Some, ◌↔◌, length, slice_get};
ghost use Rattle.wb_base.specs.declared.symbol.Symbol.{Symbol};
ghost use Rattle.wb_base.specs.declared.symbol.Symbol.TheVariants.{Nonterminal};
ghost use Rattle.wb_base.specs.Grammar.{IsSymbolBelow};
ghost use Rattle.wb_grammar_theory.specs.Items.{after_dot};

use wb_base::{Grammar, Symbol};
use wb_grammar_theory::Item;

/// The symbol after the dot of an item, or none where the dot is at the right end or the grammar has no such item.
pub fn symbol_after(grammar: &Grammar, item: Item) -> Option<Symbol>
    ensures symbol { MatchOption result (after_dot grammar.now item ≡ []) (λ x. (rest : List Symbol) × (after_dot grammar.now item ≡ x ∷ rest)) }
    ensures below { IfSome result (IsSymbolBelow grammar.now.terminals grammar.now.nonterminals) }
    ensures room { IfSome result (λ _. item.dot + 1 < 2 ^ 64) }
{
    if item.production > grammar.productions() {
        return None;
    }
    if item.production == grammar.productions() {
        return if item.dot == 0 {
            Some(Symbol::Nonterminal(grammar.start()))
        } else {
            None
        };
    }
    let right = grammar.right(item.production);
    if item.dot < right.len() {
        Some(right[item.dot])
    } else {
        None
    }
}

// The nonterminal after the dot of an item.
pub(crate) fn nonterminal_after(grammar: &Grammar, item: Item) -> Option<usize>
    ensures nonterminal { MatchOption result ((b : ℕ) (rest : List Symbol) → ¬ (after_dot grammar.now item ≡ Nonterminal b ∷ rest)) (λ b. (rest : List Symbol) × (after_dot grammar.now item ≡ Nonterminal b ∷ rest)) }
    ensures below { IfSome result (λ b. b < grammar.now.nonterminals) }
{
    let Some(symbol) = symbol_after(grammar, item) else {
        return None;
    };
    match symbol {
        Symbol::Terminal(_) => None,
        Symbol::Nonterminal(nonterminal) => Some(nonterminal),
    }
}

// Whether the symbols are the same.
pub(crate) fn is_symbol(one: Symbol, other: Symbol) -> bool
    ensures { IsTrue result ↔ (one ≡ other) }
{
    one == other
}

// Whether the items are the same.
pub(crate) fn is_item(one: Item, other: Item) -> bool
    ensures { IsTrue result ↔ (one ≡ other) }
{
    one == other
}

// The item at a place.
pub(crate) fn item_at(items: &[Item], place: usize) -> Item
    requires { place < length items.now }
    ensures { slice_get items.now place ≡ Some result }
{
    items[place]
}
