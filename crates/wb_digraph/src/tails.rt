//! Which ends of right sides derive the empty text?

ghost use Rattle.std.specs.Prelude.{◌≡◌, ◌↔◌, ◌≤◌, ℕ, [], ◌∷◌, All, IfOk, IsTrue, OnOk, drop, length};
ghost use Rattle.wb_base.specs.Grammar.{IsGrammar, IsSymbolBelow};
ghost use Rattle.wb_grammar.specs.Facts.{AreFacts};
ghost use Rattle.wb_grammar_theory.specs.Derives.{Derives};
ghost use Rattle.wb_digraph.specs.Inner.Numbers.{AreTailsUpTo};

use std::alloc::{AllocError, Global};
use wb_base::{Grammar, Symbol, push};
use wb_grammar::Facts;

// For each production the first place from which on its symbols derive the empty text.
pub(crate) fn tails_of(
    alloc: Global,
    grammar: &Grammar,
    facts: &Facts,
) -> Result<Vec<usize>, AllocError>
    requires { AreFacts grammar.now facts.now }
    ensures in_range { OnOk result (IsGrammar grammar.now) }
    ensures tails { IfOk result (λ tails. AreTailsUpTo grammar.now (length grammar.now.productions) tails.items) }
{
    let mut tails = Vec::new(alloc);
    'productions: for production in 0..grammar.productions() {
        let from = empty_from(grammar, facts, grammar.right(production));
        push(&mut tails, from)?;
    }
    Ok(tails)
}

// The first place from which on the symbols derive the empty text.
fn empty_from(grammar: &Grammar, facts: &Facts, symbols: &[Symbol]) -> usize
    requires facts { AreFacts grammar.now facts.now }
    requires symbols { All (IsSymbolBelow grammar.now.terminals grammar.now.nonterminals) symbols.now }
    ensures { (k : ℕ) → k ≤ length symbols.now → (result ≤ k) ↔ Derives grammar.now (drop k symbols.now) [] }
{
    let mut from = symbols.len();
    'symbols: while from > 0 {
        if !is_empty(grammar, facts, symbols[from - 1]) {
            return from;
        }
        from -= 1;
    }
    from
}

// Whether a symbol derives the empty text.
fn is_empty(grammar: &Grammar, facts: &Facts, symbol: Symbol) -> bool
    requires facts { AreFacts grammar.now facts.now }
    requires symbol { IsSymbolBelow grammar.now.terminals grammar.now.nonterminals symbol }
    ensures { IsTrue result ↔ Derives grammar.now (symbol ∷ []) [] }
{
    match symbol {
        Symbol::Terminal(_) => false,
        Symbol::Nonterminal(nonterminal) => facts.nullable(nonterminal),
    }
}
