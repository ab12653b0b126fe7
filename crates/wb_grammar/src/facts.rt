//! What is known of a grammar that passed its analysis: `analyse` makes it, and the crates above ask it.

ghost use Rattle.std.specs.Prelude.{◌≡◌, ◌+◌, ◌<◌, ◌↔◌, ◌∷◌, [], ℕ, IsTrue, length};
ghost use Rattle.wb_base.specs.declared.symbol.Symbol.TheVariants.{Nonterminal};
ghost use Rattle.wb_base.specs.Grammar.{GrammarView};
ghost use Rattle.wb_termset.specs.Sets.{IsMember};
ghost use Rattle.wb_grammar_theory.specs.Derives.{IsNullable, IsFirst};
ghost use Rattle.wb_grammar.specs.Facts.{AreFacts, set_of};

use std::marker::Model;
use wb_termset::TermSet;

/// Which nonterminals of a grammar derive the empty text, and which terminals begin what each derives.
///
/// A call that takes facts beside a grammar asks that they are the facts of that grammar, as `analyse` says of its answer. Such a
/// grammar is reduced and has neither unit cycles nor hidden left recursion.
pub struct Facts {
    pub(crate) nullable: TermSet,
    pub(crate) first: Vec<TermSet>,
}

impl Model for Facts {
    ghost use Rattle.wb_grammar.specs.Facts.{FactsView};

    ghost Value = { FactsView };

    ghost view = { λ f. record { nullable = f.nullable; first = f.first.items } };
}

impl Facts {
    /// Whether the nonterminal derives the empty text.
    pub fn nullable(&self, nonterminal: usize) -> bool
        requires { nonterminal < length self.now.nullable }
        ensures set { IsTrue result ↔ IsMember self.now.nullable nonterminal }
        ensures exact { (g : GrammarView) → AreFacts g self.now → IsTrue result ↔ IsNullable g nonterminal }
    {
        self.nullable.contains(nonterminal)
    }

    /// The terminals that begin what the nonterminal derives.
    ///
    /// The set is one of numbers below the number of terminals and one more, so that it can be joined with sets in which the end
    /// of a text may stand. It has no member but terminals.
    pub fn first(&self, nonterminal: usize) -> &TermSet
        requires { nonterminal < length self.now.first }
        ensures set { result.now ≡ set_of self.now.first nonterminal }
        ensures count { (g : GrammarView) → AreFacts g self.now → length result.now ≡ g.terminals + 1 }
        ensures exact { (g : GrammarView) → AreFacts g self.now → (t : ℕ) → IsMember result.now t ↔ IsFirst g (Nonterminal nonterminal ∷ []) t }
    {
        &self.first[nonterminal]
    }
}

impl Drop for Facts {
    fn drop(self) {
        let Facts { nullable, first } = self;
        drop(nullable);
        drop(first);
    }
}
