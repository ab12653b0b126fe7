//! A law of the definitions: what it says is proved, and there is nothing to run.

ghost use Rattle.std.specs.Prelude.{ℕ, ◌<◌, ◌↔◌, List};
ghost use Rattle.wb_base.specs.declared.symbol.Symbol.{Symbol};
ghost use Rattle.wb_base.specs.Grammar.{GrammarView};
ghost use Rattle.wb_grammar_theory.specs.declared.item.Item.{Item};
ghost use Rattle.wb_grammar_theory.specs.Shape.{IsLive};
ghost use Rattle.wb_grammar_theory.specs.Lookaheads.{IsLookahead};
ghost use Rattle.wb_grammar_theory.specs.States.{AreStates, IsNext};
ghost use Rattle.wb_digraph.specs.Relations.{IsLookaheadByRelations};

/// In a live grammar the lookaheads by the relations are the lookaheads.
///
/// In one that isn't live they may lack some: in `S -> A C B`, `A ->`, `C -> c`, where B has no production, nothing shifts c after A.
pub fn relations_law()
    ensures { (g : GrammarView) → IsLive g → (count : ℕ) (prefix_of : ℕ → List Symbol) → AreStates g count prefix_of (IsNext g count prefix_of) → (s : ℕ) → s < count → (item : Item) (t : ℕ) → IsLookaheadByRelations g prefix_of (IsNext g count prefix_of) s item t ↔ IsLookahead g (prefix_of s) item t }
{}
