//! What does a grammar with holes show of the grammar without?

ghost use Rattle.std.specs.Prelude.{◌<◌, ℕ, List};
ghost use Rattle.wb_base.specs.declared.symbol.Symbol.{Symbol};
ghost use Rattle.wb_base.specs.Grammar.{GrammarView, IsGrammar};
ghost use Rattle.wb_grammar_theory.specs.Cycles.{HasNoHiddenLeftRecursion, HasNoUnitCycle};
ghost use Rattle.wb_grammar_theory.specs.Items.{IsViablePrefix};
ghost use Rattle.wb_grammar_theory.specs.Lookaheads.{HasNoConflict, IsValidTerminal};
ghost use Rattle.wb_grammar_theory.specs.Shape.{IsLive, IsReduced};
ghost use Rattle.wb_marking_holes.specs.Holes.{with_holes_of};

/// A reduced grammar is reduced with holes. One that with holes has no unit cycle or no hidden left recursion has none without.
///
/// The rest is said of a grammar whose numbers are in range. Its viable prefixes stay so with holes. Where some terminal begins what is
/// after each symbol of a right side, as it does where every nonterminal derives a text, such a grammar has no conflict if it has none with
/// holes, and each of its own terminals stays valid with holes at the prefixes at which it is valid. The end of a text is none of these
/// terminals, and has another number with holes.
pub fn holes_law()
    ensures reduced { (g : GrammarView) (extensible : List ℕ) → IsReduced g → IsReduced (with_holes_of g extensible) }
    ensures unit_cycles { (g : GrammarView) (extensible : List ℕ) → HasNoUnitCycle (with_holes_of g extensible) → HasNoUnitCycle g }
    ensures hidden_left_recursion { (g : GrammarView) (extensible : List ℕ) → HasNoHiddenLeftRecursion (with_holes_of g extensible) → HasNoHiddenLeftRecursion g }
    ensures conflicts { (g : GrammarView) (extensible : List ℕ) → IsGrammar g → IsLive g → HasNoConflict (with_holes_of g extensible) → HasNoConflict g }
    ensures prefixes { (g : GrammarView) (extensible : List ℕ) → IsGrammar g → (prefix : List Symbol) → IsViablePrefix g prefix → IsViablePrefix (with_holes_of g extensible) prefix }
    ensures valid { (g : GrammarView) (extensible : List ℕ) → IsGrammar g → IsLive g → (prefix : List Symbol) (t : ℕ) → t < g.terminals → IsValidTerminal g prefix t → IsValidTerminal (with_holes_of g extensible) prefix t }
{}
