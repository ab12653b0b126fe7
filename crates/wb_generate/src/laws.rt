//! Laws of the definitions: what each says is proved, and there is nothing to run.

ghost use Rattle.std.specs.Prelude.{ℕ, List, Option};
ghost use Rattle.wb_base.specs.Grammar.{GrammarView};
ghost use Rattle.wb_regex.specs.Tree.{Tree};
ghost use Rattle.wb_generate.specs.Laws.{HasOneOutcome, HasSomeOutcome};

/// A number makes one text at most of a grammar, where there may be so many leaves.
pub fn one_outcome_law()
    ensures { (g : GrammarView) (expressions : List Tree) (layout : Option ℕ) (number size : ℕ) → HasOneOutcome g expressions layout number size }
{}

/// A number makes a text of a grammar, or each of its texts has more leaves, where each expression matches some text: that neither is so
/// can't be.
pub fn some_outcome_law()
    ensures { (g : GrammarView) (expressions : List Tree) (layout : Option ℕ) (number size : ℕ) → HasSomeOutcome g expressions layout number size }
{}
