//! Is a grammar fit for parsing? Each test in the order in which refusals are shown, and what is known after them.
//!
//! The tests are in `reduced.rt`, `unit_cycles.rt` and `hidden_left_recursion.rt`, the sets in `least_fixpoint.rt` and `first.rt`.

ghost use Rattle.std.specs.Prelude.{◌≡◌, ◌<◌, ℕ, length, All, IfErr, IfOk};
ghost use Rattle.wb_base.specs.Grammar.{GrammarView};
ghost use Rattle.wb_grammar.specs.declared.refusal.GrammarRefusal.{GrammarRefusal as Refusal};
ghost use Rattle.wb_grammar.specs.Facts.{FactsView, AreFacts, IsNullableSet};
ghost use Rattle.wb_grammar.specs.Refusals.{IsTrueRefusal, IsNoMemory};

use crate::first::first_of_all;
use crate::hidden_left_recursion::test_hidden_left_recursion;
use crate::least_fixpoint::least_set;
use crate::reduced::test_reduced;
use crate::unit_cycles::test_unit_cycles;
use crate::{Facts, GrammarRefusal};
use std::alloc::{AllocError, Global};
use wb_base::Grammar;
use wb_termset::TermSet;

/// The facts of a grammar, or why it is refused: it isn't reduced, or has a unit cycle, or has hidden left recursion, in this order.
///
/// Nonterminals, terminals and productions have the grammar's numbers. Which of several examples a refusal shows is left open.
///
/// Time is linear in the grammar but for two things. First sets are found by strongly connected components, and take three unions of
/// sets for each left corner. A refusal for hidden left recursion looks for its path by as many passes as the path is long. No clause
/// bounds the time.
pub fn analyse(alloc: Global, grammar: &Grammar) -> Result<Facts, GrammarRefusal>
    ensures ok { IfOk result (λ facts. AreFacts grammar.now facts) }
    ensures refused { IfErr result (IsTrueRefusal grammar.now) }
{
    let nullable = nullable_in(alloc, grammar)?;
    test_reduced(alloc, grammar, &nullable)?;
    test_unit_cycles(alloc, grammar, &nullable)?;
    test_hidden_left_recursion(alloc, grammar, &nullable)?;
    let first = first_of_all(alloc, grammar, &nullable)?.sets;
    Ok(Facts { nullable, first })
}

/// A refusal other than out of memory and facts exclude each other: no grammar has both.
pub fn refusals_law()
    ensures { (g : GrammarView) (refusal : Refusal) (facts : FactsView) → IsTrueRefusal g refusal → AreFacts g facts → IsNoMemory refusal }
{}

// The nonterminals that derive the empty text.
fn nullable_in(alloc: Global, grammar: &Grammar) -> Result<TermSet, AllocError>
    ensures { IfOk result (λ set. IsNullableSet grammar.now set) }
{
    least_set(alloc, grammar, false)
}
