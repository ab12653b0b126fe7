//! Does some nonterminal derive itself? A topological order of unit productions says no, and a cycle of them is shown.

ghost use Rattle.std.specs.Prelude.{IfErr, OnOk};
ghost use Rattle.wb_grammar_theory.specs.Shape.{IsReduced};
ghost use Rattle.wb_grammar_theory.specs.Cycles.{HasNoUnitCycle};
ghost use Rattle.wb_grammar.specs.Facts.{IsNullableSet};
ghost use Rattle.wb_grammar.specs.Refusals.{IsTrueRefusal};

use crate::GrammarRefusal;
use crate::edges::edges;
use crate::occurrence::Occurrence;
use std::alloc::Global;
use wb_base::{Grammar, Sequence};
use wb_graph::{Order, order_of};
use wb_termset::TermSet;

// Refuses a grammar with a unit cycle.
pub(crate) fn test_unit_cycles(
    alloc: Global,
    grammar: &Grammar,
    nullable: &TermSet,
) -> Result<(), GrammarRefusal>
    requires nullable { IsNullableSet grammar.now nullable.now }
    requires reduced { IsReduced grammar.now }
    ensures ok { OnOk result (HasNoUnitCycle grammar.now) }
    ensures refused { IfErr result (IsTrueRefusal grammar.now) }
{
    let edges = edges(alloc, grammar, nullable, Occurrence::Unit)?;
    match order_of(alloc, grammar.nonterminals(), &edges)? {
        Order::Sorted(_) => Ok(()),
        Order::Cycle(list) => Err(GrammarRefusal::UnitCycle(Sequence::from_vec(list))),
    }
}
