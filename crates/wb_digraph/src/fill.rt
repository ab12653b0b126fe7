//! Which set has which item? Each item gets that of its number.

ghost use Rattle.std.specs.Prelude.{◌<◌, ◌+◌, IfOk};
ghost use Rattle.wb_items.specs.Kernels.{count_of};
ghost use Rattle.wb_items.specs.LookaheadSets.{AreLookaheads};
ghost use Rattle.wb_items.specs.Lookaheads.{AreLookaheadsOf};
ghost use Rattle.wb_digraph.specs.Inner.Filling.{AreFilledUpTo, HoldFlows, HoldFlowsLater, HoldsSets};
ghost use Rattle.wb_digraph.specs.Inner.Numbers.{HasNumber, IsContext};
ghost use Rattle.wb_digraph.specs.Inner.Pools.{HaveWidth};

use crate::context::Context;
use crate::numbers::number_of;
use std::alloc::{AllocError, Global};
use wb_items::Lookaheads;
use wb_termset::TermSet;

// The lookaheads, where each number of an item has the number of its set.
pub(crate) fn filled(
    alloc: Global,
    context: &Context,
    numbers: &[usize],
    sets: Vec<TermSet>,
) -> Result<Lookaheads, AllocError>
    requires context { IsContext context.now.kernels.now context.now.grammar.now context.now.facts.now context.now.productions.now context.now.bases.now context.now.tails.now }
    requires widths { HaveWidth (context.now.kernels.now.grammar.terminals + 1) sets.items }
    requires flows { HoldFlows context.now.kernels.now (HasNumber context.now.kernels.now context.now.productions.now context.now.bases.now) numbers.now sets.items }
    ensures { IfOk result (AreLookaheads context.now.kernels.now) }
{
    let mut lookaheads = with_sets(alloc, context, sets)?;
    put_all(context, numbers, &mut lookaheads);
    Ok(lookaheads)
}

// These sets behind an empty one, which all items have.
fn with_sets(alloc: Global, context: &Context, sets: Vec<TermSet>) -> Result<Lookaheads, AllocError>
    requires context { IsContext context.now.kernels.now context.now.grammar.now context.now.facts.now context.now.productions.now context.now.bases.now context.now.tails.now }
    requires widths { HaveWidth (context.now.kernels.now.grammar.terminals + 1) sets.items }
    ensures shape { IfOk result (AreLookaheadsOf context.now.kernels.now) }
    ensures sets { IfOk result (λ lookaheads. HoldsSets sets.items lookaheads) }
{
    let mut lookaheads = Lookaheads::with_one_set(alloc, context.grammar, context.kernels)?;
    for set in sets {
        lookaheads.add_set(set)?;
    }
    Ok(lookaheads)
}

// Gives each item the set of its number.
fn put_all(context: &Context, numbers: &[usize], lookaheads: &mut Lookaheads)
    requires context { IsContext context.now.kernels.now context.now.grammar.now context.now.facts.now context.now.productions.now context.now.bases.now context.now.tails.now }
    requires shape { AreLookaheadsOf context.now.kernels.now lookaheads.old }
    requires flows { HoldFlowsLater context.now.kernels.now (HasNumber context.now.kernels.now context.now.productions.now context.now.bases.now) numbers.now lookaheads.old }
    ensures { AreLookaheads context.now.kernels.now lookaheads.new }
{
    'states: for state in 0..context.kernels.count() {
        put_row(context, numbers, state, lookaheads);
    }
}

// Gives those of one kernel theirs.
fn put_row(context: &Context, numbers: &[usize], state: usize, lookaheads: &mut Lookaheads)
    requires context { IsContext context.now.kernels.now context.now.grammar.now context.now.facts.now context.now.productions.now context.now.bases.now context.now.tails.now }
    requires state { state < count_of context.now.kernels.now }
    requires flows { HoldFlowsLater context.now.kernels.now (HasNumber context.now.kernels.now context.now.productions.now context.now.bases.now) numbers.now lookaheads.old }
    requires before { AreFilledUpTo context.now.kernels.now state 0 lookaheads.old }
    ensures flows { HoldFlowsLater context.now.kernels.now (HasNumber context.now.kernels.now context.now.productions.now context.now.bases.now) numbers.now lookaheads.new }
    ensures filled { AreFilledUpTo context.now.kernels.now (state + 1) 0 lookaheads.new }
{
    let items = context.kernels.closure(state);
    'items: for place in 0..items.len() {
        let number = number_of(context, state, items[place], place);
        lookaheads.put_at(state, place, numbers[number] + 1);
    }
}
