//! Which terminals are lookaheads of which item? LALR(1) lookaheads by propagation over the merged kernels.
//!
//! Prefixes with the same kernel share their lookaheads. What passes from one item to others is in `propagate.rt`.

ghost use Rattle.std.specs.Prelude.{◌≡◌, [], IfOk, OnOk};
ghost use Rattle.wb_grammar.specs.Facts.{AreFacts};
ghost use Rattle.wb_items.specs.Apart.{AreApart};
ghost use Rattle.wb_items.specs.Kernels.{count_of};
ghost use Rattle.wb_items.specs.Lookaheads.{AreEmpty, AreLookaheadsOf};
ghost use Rattle.wb_items.specs.LookaheadSets.{AreLookaheads};
ghost use Rattle.wb_items.specs.Table.{AreProductions};
ghost use Rattle.wb_lookahead.specs.Inner.Spreading.{AreSound, AreWaiting, IsContext};

use crate::first_of::rests_of;
use crate::propagate::{Context, pass_on};
use crate::spread::spread;
use crate::worklist::Worklist;
use std::alloc::{AllocError, Global};
use wb_base::Grammar;
use wb_grammar::Facts;
use wb_items::{Item, Kernels, Lookaheads, Numbers, production_numbers};
use wb_termset::TermSet;

/// The lookaheads of every item of every kernel's closure.
///
/// They are found by propagation over the items of kernels and the nonterminals that each kernel opens. No clause bounds the time.
pub fn plain_lookaheads(
    alloc: Global,
    grammar: &Grammar,
    facts: &Facts,
    kernels: &Kernels,
) -> Result<Lookaheads, AllocError>
    requires facts { AreFacts grammar.now facts.now }
    requires kernels { kernels.now.grammar ≡ grammar.now }
    ensures { IfOk result (AreLookaheads kernels.now) }
{
    let productions = production_numbers(alloc, grammar)?;
    with_productions(alloc, grammar, facts, kernels, &productions)
}

// Like `plain_lookaheads`, with the productions of each nonterminal.
fn with_productions(
    alloc: Global,
    grammar: &Grammar,
    facts: &Facts,
    kernels: &Kernels,
    productions: &[Numbers],
) -> Result<Lookaheads, AllocError>
    requires facts { AreFacts grammar.now facts.now }
    requires kernels { kernels.now.grammar ≡ grammar.now }
    requires productions { AreProductions grammar.now productions.now }
    ensures { IfOk result (AreLookaheads kernels.now) }
{
    let count = kernels.count();
    let rests = rests_of(alloc, grammar, facts)?;
    let context = Context {
        grammar,
        kernels,
        productions,
        rests: &rests,
    };
    propagated(alloc, &context, count)
}

// Like `with_productions`, with what rests of right sides begin with.
fn propagated(alloc: Global, context: &Context, count: usize) -> Result<Lookaheads, AllocError>
    requires context { IsContext context.now.kernels.now context.now.grammar.now context.now.productions.now context.now.rests.now }
    requires count { count ≡ count_of context.now.kernels.now }
    ensures { IfOk result (AreLookaheads context.now.kernels.now) }
{
    let mut lookaheads = Lookaheads::new(alloc, context.grammar, context.kernels)?;
    propagate(alloc, context, count, &mut lookaheads)?;
    Ok(lookaheads)
}

// Spreads the end of a text from the start item, until nothing waits.
fn propagate(
    alloc: Global,
    context: &Context,
    count: usize,
    lookaheads: &mut Lookaheads,
) -> Result<(), AllocError>
    requires context { IsContext context.now.kernels.now context.now.grammar.now context.now.productions.now context.now.rests.now }
    requires count { count ≡ count_of context.now.kernels.now }
    requires shape { AreLookaheadsOf context.now.kernels.now lookaheads.old }
    requires empty { AreEmpty lookaheads.old }
    requires apart { AreApart context.now.kernels.now.grammar lookaheads.old }
    ensures { OnOk result (AreLookaheads context.now.kernels.now lookaheads.new) }
{
    let mut worklist = Worklist::new(alloc, context.kernels, count)?;
    begin(alloc, context, lookaheads, &mut worklist)?;
    'waiting: while let Some(place) = worklist.pop() {
        pass_on(context, place, lookaheads, &mut worklist)?;
    }
    Ok(())
}

// Spreads the end of a text to the start item.
fn begin(
    alloc: Global,
    context: &Context,
    lookaheads: &mut Lookaheads,
    worklist: &mut Worklist,
) -> Result<(), AllocError>
    requires context { IsContext context.now.kernels.now context.now.grammar.now context.now.productions.now context.now.rests.now }
    requires shape { AreLookaheadsOf context.now.kernels.now lookaheads.old }
    requires empty { AreEmpty lookaheads.old }
    requires apart { AreApart context.now.kernels.now.grammar lookaheads.old }
    requires nothing { worklist.old ≡ [] }
    ensures sound { OnOk result (AreSound context.now.kernels.now lookaheads.new worklist.new) }
    ensures waiting { OnOk result (AreWaiting context.now.kernels.now lookaheads.new worklist.new) }
{
    let mut end = TermSet::new(alloc, context.grammar.lookahead_count()?)?;
    end.insert(context.grammar.terminals());
    let item = Item {
        production: context.grammar.productions(),
        dot: 0,
    };
    spread(context.kernels, 0, item, &end, lookaheads, worklist)
}
