//! Which terminals are lookaheads of which item? LALR(1) lookaheads by relations between the items of kernels.

ghost use Rattle.std.specs.Prelude.{◌≡◌, ◌<◌, ◌↔◌, ℕ, IfOk, OnOk, length, slice_index};
ghost use Rattle.wb_termset.specs.Sets.{IsMember};
ghost use Rattle.wb_base.specs.Grammar.{IsGrammar};
ghost use Rattle.wb_grammar.specs.Facts.{AreFacts};
ghost use Rattle.wb_grammar_theory.specs.Productions.{end_of};
ghost use Rattle.wb_items.specs.Kernels.{count_of};
ghost use Rattle.wb_items.specs.LookaheadSets.{AreLookaheads};
ghost use Rattle.wb_items.specs.Table.{AreProductions};
ghost use Rattle.wb_digraph.specs.Inner.Filling.{HoldFlows};
ghost use Rattle.wb_digraph.specs.Inner.Links.{AreReads, ComesDirectly};
ghost use Rattle.wb_digraph.specs.Inner.Numbers.{AreTailsUpTo, HasNumber, IsContext};
ghost use Rattle.wb_digraph.specs.Inner.Pools.{AreNumbers, Extends, IsStart, set_at};
ghost use Rattle.wb_digraph.specs.Inner.Spreading.{HasAt};

use crate::bases::bases_of;
use crate::context::Context;
use crate::fill::filled;
use crate::firsts::firsts_of;
use crate::links::links_of;
use crate::pool::Pool;
use crate::reads::read_numbers;
use crate::spread::spread;
use crate::tails::tails_of;
use std::alloc::{AllocError, Global};
use wb_base::Grammar;
use wb_grammar::Facts;
use wb_items::{Kernels, Lookaheads, Numbers, production_numbers};
use wb_termset::TermSet;

/// The lookaheads of every item of every kernel's closure.
///
/// They are found by relations between the items of kernels, with one set for each group of items that take each other's. No clause bounds
/// the time.
pub fn digraph_lookaheads(
    alloc: Global,
    grammar: &Grammar,
    facts: &Facts,
    kernels: &Kernels,
) -> Result<Lookaheads, AllocError>
    requires facts { AreFacts grammar.now facts.now }
    requires kernels { kernels.now.grammar ≡ grammar.now }
    ensures { IfOk result (AreLookaheads kernels.now) }
{
    let productions = production_numbers(alloc, grammar)?;
    with_productions(alloc, grammar, facts, kernels, &productions)
}

// Like `digraph_lookaheads`, with the productions of each nonterminal.
fn with_productions(
    alloc: Global,
    grammar: &Grammar,
    facts: &Facts,
    kernels: &Kernels,
    productions: &[Numbers],
) -> Result<Lookaheads, AllocError>
    requires facts { AreFacts grammar.now facts.now }
    requires kernels { kernels.now.grammar ≡ grammar.now }
    requires productions { AreProductions grammar.now productions.now }
    ensures { IfOk result (AreLookaheads kernels.now) }
{
    let tails = tails_of(alloc, grammar, facts)?;
    with_tails(alloc, grammar, facts, kernels, productions, &tails)
}

// Like `with_productions`, with the ends of right sides that derive the empty text.
fn with_tails(
    alloc: Global,
    grammar: &Grammar,
    facts: &Facts,
    kernels: &Kernels,
    productions: &[Numbers],
    tails: &[usize],
) -> Result<Lookaheads, AllocError>
    requires facts { AreFacts grammar.now facts.now }
    requires kernels { kernels.now.grammar ≡ grammar.now }
    requires productions { AreProductions grammar.now productions.now }
    requires in_range { IsGrammar grammar.now }
    requires tails { AreTailsUpTo grammar.now (length grammar.now.productions) tails.now }
    ensures { IfOk result (AreLookaheads kernels.now) }
{
    let bases = bases_of(alloc, kernels)?;
    let context = Context {
        grammar,
        facts,
        kernels,
        productions,
        bases: &bases,
        tails,
    };
    with_context(alloc, &context)
}

// Like `with_tails`, with what stays.
fn with_context(alloc: Global, context: &Context) -> Result<Lookaheads, AllocError>
    requires { IsContext context.now.kernels.now context.now.grammar.now context.now.facts.now context.now.productions.now context.now.bases.now context.now.tails.now }
    ensures { IfOk result (AreLookaheads context.now.kernels.now) }
{
    let mut pool = Pool::new(alloc, context.grammar.lookahead_count()?)?;
    let numbers = numbers_in(alloc, context, &mut pool)?;
    filled(alloc, context, &numbers, pool.into_sets())
}

// For each number of an item that of the set of its lookaheads, of sets that are added to an empty one.
fn numbers_in(alloc: Global, context: &Context, pool: &mut Pool) -> Result<Vec<usize>, AllocError>
    requires context { IsContext context.now.kernels.now context.now.grammar.now context.now.facts.now context.now.productions.now context.now.bases.now context.now.tails.now }
    requires pool { IsStart context.now.kernels.now.grammar pool.old }
    ensures extends { OnOk result (Extends pool.old pool.new) }
    ensures flows { IfOk result (λ numbers. HoldFlows context.now.kernels.now (HasNumber context.now.kernels.now context.now.productions.now context.now.bases.now) numbers.items pool.new) }
{
    let reads = read_numbers(alloc, context, pool)?;
    numbers_by(alloc, context, &reads, pool)
}

// The same by what can be read at each kernel.
fn numbers_by(
    alloc: Global,
    context: &Context,
    reads: &[usize],
    pool: &mut Pool,
) -> Result<Vec<usize>, AllocError>
    requires context { IsContext context.now.kernels.now context.now.grammar.now context.now.facts.now context.now.productions.now context.now.bases.now context.now.tails.now }
    requires reads { AreReads context.now.kernels.now pool.old reads.now }
    requires pool { IsStart context.now.kernels.now.grammar pool.old }
    ensures extends { OnOk result (Extends pool.old pool.new) }
    ensures flows { IfOk result (λ numbers. HoldFlows context.now.kernels.now (HasNumber context.now.kernels.now context.now.productions.now context.now.bases.now) numbers.items pool.new) }
{
    let end = end_number(alloc, context.grammar, pool)?;
    let firsts = firsts_of(alloc, context, reads, end)?;
    numbers_from(alloc, context, &firsts, pool)
}

// The same by what comes to each number directly.
fn numbers_from(
    alloc: Global,
    context: &Context,
    firsts: &[usize],
    pool: &mut Pool,
) -> Result<Vec<usize>, AllocError>
    requires context { IsContext context.now.kernels.now context.now.grammar.now context.now.facts.now context.now.productions.now context.now.bases.now context.now.tails.now }
    requires len { length firsts.now ≡ slice_index context.now.bases.now (count_of context.now.kernels.now) }
    requires below { AreNumbers pool.old firsts.now }
    requires firsts { (n t : ℕ) → HasAt pool.old firsts.now n t ↔ ComesDirectly context.now.kernels.now (HasNumber context.now.kernels.now context.now.productions.now context.now.bases.now) n t }
    ensures extends { OnOk result (Extends pool.old pool.new) }
    ensures flows { IfOk result (λ numbers. HoldFlows context.now.kernels.now (HasNumber context.now.kernels.now context.now.productions.now context.now.bases.now) numbers.items pool.new) }
{
    let edges = links_of(alloc, context)?;
    let numbers = spread(alloc, &edges, firsts, pool)?;
    drop(edges);
    Ok(numbers)
}

// The number of the set of the end of a text.
fn end_number(alloc: Global, grammar: &Grammar, pool: &mut Pool) -> Result<usize, AllocError>
    requires { IsStart grammar.now pool.old }
    ensures extends { OnOk result (Extends pool.old pool.new) }
    ensures below { IfOk result (λ number. number < length pool.new) }
    ensures end { IfOk result (λ number. (t : ℕ) → IsMember (set_at pool.new number) t ↔ (t ≡ end_of grammar.now)) }
{
    let mut end = TermSet::new(alloc, grammar.lookahead_count()?)?;
    end.insert(grammar.terminals());
    let number = pool.number_for(grammar.terminals(), end)?;
    Ok(number)
}
