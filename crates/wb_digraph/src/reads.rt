//! What can be read at a kernel? The terminals that are shifted there, and what can be read where nonterminals lead to that derive the empty
//! text.

ghost use Rattle.std.specs.Prelude.{◌≡◌, ◌<◌, ◌+◌, ◌↔◌, ◌⊎◌, ℕ, IfOk, OnOk, length};
ghost use Rattle.wb_termset.specs.Sets.{IsMember};
ghost use Rattle.wb_base.specs.declared.symbol.Symbol.TheVariants.{Nonterminal, Terminal};
ghost use Rattle.wb_base.specs.Grammar.{IsSymbolBelow};
ghost use Rattle.wb_graph.specs.Graphs.{IsEdge};
ghost use Rattle.wb_grammar_theory.specs.Derives.{IsNullable};
ghost use Rattle.wb_items.specs.Kernels.{LeadsTo, count_of};
ghost use Rattle.wb_digraph.specs.Inner.Links.{AddsReads, AreReads, AreShiftsUpTo, ReadsOn, Shifts};
ghost use Rattle.wb_digraph.specs.Inner.Numbers.{IsContext};
ghost use Rattle.wb_digraph.specs.Inner.Pools.{Extends, set_at};

use crate::context::Context;
use crate::pool::{Pool, first};
use crate::spread::spread;
use std::alloc::{AllocError, Global};
use wb_base::{Symbol, push};
use wb_items::Move;
use wb_termset::TermSet;

// For each kernel the number of the set of what can be read there.
pub(crate) fn read_numbers(
    alloc: Global,
    context: &Context,
    pool: &mut Pool,
) -> Result<Vec<usize>, AllocError>
    requires context { IsContext context.now.kernels.now context.now.grammar.now context.now.facts.now context.now.productions.now context.now.bases.now context.now.tails.now }
    requires width { length (set_at pool.old 0) ≡ context.now.kernels.now.grammar.terminals + 1 }
    ensures extends { OnOk result (Extends pool.old pool.new) }
    ensures reads { IfOk result (λ reads. AreReads context.now.kernels.now pool.new reads.items) }
{
    let shifts = shift_numbers(alloc, context, pool)?;
    numbers_over(alloc, context, &shifts, pool)
}

// The same over the sets of what is shifted.
fn numbers_over(
    alloc: Global,
    context: &Context,
    shifts: &[usize],
    pool: &mut Pool,
) -> Result<Vec<usize>, AllocError>
    requires context { IsContext context.now.kernels.now context.now.grammar.now context.now.facts.now context.now.productions.now context.now.bases.now context.now.tails.now }
    requires shifts { AreShiftsUpTo context.now.kernels.now (count_of context.now.kernels.now) pool.old shifts.now }
    ensures extends { OnOk result (Extends pool.old pool.new) }
    ensures reads { IfOk result (λ reads. AreReads context.now.kernels.now pool.new reads.items) }
{
    let edges = read_edges(alloc, context)?;
    let reads = spread(alloc, &edges, shifts, pool)?;
    drop(edges);
    Ok(reads)
}

// For each kernel the number of the set of terminals that are shifted there.
fn shift_numbers(
    alloc: Global,
    context: &Context,
    pool: &mut Pool,
) -> Result<Vec<usize>, AllocError>
    requires context { IsContext context.now.kernels.now context.now.grammar.now context.now.facts.now context.now.productions.now context.now.bases.now context.now.tails.now }
    requires width { length (set_at pool.old 0) ≡ context.now.kernels.now.grammar.terminals + 1 }
    ensures extends { OnOk result (Extends pool.old pool.new) }
    ensures shifts { IfOk result (λ shifts. AreShiftsUpTo context.now.kernels.now (count_of context.now.kernels.now) pool.new shifts.items) }
{
    let mut shifts = Vec::new(alloc);
    'states: for state in 0..context.kernels.count() {
        add_shifts(alloc, context, state, pool, &mut shifts)?;
    }
    Ok(shifts)
}

// Adds that of one kernel.
fn add_shifts(
    alloc: Global,
    context: &Context,
    state: usize,
    pool: &mut Pool,
    shifts: &mut Vec<usize>,
) -> Result<(), AllocError>
    requires context { IsContext context.now.kernels.now context.now.grammar.now context.now.facts.now context.now.productions.now context.now.bases.now context.now.tails.now }
    requires state { state < count_of context.now.kernels.now }
    requires width { length (set_at pool.old 0) ≡ context.now.kernels.now.grammar.terminals + 1 }
    requires before { AreShiftsUpTo context.now.kernels.now state pool.old shifts.old.items }
    ensures extends { OnOk result (Extends pool.old pool.new) }
    ensures shifts { OnOk result (AreShiftsUpTo context.now.kernels.now (state + 1) pool.new shifts.new.items) }
{
    let set = shifts_at(alloc, context, state)?;
    let number = pool.number_for(first(&set), set)?;
    push(shifts, number)?;
    Ok(())
}

// The terminals that are shifted at a kernel.
fn shifts_at(alloc: Global, context: &Context, state: usize) -> Result<TermSet, AllocError>
    requires context { IsContext context.now.kernels.now context.now.grammar.now context.now.facts.now context.now.productions.now context.now.bases.now context.now.tails.now }
    requires state { state < count_of context.now.kernels.now }
    ensures width { IfOk result (λ set. length set ≡ context.now.kernels.now.grammar.terminals + 1) }
    ensures members { IfOk result (λ set. (t : ℕ) → IsMember set t ↔ Shifts context.now.kernels.now state t) }
{
    let mut set = TermSet::new(alloc, context.grammar.lookahead_count()?)?;
    let row = context.kernels.moves(state);
    'row: for &step in row {
        add_symbol(context, step.symbol, &mut set);
    }
    Ok(set)
}

// Adds a symbol, if it is a terminal.
fn add_symbol(context: &Context, symbol: Symbol, set: &mut TermSet)
    requires context { IsContext context.now.kernels.now context.now.grammar.now context.now.facts.now context.now.productions.now context.now.bases.now context.now.tails.now }
    requires symbol { IsSymbolBelow context.now.kernels.now.grammar.terminals context.now.kernels.now.grammar.nonterminals symbol }
    requires width { length set.old ≡ context.now.kernels.now.grammar.terminals + 1 }
    ensures width { length set.new ≡ length set.old }
    ensures members { (t : ℕ) → IsMember set.new t ↔ (IsMember set.old t ⊎ (symbol ≡ Terminal t)) }
{
    if let Symbol::Terminal(terminal) = symbol {
        set.insert(terminal);
    }
}

// An edge from each kernel to each that a nonterminal leads to which derives the empty text.
fn read_edges(alloc: Global, context: &Context) -> Result<Vec<(usize, usize)>, AllocError>
    requires { IsContext context.now.kernels.now context.now.grammar.now context.now.facts.now context.now.productions.now context.now.bases.now context.now.tails.now }
    ensures { IfOk result (λ edges. (u v : ℕ) → IsEdge edges.items u v ↔ ReadsOn context.now.kernels.now u v) }
{
    let mut edges = Vec::new(alloc);
    'states: for state in 0..context.kernels.count() {
        add_reads(context, state, &mut edges)?;
    }
    Ok(edges)
}

// Adds those from one kernel.
fn add_reads(
    context: &Context,
    state: usize,
    edges: &mut Vec<(usize, usize)>,
) -> Result<(), AllocError>
    requires context { IsContext context.now.kernels.now context.now.grammar.now context.now.facts.now context.now.productions.now context.now.bases.now context.now.tails.now }
    requires state { state < count_of context.now.kernels.now }
    ensures { OnOk result (AddsReads (λ next. ReadsOn context.now.kernels.now state next) state edges.old.items edges.new.items) }
{
    let row = context.kernels.moves(state);
    'row: for &step in row {
        add_read(context, state, step, edges)?;
    }
    Ok(())
}

// Adds that of one move, if it is by such a nonterminal.
fn add_read(
    context: &Context,
    state: usize,
    step: Move,
    edges: &mut Vec<(usize, usize)>,
) -> Result<(), AllocError>
    requires context { IsContext context.now.kernels.now context.now.grammar.now context.now.facts.now context.now.productions.now context.now.bases.now context.now.tails.now }
    requires step { LeadsTo context.now.kernels.now state step.symbol step.state }
    ensures { OnOk result (AddsReads (λ next. (next ≡ step.state) × ((c : ℕ) × (step.symbol ≡ Nonterminal c) × IsNullable context.now.kernels.now.grammar c)) state edges.old.items edges.new.items) }
{
    let Symbol::Nonterminal(nonterminal) = step.symbol else {
        return Ok(());
    };
    if !context.facts.nullable(nonterminal) {
        return Ok(());
    }
    push(edges, (state, step.state))?;
    Ok(())
}
