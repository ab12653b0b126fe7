//! Which lookaheads may the items of a new kernel have? Those that they have at the host's kernels that contain it.

ghost use Rattle.std.specs.Prelude.{◌≡◌, ◌↔◌, ◌⊎◌, ◌<◌, ◌+◌, ℕ, All, IfOk, OnOk, IsTrue, Contains, length};
ghost use Rattle.wb_grammar_theory.specs.declared.item.Item.{Item};
ghost use Rattle.wb_grammar_theory.specs.Closure.{InClosure};
ghost use Rattle.wb_grammar_theory.specs.Items.{HasItem};
ghost use Rattle.wb_grammar_theory.specs.Lookaheads.{IsLookahead};
ghost use Rattle.wb_items.specs.Kernels.{AreKernels, count_of, prefix_of};
ghost use Rattle.wb_items.specs.Lookaheads.{items_in};
ghost use Rattle.wb_items.specs.Table.{AreProductions};
ghost use Rattle.wb_termset.specs.Sets.{IsMember};
ghost use Rattle.wb_determinism.specs.Inner.Contexts.{IsContext, host_of};
ghost use Rattle.wb_determinism.specs.Inner.Index.{IsIndex, IsIndexable};
ghost use Rattle.wb_determinism.specs.Inner.Envelopes.{AddsContaining, AddsEntry, AreContaining, IsEnvelopeRow, IsEnvelopeSet};

use crate::context::Context;
use crate::host_index::{States, listed};
use std::alloc::{AllocError, Global};
use wb_base::push;
use wb_items::{Item, ItemLookahead, Kernels, Numbers, kernel_closure};
use wb_termset::TermSet;

// The items of the closure of a kernel, each with its lookaheads in the envelope.
pub(crate) fn envelope_of(
    alloc: Global,
    context: &Context,
    rules: &[Numbers],
    own: &[Item],
) -> Result<Vec<ItemLookahead>, AllocError>
    requires context { IsContext context.now }
    requires rules { AreProductions context.now.grammar.now rules.now }
    requires own { IsIndexable (host_of context.now) own.now }
    ensures { IfOk result (λ row. IsEnvelopeRow (host_of context.now) own.now row.items) }
{
    let closure = kernel_closure(alloc, context.grammar, rules, own)?;
    envelope_row(alloc, context, own, &closure)
}

// Like `envelope_of`, with the items of the closure.
fn envelope_row(
    alloc: Global,
    context: &Context,
    own: &[Item],
    closure: &[Item],
) -> Result<Vec<ItemLookahead>, AllocError>
    requires context { IsContext context.now }
    requires own { IsIndexable (host_of context.now) own.now }
    requires closure { (item : Item) → Contains closure.now item ↔ InClosure (host_of context.now) (Contains own.now) item }
    ensures { IfOk result (λ row. IsEnvelopeRow (host_of context.now) own.now row.items) }
{
    let containing = containing(alloc, context.host, context.index, own)?;
    row_by(alloc, context, own, closure, &containing)
}

// Like `envelope_row`, with the numbers of the host's kernels that contain the kernel.
fn row_by(
    alloc: Global,
    context: &Context,
    own: &[Item],
    closure: &[Item],
    containing: &[usize],
) -> Result<Vec<ItemLookahead>, AllocError>
    requires context { IsContext context.now }
    requires closure { (item : Item) → Contains closure.now item ↔ InClosure (host_of context.now) (Contains own.now) item }
    requires containing { AreContaining context.now.host.now own.now containing.now }
    ensures { IfOk result (λ row. IsEnvelopeRow (host_of context.now) own.now row.items) }
{
    let mut row = Vec::with_capacity(alloc, closure.len())?;
    'items: for &item in closure {
        add_entry(context, own, containing, item, &mut row)?;
    }
    Ok(row)
}

// Adds an item with its lookaheads in the envelope.
fn add_entry(
    context: &Context,
    own: &[Item],
    containing: &[usize],
    item: Item,
    row: &mut Vec<ItemLookahead>,
) -> Result<(), AllocError>
    requires context { IsContext context.now }
    requires containing { AreContaining context.now.host.now own.now containing.now }
    requires item { InClosure (host_of context.now) (Contains own.now) item }
    ensures { OnOk result (AddsEntry (host_of context.now) own.now item row.old.items row.new.items) }
{
    let alloc = *row.allocator();
    let set = envelope_set(alloc, context, own, containing, item)?;
    push(row, ItemLookahead { item, set })?;
    Ok(())
}

// The lookaheads of one item in the envelope.
fn envelope_set(
    alloc: Global,
    context: &Context,
    own: &[Item],
    containing: &[usize],
    item: Item,
) -> Result<TermSet, AllocError>
    requires context { IsContext context.now }
    requires containing { AreContaining context.now.host.now own.now containing.now }
    requires item { InClosure (host_of context.now) (Contains own.now) item }
    ensures { IfOk result (λ set. IsEnvelopeSet (host_of context.now) own.now (record { item = item; set = set })) }
{
    let mut set = TermSet::new(alloc, context.grammar.lookahead_count()?)?;
    'kernels: for &state in containing {
        add_lookaheads(context, state, item, &mut set);
    }
    Ok(set)
}

// Adds the lookaheads of an item at a kernel of the host.
fn add_lookaheads(context: &Context, state: usize, item: Item, set: &mut TermSet)
    requires context { IsContext context.now }
    requires state { state < count_of context.now.host.now }
    requires item { HasItem (host_of context.now) (prefix_of context.now.host.now state) item }
    requires len { length set.old ≡ (host_of context.now).terminals + 1 }
    ensures len { length set.new ≡ length set.old }
    ensures each { (t : ℕ) → IsMember set.new t ↔ (IsMember set.old t ⊎ IsLookahead (host_of context.now) (prefix_of context.now.host.now state) item t) }
{
    set.union_with(context.host_lookaheads.of(state, item));
}

// The numbers of the kernels that have all these items. They are among those that have an item of the first one's production.
fn containing(
    alloc: Global,
    host: &Kernels,
    index: &[States],
    own: &[Item],
) -> Result<Vec<usize>, AllocError>
    requires exact { AreKernels host.now }
    requires index { IsIndex host.now (count_of host.now) index.now }
    requires own { IsIndexable host.now.grammar own.now }
    ensures { IfOk result (λ list. AreContaining host.now own.now list.items) }
{
    let candidates = listed(index, own[0].production);
    let mut list = Vec::new(alloc);
    'candidates: for &state in candidates {
        add_containing(host, own, state, &mut list)?;
    }
    Ok(list)
}

// Adds the number of a kernel, if it has all these items.
fn add_containing(
    host: &Kernels,
    own: &[Item],
    state: usize,
    list: &mut Vec<usize>,
) -> Result<(), AllocError>
    requires exact { AreKernels host.now }
    requires state { state < count_of host.now }
    ensures { OnOk result (AddsContaining host.now own.now state list.old.items list.new.items) }
{
    if !has_all(host.kernel(state), own) {
        return Ok(());
    }
    push(list, state)?;
    Ok(())
}

// Whether all these items are in the list.
fn has_all(items: &[Item], own: &[Item]) -> bool
    ensures { IsTrue result ↔ ((i : Item) → Contains own.now i → Contains items.now i) }
{
    'items: for &item in own {
        if !is_in(items, item) {
            return false;
        }
    }
    true
}

// Whether the item is in the list.
fn is_in(items: &[Item], item: Item) -> bool
    ensures { IsTrue result ↔ Contains items.now item }
{
    'items: for &other in items {
        if other == item {
            return true;
        }
    }
    false
}
