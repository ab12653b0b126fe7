//! What comes to an item directly? What is read after a nonterminal, to what it opens, and the end to the start item.

ghost use Rattle.std.specs.Prelude.{◌≡◌, ◌<◌, ◌+◌, ℕ, Some, IfOk, OnOk, length, slice_get, slice_index};
ghost use Rattle.wb_grammar_theory.specs.declared.item.Item.{Item};
ghost use Rattle.wb_grammar_theory.specs.Items.{HasItem};
ghost use Rattle.wb_items.specs.Kernels.{closure_of, count_of, prefix_of};
ghost use Rattle.wb_digraph.specs.Inner.Numbers.{AreFirstsUpTo, IsContext, IsFirst};

use crate::context::Context;
use crate::numbers::next_of;
use std::alloc::{AllocError, Global};
use wb_base::{Symbol, push};
use wb_items::Item;

// For each number that of the set of what comes to its item directly. Of a kernel's moves by nonterminals `reads` has the sets of what is
// read where they lead to, and `end` is the number of the set of the end.
pub(crate) fn firsts_of(
    alloc: Global,
    context: &Context,
    reads: &[usize],
    end: usize,
) -> Result<Vec<usize>, AllocError>
    requires context { IsContext context.now.kernels.now context.now.grammar.now context.now.facts.now context.now.productions.now context.now.bases.now context.now.tails.now }
    requires reads { length reads.now ≡ count_of context.now.kernels.now }
    ensures { IfOk result (λ firsts. AreFirstsUpTo context.now.kernels.now context.now.productions.now context.now.bases.now reads.now end (count_of context.now.kernels.now) firsts.items) }
{
    let mut firsts = Vec::new(alloc);
    'states: for state in 0..context.kernels.count() {
        add_firsts(context, state, reads, end, &mut firsts)?;
    }
    Ok(firsts)
}

// Adds those of a kernel's items.
fn add_firsts(
    context: &Context,
    state: usize,
    reads: &[usize],
    end: usize,
    firsts: &mut Vec<usize>,
) -> Result<(), AllocError>
    requires context { IsContext context.now.kernels.now context.now.grammar.now context.now.facts.now context.now.productions.now context.now.bases.now context.now.tails.now }
    requires state { state < count_of context.now.kernels.now }
    requires reads { length reads.now ≡ count_of context.now.kernels.now }
    requires before { AreFirstsUpTo context.now.kernels.now context.now.productions.now context.now.bases.now reads.now end state firsts.old.items }
    ensures { OnOk result (AreFirstsUpTo context.now.kernels.now context.now.productions.now context.now.bases.now reads.now end (state + 1) firsts.new.items) }
{
    let items = context.kernels.closure(state);
    'items: for &item in items {
        push(firsts, first_of(context, state, item, reads, end))?;
    }
    Ok(())
}

// That of one item.
fn first_of(context: &Context, state: usize, item: Item, reads: &[usize], end: usize) -> usize
    requires context { IsContext context.now.kernels.now context.now.grammar.now context.now.facts.now context.now.productions.now context.now.bases.now context.now.tails.now }
    requires state { state < count_of context.now.kernels.now }
    requires has { HasItem context.now.kernels.now.grammar (prefix_of context.now.kernels.now state) item }
    requires reads { length reads.now ≡ count_of context.now.kernels.now }
    ensures { IsFirst context.now.kernels.now context.now.productions.now reads.now end state item result }
{
    if item.dot > 0 {
        return 0;
    }
    if item.production >= context.grammar.productions() {
        return end;
    }
    let left = context.grammar.left(item.production);
    if context.productions[left].as_slice()[0] != item.production {
        return 0;
    }
    let next = next_of(context.kernels, state, Symbol::Nonterminal(left));
    reads[next]
}
