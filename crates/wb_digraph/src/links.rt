//! Which items take the lookaheads of which? An item hands its own on to itself after the next symbol, and to what the nonterminal after its
//! dot opens, where the symbols behind that derive the empty text.

ghost use Rattle.std.specs.Prelude.{◌≡◌, ◌<◌, ◌↔◌, ◌+◌, ◌^◌, ℕ, List, [], ◌∷◌, IfOk, IsTrue, OnOk};
ghost use Rattle.wb_base.specs.declared.symbol.Symbol.{Symbol};
ghost use Rattle.wb_graph.specs.Graphs.{IsEdge};
ghost use Rattle.wb_grammar_theory.specs.declared.item.Item.{Item};
ghost use Rattle.wb_grammar_theory.specs.Derives.{Derives};
ghost use Rattle.wb_grammar_theory.specs.Items.{HasItem, after_dot};
ghost use Rattle.wb_items.specs.Kernels.{count_of, prefix_of};
ghost use Rattle.wb_digraph.specs.Inner.Links.{AddsLinks, HandsOn, HandsOnAt, HandsOpened, HandsOver, IsLink};
ghost use Rattle.wb_digraph.specs.Inner.Numbers.{HasNumber, IsContext};

use crate::context::Context;
use crate::numbers::{next_of, number_of};
use std::alloc::{AllocError, Global};
use wb_base::{Symbol, push};
use wb_items::{Item, symbol_after};

// An edge from each number to each from which it takes lookaheads.
pub(crate) fn links_of(alloc: Global, context: &Context) -> Result<Vec<(usize, usize)>, AllocError>
    requires { IsContext context.now.kernels.now context.now.grammar.now context.now.facts.now context.now.productions.now context.now.bases.now context.now.tails.now }
    ensures { IfOk result (λ edges. (v u : ℕ) → IsEdge edges.items v u ↔ IsLink context.now.kernels.now (HasNumber context.now.kernels.now context.now.productions.now context.now.bases.now) v u) }
{
    let mut edges = Vec::new(alloc);
    'states: for state in 0..context.kernels.count() {
        add_links(context, state, &mut edges)?;
    }
    Ok(edges)
}

// Adds those of the items of a kernel.
fn add_links(
    context: &Context,
    state: usize,
    edges: &mut Vec<(usize, usize)>,
) -> Result<(), AllocError>
    requires context { IsContext context.now.kernels.now context.now.grammar.now context.now.facts.now context.now.productions.now context.now.bases.now context.now.tails.now }
    requires state { state < count_of context.now.kernels.now }
    ensures { OnOk result (AddsLinks context.now.kernels.now (HasNumber context.now.kernels.now context.now.productions.now context.now.bases.now) (HandsOnAt context.now.kernels.now (HasNumber context.now.kernels.now context.now.productions.now context.now.bases.now) state) edges.old.items edges.new.items) }
{
    let items = context.kernels.closure(state);
    'items: for place in 0..items.len() {
        add_at(context, state, items[place], place, edges)?;
    }
    Ok(())
}

// Adds those of one item.
fn add_at(
    context: &Context,
    state: usize,
    item: Item,
    place: usize,
    edges: &mut Vec<(usize, usize)>,
) -> Result<(), AllocError>
    requires context { IsContext context.now.kernels.now context.now.grammar.now context.now.facts.now context.now.productions.now context.now.bases.now context.now.tails.now }
    requires state { state < count_of context.now.kernels.now }
    requires has { HasItem context.now.kernels.now.grammar (prefix_of context.now.kernels.now state) item }
    ensures { OnOk result (AddsLinks context.now.kernels.now (HasNumber context.now.kernels.now context.now.productions.now context.now.bases.now) (HandsOn context.now.kernels.now (HasNumber context.now.kernels.now context.now.productions.now context.now.bases.now) state item) edges.old.items edges.new.items) }
{
    let Some(symbol) = symbol_after(context.grammar, item) else {
        return Ok(());
    };
    let from = number_of(context, state, item, place);
    add_over(context, state, item, symbol, from, edges)?;
    add_opened(context, state, item, symbol, from, edges)?;
    Ok(())
}

// Adds that over the symbol after the dot.
fn add_over(
    context: &Context,
    state: usize,
    item: Item,
    symbol: Symbol,
    from: usize,
    edges: &mut Vec<(usize, usize)>,
) -> Result<(), AllocError>
    requires context { IsContext context.now.kernels.now context.now.grammar.now context.now.facts.now context.now.productions.now context.now.bases.now context.now.tails.now }
    requires state { state < count_of context.now.kernels.now }
    requires has { HasItem context.now.kernels.now.grammar (prefix_of context.now.kernels.now state) item }
    requires symbol { (rest : List Symbol) × (after_dot context.now.kernels.now.grammar item ≡ symbol ∷ rest) }
    requires from { HasNumber context.now.kernels.now context.now.productions.now context.now.bases.now state item from }
    requires room { item.dot + 1 < 2 ^ 64 }
    ensures { OnOk result (AddsLinks context.now.kernels.now (HasNumber context.now.kernels.now context.now.productions.now context.now.bases.now) (HandsOver context.now.kernels.now (HasNumber context.now.kernels.now context.now.productions.now context.now.bases.now) state item) edges.old.items edges.new.items) }
{
    let next = next_of(context.kernels, state, symbol);
    let moved = Item {
        production: item.production,
        dot: item.dot + 1,
    };
    let to = number_of(context, next, moved, 0);
    push(edges, (to, from))?;
    Ok(())
}

// Adds that to what the symbol after the dot opens, if it is a nonterminal and what is behind it derives the empty text.
fn add_opened(
    context: &Context,
    state: usize,
    item: Item,
    symbol: Symbol,
    from: usize,
    edges: &mut Vec<(usize, usize)>,
) -> Result<(), AllocError>
    requires context { IsContext context.now.kernels.now context.now.grammar.now context.now.facts.now context.now.productions.now context.now.bases.now context.now.tails.now }
    requires state { state < count_of context.now.kernels.now }
    requires has { HasItem context.now.kernels.now.grammar (prefix_of context.now.kernels.now state) item }
    requires symbol { (rest : List Symbol) × (after_dot context.now.kernels.now.grammar item ≡ symbol ∷ rest) }
    requires from { HasNumber context.now.kernels.now context.now.productions.now context.now.bases.now state item from }
    requires room { item.dot + 1 < 2 ^ 64 }
    ensures { OnOk result (AddsLinks context.now.kernels.now (HasNumber context.now.kernels.now context.now.productions.now context.now.bases.now) (HandsOpened context.now.kernels.now (HasNumber context.now.kernels.now context.now.productions.now context.now.bases.now) state item) edges.old.items edges.new.items) }
{
    let Symbol::Nonterminal(nonterminal) = symbol else {
        return Ok(());
    };
    if !is_rest_empty(context, item) {
        return Ok(());
    }
    let numbers = context.productions[nonterminal].as_slice();
    let opened = Item {
        production: numbers[0],
        dot: 0,
    };
    let to = number_of(context, state, opened, 0);
    push(edges, (to, from))?;
    Ok(())
}

// Whether what is behind the symbol after the dot derives the empty text.
fn is_rest_empty(context: &Context, item: Item) -> bool
    requires context { IsContext context.now.kernels.now context.now.grammar.now context.now.facts.now context.now.productions.now context.now.bases.now context.now.tails.now }
    requires room { item.dot + 1 < 2 ^ 64 }
    ensures { (x : Symbol) (rest : List Symbol) → after_dot context.now.kernels.now.grammar item ≡ x ∷ rest → IsTrue result ↔ Derives context.now.kernels.now.grammar rest [] }
{
    if item.production >= context.grammar.productions() {
        return true;
    }
    context.tails[item.production] <= item.dot + 1
}
