//! What does a marker bring? The host's lookaheads behind the hole that it stands for: one set, from all kernels of the host together.

ghost use Rattle.std.specs.Prelude.{◌≡◌, ◌<◌, Contains, OnOk, IfOk, MatchOption, length};
ghost use Rattle.wb_grammar_theory.specs.declared.item.Item.{Item};
ghost use Rattle.wb_determinism_kernels.specs.declared.starts.Start.{Start};
ghost use Rattle.wb_determinism_lookaheads.specs.Inner.Spreading.{AreTrue, AreTrueFor, IsBrought, IsContext};

use crate::context::Context;
use crate::lifted::lifted;
use crate::marks::mark;
use crate::pass::{new_place, unite};
use crate::row::Row;
use crate::slots::slot_place;
use std::alloc::{AllocError, Global};
use wb_base::Symbol;
use wb_determinism_kernels::Start;
use wb_items::Item;
use wb_termset::TermSet;

// Puts what markers bring into the sets at the kernels after them.
pub(crate) fn begin(
    alloc: Global,
    context: &Context,
    sets: &mut Vec<Row>,
    marks: &mut Vec<bool>,
) -> Result<(), AllocError>
    requires context { IsContext context.now }
    requires sound { AreTrue context.now sets.old.items }
    ensures { OnOk result (AreTrue context.now sets.new.items) }
{
    let starts = context.new.starts();
    'starts: for place in 0..starts.len() {
        begin_at(alloc, context, starts[place], sets, marks)?;
    }
    Ok(())
}

// Puts what one marker brings into the sets at the kernel after it.
fn begin_at(
    alloc: Global,
    context: &Context,
    start: Start,
    sets: &mut Vec<Row>,
    marks: &mut Vec<bool>,
) -> Result<(), AllocError>
    requires context { IsContext context.now }
    requires start { Contains context.now.new.now.starts start }
    requires sound { AreTrue context.now sets.old.items }
    ensures { OnOk result (AreTrue context.now sets.new.items) }
{
    let Some(place) = new_place(context, start.number) else {
        return Ok(());
    };
    if place >= context.new.len() {
        return Ok(());
    }
    let set = brought(alloc, context, start)?;
    'items: for &item in context.new.kernel(place) {
        put(context, place, item, &set, sets);
    }
    mark(marks, place);
    drop(set);
    Ok(())
}

// Adds members to the set of an item, if it has one.
fn put(context: &Context, place: usize, item: Item, set: &TermSet, sets: &mut Vec<Row>)
    requires holds { AreTrueFor context.now place item set.now }
    requires sound { AreTrue context.now sets.old.items }
    ensures { AreTrue context.now sets.new.items }
{
    let Some(at) = slot_place(context, place, item) else {
        return;
    };
    unite(context, place, at, item, set, sets);
}

// What a marker brings.
pub(crate) fn brought(alloc: Global, context: &Context, start: Start) -> Result<TermSet, AllocError>
    requires context { IsContext context.now }
    requires start { Contains context.now.new.now.starts start }
    ensures { IfOk result (IsBrought context.now start) }
{
    let Some(behind) = context
        .beside
        .host
        .next(start.before, Symbol::Terminal(start.hole))
    else {
        unreachable!()
    };
    let item = Item {
        production: start.production,
        dot: 1,
    };
    lifted(alloc, context, context.known.of(behind, item))
}
