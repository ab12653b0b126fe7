//! Fills the sets: what markers bring is passed on until nothing grows. It is kept that members are lookaheads; what is missing is tested later.

ghost use Rattle.std.specs.Prelude.{◌≡◌, ◌<◌, OnOk, IfOk, IfSome, [], slice_index_or, length};
ghost use Rattle.wb_determinism_lookaheads.specs.Inner.Spreading.{AreTrue, AreTrueFor, IsContext, IsSlot};

use crate::brought::begin;
use crate::context::Context;
use crate::marks::take_mark;
use crate::pass::pass_slot;
use crate::row::Row;
use crate::slots::{slot, slot_count};
use std::alloc::{AllocError, Global};
use wb_termset::TermSet;

// Spreads what markers bring.
pub(crate) fn spread(
    alloc: Global,
    context: &Context,
    sets: &mut Vec<Row>,
) -> Result<(), AllocError>
    requires context { IsContext context.now }
    requires sound { AreTrue context.now sets.old.items }
    ensures { OnOk result (AreTrue context.now sets.new.items) }
{
    let mut marks = vec![in alloc; false; context.new.len()]?;
    begin(alloc, context, sets, &mut marks)?;
    'rounds: for _round in 0..usize::MAX {
        if !pass_marked(context, sets, &mut marks)? {
            return Ok(());
        }
    }
    Ok(())
}

// Passes on the sets of each marked kernel, and answers whether there was one.
fn pass_marked(
    context: &Context,
    sets: &mut Vec<Row>,
    marks: &mut Vec<bool>,
) -> Result<bool, AllocError>
    requires context { IsContext context.now }
    requires sound { AreTrue context.now sets.old.items }
    ensures { OnOk result (AreTrue context.now sets.new.items) }
{
    let mut any = false;
    'kernels: for place in 0..marks.len() {
        if pass_kernel(context, place, sets, marks)? {
            any = true;
        }
    }
    Ok(any)
}

// Passes on the sets of a kernel while it is marked, and answers whether it was.
fn pass_kernel(
    context: &Context,
    place: usize,
    sets: &mut Vec<Row>,
    marks: &mut Vec<bool>,
) -> Result<bool, AllocError>
    requires context { IsContext context.now }
    requires sound { AreTrue context.now sets.old.items }
    ensures { OnOk result (AreTrue context.now sets.new.items) }
{
    let mut any = false;
    'sweeps: for _sweep in 0..usize::MAX {
        if !take_mark(marks, place) {
            return Ok(any);
        }
        pass_slots(context, place, sets, marks)?;
        any = true;
    }
    Ok(any)
}

// Passes on each set of a kernel once.
fn pass_slots(
    context: &Context,
    place: usize,
    sets: &mut Vec<Row>,
    marks: &mut Vec<bool>,
) -> Result<(), AllocError>
    requires context { IsContext context.now }
    requires sound { AreTrue context.now sets.old.items }
    ensures { OnOk result (AreTrue context.now sets.new.items) }
{
    'slots: for at in 0..slot_count(context, place) {
        pass_slot(context, place, at, sets, marks)?;
    }
    Ok(())
}
