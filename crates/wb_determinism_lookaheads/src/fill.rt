//! Fills the sets of new kernels, and tests whether they have all lookaheads.

ghost use Rattle.std.specs.Prelude.{◌≡◌, ◌+◌, [], ℕ, Bool, IfOk, IsTrue, List, OnOk, Some, length, slice_get, slice_index_or};
ghost use Rattle.wb_grammar.specs.Facts.{AreFacts};
ghost use Rattle.wb_termset.specs.Sets.{IsMember};
ghost use Rattle.wb_items.specs.LookaheadSets.{AreLookaheads};
ghost use Rattle.wb_items.specs.Table.{AreProductions};
ghost use Rattle.wb_determinism_kernels.specs.Given.{IsGiven};
ghost use Rattle.wb_determinism_kernels.specs.NewKernels.{AreNewKernels};
ghost use Rattle.wb_determinism_kernels.specs.Numbers.{phi_by, up_by};
ghost use Rattle.wb_determinism_lookaheads.specs.Inner.Spreading.{AreTrue, IsContext, with_sets};
ghost use Rattle.wb_determinism_lookaheads.specs.NewLookaheads.{AreHolesAlone, AreNewLookaheads};

use crate::context::Context;
use crate::rests::rests_of;
use crate::row::Row;
use crate::slots::slot_count;
use crate::spread::spread;
use crate::test::is_all_passed;
use std::alloc::{AllocError, Global};
use wb_base::{Sequence, push};
use wb_determinism_kernels::{Beside, NewKernels};
use wb_grammar::Facts;
use wb_items::{Item, Lookaheads, Numbers};

// Fills the sets, and answers whether they have passed the test.
pub(crate) fn fill(
    alloc: Global,
    beside: &Beside,
    facts: &Facts,
    rules: &[Numbers],
    known: &Lookaheads,
    new: &NewKernels,
    slots: &[Sequence<Item>],
    sets: &mut Vec<Row>,
) -> Result<bool, AllocError>
    requires given { IsGiven beside.now.host.now beside.now.grammar.now beside.now.numbers.now beside.now.images.now }
    requires facts { AreFacts beside.now.grammar.now facts.now }
    requires rules { AreProductions beside.now.grammar.now rules.now }
    requires known { AreLookaheads beside.now.host.now known.now }
    requires alone { AreHolesAlone beside.now.host.now.grammar (up_by beside.now.numbers.now) (phi_by beside.now.numbers.now beside.now.images.now) }
    requires new { AreNewKernels beside.now.host.now beside.now.grammar.now beside.now.numbers.now beside.now.images.now new.now }
    requires slots { length slots.now ≡ length new.now.index.kernels }
    requires none { sets.old.items ≡ [] }
    ensures { IfOk result (λ answer. IsTrue answer → AreNewLookaheads beside.now.host.now beside.now.grammar.now beside.now.numbers.now beside.now.images.now new.now (record { slots = slots.now; sets = sets.new.items })) }
{
    let rests = rests_of(alloc, beside.grammar, facts)?;
    let context = Context {
        beside,
        rules,
        rests: &rests,
        known,
        new,
        slots,
    };
    let answer = fill_by(alloc, &context, sets);
    drop(rests);
    answer
}

// Like `fill`, with what stays.
fn fill_by(alloc: Global, context: &Context, sets: &mut Vec<Row>) -> Result<bool, AllocError>
    requires context { IsContext context.now }
    requires slots { length context.now.slots.now ≡ length context.now.new.now.index.kernels }
    requires none { sets.old.items ≡ [] }
    ensures { IfOk result (λ answer. IsTrue answer → AreNewLookaheads context.now.beside.now.host.now context.now.beside.now.grammar.now context.now.beside.now.numbers.now context.now.beside.now.images.now context.now.new.now (with_sets context.now sets.new.items)) }
{
    let width = context.beside.grammar.lookahead_count()?;
    add_empty(alloc, context, width, sets)?;
    spread(alloc, context, sets)?;
    if !are_wide(sets, width) {
        return Ok(false);
    }
    is_all_passed(alloc, context, sets)
}

// Adds an empty set for each item that has one.
fn add_empty(
    alloc: Global,
    context: &Context,
    width: usize,
    sets: &mut Vec<Row>,
) -> Result<(), AllocError>
    requires { sets.old.items ≡ [] }
    ensures { OnOk result ((i j t : ℕ) → ¬ IsMember (slice_index_or (slice_index_or sets.new.items i []) j []) t) }
{
    'kernels: for place in 0..context.slots.len() {
        push(sets, Row::new(alloc, slot_count(context, place), width)?)?;
    }
    Ok(())
}

// Whether each set is of numbers below the width.
fn are_wide(sets: &[Row], width: usize) -> bool
    ensures { IsTrue result → (i j : ℕ) (set : List Bool) → slice_get (slice_index_or sets.now i []) j ≡ Some set → length set ≡ width }
{
    'rows: for place in 0..sets.len() {
        if !sets[place].is_wide(width) {
            return false;
        }
    }
    true
}
