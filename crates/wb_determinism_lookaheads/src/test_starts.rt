//! Is what markers bring in the sets at the kernels after them?

ghost use Rattle.std.specs.Prelude.{◌≡◌, ◌<◌, ℕ, Contains, IfOk, IsTrue, length};
ghost use Rattle.wb_termset.specs.Sets.{IsMember};
ghost use Rattle.wb_grammar_theory.specs.declared.item.Item.{Item};
ghost use Rattle.wb_determinism_kernels.specs.declared.starts.Start.{Start};
ghost use Rattle.wb_determinism_lookaheads.specs.Inner.Spreading.{IsContext, IsStarted, both_of, with_sets};
ghost use Rattle.wb_determinism_lookaheads.specs.NewLookaheads.{Lists};

use crate::brought::brought;
use crate::context::Context;
use crate::pass::new_place;
use crate::row::Row;
use crate::test::is_listed;
use std::alloc::{AllocError, Global};
use wb_determinism_kernels::Start;
use wb_items::Item;
use wb_termset::TermSet;

// Whether it is, for each start.
pub(crate) fn are_started(
    alloc: Global,
    context: &Context,
    sets: &[Row],
) -> Result<bool, AllocError>
    requires { IsContext context.now }
    ensures { IfOk result (λ answer. IsTrue answer → (start : Start) → Contains context.now.new.now.starts start → IsStarted context.now sets.now start) }
{
    let starts = context.new.starts();
    'starts: for place in 0..starts.len() {
        if !is_started(alloc, context, starts[place], sets)? {
            return Ok(false);
        }
    }
    Ok(true)
}

// Whether it is, for one.
fn is_started(
    alloc: Global,
    context: &Context,
    start: Start,
    sets: &[Row],
) -> Result<bool, AllocError>
    requires context { IsContext context.now }
    requires start { Contains context.now.new.now.starts start }
    ensures { IfOk result (λ answer. IsTrue answer → IsStarted context.now sets.now start) }
{
    let Some(place) = new_place(context, start.number) else {
        return Ok(false);
    };
    if place >= context.new.len() {
        return Ok(false);
    }
    let set = brought(alloc, context, start)?;
    let answer = are_listed(context, place, context.new.kernel(place), &set, sets);
    drop(set);
    Ok(answer)
}

// Whether the members are listed at each of the items.
fn are_listed(context: &Context, place: usize, items: &[Item], set: &TermSet, sets: &[Row]) -> bool
    ensures { IsTrue result → (item : Item) (t : ℕ) → Contains items.now item → IsMember set.now t → Lists (both_of context.now) (with_sets context.now sets.now) place item t }
{
    'items: for &item in items {
        if !is_listed(context, place, item, set, sets) {
            return false;
        }
    }
    true
}
