//! The host's sets at items to which moves lead back, as sets of the host with the extension. Each is made once.

ghost use Rattle.std.specs.Prelude.{◌≡◌, ◌<◌, [], ℕ, IfSome, OnOk, Some, length, slice_get};
ghost use Rattle.wb_determinism_lookaheads.specs.declared.lifts.Lift.{Lift};
ghost use Rattle.wb_items.specs.Lookaheads.{HasNumber, set_of};
ghost use Rattle.wb_determinism_lookaheads.specs.Inner.Spreading.{AreLifts, IsContext, IsLifted, own_of};

use crate::context::Context;
use crate::lifted::lifted;
use std::alloc::{AllocError, Global};
use wb_base::push;
use wb_items::Item;
use wb_termset::TermSet;

// The number of a set of the host, and the terminals that become its members.
#[derive(Drop)]
pub(crate) struct Lift {
    number: usize,
    set: TermSet,
}

// Such sets, and for each number of a set one more than its place among them, or 0.
#[derive(Drop)]
pub(crate) struct Lifts {
    list: Vec<Lift>,
    places: Vec<usize>,
}

// No sets.
pub(crate) fn no_lifts(alloc: Global) -> Lifts
    ensures { result.list.items ≡ [] }
{
    Lifts {
        list: Vec::new(alloc),
        places: Vec::new(alloc),
    }
}

// Adds those to which moves lead from new kernels.
pub(crate) fn add_lifts(
    alloc: Global,
    context: &Context,
    lifts: &mut Lifts,
) -> Result<(), AllocError>
    requires context { IsContext context.now }
    requires before { AreLifts context.now lifts.old.list.items }
    ensures { OnOk result (AreLifts context.now lifts.new.list.items) }
{
    'kernels: for place in 0..context.new.len() {
        add_for_kernel(alloc, context, place, lifts)?;
    }
    Ok(())
}

// Adds those to which moves lead from one.
fn add_for_kernel(
    alloc: Global,
    context: &Context,
    place: usize,
    lifts: &mut Lifts,
) -> Result<(), AllocError>
    requires context { IsContext context.now }
    requires place { place < length context.now.new.now.index.kernels }
    requires before { AreLifts context.now lifts.old.list.items }
    ensures { OnOk result (AreLifts context.now lifts.new.list.items) }
{
    let row = context.new.moves(place);
    'moves: for at in 0..row.len() {
        add_for_state(alloc, context, row[at].state, lifts)?;
    }
    Ok(())
}

// Adds those of the items of a kernel, if it is the host's.
fn add_for_state(
    alloc: Global,
    context: &Context,
    state: usize,
    lifts: &mut Lifts,
) -> Result<(), AllocError>
    requires context { IsContext context.now }
    requires before { AreLifts context.now lifts.old.list.items }
    ensures { OnOk result (AreLifts context.now lifts.new.list.items) }
{
    if state >= context.beside.host.count() {
        return Ok(());
    }
    let items = context.beside.host.kernel(state);
    'items: for at in 0..items.len() {
        add_for_item(alloc, context, state, items[at], lifts)?;
    }
    Ok(())
}

// Adds that of an item of a kernel of the host, unless it is there.
fn add_for_item(
    alloc: Global,
    context: &Context,
    state: usize,
    item: Item,
    lifts: &mut Lifts,
) -> Result<(), AllocError>
    requires context { IsContext context.now }
    requires state { state < own_of context.now }
    requires before { AreLifts context.now lifts.old.list.items }
    ensures { OnOk result (AreLifts context.now lifts.new.list.items) }
{
    let Some(number) = set_number(context, state, item) else {
        return Ok(());
    };
    if place_of_lift(lifts, number).is_some() {
        return Ok(());
    }
    make_room(&mut lifts.places, number)?;
    let set = lifted(alloc, context, context.known.set(number))?;
    let count = lifts.list.len();
    push(&mut lifts.list, Lift { number, set })?;
    put_place(&mut lifts.places, number, count);
    Ok(())
}

// The number of the host's set at an item of one of its kernels.
fn set_number(context: &Context, state: usize, item: Item) -> Option<usize>
    requires context { IsContext context.now }
    requires state { state < own_of context.now }
    ensures number { IfSome result (HasNumber context.now.known.now state item) }
    ensures below { IfSome result (λ n. n < length context.now.known.now.sets) }
{
    let Some(place) = context.known.find(state, item) else {
        return None;
    };
    Some(context.known.number_at(state, place))
}

// Makes room for the place of a number.
fn make_room(places: &mut Vec<usize>, number: usize) -> Result<(), AllocError> {
    'places: for _place in places.len()..number {
        push(places, 0)?;
    }
    push(places, 0)
}

// Puts a place for a number.
fn put_place(places: &mut Vec<usize>, number: usize, place: usize) {
    if number < places.len() && place < usize::MAX {
        places[number] = place + 1;
    }
}

// Where the set of a number is.
fn place_of_lift(lifts: &Lifts, number: usize) -> Option<usize>
    ensures { IfSome result (λ place. (lift : Lift) × (slice_get lifts.now.list.items place ≡ Some lift) × (lift.number ≡ number)) }
{
    if number >= lifts.places.len() {
        return None;
    }
    let place = lifts.places[number];
    if place == 0 || place > lifts.list.len() {
        return None;
    }
    if lifts.list[place - 1].number == number {
        Some(place - 1)
    } else {
        None
    }
}

// The terminals that become those of the host's set at an item of one of its kernels.
pub(crate) fn lift_of<'a>(
    context: &Context,
    lifts: &'a Lifts,
    state: usize,
    item: Item,
) -> Option<&'a TermSet>
    requires context { IsContext context.now }
    requires state { state < own_of context.now }
    requires lifts { AreLifts context.now lifts.now.list.items }
    ensures { IfSome result (λ lifted. (n : ℕ) × HasNumber context.now.known.now state item n × IsLifted context.now (set_of context.now.known.now n) lifted.now) }
{
    let Some(number) = set_number(context, state, item) else {
        return None;
    };
    let Some(place) = place_of_lift(lifts, number) else {
        return None;
    };
    Some(&lifts.list[place].set)
}
