//! A machine of places without steps that only hand on, and with one place for stars that are the whole of a star.
//!
//! A walk over pairs of places takes each step of the one with each of the other, so each step that is left out counts for many.

ghost use Rattle.std.specs.Prelude.{◌≡◌, ◌+◌, ◌<◌, ◌≤◌, [], IfOk, length};
ghost use Rattle.wb_automata_positions.specs.Places.{ArePlacesBelow, GoesBelow};
ghost use Rattle.wb_automata_positions.specs.Inner.Machines.{AreNextBelow};
ghost use Rattle.wb_automata_positions.specs.Inner.Shortcuts.{AreEntries, AreIdentity, AreMoved, AreRetargeted, IsMergedAt, IsPrepared, IsShorter, entry_at, retargeted};

use crate::places::Place;
use std::alloc::{AllocError, Global};
use wb_base::push;

// Takes shortcuts in a machine.
pub(crate) fn shorten(
    alloc: Global,
    places: &mut Vec<Place>,
    starts: &mut Vec<usize>,
) -> Result<(), AllocError>
    requires below { ArePlacesBelow places.old.items }
    requires starts { AreNextBelow (length places.old.items) starts.old.items }
    ensures { IfOk result (λ _. IsShorter places.old starts.old places.new starts.new) }
{
    skip(alloc, places, starts)?;
    merge(alloc, places, starts)
}

// Goes at once to where one comes by handing on.
fn skip(alloc: Global, places: &mut Vec<Place>, starts: &mut Vec<usize>) -> Result<(), AllocError>
    requires below { ArePlacesBelow places.old.items }
    requires starts { AreNextBelow (length places.old.items) starts.old.items }
    ensures shorter { IfOk result (λ _. IsShorter places.old starts.old places.new starts.new) }
    ensures below { IfOk result (λ _. ArePlacesBelow places.new.items) }
    ensures starts { IfOk result (λ _. AreNextBelow (length places.new.items) starts.new.items) }
{
    let entry = entries(alloc, places)?;
    retarget(places, &entry);
    move_starts(starts, &entry);
    Ok(())
}

// For each place the one to which it hands on, or itself.
fn entries(alloc: Global, places: &[Place]) -> Result<Vec<usize>, AllocError>
    ensures { IfOk result (λ entry. AreEntries places.now entry.items (length places.now)) }
{
    let mut entry = Vec::new(alloc);
    'places: for i in 0..places.len() {
        let at = entry_at(&entry, i, places[i]);
        push(&mut entry, at)?;
    }
    Ok(entry)
}

// The entry of a place that hands on to one before it, or itself.
fn entry_at(entry: &[usize], i: usize, place: Place) -> usize
    requires { length entry.now ≡ i }
    ensures { result ≡ entry_at entry.now i place }
{
    match place {
        Place::Read(_, _) => i,
        Place::Go(next) => { if next < i { entry[next] } else { i } }
        Place::Fork(_, _) => i,
        Place::End(_) => i,
    }
}

// Goes to entries.
fn retarget(places: &mut Vec<Place>, entry: &[usize])
    requires len { length entry.now ≡ length places.old.items }
    requires below { ArePlacesBelow places.old.items }
    ensures { AreRetargeted places.old.items entry.now places.new.items (length places.old.items) }
{
    'places: for i in 0..places.len() {
        let place = retargeted(places[i], entry);
        places[i] = place;
    }
}

fn retargeted(place: Place, entry: &[usize]) -> Place
    requires { GoesBelow (length entry.now) place }
    ensures { result ≡ retargeted entry.now place }
{
    match place {
        Place::Read(words, next) => Place::Read(words, entry[next]),
        Place::Go(next) => Place::Go(entry[next]),
        Place::Fork(next, other) => Place::Fork(entry[next], entry[other]),
        Place::End(number) => Place::End(number),
    }
}

// Starts at entries.
fn move_starts(starts: &mut Vec<usize>, entry: &[usize])
    requires { AreNextBelow (length entry.now) starts.old.items }
    ensures { AreMoved starts.old.items entry.now starts.new.items (length starts.old.items) }
{
    'starts: for k in 0..starts.len() {
        let start = entry[starts[k]];
        starts[k] = start;
    }
}

// Makes stars that are the whole of a star one with it.
fn merge(alloc: Global, places: &mut Vec<Place>, starts: &mut Vec<usize>) -> Result<(), AllocError>
    requires below { ArePlacesBelow places.old.items }
    requires starts { AreNextBelow (length places.old.items) starts.old.items }
    ensures { IfOk result (λ _. IsShorter places.old starts.old places.new starts.new) }
{
    let mut entry = identity(alloc, places.len())?;
    merge_all(places, &mut entry);
    retarget(places, &entry);
    move_starts(starts, &entry);
    Ok(())
}

// The numbers below the count.
fn identity(alloc: Global, count: usize) -> Result<Vec<usize>, AllocError>
    ensures { IfOk result (λ entry. AreIdentity entry.items count) }
{
    let mut entry = Vec::new(alloc);
    'places: for i in 0..count {
        push(&mut entry, i)?;
    }
    Ok(entry)
}

// The stars from the outermost to the innermost.
fn merge_all(places: &mut Vec<Place>, entry: &mut Vec<usize>)
    requires below { ArePlacesBelow places.old.items }
    requires identity { AreIdentity entry.old.items (length places.old.items) }
    ensures prepared { IsPrepared places.old.items places.new.items entry.new.items }
    ensures len { length entry.new.items ≡ length places.new.items }
    ensures below { ArePlacesBelow places.new.items }
{
    let mut i = places.len();
    'places: while i > 0 {
        i -= 1;
        merge_at(i, places, entry);
    }
}

// Makes the choice at a place one with the star to which it leads on, where it is all that the star leads to.
fn merge_at(i: usize, places: &mut Vec<Place>, entry: &mut Vec<usize>)
    requires within { i < length places.old.items }
    requires below { ArePlacesBelow places.old.items }
    requires entry { AreNextBelow (length places.old.items) entry.old.items }
    requires len { length entry.old.items ≡ length places.old.items }
    ensures { IsMergedAt i places.old.items entry.old.items places.new.items entry.new.items }
{
    let Place::Fork(part, next) = places[i] else {
        return;
    };
    if next <= i {
        return;
    }
    let star = entry[next];
    let Place::Fork(body, other) = places[star] else {
        return;
    };
    if body != i {
        return;
    }
    places[star] = Place::Fork(part, other);
    entry[i] = star;
}
