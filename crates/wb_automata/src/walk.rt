//! By which texts are the ends of two expressions met at once, from one of many pairs of starts?
//!
//! It is a walk over pairs of places, breadth first by bytes in their order (`groups`), so that an end is met by the least text first.

ghost use Rattle.std.specs.Prelude.{◌≡◌, ◌+◌, ◌<◌, ◌↔◌, [], ℕ, IfOk, IfSome, IsNone, Some, false, length};
ghost use Rattle.wb_automata_positions.specs.declared.places.Place.TheVariants.{End};
ghost use Rattle.wb_automata_positions.specs.Places.{ReadsTo};
ghost use Rattle.wb_automata_positions.specs.Rows.{row};
ghost use Rattle.wb_automata.specs.Inner.Pairs.{Adds, Any, AreAllMet, AreEnds, AreMet, ArePairs, AreSmall, HasCommonBytes, HasEnds, IsAfter, IsCommon, IsPassed, IsWalked, is_stuck, left_of, met_of};
ghost use Rattle.wb_automata.specs.Inner.Endings.{IsEnding, KeepRows};

use crate::bytes::{add_common, has_byte};
use crate::groups::{Groups, add_group, meet, no_groups};
use crate::met::Met;
use crate::predecessor::Predecessor;
use crate::shared::SharedText;
use crate::stuck::is_stuck;
use crate::text::text_at;
use std::alloc::{AllocError, Global};
use wb_automata_positions::{Leaves, Place};

// Places, and the pairs of them from where the walk begins.
#[derive(Clone, Copy)]
pub(crate) struct Seeds<'a> {
    pub(crate) places: &'a [Place],
    pub(crate) pairs: &'a [usize],
}

// A group, and the two expressions of which it has the ends.
#[derive(Clone, Copy)]
pub(crate) struct Ending {
    group: usize,
    left: usize,
    right: usize,
}

// The least text that leads from one of the pairs to the ends of two expressions.
pub(crate) fn least_common(alloc: Global, seeds: &Seeds) -> Result<Option<SharedText>, AllocError>
    requires small { AreSmall seeds.now.places.now }
    requires pairs { ArePairs seeds.now.places.now seeds.now.pairs.now }
    ensures { IfOk result (IsCommon seeds.now.places.now seeds.now.pairs.now) }
{
    let mut groups = start(alloc, seeds)?;
    match first_ending(seeds, &mut groups)? {
        None => Ok(None),
        Some(ending) => Ok(Some(SharedText {
            left: ending.left,
            right: ending.right,
            text: text_at(alloc, &groups.predecessors, ending.group)?,
        })),
    }
}

// All pairs that texts lead to.
pub(crate) fn all_met(alloc: Global, seeds: &Seeds) -> Result<Met, AllocError>
    requires small { AreSmall seeds.now.places.now }
    requires pairs { ArePairs seeds.now.places.now seeds.now.pairs.now }
    ensures { IfOk result (AreAllMet seeds.now.places.now seeds.now.pairs.now) }
{
    let mut groups = start(alloc, seeds)?;
    walk(seeds, &mut groups)?;
    Ok(groups.met)
}

// The group of the starts.
fn start(alloc: Global, seeds: &Seeds) -> Result<Groups, AllocError>
    requires small { AreSmall seeds.now.places.now }
    requires pairs { ArePairs seeds.now.places.now seeds.now.pairs.now }
    ensures { IfOk result (λ groups. IsWalked seeds.now.places.now seeds.now.pairs.now (met_of groups) 0) }
{
    let mut groups = no_groups(alloc);
    add_starts(seeds, &mut groups)?;
    Ok(groups)
}

// Puts the pairs of starts into a first group.
fn add_starts(seeds: &Seeds, groups: &mut Groups) -> Result<(), AllocError>
    requires small { AreSmall seeds.now.places.now }
    requires seeds { ArePairs seeds.now.places.now seeds.now.pairs.now }
    requires met { groups.old.met ≡ [] }
    requires pairs { groups.old.pairs ≡ [] }
    requires predecessors { groups.old.predecessors.items ≡ [] }
    ensures { IfOk result (λ _. IsWalked seeds.now.places.now seeds.now.pairs.now (met_of groups.new) 0) }
{
    let next = met_starts(groups.alloc, seeds.pairs, &mut groups.met)?;
    let predecessor = Predecessor {
        set: 0,
        from: 0,
        byte: 0,
    };
    add_group(seeds.places, next, predecessor, groups)
}

// The pairs that were not met before.
fn met_starts(alloc: Global, pairs: &[usize], met: &mut Met) -> Result<Leaves, AllocError>
    ensures { IfOk result (λ next. Adds (Any pairs.now (λ c d. d ≡ c)) met.old [] met.new next) }
{
    let mut next = Leaves::new(alloc);
    for pair in pairs {
        meet(*pair, met, &mut next)?;
    }
    Ok(next)
}

// The first group with the ends of two expressions.
fn first_ending(seeds: &Seeds, groups: &mut Groups) -> Result<Option<Ending>, AllocError>
    requires { IsWalked seeds.now.places.now seeds.now.pairs.now (met_of groups.old) 0 }
    ensures { IfOk result (IsEnding seeds.now.places.now seeds.now.pairs.now (met_of groups.new)) }
{
    let mut group = 0;
    'groups: while group < groups.predecessors.len() {
        if let Some((left, right)) = ends_in(seeds.places, groups.pairs.row(group)) {
            return Ok(Some(Ending { group, left, right }));
        }
        go_on(seeds, group, groups)?;
        group += 1;
    }
    Ok(None)
}

// Goes on from all groups.
fn walk(seeds: &Seeds, groups: &mut Groups) -> Result<(), AllocError>
    requires { IsWalked seeds.now.places.now seeds.now.pairs.now (met_of groups.old) 0 }
    ensures { IfOk result (λ _. AreAllMet seeds.now.places.now seeds.now.pairs.now groups.new.met) }
{
    let mut group = 0;
    'groups: while group < groups.predecessors.len() {
        go_on(seeds, group, groups)?;
        group += 1;
    }
    Ok(())
}

// Two expressions of which some pair has the ends.
fn ends_in(places: &[Place], pairs: &[usize]) -> Option<(usize, usize)>
    requires { ArePairs places.now pairs.now }
    ensures some { IfSome result (λ ends. HasEnds places.now pairs.now ends.0 ends.1) }
    ensures none { IsNone result → (i j : ℕ) → ¬ HasEnds places.now pairs.now i j }
{
    for pair in pairs {
        let ends = ends_of(places, *pair);
        if ends.is_some() {
            return ends;
        }
    }
    None
}

// The two expressions of which the pair has the ends.
fn ends_of(places: &[Place], pair: usize) -> Option<(usize, usize)>
    requires { left_of places.now pair < length places.now }
    ensures { (i j : ℕ) → AreEnds places.now pair i j ↔ (result ≡ Some (i, j)) }
{
    let count = places.len();
    both(end_of(places[pair / count]), end_of(places[pair % count]))
}

fn both(left: Option<usize>, right: Option<usize>) -> Option<(usize, usize)>
    ensures { (i j : ℕ) → ((left ≡ Some i) × (right ≡ Some j)) ↔ (result ≡ Some (i, j)) }
{
    match left {
        None => None,
        Some(i) => match right {
            None => None,
            Some(j) => Some((i, j)),
        },
    }
}

// The expression of which the place is the end.
fn end_of(place: Place) -> Option<usize>
    ensures { (k : ℕ) → (place ≡ End k) ↔ (result ≡ Some k) }
{
    match place {
        Place::Read(_, _) => None,
        Place::Go(_) => None,
        Place::Fork(_, _) => None,
        Place::End(number) => Some(number),
    }
}

// The groups that are met from one of them by each byte.
fn go_on(seeds: &Seeds, group: usize, groups: &mut Groups) -> Result<(), AllocError>
    requires group { group < length groups.old.pairs }
    requires before { IsWalked seeds.now.places.now seeds.now.pairs.now (met_of groups.old) group }
    ensures walked { IfOk result (λ _. IsWalked seeds.now.places.now seeds.now.pairs.now (met_of groups.new) (group + 1)) }
    ensures kept { IfOk result (λ _. KeepRows groups.old.pairs groups.new.pairs) }
{
    let mut words = [0u64; 4];
    add_common(seeds.places, groups.pairs.row(group), &mut words);
    for byte in 0..256usize {
        pass(seeds, &words, byte, group, groups)?;
    }
    Ok(())
}

// The group that is met from one of them by the byte, if it is one of these and there is one.
fn pass(
    seeds: &Seeds,
    words: &[u64; 4],
    byte: usize,
    group: usize,
    groups: &mut Groups,
) -> Result<(), AllocError>
    requires met { AreMet seeds.now.places.now seeds.now.pairs.now (met_of groups.old) }
    requires group { group < length groups.old.pairs }
    requires byte { byte < 256 }
    requires words { HasCommonBytes seeds.now.places.now (row groups.old.pairs group) words.now }
    ensures { IfOk result (λ _. IsPassed seeds.now.places.now group byte (met_of groups.old) (met_of groups.new)) }
{
    if !has_byte(words, byte) {
        return Ok(());
    }
    go_on_by(seeds, byte as u8, group, groups)
}

// The group that is met from one of them by the byte, if there is one.
fn go_on_by(seeds: &Seeds, byte: u8, group: usize, groups: &mut Groups) -> Result<(), AllocError>
    requires met { AreMet seeds.now.places.now seeds.now.pairs.now (met_of groups.old) }
    requires group { group < length groups.old.pairs }
    ensures { IfOk result (λ _. IsPassed seeds.now.places.now group byte (met_of groups.old) (met_of groups.new)) }
{
    let next = next_group(seeds, byte, group, groups)?;
    if next.is_empty() {
        return Ok(());
    }
    let predecessor = Predecessor {
        set: 0,
        from: group,
        byte,
    };
    add_group(seeds.places, next, predecessor, groups)
}

// The pairs after those of a group that were not met before.
fn next_group(
    seeds: &Seeds,
    byte: u8,
    group: usize,
    groups: &mut Groups,
) -> Result<Leaves, AllocError>
    requires met { AreMet seeds.now.places.now seeds.now.pairs.now (met_of groups.old) }
    requires group { group < length groups.old.pairs }
    ensures pairs { groups.new.pairs ≡ groups.old.pairs }
    ensures predecessors { groups.new.predecessors.items ≡ groups.old.predecessors.items }
    ensures adds { IfOk result (λ next. Adds (Any (row groups.old.pairs group) (IsAfter seeds.now.places.now byte)) groups.old.met [] groups.new.met next) }
{
    let mut next = Leaves::new(groups.alloc);
    let pairs = groups.pairs.row(group);
    meet_after(seeds.places, byte, pairs, &mut groups.met, &mut next)?;
    Ok(next)
}

// Meets the pairs after these.
fn meet_after(
    places: &[Place],
    byte: u8,
    pairs: &[usize],
    met: &mut Met,
    next: &mut Leaves,
) -> Result<(), AllocError>
    requires small { AreSmall places.now }
    requires pairs { ArePairs places.now pairs.now }
    ensures { IfOk result (λ _. Adds (Any pairs.now (IsAfter places.now byte)) met.old next.old met.new next.new) }
{
    for pair in pairs {
        meet_next(places, byte, *pair, met, next)?;
    }
    Ok(())
}

// Meets the pair after one.
fn meet_next(
    places: &[Place],
    byte: u8,
    pair: usize,
    met: &mut Met,
    next: &mut Leaves,
) -> Result<(), AllocError>
    requires small { AreSmall places.now }
    requires pair { left_of places.now pair < length places.now }
    ensures { IfOk result (λ _. Adds (IsAfter places.now byte pair) met.old next.old met.new next.new) }
{
    let count = places.len();
    let left = target(places[pair / count], byte);
    let right = target(places[pair % count], byte);
    match both(left, right) {
        None => Ok(()),
        Some((q, r)) => meet_open(places, q * count + r, met, next),
    }
}

// Meets a pair, unless it is stuck.
fn meet_open(
    places: &[Place],
    pair: usize,
    met: &mut Met,
    next: &mut Leaves,
) -> Result<(), AllocError>
    requires { left_of places.now pair < length places.now }
    ensures { IfOk result (λ _. Adds (λ d. (d ≡ pair) × (is_stuck places.now d ≡ false)) met.old next.old met.new next.new) }
{
    if is_stuck(places, pair) {
        return Ok(());
    }
    meet(pair, met, next)
}

// Where a place goes on by the byte, if it reads it.
fn target(place: Place, byte: u8) -> Option<usize>
    ensures { (q : ℕ) → ReadsTo place byte q ↔ (result ≡ Some q) }
{
    match place {
        Place::Read(words, next) => {
            if has_byte(&words, usize::from(byte)) {
                Some(next)
            } else {
                None
            }
        }
        Place::Go(_) => None,
        Place::Fork(_, _) => None,
        Place::End(_) => None,
    }
}
