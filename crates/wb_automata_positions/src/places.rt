//! Several expressions as one machine of places: Thompson's construction, as a list.
//!
//! It is linear in the expressions: a place goes on at two others at most.

ghost use Rattle.std.specs.Prelude.{◌≡◌, ◌+◌, ◌^◌, ◌<◌, ◌≤◌, IfOk, length, replicate};
ghost use Rattle.wb_automata_positions.specs.Inner.Parts.{PartsBelow};
ghost use Rattle.wb_automata_positions.specs.Places.{ArePlaces};
ghost use Rattle.wb_automata_positions.specs.NodePlaces.{again_place, first_place};
ghost use Rattle.wb_automata_positions.specs.Inner.Machines.{AreContinued, AreEndsSet, AreListed, HaveOneParent, IsMachine, IsPlaceAt, IsWayOn, linked};

use crate::concatenated::concatenate;
use crate::shortcuts::shorten;
use std::alloc::{AllocError, Global};
use wb_base::push;
use wb_regex::{Regex, RegexNode};

/// What is at a place.
#[derive(Clone, Copy)]
pub enum Place {
    /// Reads a byte of the set, as a node has it, and goes on at the place.
    Read([u64; 4], usize),
    /// Goes on at the place.
    Go(usize),
    /// Goes on at either place.
    Fork(usize, usize),
    /// The end of the expression with this number.
    End(usize),
}

/// The places of several expressions, where each expression starts, and the place where the first one ends. The ends of the others come
/// after it, in their order.
pub struct Places {
    pub places: Vec<Place>,
    pub starts: Vec<usize>,
    pub first_end: usize,
}

impl Drop for Places {
    fn drop(self) {
        let Places {
            places,
            starts,
            first_end: _,
        } = self;
        drop(places);
        drop(starts);
    }
}

/// The places of these expressions.
///
/// With n nodes, place i is that of node i, place n + i is where the part of node i goes on if it is a plus, and place 2n + k is the end
/// of expression k. Nothing leads to a place that only hands on, nor to a star that is the whole of another.
pub fn places_of(alloc: Global, terminals: &[Regex]) -> Result<Places, AllocError>
    ensures { IfOk result (ArePlaces terminals.now) }
{
    let all = concatenate(alloc, terminals)?;
    let mut places = all_places(alloc, all.nodes.as_slice(), all.roots.as_slice())?;
    let size = all.nodes.len();
    let mut starts = all.roots;
    shorten(alloc, &mut places, &mut starts)?;
    Ok(Places {
        places,
        starts,
        first_end: size + size,
    })
}

// The list of the places.
fn all_places(alloc: Global, nodes: &[RegexNode], roots: &[usize]) -> Result<Vec<Place>, AllocError>
    requires { HaveOneParent nodes.now roots.now }
    ensures { IfOk result (λ places. IsMachine nodes.now roots.now places.items) }
{
    let count = count_of(nodes.len(), roots.len())?;
    let next = continuations(alloc, nodes, roots, count)?;
    list_places(alloc, nodes, &next, count)
}

// The place at which each node goes on, where all places have numbers.
pub(crate) fn next_of(
    alloc: Global,
    nodes: &[RegexNode],
    roots: &[usize],
) -> Result<Vec<usize>, AllocError>
    requires { HaveOneParent nodes.now roots.now }
    ensures { IfOk result (λ next. IsWayOn nodes.now roots.now next.items) }
{
    let count = count_of(nodes.len(), roots.len())?;
    continuations(alloc, nodes, roots, count)
}

// How many places there are for nodes and roots.
fn count_of(nodes: usize, roots: usize) -> Result<usize, AllocError>
    ensures { IfOk result (λ count. count ≡ nodes + nodes + roots) }
{
    // So many places don't fit into memory.
    let Some(twice) = nodes.checked_add(nodes) else {
        return Err(AllocError);
    };
    let Some(count) = twice.checked_add(roots) else {
        return Err(AllocError);
    };
    Ok(count)
}

// The place at which each node goes on.
fn continuations(
    alloc: Global,
    nodes: &[RegexNode],
    roots: &[usize],
    count: usize,
) -> Result<Vec<usize>, AllocError>
    requires parents { HaveOneParent nodes.now roots.now }
    requires count { count ≡ length nodes.now + length nodes.now + length roots.now }
    ensures { IfOk result (λ next. AreContinued nodes.now roots.now next.items count 0) }
{
    let mut next = blank(alloc, nodes.len())?;
    set_ends(nodes, roots, count, &mut next);
    set_parts(nodes, roots, count, &mut next);
    Ok(next)
}

fn blank(alloc: Global, count: usize) -> Result<Vec<usize>, AllocError>
    ensures { IfOk result (λ next. next.items ≡ replicate count 0) }
{
    vec![in alloc; 0; count]
}

// The roots go on at the ends.
fn set_ends(nodes: &[RegexNode], roots: &[usize], count: usize, next: &mut Vec<usize>)
    requires parents { HaveOneParent nodes.now roots.now }
    requires count { count ≡ length nodes.now + length nodes.now + length roots.now }
    requires blank { next.old.items ≡ replicate (length nodes.now) 0 }
    ensures { AreEndsSet (length nodes.now) roots.now next.new.items count (length roots.now) }
{
    let first = nodes.len() + nodes.len();
    'roots: for number in 0..roots.len() {
        next[roots[number]] = first + number;
    }
}

// And parts where the nodes that they are parts of say, from the last node down.
fn set_parts(nodes: &[RegexNode], roots: &[usize], count: usize, next: &mut Vec<usize>)
    requires parents { HaveOneParent nodes.now roots.now }
    requires count { count ≡ length nodes.now + length nodes.now + length roots.now }
    requires ends { AreEndsSet (length nodes.now) roots.now next.old.items count (length roots.now) }
    ensures { AreContinued nodes.now roots.now next.new.items count 0 }
{
    let mut place = nodes.len();
    'nodes: while place > 0 {
        place -= 1;
        set_next(nodes.len(), place, nodes[place], next);
    }
}

// Where the parts of a node go on.
fn set_next(size: usize, place: usize, node: RegexNode, next: &mut Vec<usize>)
    requires size { size ≡ length next.old.items }
    requires fits { size + size < 2 ^ 64 }
    requires place { place < size }
    requires parts { PartsBelow size node }
    ensures { next.new.items ≡ linked size place node next.old.items }
{
    let after = next[place];
    match node {
        RegexNode::Set(_) => {}
        RegexNode::Sequence(i, j) => {
            next[i] = j;
            next[j] = after;
        }
        RegexNode::Choice(i, j) => {
            next[i] = after;
            next[j] = after;
        }
        RegexNode::Star(i) => next[i] = place,
        RegexNode::Plus(i) => next[i] = size + place,
        RegexNode::Maybe(i) => next[i] = after,
    }
}

// So many places of these nodes.
fn list_places(
    alloc: Global,
    nodes: &[RegexNode],
    next: &[usize],
    count: usize,
) -> Result<Vec<Place>, AllocError>
    requires len { length next.now ≡ length nodes.now }
    requires fits { length nodes.now + length nodes.now < 2 ^ 64 }
    ensures { IfOk result (λ places. AreListed nodes.now next.now places.items count) }
{
    let mut places = Vec::new(alloc);
    'places: for i in 0..count {
        push(&mut places, place_at(nodes, next, i))?;
    }
    Ok(places)
}

// What is at a place.
pub(crate) fn place_at(nodes: &[RegexNode], next: &[usize], i: usize) -> Place
    requires len { length next.now ≡ length nodes.now }
    requires fits { length nodes.now + length nodes.now < 2 ^ 64 }
    ensures { IsPlaceAt nodes.now next.now i result }
{
    let size = nodes.len();
    if i < size {
        return first_place(nodes[i], next[i]);
    }
    let rest = i - size;
    if rest < size {
        return again_place(nodes[rest], next[rest]);
    }
    Place::End(rest - size)
}

// What is at the place of a node.
fn first_place(node: RegexNode, next: usize) -> Place
    ensures { result ≡ first_place node next }
{
    match node {
        RegexNode::Set(words) => Place::Read(words, next),
        RegexNode::Sequence(i, _) => Place::Go(i),
        RegexNode::Choice(i, j) => Place::Fork(i, j),
        RegexNode::Star(i) => Place::Fork(i, next),
        RegexNode::Plus(i) => Place::Go(i),
        RegexNode::Maybe(i) => Place::Fork(i, next),
    }
}

// Where the part of a plus goes on; no other place goes on there.
fn again_place(node: RegexNode, next: usize) -> Place
    ensures { result ≡ again_place node next }
{
    match node {
        RegexNode::Set(_) => Place::Go(next),
        RegexNode::Sequence(_, _) => Place::Go(next),
        RegexNode::Choice(_, _) => Place::Go(next),
        RegexNode::Star(_) => Place::Go(next),
        RegexNode::Plus(i) => Place::Fork(i, next),
        RegexNode::Maybe(_) => Place::Go(next),
    }
}
