//! To which leaves and ends does one come from some leaves and starts without reading?
//!
//! A walk goes over the places, each once. Hints say where in the walk a place was met: they make it fast and prove nothing, so they are
//! never cleared.

ghost use Rattle.std.specs.Prelude.{◌≡◌, ◌+◌, ◌^◌, ◌<◌, ◌↔◌, ℕ, All, Contains, IfOk, IsTrue, length, replicate};
ghost use Rattle.wb_automata_positions.specs.Inner.Closures.{Adds, Closes, IsEntry, IsSet};
ghost use Rattle.wb_automata_positions.specs.NodePlaces.{place_of};
ghost use Rattle.wb_automata_positions.specs.Places.{GoesOn};
ghost use Rattle.wb_automata_positions.specs.Rising.{AreRising};
ghost use Rattle.wb_automata_positions.specs.Transitions.{Ahead, EndsAfter, IsLeaf, IsPlaceList, IsReached, IsTable, count_of, entry_of};

use crate::places::{Place, place_at};
use crate::rows::Leaves;
use crate::tables::Tables;
use std::alloc::{AllocError, Global};
use wb_regex::RegexNode;

// From this number on nothing is noted.
const LIMIT: usize = 4294967295;

/// What comes after some leaves and starts: the leaves that may be read next, and the expressions that may end, both in order.
///
/// Its lists are used again from set to set.
pub struct Following {
    hints: Vec<u32>,
    met: Leaves,
    pub ahead: Leaves,
    pub ends: Leaves,
}

impl Following {
    /// Room for what comes after sets of these tables.
    pub fn new(alloc: Global, tables: &Tables) -> Result<Following, AllocError> {
        Ok(Following {
            hints: hints_of(alloc, tables)?,
            met: Leaves::new(alloc),
            ahead: Leaves::new(alloc),
            ends: Leaves::new(alloc),
        })
    }

    /// Finds what comes after these leaves and starts.
    pub fn find(&mut self, tables: &Tables, set: &[usize]) -> Result<(), AllocError>
        requires table { IsTable tables.now }
        requires set { All (λ p. p < count_of tables.now) set.now }
        ensures ahead { IfOk result (λ _. (q : ℕ) → Contains self.new.ahead q ↔ Ahead tables.now set.now q) }
        ensures places { IfOk result (λ _. IsPlaceList (length tables.now.nodes.items) self.new.ahead) }
        ensures ends { IfOk result (λ _. (k : ℕ) → Contains self.new.ends k ↔ EndsAfter tables.now set.now k) }
        ensures rising { IfOk result (λ _. AreRising self.new.ends) }
    {
        closure(tables, set, &mut self.hints, &mut self.met)?;
        leaves_among(
            tables.nodes.as_slice(),
            self.met.as_slice(),
            &mut self.ahead,
        )?;
        ends_among(tables.nodes.len(), self.met.as_slice(), &mut self.ends)?;
        Ok(())
    }
}

impl Drop for Following {
    fn drop(self) {
        let Following {
            hints,
            met: _,
            ahead: _,
            ends: _,
        } = self;
        drop(hints);
    }
}

// Hints for the places of the tables.
fn hints_of(alloc: Global, tables: &Tables) -> Result<Vec<u32>, AllocError> {
    let nodes = tables.nodes.len();
    match nodes.checked_add(nodes) {
        None => Err(AllocError),
        Some(count) => vec![in alloc; 0; count],
    }
}

// The places to which one comes from a set without reading.
fn closure(
    tables: &Tables,
    set: &[usize],
    hints: &mut Vec<u32>,
    met: &mut Leaves,
) -> Result<(), AllocError>
    requires table { IsTable tables.now }
    requires set { All (λ p. p < count_of tables.now) set.now }
    ensures { IfOk result (λ _. (d : ℕ) → Contains met.new d ↔ IsReached tables.now set.now d) }
{
    met.clear();
    meet_entries(tables, set, hints, met)?;
    close(tables.nodes.as_slice(), tables.next.as_slice(), hints, met)?;
    Ok(())
}

// Meets the places where one goes on after these leaves and starts.
fn meet_entries(
    tables: &Tables,
    set: &[usize],
    hints: &mut Vec<u32>,
    met: &mut Leaves,
) -> Result<(), AllocError>
    requires table { IsTable tables.now }
    requires set { All (λ p. p < count_of tables.now) set.now }
    ensures { IfOk result (λ _. Adds (IsEntry tables.now set.now) met.old met.new) }
{
    for p in set {
        meet(entry_of(tables, *p), hints, met)?;
    }
    Ok(())
}

fn entry_of(tables: &Tables, p: usize) -> usize
    requires table { IsTable tables.now }
    requires p { p < count_of tables.now }
    ensures { result ≡ entry_of tables.now p }
{
    if p < tables.next.len() {
        return tables.next[p];
    }
    tables.roots[p - tables.next.len()]
}

// Puts all places after these to which one comes from them without reading.
fn close(
    nodes: &[RegexNode],
    next: &[usize],
    hints: &mut Vec<u32>,
    met: &mut Leaves,
) -> Result<(), AllocError>
    requires len { length next.now ≡ length nodes.now }
    requires fits { length nodes.now + length nodes.now < 2 ^ 64 }
    ensures { IfOk result (λ _. Closes nodes.now next.now met.old met.new (length met.new)) }
{
    let mut i = 0;
    'places: while i < met.as_slice().len() {
        let place = place_at(nodes, next, met.as_slice()[i]);
        meet_next(place, hints, met)?;
        i += 1;
    }
    Ok(())
}

// Meets where a place goes on without reading.
fn meet_next(place: Place, hints: &mut Vec<u32>, met: &mut Leaves) -> Result<(), AllocError>
    ensures { IfOk result (λ _. Adds (GoesOn place) met.old met.new) }
{
    match place {
        Place::Read(_, _) => {}
        Place::Go(q) => meet(q, hints, met)?,
        Place::Fork(q, r) => {
            meet(q, hints, met)?;
            meet(r, hints, met)?;
        }
        Place::End(_) => {}
    }
    Ok(())
}

// Puts a place after the others, unless it is known that it is there.
fn meet(place: usize, hints: &mut Vec<u32>, met: &mut Leaves) -> Result<(), AllocError>
    ensures { IfOk result (λ _. Adds (λ d. d ≡ place) met.old met.new) }
{
    if is_met(place, hints, met.as_slice()) {
        return Ok(());
    }
    note(hints, place, met.as_slice().len());
    met.push(place)
}

// Notes where a place is met, if there is room for it.
fn note(hints: &mut Vec<u32>, place: usize, at: usize) {
    if place < hints.len() && at < LIMIT {
        hints[place] = at as u32;
    }
}

// Whether the hint of a place leads to it.
fn is_met(place: usize, hints: &[u32], met: &[usize]) -> bool
    ensures { IsTrue result → Contains met.now place }
{
    if place >= hints.len() {
        return false;
    }
    let at = hints[place] as usize;
    at < met.len() && met[at] == place
}

// The leaves among some places, in order.
fn leaves_among(nodes: &[RegexNode], met: &[usize], all: &mut Leaves) -> Result<(), AllocError>
    ensures exact { IfOk result (λ _. (q : ℕ) → Contains all.new q ↔ (IsLeaf nodes.now q × Contains met.now q)) }
    ensures rising { IfOk result (λ _. AreRising all.new) }
{
    all.clear();
    add_leaves(nodes, met, all)?;
    all.sort();
    Ok(())
}

fn add_leaves(nodes: &[RegexNode], met: &[usize], all: &mut Leaves) -> Result<(), AllocError>
    ensures { IfOk result (λ _. Adds (λ q. IsLeaf nodes.now q × Contains met.now q) all.old all.new) }
{
    for q in met {
        if is_leaf(nodes, *q) {
            all.push(*q)?;
        }
    }
    Ok(())
}

fn is_leaf(nodes: &[RegexNode], q: usize) -> bool
    ensures { IsTrue result ↔ IsLeaf nodes.now q }
{
    q < nodes.len() && is_set(nodes[q])
}

fn is_set(node: RegexNode) -> bool
    ensures { IsTrue result ↔ IsSet node }
{
    match node {
        RegexNode::Set(_) => true,
        RegexNode::Sequence(_, _) => false,
        RegexNode::Choice(_, _) => false,
        RegexNode::Star(_) => false,
        RegexNode::Plus(_) => false,
        RegexNode::Maybe(_) => false,
    }
}

// The expressions whose ends are among some places, in order.
fn ends_among(count: usize, met: &[usize], all: &mut Leaves) -> Result<(), AllocError>
    requires { count + count < 2 ^ 64 }
    ensures exact { IfOk result (λ _. (k : ℕ) → Contains all.new k ↔ Contains met.now (count + count + k)) }
    ensures rising { IfOk result (λ _. AreRising all.new) }
{
    all.clear();
    add_ends(count + count, met, all)?;
    all.sort();
    Ok(())
}

// Adds the numbers that some places have from one on.
fn add_ends(first: usize, met: &[usize], all: &mut Leaves) -> Result<(), AllocError>
    ensures { IfOk result (λ _. Adds (λ k. Contains met.now (first + k)) all.old all.new) }
{
    for q in met {
        if *q >= first {
            all.push(*q - first)?;
        }
    }
    Ok(())
}
