//! Which states do texts lead to from the starts of sets? The subset construction.
//!
//! The states of one set after the other are found breadth first, so that their order is that of their paths.

ghost use Rattle.std.specs.Prelude.{◌≡◌, ◌+◌, ◌^◌, ◌<◌, ◌≤◌, ℕ, IfOk, IsTrue, [], length, slice_get, slice_index};
ghost use Rattle.wb_automata.specs.Inner.Accepted.{AreAccepted, IsAccepted};
ghost use Rattle.wb_automata.specs.Inner.Exploring.{RowsPass, RowsFrom, AreExplored};
ghost use Rattle.wb_automata.specs.Inner.Found.{IsPlaced};
ghost use Rattle.wb_automata.specs.Inner.Ways.{AreReady, HasMoved, IsOnWay};
ghost use Rattle.wb_automata.specs.Paths.{path_on};
ghost use Rattle.wb_automata_positions.specs.Rising.{AreRising};
ghost use Rattle.wb_automata_positions.specs.Rows.{row};
ghost use Rattle.wb_automata_positions.specs.Transitions.{IsPlaceList, IsTable, count_of};

use crate::flat_rows::FlatRows;
use crate::moves::Moves;
use crate::predecessor::Predecessor;
use crate::states::States;
use crate::ways::Ways;
use std::alloc::{AllocError, Global};
use wb_automata_positions::{Following, Tables};
use wb_base::push;

// The states, what is known of each, and the state at the start of each set.
#[derive(Drop)]
pub(crate) struct Explored {
    pub(crate) states: States,
    pub(crate) rows: StateRows,
    pub(crate) starts: Vec<usize>,
}

// Where the bytes lead from each state, and which terminals it accepts.
#[derive(Drop)]
pub(crate) struct StateRows {
    pub(crate) moves: Moves,
    pub(crate) accepted: FlatRows,
}

// Room that each state uses again.
#[derive(Drop)]
struct Room {
    following: Following,
    ways: Ways,
}

// All states that texts lead to by these bytes.
pub(crate) fn explore(alloc: Global, tables: &Tables, bytes: &[u8]) -> Result<Explored, AllocError>
    requires table { IsTable tables.now }
    requires rising { AreRising bytes.now }
    ensures explored { IfOk result (λ e. AreExplored tables.now bytes.now e.states e.rows.moves e.starts.items (length tables.now.starts)) }
    ensures accepted { IfOk result (λ e. AreAccepted tables.now e.states.sets e.rows.accepted (length e.states.sets)) }
{
    let mut room = room_of(alloc, tables, bytes)?;
    let mut explored = nothing(alloc);
    for set in 0..tables.starts.len() {
        explore_set(tables, bytes, set, &mut room, &mut explored)?;
    }
    Ok(explored)
}

fn nothing(alloc: Global) -> Explored
    ensures sets { result.states.sets ≡ [] }
    ensures paths { result.states.paths ≡ [] }
    ensures moves { result.rows.moves ≡ [] }
    ensures accepted { result.rows.accepted ≡ [] }
    ensures starts { result.starts.items ≡ [] }
{
    Explored {
        states: States::new(alloc),
        rows: StateRows {
            moves: Moves::new(alloc),
            accepted: FlatRows::new(alloc),
        },
        starts: Vec::new(alloc),
    }
}

fn room_of(alloc: Global, tables: &Tables, bytes: &[u8]) -> Result<Room, AllocError> {
    let ways = Ways::new(alloc, bytes)?;
    let following = Following::new(alloc, tables)?;
    Ok(Room { following, ways })
}

// The states of one set more.
fn explore_set(
    tables: &Tables,
    bytes: &[u8],
    set: usize,
    room: &mut Room,
    explored: &mut Explored,
) -> Result<(), AllocError>
    requires table { IsTable tables.now }
    requires rising { AreRising bytes.now }
    requires set { set < length tables.now.starts }
    requires before { AreExplored tables.now bytes.now explored.old.states explored.old.rows.moves explored.old.starts.items set }
    requires accepted { AreAccepted tables.now explored.old.states.sets explored.old.rows.accepted (length explored.old.states.sets) }
    ensures explored { IfOk result (λ _. AreExplored tables.now bytes.now explored.new.states explored.new.rows.moves explored.new.starts.items (set + 1)) }
    ensures accepted { IfOk result (λ _. AreAccepted tables.now explored.new.states.sets explored.new.rows.accepted (length explored.new.states.sets)) }
{
    let from = explored.states.len();
    let state = start_of(tables, set, &mut explored.states)?;
    close(
        tables,
        bytes,
        from,
        room,
        &mut explored.states,
        &mut explored.rows,
    )?;
    push(&mut explored.starts, state)?;
    Ok(())
}

// The state at the start of a set.
fn start_of(tables: &Tables, set: usize, states: &mut States) -> Result<usize, AllocError>
    requires count { length states.old.paths ≡ length states.old.sets }
    requires set { set < length tables.now.starts }
    ensures { IfOk result (λ state. IsPlaced states.old (row tables.now.starts set) (record { set = set; text = [] }) states.new state) }
{
    let predecessor = Predecessor {
        set,
        from: states.len(),
        byte: 0,
    };
    states.place_of(tables.starts.row(set), predecessor)
}

// The states from number `from` on and those that they lead to.
fn close(
    tables: &Tables,
    bytes: &[u8],
    from: usize,
    room: &mut Room,
    states: &mut States,
    rows: &mut StateRows,
) -> Result<(), AllocError>
    requires table { IsTable tables.now }
    requires rising { AreRising bytes.now }
    requires before { RowsPass tables.now bytes.now states.old rows.old.moves from }
    requires accepted { AreAccepted tables.now states.old.sets rows.old.accepted from }
    ensures few { IfOk result (λ _. length states.new.sets ≤ 2 ^ count_of tables.now) }
    ensures rows { IfOk result (λ _. RowsFrom tables.now bytes.now states.old states.new rows.new.moves (length states.new.sets)) }
    ensures accepted { IfOk result (λ _. AreAccepted tables.now states.new.sets rows.new.accepted (length states.new.sets)) }
{
    let mut i = from;
    'states: while i < states.len() {
        row_of(tables, bytes, i, room, states, rows)?;
        i += 1;
    }
    Ok(())
}

// What is known of one state more.
fn row_of(
    tables: &Tables,
    bytes: &[u8],
    i: usize,
    room: &mut Room,
    states: &mut States,
    rows: &mut StateRows,
) -> Result<(), AllocError>
    requires table { IsTable tables.now }
    requires rising { AreRising bytes.now }
    requires within { i < length states.old.sets }
    requires before { RowsPass tables.now bytes.now states.old rows.old.moves i }
    requires accepted { AreAccepted tables.now states.old.sets rows.old.accepted i }
    ensures rows { IfOk result (λ _. RowsFrom tables.now bytes.now states.old states.new rows.new.moves (i + 1)) }
    ensures accepted { IfOk result (λ _. AreAccepted tables.now states.new.sets rows.new.accepted (i + 1)) }
{
    follow(tables, bytes, states.at(i), room, &mut rows.accepted)?;
    move_on(tables, bytes, i, &mut room.ways, states, &mut rows.moves)?;
    Ok(())
}

// Finds what comes after the places of a state: which leaves hold each byte, and which terminals may end.
fn follow(
    tables: &Tables,
    bytes: &[u8],
    set: &[usize],
    room: &mut Room,
    accepted: &mut FlatRows,
) -> Result<(), AllocError>
    requires table { IsTable tables.now }
    requires rising { AreRising bytes.now }
    requires set { IsPlaceList (count_of tables.now) set.now }
    ensures ready { IfOk result (λ _. AreReady tables.now bytes.now set.now room.new.ways.chains room.new.ways.ends.items) }
    ensures accepted { IfOk result (λ _. IsAccepted tables.now set.now accepted.old accepted.new) }
{
    room.following.find(tables, set)?;
    accepted.push(room.following.ends.as_slice())?;
    let ahead = room.following.ahead.as_slice();
    room.ways.read(tables.nodes.as_slice(), bytes, ahead)?;
    Ok(())
}

// A state from which bytes lead on, and the set from whose start it was found.
#[derive(Clone, Copy)]
struct Origin {
    state: usize,
    set: usize,
}

// Where the bytes lead from one state more, of which the leaves that hold them are known.
fn move_on(
    tables: &Tables,
    bytes: &[u8],
    i: usize,
    ways: &mut Ways,
    states: &mut States,
    moves: &mut Moves,
) -> Result<(), AllocError>
    requires table { IsTable tables.now }
    requires rising { AreRising bytes.now }
    requires before { IsOnWay tables.now bytes.now states.old states.old i moves.old ways.old.chains ways.old.ends.items 0 }
    ensures { IfOk result (λ _. RowsFrom tables.now bytes.now states.old states.new moves.new (i + 1)) }
{
    let set = states.set_of(i);
    let origin = Origin { state: i, set };
    let mut c = 0;
    'bytes: while c < bytes.len() {
        move_by(c, bytes[c], origin, ways, states, moves)?;
        let next = run_end(&ways.ends, c);
        moves.repeat(next - c - 1)?;
        c = next;
    }
    Ok(())
}

// Puts where a byte leads after the other moves.
fn move_by(
    c: usize,
    byte: u8,
    origin: Origin,
    ways: &mut Ways,
    states: &mut States,
    moves: &mut Moves,
) -> Result<(), AllocError>
    requires within { c < length ways.old.ends.items }
    requires listed { slice_index ways.old.ends.items c < length ways.old.chains }
    requires moves { c ≤ length moves.old }
    ensures chains { ways.new.chains ≡ ways.old.chains }
    ensures ends { ways.new.ends ≡ ways.old.ends }
    ensures moved { IfOk result (λ _. HasMoved c ways.old.chains ways.old.ends.items (path_on (slice_get states.old.paths origin.state) origin.set byte) states.old moves.old states.new moves.new) }
{
    if let Some(first) = ways.alike(c) {
        moves.again(c - first)?;
        return Ok(());
    }
    ways.find(c)?;
    let predecessor = Predecessor {
        set: origin.set,
        from: origin.state,
        byte,
    };
    let next = states.move_to(&ways.list, predecessor)?;
    moves.push(next)?;
    Ok(())
}

// The first place after one whose number differs from that there, or the end.
fn run_end(numbers: &[usize], place: usize) -> usize
    requires { place < length numbers.now }
    ensures after { place < result }
    ensures within { result ≤ length numbers.now }
    ensures alike { (k : ℕ) → place ≤ k → k < result → slice_index numbers.now k ≡ slice_index numbers.now place }
{
    let number = numbers[place];
    let mut end = place + 1;
    'numbers: while has_at(numbers, end, number) {
        end += 1;
    }
    end
}

fn has_at(numbers: &[usize], place: usize, number: usize) -> bool
    ensures within { IsTrue result → place < length numbers.now }
    ensures is { IsTrue result → slice_index numbers.now place ≡ number }
{
    place < numbers.len() && numbers[place] == number
}
