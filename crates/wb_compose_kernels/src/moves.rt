//! Which moves has the union? Those of each kernel that it takes, and where these are over holes, one over each marker.

ghost use Rattle.std.specs.Prelude.{◌≡◌, ◌<◌, ◌+◌, ◌++◌, [], ℕ, IfOk, OnOk, Some, Contains, length, slice_get};
ghost use Rattle.wb_base.specs.declared.symbol.Symbol.{Symbol};
ghost use Rattle.wb_base.specs.declared.symbol.Symbol.TheVariants.{Terminal};
ghost use Rattle.wb_items.specs.declared.transitions.Move.{Move};
ghost use Rattle.wb_items.specs.Kernels.{count_of};
ghost use Rattle.wb_compose_kernels.specs.declared.marks.Mark.{Mark};
ghost use Rattle.wb_compose_kernels.specs.Inner.Counts.{new_count_at};
ghost use Rattle.wb_compose_kernels.specs.Inner.Given.{IsGiven};
ghost use Rattle.wb_compose_kernels.specs.Inner.Moves.{Adds, AreMovesOf, IsAnyMove, IsHostMove, IsMoveOf, IsNewMove, IsPartMove, IsRowMove};
ghost use Rattle.wb_compose_kernels.specs.Inner.Taken.{AreNumbersOf, IsMarkedBy};

use crate::Splice;
use crate::blocks::{Blocks, hole_of, symbol_in_union};
use crate::lists::{blocks_at, new_count};
use crate::marks::{Mark, marks_of};
use crate::numbers::{number_at, number_in, numbers_at, part_at};
use std::alloc::{AllocError, Global};
use wb_base::{Sequence, Symbol, push};
use wb_items::Move;

// The numbers in the union of a host and its extensions, those of their kernels' lists, and all markers.
#[derive(Clone, Copy)]
pub(crate) struct Taken<'a> {
    pub(crate) host: Blocks,
    pub(crate) blocks: &'a [Blocks],
    pub(crate) numbers: &'a [usize],
    pub(crate) new: &'a [Sequence<usize>],
    pub(crate) marks: &'a [Mark],
}

// All moves.
pub(crate) fn moves_of(
    alloc: Global,
    splice: &Splice,
    host: Blocks,
    blocks: &[Blocks],
    numbers: &[usize],
    new: &[Sequence<usize>],
) -> Result<Vec<(usize, Symbol, usize)>, AllocError>
    requires given { IsGiven splice.now }
    requires blocks { length blocks.now ≡ length splice.now.parts.now }
    requires lists { AreNumbersOf splice.now numbers.now new.now }
    ensures { IfOk result (λ moves. AreMovesOf splice.now host blocks.now numbers.now new.now moves.items) }
{
    let marks = marks_of(alloc, splice, blocks, numbers, new)?;
    let moves = moves_by(
        alloc,
        splice,
        &Taken {
            host,
            blocks,
            numbers,
            new,
            marks: &marks,
        },
    );
    drop(marks);
    moves
}

// All moves, with these markers.
fn moves_by(
    alloc: Global,
    splice: &Splice,
    taken: &Taken,
) -> Result<Vec<(usize, Symbol, usize)>, AllocError>
    requires given { IsGiven splice.now }
    requires blocks { length taken.now.blocks.now ≡ length splice.now.parts.now }
    requires lists { AreNumbersOf splice.now taken.now.numbers.now taken.now.new.now }
    ensures { IfOk result (λ moves. Adds (IsAnyMove splice.now taken.now.host taken.now.blocks.now taken.now.numbers.now taken.now.new.now taken.now.marks.now) [] moves.items) }
{
    let mut moves = no_moves(alloc);
    add_host_moves(splice, taken, &mut moves)?;
    add_part_moves(splice, taken, &mut moves)?;
    Ok(moves)
}

// No move.
fn no_moves(alloc: Global) -> Vec<(usize, Symbol, usize)>
    ensures { result.items ≡ [] }
{
    Vec::new(alloc)
}

// Adds the moves of the host's kernels. Those after holes have none.
fn add_host_moves(
    splice: &Splice,
    taken: &Taken,
    moves: &mut Vec<(usize, Symbol, usize)>,
) -> Result<(), AllocError>
    requires lists { length taken.now.numbers.now ≡ count_of splice.now.kernels.now }
    ensures { OnOk result (Adds (λ m. (k : ℕ) × (k < count_of splice.now.kernels.now) × IsHostMove splice.now taken.now.host taken.now.numbers.now taken.now.marks.now k m) moves.old.items moves.new.items) }
{
    'states: for state in 0..splice.kernels.count() {
        add_host_row(splice, taken, state, moves)?;
    }
    Ok(())
}

// Adds the moves of one of the host's kernels.
fn add_host_row(
    splice: &Splice,
    taken: &Taken,
    state: usize,
    moves: &mut Vec<(usize, Symbol, usize)>,
) -> Result<(), AllocError>
    requires state { state < count_of splice.now.kernels.now }
    requires lists { length taken.now.numbers.now ≡ count_of splice.now.kernels.now }
    ensures { OnOk result (Adds (IsHostMove splice.now taken.now.host taken.now.numbers.now taken.now.marks.now state) moves.old.items moves.new.items) }
{
    let none: &[usize] = &[];
    let from = number_at(taken.numbers, none, state);
    let row = splice.kernels.moves(state);
    let to = Targets {
        names: taken.host,
        host: taken.numbers,
        new: none,
        marks: taken.marks,
    };
    add_row(&to, from, row, moves)?;
    Ok(())
}

// Adds the moves of all new kernels.
fn add_part_moves(
    splice: &Splice,
    taken: &Taken,
    moves: &mut Vec<(usize, Symbol, usize)>,
) -> Result<(), AllocError>
    requires given { IsGiven splice.now }
    requires blocks { length taken.now.blocks.now ≡ length splice.now.parts.now }
    requires lists { AreNumbersOf splice.now taken.now.numbers.now taken.now.new.now }
    ensures { OnOk result (Adds (λ m. (e : ℕ) × (e < length splice.now.parts.now) × IsPartMove splice.now taken.now.blocks.now taken.now.numbers.now taken.now.new.now taken.now.marks.now e m) moves.old.items moves.new.items) }
{
    'parts: for part in 0..splice.parts.len() {
        let to = Targets {
            names: blocks_at(taken.blocks, part),
            host: taken.numbers,
            new: numbers_at(taken.new, part),
            marks: taken.marks,
        };
        add_new_moves(splice, &to, part, moves)?;
    }
    Ok(())
}

// Numbers in the union, those of lists, the host's first, and all markers.
#[derive(Clone, Copy)]
struct Targets<'a> {
    names: Blocks,
    host: &'a [usize],
    new: &'a [usize],
    marks: &'a [Mark],
}

// Adds the moves of the new kernels of an extension.
fn add_new_moves(
    splice: &Splice,
    to: &Targets,
    part: usize,
    moves: &mut Vec<(usize, Symbol, usize)>,
) -> Result<(), AllocError>
    requires given { IsGiven splice.now }
    requires part { part < length splice.now.parts.now }
    requires host { length to.now.host.now ≡ count_of splice.now.kernels.now }
    requires new { length to.now.new.now ≡ new_count_at splice.now part }
    ensures { OnOk result (Adds (λ m. (i : ℕ) × (i < new_count_at splice.now part) × IsNewMove splice.now to.now.names to.now.host.now to.now.new.now to.now.marks.now part i m) moves.old.items moves.new.items) }
{
    'places: for place in 0..new_count(splice, part) {
        add_new_row(splice, to, part, place, moves)?;
    }
    Ok(())
}

// Adds the moves of a new kernel.
fn add_new_row(
    splice: &Splice,
    to: &Targets,
    part: usize,
    place: usize,
    moves: &mut Vec<(usize, Symbol, usize)>,
) -> Result<(), AllocError>
    requires given { IsGiven splice.now }
    requires part { part < length splice.now.parts.now }
    requires place { place < new_count_at splice.now part }
    requires host { length to.now.host.now ≡ count_of splice.now.kernels.now }
    requires new { length to.now.new.now ≡ new_count_at splice.now part }
    ensures { OnOk result (Adds (IsNewMove splice.now to.now.names to.now.host.now to.now.new.now to.now.marks.now part place) moves.old.items moves.new.items) }
{
    let found = part_at(splice, part);
    let row = found.new.moves(place);
    let from = number_in(to.new, place);
    add_row(to, from, row, moves)?;
    Ok(())
}

// Adds the moves for those of a row.
fn add_row(
    to: &Targets,
    from: usize,
    row: &[Move],
    moves: &mut Vec<(usize, Symbol, usize)>,
) -> Result<(), AllocError>
    requires { (move : Move) → Contains row.now move → move.state < length to.now.host.now + length to.now.new.now }
    ensures { OnOk result (Adds (IsRowMove to.now.names (to.now.host.now ++ to.now.new.now) to.now.marks.now from row.now) moves.old.items moves.new.items) }
{
    'moves: for place in 0..row.len() {
        add_move(to, from, move_in(row, place), moves)?;
    }
    Ok(())
}

// The move at a place.
fn move_in(row: &[Move], place: usize) -> Move
    requires { place < length row.now }
    ensures { slice_get row.now place ≡ Some result }
{
    row[place]
}

// Adds the moves for one.
fn add_move(
    to: &Targets,
    from: usize,
    found: Move,
    moves: &mut Vec<(usize, Symbol, usize)>,
) -> Result<(), AllocError>
    requires { found.state < length to.now.host.now + length to.now.new.now }
    ensures { OnOk result (Adds (IsMoveOf to.now.names (to.now.host.now ++ to.now.new.now) to.now.marks.now from found) moves.old.items moves.new.items) }
{
    if let Some(hole) = hole_of(to.names.terminals, found.symbol) {
        add_marked(to.marks, hole, from, moves)?;
        return Ok(());
    }
    let symbol = symbol_in_union(to.names, found.symbol)?;
    let next = number_at(to.host, to.new, found.state);
    push(moves, (from, symbol, next))?;
    Ok(())
}

// Adds the moves over the markers that stand for a hole.
fn add_marked(
    marks: &[Mark],
    hole: usize,
    from: usize,
    moves: &mut Vec<(usize, Symbol, usize)>,
) -> Result<(), AllocError>
    ensures { OnOk result (Adds (IsMarkedBy marks.now hole from) moves.old.items moves.new.items) }
{
    'marks: for place in 0..marks.len() {
        add_mark_at(marks, place, hole, from, moves)?;
    }
    Ok(())
}

// Adds the move over the marker at a place, where it stands for the hole.
fn add_mark_at(
    marks: &[Mark],
    place: usize,
    hole: usize,
    from: usize,
    moves: &mut Vec<(usize, Symbol, usize)>,
) -> Result<(), AllocError>
    requires { place < length marks.now }
    ensures { OnOk result (Adds (λ m. (mark : Mark) × (slice_get marks.now place ≡ Some mark) × (mark.hole ≡ hole) × (m ≡ (from, Terminal mark.terminal, mark.number))) moves.old.items moves.new.items) }
{
    let mark = mark_in(marks, place);
    if mark.hole != hole {
        return Ok(());
    }
    push(moves, (from, Symbol::Terminal(mark.terminal), mark.number))?;
    Ok(())
}

// The marker at a place.
fn mark_in(marks: &[Mark], place: usize) -> Mark
    requires { place < length marks.now }
    ensures { slice_get marks.now place ≡ Some result }
{
    marks[place]
}
