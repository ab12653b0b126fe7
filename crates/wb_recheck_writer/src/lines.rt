//! Which lines have the kernels of a grammar, as they are first reached?

ghost use Rattle.std.specs.Prelude.{◌≡◌, ◌<◌, ◌+◌, IfOk, OnOk, Some, length, slice_get};
ghost use Rattle.wb_items.specs.Kernels.{AreKernels};
ghost use Rattle.wb_recheck_writer.specs.Inner.Lines.{AddsMove, AreAllLines, AreNumberedUpTo, IsNextMove};

use std::alloc::{AllocError, Global};
use wb_items::{Kernels, Move};
use wb_recheck_lines::LineStates;
use wb_recheck_theory::Line;

// Lines, and the numbers of their kernels.
#[derive(Drop)]
pub(crate) struct NumberedLines {
    pub(crate) states: LineStates,
    pub(crate) lines: Vec<Line>,
}

// The lines of all kernels.
pub(crate) fn numbered_lines(alloc: Global, kernels: &Kernels) -> Result<NumberedLines, AllocError>
    requires { AreKernels kernels.now }
    ensures { IfOk result (AreAllLines kernels.now) }
{
    let states = LineStates::new(alloc, kernels.count())?;
    let lines = Vec::new(alloc);
    let mut numbered = NumberedLines { states, lines };
    match add_lines(kernels, &mut numbered) {
        Ok(()) => Ok(numbered),
        Err(error) => {
            drop(numbered);
            Err(error)
        }
    }
}

// Adds the lines of all kernels to none, for one kernel after another those that it moves to.
fn add_lines(kernels: &Kernels, numbered: &mut NumberedLines) -> Result<(), AllocError>
    requires kernels { AreKernels kernels.now }
    requires before { AreNumberedUpTo kernels.now numbered.old 0 }
    ensures { OnOk result (AreAllLines kernels.now numbered.new) }
{
    let mut from = 0;
    'kernels: while from < numbered.states.len() {
        add_moves(kernels, from, numbered)?;
        from += 1;
    }
    Ok(())
}

// Adds the lines of the kernels to which one kernel moves.
fn add_moves(kernels: &Kernels, from: usize, numbered: &mut NumberedLines) -> Result<(), AllocError>
    requires kernels { AreKernels kernels.now }
    requires from { from < length numbered.old.states.states }
    requires before { AreNumberedUpTo kernels.now numbered.old from }
    ensures { OnOk result (AreNumberedUpTo kernels.now numbered.new (from + 1)) }
{
    let state = numbered.states.state(from);
    let moves = kernels.moves(state);
    'places: for place in 0..moves.len() {
        add_line(kernels, from, move_at(moves, place), numbered)?;
    }
    Ok(())
}

// The move at a place.
fn move_at(moves: &[Move], place: usize) -> Move
    requires { place < length moves.now }
    ensures { slice_get moves.now place ≡ Some result }
{
    moves[place]
}

// Adds the line of the kernel to which a kernel moves, unless it is listed.
fn add_line(
    kernels: &Kernels,
    from: usize,
    next: Move,
    numbered: &mut NumberedLines,
) -> Result<(), AllocError>
    requires kernels { AreKernels kernels.now }
    requires before { AreNumberedUpTo kernels.now numbered.old from }
    requires next { IsNextMove kernels.now numbered.old.states.states from next }
    ensures { OnOk result (AddsMove kernels.now numbered.old numbered.new from next) }
{
    if numbered.states.place(next.state).is_some() {
        return Ok(());
    }
    let symbol = next.symbol;
    numbered.lines.reserve(1)?;
    numbered.states.add(next.state)?;
    numbered.lines.push_reserved(Line { from, symbol });
    Ok(())
}
