//! Which markers have all extensions, and to which list does each lead?

ghost use Rattle.std.specs.Prelude.{◌≡◌, ◌<◌, ◌+◌, ◌++◌, [], IfOk, OnOk, Some, Contains, length, slice_get};
ghost use Rattle.wb_items.specs.Kernels.{count_of};
ghost use Rattle.wb_determinism_kernels.specs.declared.starts.Start.{Start};
ghost use Rattle.wb_compose_kernels.specs.Inner.Counts.{new_count_at};
ghost use Rattle.wb_compose_kernels.specs.Inner.Given.{IsGiven};
ghost use Rattle.wb_compose_kernels.specs.Inner.Blocks.{AreBlocksUpTo};
ghost use Rattle.wb_compose_kernels.specs.Inner.Moves.{Adds, AreMarksUpTo, IsMarkOf};
ghost use Rattle.wb_compose_kernels.specs.Inner.Taken.{AreNumbersOf};

use crate::Splice;
use crate::blocks::{Blocks, number_in_union};
use crate::lists::blocks_at;
use crate::numbers::{number_at, numbers_at, part_at};
use std::alloc::{AllocError, Global};
use wb_base::{Sequence, push};
use wb_determinism_kernels::Start;

// The hole for which a marker stands, in the host's numbers, the marker in the union, and the number of the list after it.
#[derive(Clone, Copy, Drop)]
pub(crate) struct Mark {
    pub(crate) hole: usize,
    pub(crate) terminal: usize,
    pub(crate) number: usize,
}

// The markers of all extensions.
pub(crate) fn marks_of(
    alloc: Global,
    splice: &Splice,
    blocks: &[Blocks],
    numbers: &[usize],
    new: &[Sequence<usize>],
) -> Result<Vec<Mark>, AllocError>
    requires given { IsGiven splice.now }
    requires blocks { length blocks.now ≡ length splice.now.parts.now }
    requires lists { AreNumbersOf splice.now numbers.now new.now }
    ensures { IfOk result (λ marks. AreMarksUpTo splice.now blocks.now numbers.now new.now (length splice.now.parts.now) marks.items) }
{
    let mut marks = no_marks(alloc);
    'parts: for part in 0..splice.parts.len() {
        add_marks(
            part_at(splice, part).new.starts(),
            blocks_at(blocks, part),
            numbers,
            numbers_at(new, part),
            &mut marks,
        )?;
    }
    Ok(marks)
}

// No marker.
fn no_marks(alloc: Global) -> Vec<Mark>
    ensures { result.items ≡ [] }
{
    Vec::new(alloc)
}

// Adds the markers at which new kernels start.
fn add_marks(
    starts: &[Start],
    blocks: Blocks,
    host: &[usize],
    new: &[usize],
    marks: &mut Vec<Mark>,
) -> Result<(), AllocError>
    requires { (start : Start) → Contains starts.now start → start.number < length host.now + length new.now }
    ensures { OnOk result (Adds (λ mark. (start : Start) × Contains starts.now start × IsMarkOf blocks (host.now ++ new.now) start mark) marks.old.items marks.new.items) }
{
    'starts: for place in 0..starts.len() {
        let start = start_at(starts, place);
        let mark = mark_of(start, blocks, host, new)?;
        push(marks, mark)?;
    }
    Ok(())
}

// The start at a place.
pub(crate) fn start_at(starts: &[Start], place: usize) -> Start
    requires { place < length starts.now }
    ensures { slice_get starts.now place ≡ Some result }
{
    starts[place]
}

// The marker of a start.
fn mark_of(start: Start, blocks: Blocks, host: &[usize], new: &[usize]) -> Result<Mark, AllocError>
    requires { start.number < length host.now + length new.now }
    ensures { IfOk result (IsMarkOf blocks (host.now ++ new.now) start) }
{
    let terminal = number_in_union(blocks.terminals, start.marker)?;
    Ok(Mark {
        hole: start.hole,
        terminal,
        number: number_at(host, new, start.number),
    })
}
