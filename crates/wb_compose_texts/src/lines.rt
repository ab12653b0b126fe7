//! How are lines gathered that may be too long to print together?

ghost use Rattle.std.specs.Prelude.{◌<◌, ◌≤◌, ◌+◌, ◌++◌, ◌∷◌, ◌↔◌, [], ℕ, IsTrue, List, OnOk, length};
ghost use Rattle.wb_report.specs.Lines.{report_of};
ghost use Rattle.wb_compose_texts.specs.Inner.Gathered.{AreGathered, IsShown};

use crate::EditsAnswer;
use std::alloc::{AllocError, Global};
use wb_base::Sequence;
use wb_report::{Outcome, report};

// The most bytes that are printed.
const LIMIT: usize = 16_777_216;

// The lines so far, or that they are too long together: then their bytes are of no use.
pub(crate) struct Lines {
    pub(crate) bytes: Vec<u8>,
    pub(crate) are_long: bool,
}

impl Drop for Lines {
    fn drop(self) {
        let Lines { bytes, are_long: _ } = self;
        drop(bytes);
    }
}

impl Lines {
    // None.
    pub(crate) fn new(alloc: Global) -> Lines
        ensures { AreGathered result [] }
    {
        Lines {
            bytes: Vec::new(alloc),
            are_long: false,
        }
    }

    // What is printed of them.
    pub(crate) fn answer(self) -> EditsAnswer
        ensures lines { (lines : List (List ℕ)) → AreGathered self lines → IsShown lines result }
    {
        let Lines { bytes, are_long } = self;
        if are_long {
            drop(bytes);
            EditsAnswer::TooLong
        } else {
            EditsAnswer::Lines(Sequence::from_vec(bytes))
        }
    }
}

// Adds the line that reports an outcome.
pub(crate) fn push_report(
    alloc: Global,
    lines: &mut Lines,
    outcome: Outcome,
) -> Result<(), AllocError>
    ensures { OnOk result ((before : List (List ℕ)) → AreGathered lines.old before → AreGathered lines.new (before ++ report_of outcome ∷ [])) }
{
    let line = report(alloc, outcome)?;
    let pushed = push_line(lines, &line);
    drop(line);
    pushed
}

// Adds a line, with its LF.
fn push_line(lines: &mut Lines, line: &[u8]) -> Result<(), AllocError>
    ensures { OnOk result ((before : List (List ℕ)) → AreGathered lines.old before → AreGathered lines.new (before ++ line.now ∷ [])) }
{
    if lines.are_long {
        return Ok(());
    }
    if !has_room(lines.bytes.len(), line.len()) {
        lines.are_long = true;
        return Ok(());
    }
    lines.bytes.extend_from_slice(line)
}

// Whether so many bytes more may come after so many.
fn has_room(bytes: usize, more: usize) -> bool
    ensures { IsTrue result ↔ (bytes + more ≤ 16777216) }
{
    more <= LIMIT && bytes <= LIMIT - more
}

// Adds a line that is too long by itself.
pub(crate) fn push_long(lines: &mut Lines)
    ensures { (before : List (List ℕ)) (line : List ℕ) → AreGathered lines.old before → 16777216 < length line → AreGathered lines.new (before ++ line ∷ []) }
{
    lines.are_long = true;
}
