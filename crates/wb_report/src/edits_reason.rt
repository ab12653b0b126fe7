//! Why is a file refused as a list of edits?

ghost use Rattle.std.specs.Prelude.{◌≡◌, ◌++◌, OnOk};
ghost use Rattle.wb_report.specs.Reasons.{edits_text};

use crate::pieces::push_offset;
use std::alloc::AllocError;

/// Why a file is refused as a list of edits of a text.
#[derive(Clone, Copy)]
pub enum EditsReason {
    /// U1: the list goes wrong here, in bytes from the beginning of the file.
    Syntax(usize),
    /// U2: the edit of this line is out of the text's range, counted from 1.
    OutOfRange(usize),
    /// U3: that of this line makes the text too long.
    TextTooLong(usize),
    /// U4: it is too long.
    TooLong,
}

// Appends why a file is refused as a list of edits.
pub(crate) fn push_edits_reason(out: &mut Vec<u8>, reason: &EditsReason) -> Result<(), AllocError>
    ensures { OnOk result (out.new.items ≡ out.old.items ++ edits_text reason.now) }
{
    match reason {
        EditsReason::Syntax(offset) => push_offset(out, b"U1 at ", *offset),
        EditsReason::OutOfRange(line) => push_offset(out, b"U2 line ", *line),
        EditsReason::TextTooLong(line) => push_offset(out, b"U3 line ", *line),
        EditsReason::TooLong => out.extend_from_slice(b"U4"),
    }
}
