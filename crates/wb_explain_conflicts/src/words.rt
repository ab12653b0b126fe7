//! Words with blanks between them, on lines that aren't long.

ghost use Rattle.std.specs.Prelude.{OnOk};
ghost use Rattle.wb_explain_conflicts.specs.Inner.Pieces.{HasWord};

use std::alloc::AllocError;

// The column before which a line ends.
const WIDTH: usize = 96;

// Appends a word after a column, on the same line or the next, and answers the column after it.
pub(crate) fn push_word(out: &mut Vec<u8>, word: &[u8], column: usize) -> Result<usize, AllocError>
    ensures { OnOk result (HasWord word.now out.old.items out.new.items) }
{
    let end = column.saturating_add(word.len()).saturating_add(1);
    if end > WIDTH && column > 6 {
        out.extend_from_slice(b"\n      ")?;
        out.extend_from_slice(word)?;
        return Ok(word.len().saturating_add(6));
    }
    out.extend_from_slice(b" ")?;
    out.extend_from_slice(word)?;
    Ok(end)
}
