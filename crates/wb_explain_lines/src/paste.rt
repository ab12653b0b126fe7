//! Which lines mend a refusal, as they can be pasted into the file?
//!
//! Two words that match one text are told apart by a preference.

use crate::line::Refused;
use crate::shown::{name_after, unprefixed};
use std::alloc::AllocError;

// Appends the lines that mend a refusal, where the names that it shows say them.
pub(crate) fn push_paste(out: &mut Vec<u8>, refused: Refused<'_>) -> Result<(), AllocError> {
    match refused.code {
        b"E4" => push_preference(out, refused.rest, b" "),
        b"G5" => push_preference(out, refused.rest, b": "),
        _ => Ok(()),
    }
}

// Appends the two preferences between two words, of which the first is shown after these bytes.
fn push_preference(out: &mut Vec<u8>, rest: &[u8], before: &[u8]) -> Result<(), AllocError> {
    let Some((first, after)) = name_after(rest, before) else {
        return Ok(());
    };
    let Some((second, _)) = name_after(after, b" and ") else {
        return Ok(());
    };
    out.extend_from_slice(b"\nTo paste, one of these:\n\n")?;
    push_prefer(out, unprefixed(first), unprefixed(second))?;
    push_prefer(out, unprefixed(second), unprefixed(first))
}

// Appends a preference.
fn push_prefer(out: &mut Vec<u8>, first: &[u8], second: &[u8]) -> Result<(), AllocError> {
    out.extend_from_slice(b"    prefer ")?;
    out.extend_from_slice(first)?;
    out.extend_from_slice(b" over ")?;
    out.extend_from_slice(second)?;
    out.extend_from_slice(b";\n")
}
