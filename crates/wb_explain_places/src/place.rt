//! Which lines show a place?

ghost use Rattle.std.specs.Prelude.{◌≡◌, ◌≤◌, ◌++◌, length, replicate, OnOk};
ghost use Rattle.std.specs.Fmt.{decimal};
ghost use Rattle.wb_explain_places.specs.Place.{heading, pointed, Shows};

use crate::characters::{characters, line_feeds};
use crate::line::{line_end, line_start};
use crate::window::{push_left, push_right};
use itoa::Buffer;
use std::alloc::AllocError;

/// Appends the lines that show a place of a file: the file's name with the numbers of the line and of the column, and the line with a caret
/// under the place.
///
/// The line before the place and the line from it on are each cut to some 64 bytes. Columns count characters of UTF-8.
pub fn push_place(out: &mut Vec<u8>, file: &[u8], text: &[u8], at: usize) -> Result<(), AllocError>
    requires { at ≤ length text.now }
    ensures { OnOk result (Shows file.now text.now at out.old.items out.new.items) }
{
    let start = line_start(text, at);
    let end = line_end(text, at);
    let line = line_feeds(&text[..at]) + 1;
    let column = characters(&text[start..at]) + 1;
    push_heading(out, file, line, column)?;
    push_pointed(out, &text[start..at], &text[at..end])
}

// Appends the file, the line and the column.
fn push_heading(
    out: &mut Vec<u8>,
    file: &[u8],
    line: usize,
    column: usize,
) -> Result<(), AllocError>
    ensures { OnOk result (out.new.items ≡ out.old.items ++ heading file.now line column) }
{
    out.extend_from_slice(file)?;
    out.extend_from_slice(b", line ")?;
    push_number(out, line)?;
    out.extend_from_slice(b", column ")?;
    push_number(out, column)?;
    out.extend_from_slice(b":\n\n")
}

// Appends a number in decimal.
fn push_number(out: &mut Vec<u8>, number: usize) -> Result<(), AllocError>
    ensures { OnOk result (out.new.items ≡ out.old.items ++ decimal number) }
{
    let mut buffer = Buffer::new();
    out.extend_from_slice(buffer.format(number).as_bytes())
}

// Appends a line in two parts, with a caret under the second.
fn push_pointed(out: &mut Vec<u8>, before: &[u8], after: &[u8]) -> Result<(), AllocError>
    ensures { OnOk result (out.new.items ≡ out.old.items ++ pointed before.now after.now) }
{
    out.extend_from_slice(b"    ")?;
    let count = push_left(out, before)?;
    push_right(out, after)?;
    out.extend_from_slice(b"\n    ")?;
    push_spaces(out, count)?;
    out.extend_from_slice(b"^\n")
}

// Appends so many spaces.
fn push_spaces(out: &mut Vec<u8>, count: usize) -> Result<(), AllocError>
    ensures { OnOk result (out.new.items ≡ out.old.items ++ replicate count 32) }
{
    let mut done = 0;
    while done < count {
        out.push(b' ')?;
        done += 1;
    }
    Ok(())
}
