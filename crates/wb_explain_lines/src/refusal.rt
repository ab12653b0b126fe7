//! What is said of a file that is refused?
//!
//! The place of which the line speaks, or those of the names that it shows, with their lines; then what the code means; and then lines that
//! mend it.

ghost use Rattle.std.specs.Prelude.{◌≤◌, length, IfSome};

use crate::advice::of_code;
use crate::further::push_further;
use crate::line::{Refused, line_in, offset_in};
use crate::paste::push_paste;
use crate::reserved::push_reserved;
use crate::shown::{MARKS, name_after, unprefixed};
use std::alloc::{AllocError, Global};
use wb_explain_expected::push_expected;
use wb_explain_places::{next_use, push_place};

// The most places of a name that are shown.
const USES: usize = 4;

// Appends what is said of a refusal.
pub(crate) fn push_refusal(
    alloc: Global,
    out: &mut Vec<u8>,
    refused: Refused<'_>,
    contents: &[u8],
) -> Result<(), AllocError> {
    push_where(alloc, out, refused, contents)?;
    if let Some(text) = of_code(refused.code) {
        push_text(out, text)?;
    }
    push_paste(out, refused)
}

// Appends the places of which a refusal speaks.
fn push_where(
    alloc: Global,
    out: &mut Vec<u8>,
    refused: Refused<'_>,
    contents: &[u8],
) -> Result<(), AllocError> {
    if let Some((at, _)) = offset_in(refused.rest) {
        return push_unread(alloc, out, refused, contents, at);
    }
    if let Some((number, _)) = line_in(refused.rest) {
        return push_line(out, refused.file, contents, number);
    }
    push_marked(out, refused, contents, &MARKS)
}

// Appends the place of which a refusal speaks, the reserved word that is there, and what can come in a specification there.
fn push_unread(
    alloc: Global,
    out: &mut Vec<u8>,
    refused: Refused<'_>,
    contents: &[u8],
    at: usize,
) -> Result<(), AllocError> {
    push_offset(out, refused.file, contents, at)?;
    push_reserved(alloc, out, refused.code, contents, at)?;
    match refused.code {
        b"S1" => push_expected(alloc, out, contents, at),
        _ => Ok(()),
    }
}

// Appends an empty line and the lines that show a place, where it is one of the file.
pub(crate) fn push_offset(
    out: &mut Vec<u8>,
    file: &str,
    contents: &[u8],
    at: usize,
) -> Result<(), AllocError> {
    if at > contents.len() {
        return Ok(());
    }
    out.extend_from_slice(b"\n")?;
    push_place(out, file.as_bytes(), contents, at)
}

// Appends the lines that show the beginning of the line of this number, counted from 1, where there is one.
fn push_line(
    out: &mut Vec<u8>,
    file: &str,
    contents: &[u8],
    number: usize,
) -> Result<(), AllocError> {
    match begin_of_line(contents, number) {
        Some(at) => push_offset(out, file, contents, at),
        None => Ok(()),
    }
}

// Where the line of this number begins, counted from 1.
fn begin_of_line(text: &[u8], number: usize) -> Option<usize>
    ensures { IfSome result (λ at. at ≤ length text.now) }
{
    let mut left = number;
    if left <= 1 {
        return Some(0);
    }
    for (place, byte) in text.iter().enumerate() {
        if *byte == b'\n' {
            left = left.saturating_sub(1);
            if left <= 1 {
                return Some(place + 1);
            }
        }
    }
    None
}

// Appends the places of the names that the line of a refusal shows.
fn push_marked(
    out: &mut Vec<u8>,
    refused: Refused<'_>,
    contents: &[u8],
    marks: &[(&str, &str)],
) -> Result<(), AllocError> {
    let mut text = refused.rest;
    'marks: for (code, before) in marks {
        if code.as_bytes() == refused.code {
            if let Some((name, after)) = name_after(text, before.as_bytes()) {
                push_uses(out, refused.file, contents, unprefixed(name))?;
                text = after;
            }
        }
    }
    Ok(())
}

// Appends the first places of a name.
pub(crate) fn push_uses(
    out: &mut Vec<u8>,
    file: &str,
    contents: &[u8],
    name: &[u8],
) -> Result<(), AllocError> {
    if name.is_empty() {
        return Ok(());
    }
    let mut from = 0;
    let mut shown = 0;
    'uses: while shown < USES {
        match next_use(contents, name, from) {
            Some(at) => {
                push_offset(out, file, contents, at)?;
                from = at + 1;
            }
            None => return Ok(()),
        }
        shown += 1;
    }
    push_further(out, contents, name, from)
}

// Appends an empty line and a text.
pub(crate) fn push_text(out: &mut Vec<u8>, text: &str) -> Result<(), AllocError> {
    out.extend_from_slice(b"\n")?;
    out.extend_from_slice(text.as_bytes())?;
    out.extend_from_slice(b"\n")
}
