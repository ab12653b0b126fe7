//! How is what can come listed?
//!
//! In a sentence of lines below 80 columns, each sort of token once.

use crate::candidates::{KINDS, sort_shown};
use crate::coming::can_come;
use std::alloc::{AllocError, Global};
use wb_reader::expected_kinds;
use wb_text_tokens::{TokenKind, Word};

// The most columns of a line.
const COLUMNS: usize = 76;

/// Appends what can come at a place of a specification that can't be read there, counted in bytes from 0. Nothing is appended where what is
/// before the place begins no specification.
///
/// What is listed are those of all kinds that [`expected_kinds`] finds, by one reading; the end of the file isn't among them. `closed` is a
/// word in files of format 2 alone, and so is tried by itself.
pub fn push_expected(
    alloc: Global,
    out: &mut Vec<u8>,
    contents: &[u8],
    at: usize,
) -> Result<(), AllocError> {
    if at > contents.len() {
        return Ok(());
    }
    match expected_kinds(alloc, contents, at, &KINDS)? {
        Some(kinds) => {
            let answer = push_kinds(alloc, out, &contents[..at], &kinds);
            drop(kinds);
            answer
        }
        None => Ok(()),
    }
}

// Appends the sentence that lists the kinds.
fn push_kinds(
    alloc: Global,
    out: &mut Vec<u8>,
    before: &[u8],
    kinds: &[TokenKind],
) -> Result<(), AllocError> {
    out.extend_from_slice(b"\nWhat can come there: ")?;
    let any = has_number(kinds);
    let mut column = 0;
    'kinds: for kind in kinds {
        if !(any && is_format_number(*kind)) {
            column = push_kind(alloc, out, before, column, *kind)?;
        }
    }
    out.extend_from_slice(b".\n")
}

// Whether any number can come.
fn has_number(kinds: &[TokenKind]) -> bool {
    for kind in kinds {
        if *kind == TokenKind::Number {
            return true;
        }
    }
    false
}

// Whether the kind is that of a format's number alone.
fn is_format_number(kind: TokenKind) -> bool {
    match kind {
        TokenKind::One => true,
        TokenKind::Two => true,
        _ => false,
    }
}

// Appends a kind after those before it, of which the last ends at this column; the column is 0 where there are none. Answers the next one.
fn push_kind(
    alloc: Global,
    out: &mut Vec<u8>,
    before: &[u8],
    column: usize,
    kind: TokenKind,
) -> Result<usize, AllocError> {
    match kind {
        TokenKind::Word(Word::Closed) => push_closed(alloc, out, before, column),
        TokenKind::Word(word) => push_item(out, column, b"", word.text()),
        TokenKind::Mark(mark) => push_item(out, column, b"'", mark.text()),
        sort => push_item(out, column, b"", sort_shown(sort).as_bytes()),
    }
}

// Appends `closed`, where the file has that word.
fn push_closed(
    alloc: Global,
    out: &mut Vec<u8>,
    before: &[u8],
    column: usize,
) -> Result<usize, AllocError> {
    if can_come(alloc, before, b"closed")? {
        return push_item(out, column, b"", b"closed");
    }
    Ok(column)
}

// Appends a token between quotes, or between nothing, after those before it. Answers the column after it.
fn push_item(
    out: &mut Vec<u8>,
    column: usize,
    quote: &[u8],
    shown: &[u8],
) -> Result<usize, AllocError> {
    let length = shown
        .len()
        .saturating_add(quote.len())
        .saturating_add(quote.len());
    let next = if column == 0 {
        21
    } else {
        push_comma(out, column, length)?
    };
    out.extend_from_slice(quote)?;
    out.extend_from_slice(shown)?;
    out.extend_from_slice(quote)?;
    Ok(next.saturating_add(length))
}

// Appends a comma, and a line feed where what comes doesn't fit into the line. Answers the column after that.
fn push_comma(out: &mut Vec<u8>, column: usize, length: usize) -> Result<usize, AllocError> {
    if column.saturating_add(length) > COLUMNS {
        out.extend_from_slice(b",\n")?;
        return Ok(0);
    }
    out.extend_from_slice(b", ")?;
    Ok(column.saturating_add(2))
}
