//! Which word is before a stop, and as which words of the language can it be read? A keyword that is read as a name stops the text one word
//! later.

use crate::entry::push_entries;
use crate::stop::Shown;
use crate::writing::{push_text, push_word};
use std::alloc::{AllocError, Global};
use wb_base::push;
use wb_scan::{Language, Scanned, scan};

// The most terminals that are listed.
const MOST: usize = 8;

// Appends as which words the one before a place can be read, where there are several.
pub(crate) fn push_before(
    alloc: Global,
    out: &mut Vec<u8>,
    shown: &Shown<'_>,
    text: &[u8],
    at: usize,
) -> Result<(), AllocError> {
    let text = &text[..text.len().min(at)];
    let begin = begin_of_word(text, at);
    let mut terminals = Vec::new(alloc);
    let answer = match add_terminals(shown.language, text, begin, &mut terminals) {
        Ok(()) => push_readings(alloc, out, shown, text, begin, &terminals),
        Err(error) => Err(error),
    };
    drop(terminals);
    answer
}

// Appends as which of these terminals the word from a place on can be read.
fn push_readings(
    alloc: Global,
    out: &mut Vec<u8>,
    shown: &Shown<'_>,
    text: &[u8],
    begin: usize,
    terminals: &[usize],
) -> Result<(), AllocError> {
    if terminals.len() < 2 || begin > text.len() {
        return Ok(());
    }
    push_text(out, "\nThe word before it, '")?;
    push_word(out, without_blanks(&text[begin..]))?;
    push_text(out, "', can be read as one of these:\n\n")?;
    push_entries(alloc, out, shown.names, shown.files, terminals)?;
    push_text(
        out,
        "\nIt is read as the one that can come where it is, and the text stops after it where\nthat isn't the one that was meant.\n",
    )
}

// Adds the terminals as which the last word of a text can be read, which begins at a place.
fn add_terminals(
    language: &Language,
    text: &[u8],
    begin: usize,
    terminals: &mut Vec<usize>,
) -> Result<(), AllocError> {
    if begin >= text.len() {
        return Ok(());
    }
    let end = begin.saturating_add(without_blanks(&text[begin..]).len());
    let count = language.tables().count();
    'states: for state in 0..count {
        if let Some(terminal) = whole_word(scan(language, state, text, begin), begin, end) {
            if terminals.len() < MOST && !terminals.contains(&terminal) {
                push(terminals, terminal)?;
            }
        }
    }
    terminals.sort_unstable();
    Ok(())
}

// The terminal of a token that is from a place to another.
fn whole_word(scanned: Scanned, begin: usize, end: usize) -> Option<usize> {
    match scanned {
        Scanned::Token {
            terminal,
            at,
            lexeme: _,
            end: after,
        } => {
            if at == begin && after == end {
                Some(terminal)
            } else {
                None
            }
        }
        _ => None,
    }
}

// The text without the blanks at its end.
fn without_blanks(text: &[u8]) -> &[u8] {
    let end = text.len().saturating_sub(blanks_before(text, text.len()));
    &text[..end.min(text.len())]
}

// Where the word before a place begins: letters and digits, or else other signs, with no blank between them.
pub(crate) fn begin_of_word(text: &[u8], at: usize) -> usize {
    let end = at.saturating_sub(blanks_before(text, at));
    let own = sort_before(text, end);
    'bytes: for back in 0..end {
        let place = end.saturating_sub(back);
        if sort_before(text, place) != own {
            return place;
        }
    }
    0
}

// How many blanks are before a place.
fn blanks_before(text: &[u8], at: usize) -> usize {
    'bytes: for back in 0..at {
        if sort_before(text, at.saturating_sub(back)) != 0 {
            return back;
        }
    }
    at
}

// Which sort of byte is before a place: 0 is a blank or none, 1 a letter, a digit or `_`, and 2 another.
fn sort_before(text: &[u8], place: usize) -> u8 {
    if place == 0 {
        return 0;
    }
    match text.get(place.saturating_sub(1)) {
        Some(byte) => sort_of(*byte),
        None => 0,
    }
}

// Which sort a byte is of.
fn sort_of(byte: u8) -> u8 {
    if byte == b' ' || byte == b'\t' || byte == b'\n' || byte == b'\r' {
        return 0;
    }
    if byte.is_ascii_alphabetic() || byte == b'_' || byte.is_ascii_digit() {
        return 1;
    }
    2
}
