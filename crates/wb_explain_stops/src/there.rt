//! What is at the stop instead of what could come: a word of the language that can't come there, or none at all.

use crate::stop::Shown;
use crate::writing::{push_text, push_word};
use std::alloc::AllocError;
use wb_base::Bytes;
use wb_parser_expected::{Stop, StopKind, Word, word_at};

// The most bytes of a word at a stop that are looked at.
const NEAR: usize = 4_096;

// Appends what is at a stop.
pub(crate) fn push_there(
    out: &mut Vec<u8>,
    shown: &Shown<'_>,
    text: &[u8],
    found: &Stop,
) -> Result<(), AllocError> {
    match found.kind {
        StopKind::NoToken => push_found(out, shown, text, found.at),
        StopKind::Unexpected(terminal) => push_unexpected(out, shown.names, terminal),
    }
}

// Appends which word of the language is at a place, where one is.
fn push_found(
    out: &mut Vec<u8>,
    shown: &Shown<'_>,
    text: &[u8],
    at: usize,
) -> Result<(), AllocError> {
    let near = &text[..text.len().min(at.saturating_add(NEAR))];
    if at > near.len() {
        return Ok(());
    }
    match word_at(shown.language, near, at) {
        Some(word) => push_known(out, shown.names, near, word),
        None => push_text(
            out,
            "\nNo word of the language begins with what is here. A letter, a sign or a space\nthat is in no word and no layout isn't allowed.\n",
        ),
    }
}

// Appends a word that can't come where it is.
fn push_known(
    out: &mut Vec<u8>,
    names: &[Bytes],
    text: &[u8],
    word: Word,
) -> Result<(), AllocError> {
    push_text(out, "\nWhat is here can't come here: '")?;
    if word.at <= word.end && word.end <= text.len() {
        push_word(out, &text[word.at..word.end])?;
    }
    push_text(out, "' is a word of\n")?;
    push_name(out, names, word.terminal)?;
    push_text(out, ".\n")
}

// Appends what is said of a terminal that is next and can't come.
fn push_unexpected(out: &mut Vec<u8>, names: &[Bytes], terminal: usize) -> Result<(), AllocError> {
    if terminal >= names.len() {
        return push_text(out, "\nThe text ends here, and it can't yet.\n");
    }
    push_text(out, "\nWhat is here can't come here: it is a word of\n")?;
    push_name(out, names, terminal)?;
    push_text(out, ".\n")
}

// Appends the name of a terminal.
pub(crate) fn push_name(
    out: &mut Vec<u8>,
    names: &[Bytes],
    terminal: usize,
) -> Result<(), AllocError> {
    match names.get(terminal) {
        Some(name) => out.extend_from_slice(name.as_slice()),
        None => push_text(out, "end"),
    }
}
