//! Would the text go on with the name of an extension before the word at the stop, or before the word that is before it? So it does where a
//! marker has no bare form.

use crate::before::begin_of_word;
use crate::stop::Shown;
use crate::writing::push_text;
use crate::written::{colon_in, expression_of};
use std::alloc::{AllocError, Global};
use wb_base::Bytes;
use wb_parser_expected::stop_of;

// The most extensions that are tried.
const MOST: usize = 8;

// The most bytes before a stop with which a text is read once more.
const BEFORE: usize = 16_384;

// The most bytes after it.
const AFTER: usize = 256;

// Appends the forms with the name of an extension that would do at a stop, or else before it.
pub(crate) fn push_prefixes(
    alloc: Global,
    out: &mut Vec<u8>,
    shown: &Shown<'_>,
    text: &[u8],
    at: usize,
) -> Result<(), AllocError> {
    if at > text.len() || at > BEFORE {
        return Ok(());
    }
    let text = &text[..text.len().min(at.saturating_add(AFTER))];
    if push_forms(alloc, out, shown, text, at, at)? {
        return Ok(());
    }
    let begin = begin_of_word(text, at);
    if begin < at {
        push_forms(alloc, out, shown, text, begin, at)?;
    }
    Ok(())
}

// Appends those that would do at a place, for a text that stops at the same place or after it. Answers whether there are some.
fn push_forms(
    alloc: Global,
    out: &mut Vec<u8>,
    shown: &Shown<'_>,
    text: &[u8],
    place: usize,
    at: usize,
) -> Result<bool, AllocError> {
    let mut tried: usize = 0;
    let mut found = false;
    'terminals: for name in shown.names {
        let name = name.as_slice();
        if tried < MOST && is_word_of(shown.files, name, text, place) {
            tried = tried.saturating_add(1);
            let colon = colon_in(name);
            let extension = &name[..colon];
            if goes_on(alloc, shown, text, place, at, extension)? {
                push_form(out, !found, name, extension, shown.files)?;
                found = true;
            }
        }
    }
    Ok(found)
}

// Whether the text has at a place what a file writes for the terminal of an extension.
fn is_word_of(files: &[Bytes], name: &[u8], text: &[u8], place: usize) -> bool {
    if colon_in(name) == name.len() || place > text.len() {
        return false;
    }
    match expression_of(files, name) {
        Some(expression) => begins_so(&text[place..], expression),
        None => false,
    }
}

// Whether a text begins with the word that an expression is, where it is one word.
fn begins_so(text: &[u8], expression: &[u8]) -> bool {
    if expression.is_empty() {
        return false;
    }
    let mut place: usize = 0;
    let mut is_escaped = false;
    'bytes: for &byte in &expression[1..] {
        if byte == b'\\' && !is_escaped {
            is_escaped = true;
        } else if byte == b'/' && !is_escaped {
            return place > 0;
        } else if text.get(place) == Some(&byte) {
            place = place.saturating_add(1);
            is_escaped = false;
        } else {
            return false;
        }
    }
    false
}

// Appends a form, with a heading before the first.
fn push_form(
    out: &mut Vec<u8>,
    is_first: bool,
    name: &[u8],
    extension: &[u8],
    files: &[Bytes],
) -> Result<(), AllocError> {
    if is_first {
        push_text(
            out,
            "\nA word that two extensions have is written with the name of its extension. With\none of these in its place the text goes on:\n\n",
        )?;
    }
    push_text(out, "    ")?;
    out.extend_from_slice(extension)?;
    push_text(out, "::")?;
    if let Some(expression) = expression_of(files, name) {
        push_plain(out, expression)?;
    }
    push_text(out, "\n")
}

// Appends an expression without its slashes and the backslashes before its bytes.
fn push_plain(out: &mut Vec<u8>, expression: &[u8]) -> Result<(), AllocError> {
    let mut is_escaped = false;
    'bytes: for &byte in expression {
        if is_escaped || (byte != b'/' && byte != b'\\') {
            out.push(byte)?;
            is_escaped = false;
        } else {
            is_escaped = byte == b'\\';
        }
    }
    Ok(())
}

// Whether a text that stops at a place goes on further with the name of an extension and two colons at this or an earlier one.
fn goes_on(
    alloc: Global,
    shown: &Shown<'_>,
    text: &[u8],
    place: usize,
    at: usize,
    extension: &[u8],
) -> Result<bool, AllocError> {
    let mut longer = Vec::new(alloc);
    let answer = match push_longer(&mut longer, text, place, extension) {
        Ok(()) => is_further(alloc, shown, &longer, at.saturating_add(extension.len())),
        Err(error) => Err(error),
    };
    drop(longer);
    answer
}

// Appends the text with the name of an extension and two colons at a place.
fn push_longer(
    longer: &mut Vec<u8>,
    text: &[u8],
    place: usize,
    extension: &[u8],
) -> Result<(), AllocError> {
    let place = place.min(text.len());
    longer.extend_from_slice(&text[..place])?;
    longer.extend_from_slice(extension)?;
    longer.extend_from_slice(b"::")?;
    longer.extend_from_slice(&text[place..])
}

// Whether a text goes on further than two bytes after a place.
fn is_further(
    alloc: Global,
    shown: &Shown<'_>,
    text: &[u8],
    at: usize,
) -> Result<bool, AllocError> {
    match stop_of(alloc, shown.language, text)? {
        Some(found) => {
            let is = found.at > at.saturating_add(2);
            drop(found);
            Ok(is)
        }
        None => Ok(true),
    }
}
