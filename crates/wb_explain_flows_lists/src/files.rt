//! In which file is something, and in which line?
//!
//! An owner is the host, whose number is 0, or the extension. The word that names the host's file isn't known where an extension is refused.

ghost use Rattle.std.specs.Prelude.{◌≡◌, ◌==◌, if◌then◌else◌};
ghost use Rattle.wb_explain_flows_lists.specs.Files.{text_of};

use crate::writing::{push_number, push_text};
use std::alloc::AllocError;
use wb_explain_places::{Source, next_use};

// The most uses of a name that are looked at.
const USES: usize = 1_000;

/// The contents of an owner's file.
pub fn text_of<'a>(source: &Source<'a>, owner: usize) -> &'a [u8]
    ensures { result.now ≡ text_of source.now owner }
{
    match source.host {
        Some(host) => one_of(host, source.contents, owner),
        None => source.contents,
    }
}

// Those of the host's file for the host, and others for the extension.
fn one_of<'a>(host: &'a [u8], contents: &'a [u8], owner: usize) -> &'a [u8]
    ensures { result.now ≡ if owner == 0 then host.now else contents.now }
{
    if owner == 0 { host } else { contents }
}

/// What an owner's file is called.
pub fn file_of<'a>(source: &Source<'a>, owner: usize) -> &'a str {
    if owner == 0 && source.host.is_some() {
        "the host's file"
    } else {
        source.file
    }
}

// Appends in which line of which file a production is declared, where that is found.
pub(crate) fn push_line(
    out: &mut Vec<u8>,
    source: &Source<'_>,
    owner: usize,
    name: &[u8],
) -> Result<(), AllocError> {
    let text = text_of(source, owner);
    let Some(at) = declared_at(text, name) else {
        return Ok(());
    };
    push_text(out, ", in line ")?;
    push_number(out, line_number(text, at))?;
    if owner == 0 && source.host.is_some() {
        push_text(out, " of the host's file")?;
    }
    Ok(())
}

// The number of the line of a place.
pub(crate) fn line_number(text: &[u8], at: usize) -> usize {
    let end = at.min(text.len());
    let mut line: usize = 1;
    'bytes: for byte in &text[..end] {
        if *byte == b'\n' {
            line = line.saturating_add(1);
        }
    }
    line
}

// The place of a production's name where it is declared: the word before it is `concrete` or `abstract`.
fn declared_at(text: &[u8], name: &[u8]) -> Option<usize> {
    let mut from = 0;
    'uses: for _ in 0..USES {
        let Some(at) = next_use(text, name, from) else {
            return None;
        };
        if is_declared(text, at) {
            return Some(at);
        }
        from = at.saturating_add(1);
    }
    None
}

// Whether the word before a place is one that declares a production.
fn is_declared(text: &[u8], at: usize) -> bool {
    let end = before_spaces(text, at);
    ends_with(text, end, b"concrete") || ends_with(text, end, b"abstract")
}

// The place after what comes before the spaces before a place, of which 64 are looked at.
fn before_spaces(text: &[u8], at: usize) -> usize {
    let stop = at.min(text.len());
    let mut end = 0;
    'bytes: for place in stop.saturating_sub(64)..stop {
        if !is_space(text[place]) {
            end = place.saturating_add(1);
        }
    }
    end
}

// Whether a byte is a space.
fn is_space(byte: u8) -> bool {
    byte == b' ' || byte == b'\n' || byte == b'\t' || byte == b'\r'
}

// Whether a word ends at a place.
fn ends_with(text: &[u8], end: usize, word: &[u8]) -> bool {
    if end > text.len() || end < word.len() {
        return false;
    }
    &text[end - word.len()..end] == word
}
