//! How are the bytes of a leaf shown? In a line as a string with escapes, in a picture as characters that XML allows.

ghost use Rattle.std.specs.Prelude.{◌≤◌, length};

use crate::push_text;
use std::alloc::AllocError;

/// Appends bytes as a string between quotes, with escapes. Of more than so many the first are shown, and `...`.
pub fn push_cut_string(out: &mut Vec<u8>, bytes: &[u8], most: usize) -> Result<(), AllocError> {
    let cut = cut_of(bytes, most);
    let is_text = str::from_utf8(cut).is_ok();
    out.push(b'"')?;
    'bytes: for byte in cut {
        push_escaped(out, *byte, is_text)?;
    }
    out.push(b'"')?;
    push_dots(out, cut, bytes)
}

/// Appends bytes as characters of an XML file. Of more than so many the first are shown, and `...`.
pub fn push_cut_xml(out: &mut Vec<u8>, bytes: &[u8], most: usize) -> Result<(), AllocError> {
    let cut = cut_of(bytes, most);
    push_xml(out, cut)?;
    push_dots(out, cut, bytes)
}

/// Appends bytes as characters of an XML file. A byte that is of no character of UTF-8, or a control character, is shown as a question mark.
pub fn push_xml(out: &mut Vec<u8>, bytes: &[u8]) -> Result<(), AllocError> {
    let is_text = str::from_utf8(bytes).is_ok();
    'bytes: for byte in bytes {
        push_character(out, *byte, is_text)?;
    }
    Ok(())
}

// Appends three dots, where bytes are cut.
fn push_dots(out: &mut Vec<u8>, cut: &[u8], bytes: &[u8]) -> Result<(), AllocError> {
    if cut.len() < bytes.len() {
        return push_text(out, "...");
    }
    Ok(())
}

// The first bytes, so many at most, without a part of a character.
fn cut_of(bytes: &[u8], most: usize) -> &[u8] {
    if bytes.len() <= most {
        return bytes;
    }
    &bytes[..whole_end(bytes, most)]
}

// The last place up to this one at which no part of a character goes on.
fn whole_end(bytes: &[u8], most: usize) -> usize
    requires { most ≤ length bytes.now }
    ensures { result ≤ length bytes.now }
{
    'bytes: for back in 0..4 {
        if back > most {
            return most;
        }
        let end = most - back;
        if !goes_on(bytes, end) {
            return end;
        }
    }
    most
}

// Whether a character that began before goes on at a place.
fn goes_on(bytes: &[u8], at: usize) -> bool {
    if at < bytes.len() {
        return bytes[at] >= 128 && bytes[at] < 192;
    }
    false
}

// Appends a byte of a string.
fn push_escaped(out: &mut Vec<u8>, byte: u8, is_text: bool) -> Result<(), AllocError> {
    match byte {
        b'"' => push_text(out, "\\\""),
        b'\\' => push_text(out, "\\\\"),
        b'\n' => push_text(out, "\\n"),
        b'\t' => push_text(out, "\\t"),
        b'\r' => push_text(out, "\\r"),
        _ => push_plain(out, byte, is_text),
    }
}

// Appends a byte of an XML file.
fn push_character(out: &mut Vec<u8>, byte: u8, is_text: bool) -> Result<(), AllocError> {
    match byte {
        b'&' => push_text(out, "&amp;"),
        b'<' => push_text(out, "&lt;"),
        b'>' => push_text(out, "&gt;"),
        b'"' => push_text(out, "&quot;"),
        b'\'' => push_text(out, "&#39;"),
        _ => push_plain(out, byte, is_text),
    }
}

// Appends a byte, or a question mark in the place of one that shows nothing.
fn push_plain(out: &mut Vec<u8>, byte: u8, is_text: bool) -> Result<(), AllocError> {
    if byte < 32 || byte == 127 || (byte >= 128 && !is_text) {
        return push_text(out, "?");
    }
    out.push(byte)?;
    Ok(())
}
