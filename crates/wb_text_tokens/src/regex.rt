//! Regular expressions, as tokens.

ghost use Rattle.std.specs.Prelude.{◌≡◌, ◌≤◌, ◌<◌, true, length, slice_index, IfOk};
ghost use Rattle.wb_text_tokens.specs.Inner.Longest.{first_class, FindsLongest};
ghost use Rattle.wb_text_tokens.specs.declared.token.Dialect.{Dialect};
ghost use Rattle.wb_text_tokens.specs.Inner.Parts.{regex_part, regex_escape, FindsRegex};

use crate::Token;
use crate::skipping::has_byte;
use crate::token_class::TokenClass;
use std::alloc::{AllocError, Global};
use wb_base::Bytes;

// The count of bytes of a part that begins with a backslash.
fn escape(after: &[u8]) -> Option<usize>
    ensures { result ≡ regex_escape after.now }
{
    match after {
        [b'\n', ..] | [] => None,
        _ => Some(2),
    }
}

// The count of bytes of the first part.
fn regex_part(text: &[u8]) -> Option<usize>
    ensures { result ≡ regex_part text.now }
{
    match text {
        [b'\\', after @ ..] => escape(after),
        [b'/' | b'\n', ..] | [] => None,
        _ => Some(1),
    }
}

// The place of the closing slash, in what comes after the opening one.
fn regex_body(x: &[u8]) -> Option<usize>
    ensures { FindsRegex x.now result }
{
    let mut at = 0;
    while let Some(count) = regex_part(&x[at..]) {
        at += count;
    }
    if has_byte(x, at, b'/') {
        Some(at)
    } else {
        None
    }
}

/// The regular expression that the bytes begin with, and its length.
pub fn regex(alloc: Global, text: &[u8]) -> Result<Option<(Token, usize)>, AllocError>
    requires some { 0 < length text.now }
    requires begins { first_class (slice_index text.now 0) ≡ TokenClass.Slash }
    ensures { IfOk result (λ found. (dialect : Dialect) → FindsLongest dialect text.now found) }
{
    let Some(place) = regex_body(&text[1..]) else {
        return Ok(None);
    };
    if place == 0 {
        return Ok(None);
    }
    let body = Bytes::from_slice(alloc, &text[1..=place])?;
    Ok(Some((Token::Regex(body), place + 2)))
}
