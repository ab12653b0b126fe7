//! Strings.

ghost use Rattle.std.specs.Prelude.{◌≡◌, ◌≤◌, ◌<◌, true, length, slice_index, IfOk, IfSome, Option, option_map, List, ℕ, Vec};
ghost use Rattle.wb_text_tokens.specs.Inner.Longest.{first_class, FindsLongest};
ghost use Rattle.wb_text_tokens.specs.declared.token.Dialect.{Dialect};
ghost use Rattle.wb_text_tokens.specs.Inner.Parts.{string_part, escape_at, hexadecimal_at, FindsString};
ghost use Rattle.wb_text_tokens.specs.Spelling.{is_plain, escaped_byte};

use crate::Token;
use crate::skipping::has_byte;
use crate::token_class::TokenClass;
use std::alloc::{AllocError, Global};
use wb_base::Bytes;
use wb_base::decimal::hex_value;

// The byte that a byte after a backslash stands for.
fn escaped_byte(e: u8) -> Option<u8>
    ensures { result ≡ escaped_byte e }
{
    match e {
        b'"' => Some(b'"'),
        b'\\' => Some(b'\\'),
        b'n' => Some(b'\n'),
        b't' => Some(b'\t'),
        b'r' => Some(b'\r'),
        _ => None,
    }
}

// The byte that hexadecimal digits after `\x` stand for, and the count of bytes from the backslash on.
fn hexadecimal(after: &[u8]) -> Option<(u8, usize)>
    ensures { result ≡ hexadecimal_at after.now }
{
    match after {
        [high, low, ..] => {
            let high = hex_value(*high)?;
            let low = hex_value(*low)?;
            Some((16 * high + low, 4))
        }
        _ => None,
    }
}

// The byte that an escape stands for, and the count of bytes from its backslash on.
fn escape(after: &[u8]) -> Option<(u8, usize)>
    ensures { result ≡ escape_at after.now }
{
    match after {
        [b'x', digits @ ..] => hexadecimal(digits),
        [e, ..] => {
            let b = escaped_byte(*e)?;
            Some((b, 2))
        }
        [] => None,
    }
}

// The byte that the first bytes stand for, and their count.
fn string_part(text: &[u8]) -> Option<(u8, usize)>
    ensures { result ≡ string_part text.now }
{
    match text {
        [b'\\', after @ ..] => escape(after),
        [b'"' | b'\n', ..] | [] => None,
        [b, ..] => Some((*b, 1)),
    }
}

// The text of a string and the place of its closing quote, in what comes after the opening quote.
fn string_body(alloc: Global, x: &[u8]) -> Result<Option<(Vec<u8>, usize)>, AllocError>
    ensures { IfOk result (λ found. FindsString x.now (option_map (λ pair. (pair.0.items, pair.1)) found)) }
{
    let mut text = Vec::new(alloc);
    let mut at = 0;
    while let Some((b, count)) = string_part(&x[at..]) {
        text.push(b)?;
        at += count;
    }
    if has_byte(x, at, b'"') {
        Ok(Some((text, at)))
    } else {
        Ok(None)
    }
}

/// The string that the bytes begin with, and its length.
pub fn string(alloc: Global, text: &[u8]) -> Result<Option<(Token, usize)>, AllocError>
    requires some { 0 < length text.now }
    requires begins { first_class (slice_index text.now 0) ≡ TokenClass.Quote }
    ensures { IfOk result (λ found. (dialect : Dialect) → FindsLongest dialect text.now found) }
{
    let Some((decoded, place)) = string_body(alloc, &text[1..])? else {
        return Ok(None);
    };
    let decoded = Bytes::from_slice(alloc, &decoded)?;
    Ok(Some((Token::Text(decoded), place + 2)))
}
