//! Names and reserved words.

ghost use Rattle.std.specs.Prelude.{◌≡◌, ◌<◌, true, length, slice_index, IfOk, Some};
ghost use Rattle.std.specs.List.{prefix_len};
ghost use Rattle.wb_text_tokens.specs.Inner.Longest.{first_class, FindsLongest};
ghost use Rattle.wb_base.specs.Identifiers.{is_letter, is_name_byte};

use crate::token_class::{TokenClass, is_letter};
use crate::word::word_of;
use crate::{Dialect, Token};
use std::alloc::{AllocError, Global};
use wb_base::Bytes;

// Whether the byte is a letter, a digit or `_`.
fn is_name_byte(b: u8) -> bool
    ensures { result ≡ is_name_byte b }
{
    is_letter(b) || b.is_ascii_digit()
}

// How many letters, digits and `_` the bytes begin with.
fn name_len(text: &[u8]) -> usize
    ensures { result ≡ prefix_len is_name_byte text.now }
{
    for (place, b) in text.iter().enumerate() {
        if !is_name_byte(*b) {
            return place;
        }
    }
    text.len()
}

/// The name or the word of the dialect that the bytes begin with, and its length.
pub fn name(
    alloc: Global,
    text: &[u8],
    dialect: Dialect,
) -> Result<Option<(Token, usize)>, AllocError>
    requires some { 0 < length text.now }
    requires begins { first_class (slice_index text.now 0) ≡ TokenClass.Letter }
    ensures { IfOk result (FindsLongest dialect text.now) }
{
    let length = name_len(text);
    let spelling = &text[..length];
    if let Some(word) = word_of(spelling, dialect) {
        return Ok(Some((Token::Word(word), length)));
    }
    let name = Bytes::from_slice(alloc, spelling)?;
    Ok(Some((Token::Name(name), length)))
}
