//! Which integer do bytes begin with, and how long is it?
//!
//! What digits write, and whether it is inside 64 bits, is in `wb_base`.

ghost use Rattle.std.specs.Prelude.{◌≡◌, ◌<◌, length, slice_index};
ghost use Rattle.wb_text_tokens.specs.Inner.Longest.{first_class, FindsLongest};
ghost use Rattle.wb_text_tokens.specs.Inner.Numbers.{FindsNumber};
ghost use Rattle.wb_text_tokens.specs.declared.token.Dialect.{Dialect};

use crate::Token;
use crate::token_class::TokenClass;
use wb_base::decimal::{digit_count, magnitude, with_sign};

// The number that the bytes begin with, and how many digits it has.
fn number(negative: bool, text: &[u8]) -> Option<(i64, usize)>
    ensures { FindsNumber negative text.now result }
{
    let count = digit_count(text);
    if count == 0 {
        return None;
    }
    let magnitude = magnitude(&text[..count])?;
    let value = with_sign(negative, magnitude)?;
    Some((value, count))
}

/// The integer that the bytes begin with, and its length.
pub fn integer(text: &[u8]) -> Option<(Token, usize)>
    requires some { 0 < length text.now }
    requires begins { first_class (slice_index text.now 0) ≡ TokenClass.Number }
    ensures { (dialect : Dialect) → FindsLongest dialect text.now result }
{
    if text[0] == b'-' {
        let (value, count) = number(true, &text[1..])?;
        Some((Token::Int(value), count + 1))
    } else {
        let (value, count) = number(false, text)?;
        Some((Token::Int(value), count))
    }
}
