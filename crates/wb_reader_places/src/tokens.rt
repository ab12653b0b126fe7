//! Where are the tokens of a text?
//!
//! A token's contents are let go at once: they are the bytes from its place to its end.

ghost use Rattle.std.specs.Prelude.{◌≡◌, ◌≤◌, ◌<◌, [], length, IfOk, OnOk, IfSome};
ghost use Rattle.wb_reader_places.specs.Tokens.{AreTokens, IsNextPlace, place_in};

use std::alloc::{AllocError, Global};
use wb_text_predictive::Next;
use wb_text_tokens::{Dialect, Punctuation, Token, TokenKind, Word, next_token};

/// A token of a text: its kind, the place of its first byte, and the place after its last.
#[derive(Clone, Copy)]
pub struct TokenPlace {
    /// Its kind.
    pub kind: TokenKind,
    /// The place of its first byte.
    pub at: usize,
    /// The place after its last byte.
    pub end: usize,
}

/// The tokens of a text in their order, up to its end or to the first bytes that begin no token.
///
/// The only error is out of memory. The time is linear in the text.
pub fn tokens_of(
    alloc: Global,
    text: &[u8],
    dialect: Dialect,
) -> Result<Vec<TokenPlace>, AllocError>
    ensures { IfOk result (λ places. AreTokens dialect text.now places.items) }
{
    let mut places = Vec::new(alloc);
    match push_tokens(alloc, &mut places, text, dialect) {
        Ok(()) => Ok(places),
        Err(error) => {
            drop(places);
            Err(error)
        }
    }
}

/// The dialect of a specification: that of format 2 where its tokens begin with `format`, the integer 2 and `;`.
///
/// In both dialects the tokens begin and end at the same places, and only `closed` is a name in one and a word in the other.
pub fn dialect_of(alloc: Global, text: &[u8]) -> Result<Dialect, AllocError> {
    let places = tokens_of(alloc, text, Dialect::FormatOne)?;
    let is_second = begins_second(&places);
    drop(places);
    Ok(dialect_if(is_second))
}

// The dialect of format 2, or that of format 1.
fn dialect_if(is_second: bool) -> Dialect {
    if is_second {
        Dialect::FormatTwo
    } else {
        Dialect::FormatOne
    }
}

// Whether the tokens begin with `format`, the integer 2 and `;`.
fn begins_second(places: &[TokenPlace]) -> bool {
    if places.len() < 3 {
        return false;
    }
    places[0].kind == TokenKind::Word(Word::Format)
        && places[1].kind == TokenKind::Two
        && places[2].kind == TokenKind::Mark(Punctuation::Semicolon)
}

// Appends the tokens of a text to none.
fn push_tokens(
    alloc: Global,
    places: &mut Vec<TokenPlace>,
    text: &[u8],
    dialect: Dialect,
) -> Result<(), AllocError>
    requires { places.now.items ≡ [] }
    ensures { OnOk result (AreTokens dialect text.now places.new.items) }
{
    let mut from = 0;
    'tokens: loop {
        match token_at(alloc, text, from, dialect)? {
            Some(place) => {
                places.push(place)?;
                from = place.end;
            }
            None => return Ok(()),
        }
    }
}

// The next token from a place on, where there is one.
fn token_at(
    alloc: Global,
    text: &[u8],
    from: usize,
    dialect: Dialect,
) -> Result<Option<TokenPlace>, AllocError>
    requires { from ≤ length text.now }
    ensures next { IfOk result (IsNextPlace dialect text.now from) }
    ensures forward { IfOk result (λ found. IfSome found (λ place. (from < place.end) × (place.end ≤ length text.now))) }
{
    let next = next_token(alloc, text, from, dialect)?;
    let found = place_in(&next);
    drop(next);
    Ok(found)
}

// The place of a token, where one is next.
fn place_in(next: &Next<Token>) -> Option<TokenPlace>
    ensures { result ≡ place_in next.now }
{
    match next {
        Next::Found(placed) => Some(TokenPlace {
            kind: placed.token.kind(),
            at: placed.at,
            end: placed.end,
        }),
        Next::End { at: _ } => None,
        Next::NoToken { at: _ } => None,
    }
}
