//! Of which format does a text say that it is?
//!
//! It does by its first three tokens, whatever comes after. Each is let go before the next is read.

ghost use Rattle.std.specs.Prelude.{◌≡◌, ◌≤◌, ◌↔◌, IfOk, IsTrue, length, MatchOption};
ghost use Rattle.wb_text_tokens.specs.declared.token.Token.TheVariants as t;
ghost use Rattle.wb_text_tokens.specs.declared.word.Word.TheVariants as w;
ghost use Rattle.wb_text_tokens.specs.declared.punctuation.Punctuation.TheVariants as p;
ghost use Rattle.wb_reader.specs.Refusals.{BeginsWithFormat, IsOtherNumber, IsTwo};
ghost use Rattle.wb_reader.specs.Inner.Format.{IsWanted, IsEndWhere, IsNextEnd, IsDialectFound};

use std::alloc::{AllocError, Global};
use wb_text_predictive::{Next, Placed};
use wb_text_tokens::{Dialect, Punctuation, Token, Word, next_token};

// What the three tokens are, in their order.
#[derive(Clone, Copy)]
pub(crate) enum Wanted {
    // The word `format`.
    Format,
    // An integer other than 1 and 2.
    OtherNumber,
    // The integer 2.
    Two,
    // A semicolon.
    Semicolon,
}

// The dialect of a text's tokens, or none where it says that it is of another format.
pub(crate) fn dialect_in(alloc: Global, bytes: &[u8]) -> Result<Option<Dialect>, AllocError>
    ensures { IfOk result (IsDialectFound bytes.now) }
{
    if begins_with(alloc, bytes, Wanted::OtherNumber)? {
        return Ok(None);
    }
    if begins_with(alloc, bytes, Wanted::Two)? {
        return Ok(Some(Dialect::FormatTwo));
    }
    Ok(Some(Dialect::FormatOne))
}

// Whether a text begins with `format`, an integer as wanted, and `;`.
fn begins_with(alloc: Global, bytes: &[u8], wanted: Wanted) -> Result<bool, AllocError>
    ensures { IfOk result (λ so. IsTrue so ↔ BeginsWithFormat bytes.now (IsWanted wanted)) }
{
    let Some(word) = next_end(alloc, bytes, 0, Wanted::Format)? else {
        return Ok(false);
    };
    let Some(number) = next_end(alloc, bytes, word, wanted)? else {
        return Ok(false);
    };
    let mark = next_end(alloc, bytes, number, Wanted::Semicolon)?;
    Ok(mark.is_some())
}

// The end of the next token from a place on, where it is as wanted.
fn next_end(
    alloc: Global,
    bytes: &[u8],
    from: usize,
    wanted: Wanted,
) -> Result<Option<usize>, AllocError>
    requires { from ≤ length bytes.now }
    ensures next { IfOk result (IsNextEnd bytes.now from wanted) }
    ensures within { IfOk result (λ found. MatchOption found (Unit {0}) (λ end. end ≤ length bytes.now)) }
{
    match next_token(alloc, bytes, from, Dialect::FormatOne)? {
        Next::Found(lexeme) => Ok(end_where(wanted, &lexeme)),
        Next::End { at: _ } => Ok(None),
        Next::NoToken { at: _ } => Ok(None),
    }
}

// The end of a token, where it is as wanted.
fn end_where(wanted: Wanted, lexeme: &Placed<Token>) -> Option<usize>
    ensures { IsEndWhere wanted lexeme.now result }
{
    if is_wanted(wanted, &lexeme.token) {
        Some(lexeme.end)
    } else {
        None
    }
}

// Whether a token is as wanted.
fn is_wanted(wanted: Wanted, token: &Token) -> bool
    ensures { IsTrue result ↔ IsWanted wanted token.now }
{
    match wanted {
        Wanted::Format => is_format(token),
        Wanted::OtherNumber => is_other_number(token),
        Wanted::Two => is_two(token),
        Wanted::Semicolon => is_semicolon(token),
    }
}

// Whether a token is the word `format`.
fn is_format(token: &Token) -> bool
    ensures { IsTrue result ↔ (token.now ≡ t.Word w.Format) }
{
    match token {
        Token::Word(word) => *word == Word::Format,
        _ => false,
    }
}

// Whether a token is an integer other than 1 and 2.
fn is_other_number(token: &Token) -> bool
    ensures { IsTrue result ↔ IsOtherNumber token.now }
{
    match token {
        Token::Int(value) => *value != 1 && *value != 2,
        _ => false,
    }
}

// Whether a token is the integer 2.
fn is_two(token: &Token) -> bool
    ensures { IsTrue result ↔ IsTwo token.now }
{
    match token {
        Token::Int(value) => *value == 2,
        _ => false,
    }
}

// Whether a token is a semicolon.
fn is_semicolon(token: &Token) -> bool
    ensures { IsTrue result ↔ (token.now ≡ t.Punctuation p.Semicolon) }
{
    match token {
        Token::Punctuation(mark) => *mark == Punctuation::Semicolon,
        _ => false,
    }
}
