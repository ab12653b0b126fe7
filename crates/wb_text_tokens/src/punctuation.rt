//! The punctuation marks.

ghost use Rattle.std.specs.Prelude.{◌≡◌, ◌<◌, length, slice_index};
ghost use Rattle.wb_text_tokens.specs.Inner.Longest.{first_class, FindsLongest};
ghost use Rattle.wb_text_tokens.specs.Words.{punctuation_text};
ghost use Rattle.wb_text_tokens.specs.declared.token.Dialect.{Dialect};
ghost use Rattle.wb_text_tokens.specs.Inner.Marks.{mark_at, colon_at, single_mark};

use crate::Token;
use crate::token_class::TokenClass;

/// A punctuation mark.
#[derive(Clone, Copy, Debug, PartialEq, Eq)]
pub enum Punctuation {
    /// `;`
    Semicolon,
    /// `:`
    Colon,
    /// `::=`
    Becomes,
    /// `{`
    OpenBrace,
    /// `}`
    CloseBrace,
    /// `=`
    Equals,
    /// `.`
    Dot,
    /// `,`
    Comma,
    /// `(`
    OpenParenthesis,
    /// `)`
    CloseParenthesis,
    /// `@`
    At,
}

impl Punctuation {
    /// The bytes that spell it.
    pub fn text(self) -> &'static [u8]
        ensures { result.now ≡ punctuation_text self }
    {
        match self {
            Punctuation::Semicolon => b";",
            Punctuation::Colon => b":",
            Punctuation::Becomes => b"::=",
            Punctuation::OpenBrace => b"{",
            Punctuation::CloseBrace => b"}",
            Punctuation::Equals => b"=",
            Punctuation::Dot => b".",
            Punctuation::Comma => b",",
            Punctuation::OpenParenthesis => b"(",
            Punctuation::CloseParenthesis => b")",
            Punctuation::At => b"@",
        }
    }
}

// The mark that a byte is by itself, if it isn't a colon.
fn single(b: u8) -> Option<Punctuation>
    ensures { result ≡ single_mark b }
{
    match b {
        b';' => Some(Punctuation::Semicolon),
        b'{' => Some(Punctuation::OpenBrace),
        b'}' => Some(Punctuation::CloseBrace),
        b'=' => Some(Punctuation::Equals),
        b'.' => Some(Punctuation::Dot),
        b',' => Some(Punctuation::Comma),
        b'(' => Some(Punctuation::OpenParenthesis),
        b')' => Some(Punctuation::CloseParenthesis),
        b'@' => Some(Punctuation::At),
        _ => None,
    }
}

// The mark that a colon with these bytes after it is.
fn colon(after: &[u8]) -> Punctuation
    ensures { result ≡ colon_at after.now }
{
    match after {
        [b':', b'=', ..] => Punctuation::Becomes,
        _ => Punctuation::Colon,
    }
}

// The mark at the beginning of the bytes.
fn mark(text: &[u8]) -> Option<Punctuation>
    ensures { result ≡ mark_at text.now }
{
    match text {
        [b':', after @ ..] => Some(colon(after)),
        [b, ..] => single(*b),
        [] => None,
    }
}

/// The punctuation mark that the bytes begin with, and its length.
pub fn longest_mark(text: &[u8]) -> Option<(Token, usize)>
    requires some { 0 < length text.now }
    requires begins { first_class (slice_index text.now 0) ≡ TokenClass.Mark }
    ensures { (dialect : Dialect) → FindsLongest dialect text.now result }
{
    let mark = mark(text)?;
    Some((Token::Punctuation(mark), mark.text().len()))
}
