//! What kind does a token have in a grammar?
//!
//! Tables decide by kinds, and a kind forgets what a name or a text says. The words and the marks are in `word` and `punctuation`.

ghost use Rattle.std.specs.Prelude.{◌≡◌};
ghost use Rattle.wb_text_tokens.specs.Kinds.{kind_of, integer_kind};

use crate::{Punctuation, Token, Word};

/// The kinds of tokens, and the end of a text.
#[derive(Clone, Copy, Debug, PartialEq, Eq)]
pub enum TokenKind {
    /// This reserved word.
    Word(Word),
    /// This punctuation mark.
    Mark(Punctuation),
    /// A name.
    Name,
    /// The integer 1.
    One,
    /// The integer 2.
    Two,
    /// Any other integer.
    Number,
    /// A string.
    String,
    /// A regular expression.
    Regex,
    /// The end of the text.
    End,
}

impl Token {
    /// Its kind.
    pub fn kind(&self) -> TokenKind
        ensures { result ≡ kind_of self.now }
    {
        match self {
            Token::Name(_) => TokenKind::Name,
            Token::Word(word) => TokenKind::Word(*word),
            Token::Int(value) => integer_kind(*value),
            Token::Text(_) => TokenKind::String,
            Token::Regex(_) => TokenKind::Regex,
            Token::Punctuation(mark) => TokenKind::Mark(*mark),
        }
    }
}

// The kind of an integer.
fn integer_kind(value: i64) -> TokenKind
    ensures { result ≡ integer_kind value }
{
    if value == 1 {
        TokenKind::One
    } else if value == 2 {
        TokenKind::Two
    } else {
        TokenKind::Number
    }
}
