//! What a token is, and what the reader of one token answers.

use crate::{Punctuation, Word};
use wb_base::Bytes;

/// A token of a text.
#[derive(Debug, Drop)]
pub enum Token {
    /// A name, which is no reserved word: its bytes.
    Name(Bytes),
    /// A reserved word.
    Word(Word),
    /// An integer, by its value.
    Int(i64),
    /// A string: the text between the quotes, with escapes replaced by what they stand for.
    Text(Bytes),
    /// A regular expression: the bytes between the slashes, as they are there.
    Regex(Bytes),
    /// A punctuation mark.
    Punctuation(Punctuation),
}

/// What a text is, which says what stands between its tokens and which words are reserved.
#[derive(Clone, Copy, Debug, PartialEq, Eq)]
pub enum Dialect {
    /// A term. Between two tokens are space, tab, LF and CR.
    Terms,
    /// A specification of format 1. Comments too are between tokens: from `//` to before the next LF, or to the end of the text.
    FormatOne,
    /// A specification of format 2, in which `closed` is reserved too.
    FormatTwo,
}
