//! The reserved words, which are no names.

ghost use Rattle.std.specs.Prelude.{◌≡◌, ◌≢◌, ℕ, ◌<◌, length, slice_index_or, MatchOption, IfSome, IfNone};
ghost use Rattle.wb_text_tokens.specs.declared.word.Word.{Word};
ghost use Rattle.wb_text_tokens.specs.Words.{word_text, has_closed, is_word_of, IsSpelledIn, IsReservedIn};

use crate::Dialect;

/// A reserved word.
#[derive(Clone, Copy, Debug, PartialEq, Eq)]
pub enum Word {
    Abstract,
    Aspect,
    Bool,
    Concrete,
    Else,
    End,
    Extensible,
    Extension,
    False,
    For,
    Format,
    Forward,
    Forwards,
    Host,
    If,
    Ignore,
    Inh,
    Int,
    Lexeme,
    Local,
    Marking,
    Needs,
    Nonterminal,
    Occurs,
    On,
    Over,
    Prefer,
    Start,
    Syn,
    Terminal,
    Text,
    Then,
    To,
    Top,
    True,
    /// In specifications of format 2 alone.
    Closed,
}

const WORDS: [Word; 36] = [
    Word::Abstract,
    Word::Aspect,
    Word::Bool,
    Word::Concrete,
    Word::Else,
    Word::End,
    Word::Extensible,
    Word::Extension,
    Word::False,
    Word::For,
    Word::Format,
    Word::Forward,
    Word::Forwards,
    Word::Host,
    Word::If,
    Word::Ignore,
    Word::Inh,
    Word::Int,
    Word::Lexeme,
    Word::Local,
    Word::Marking,
    Word::Needs,
    Word::Nonterminal,
    Word::Occurs,
    Word::On,
    Word::Over,
    Word::Prefer,
    Word::Start,
    Word::Syn,
    Word::Terminal,
    Word::Text,
    Word::Then,
    Word::To,
    Word::Top,
    Word::True,
    Word::Closed,
];

impl Word {
    /// The bytes that spell it.
    pub fn text(self) -> &'static [u8]
        ensures { result.now ≡ word_text self }
    {
        match self {
            Word::Abstract => b"abstract",
            Word::Aspect => b"aspect",
            Word::Bool => b"bool",
            Word::Concrete => b"concrete",
            Word::Else => b"else",
            Word::End => b"end",
            Word::Extensible => b"extensible",
            Word::Extension => b"extension",
            Word::False => b"false",
            Word::For => b"for",
            Word::Format => b"format",
            Word::Forward => b"forward",
            Word::Forwards => b"forwards",
            Word::Host => b"host",
            Word::If => b"if",
            Word::Ignore => b"ignore",
            Word::Inh => b"inh",
            Word::Int => b"int",
            Word::Lexeme => b"lexeme",
            Word::Local => b"local",
            Word::Marking => b"marking",
            Word::Needs => b"needs",
            Word::Nonterminal => b"nonterminal",
            Word::Occurs => b"occurs",
            Word::On => b"on",
            Word::Over => b"over",
            Word::Prefer => b"prefer",
            Word::Start => b"start",
            Word::Syn => b"syn",
            Word::Terminal => b"terminal",
            Word::Text => b"text",
            Word::Then => b"then",
            Word::To => b"to",
            Word::Top => b"top",
            Word::True => b"true",
            Word::Closed => b"closed",
        }
    }
}

// The word of the list that the bytes spell.
fn spelled_among(words: &[Word], text: &[u8]) -> Option<Word>
    ensures some { IfSome result (λ word. text.now ≡ word_text word) }
    ensures none { IfNone result ((k : ℕ) (d : Word) → k < length words.now
        → text.now ≢ word_text (slice_index_or words.now k d)) }
{
    for word in words {
        if word.text() == text {
            return Some(*word);
        }
    }
    None
}

// Whether the word is reserved in the dialect.
fn is_word_of(dialect: Dialect, word: Word) -> bool
    ensures { result ≡ is_word_of dialect word }
{
    match word {
        Word::Closed => has_closed(dialect),
        _ => true,
    }
}

// Whether `closed` is reserved in the dialect.
fn has_closed(dialect: Dialect) -> bool
    ensures { result ≡ has_closed dialect }
{
    match dialect {
        Dialect::Terms => false,
        Dialect::FormatOne => false,
        Dialect::FormatTwo => true,
    }
}

/// The word of the dialect that the bytes spell.
pub fn word_of(text: &[u8], dialect: Dialect) -> Option<Word>
    ensures { MatchOption result (¬ IsReservedIn dialect text.now) (IsSpelledIn dialect text.now) }
{
    let word = spelled_among(&WORDS, text)?;
    if is_word_of(dialect, word) {
        Some(word)
    } else {
        None
    }
}
