//! Which word of a language is at a place of a text, whatever was read before? The text is scanned there at each state.

ghost use Rattle.std.specs.Prelude.{◌≤◌, ℕ, IfSome, IsNone, length};
ghost use Rattle.wb_parser_expected.specs.Inner.Longer.{IsLonger, IsWordOf};
ghost use Rattle.wb_parser_expected.specs.WordsAt.{IsLastEnd, IsWordAt};

use wb_scan::{Language, Scanned, scan};

/// A word of a language in a text. Places are counted in bytes from 0 on.
#[derive(Clone, Copy, Debug, PartialEq, Eq)]
pub struct Word {
    /// The number of its terminal.
    pub terminal: usize,
    /// The place of its first byte, after layout.
    pub at: usize,
    /// The place after its last byte.
    pub end: usize,
}

/// The longest word of the language from a place of a text on, after layout, at any prefix of the language: it may be one that can't come
/// there. Which of several that end at one place is shown is left open.
///
/// The text is scanned once for each state.
pub fn word_at(language: &Language, text: &[u8], from: usize) -> Option<Word>
    requires { from ≤ length text.now }
    ensures some { IfSome result (λ word. IsWordAt language.now.language text.now from word.terminal word.at word.end) }
    ensures longest { IfSome result (λ word. IsLastEnd language.now.language text.now from word.end) }
    ensures none { IsNone result → (terminal at end : ℕ) → ¬ IsWordAt language.now.language text.now from terminal at end }
{
    let count = language.tables().count();
    let mut longest = None;
    'states: for state in 0..count {
        longest = longer(longest, word_of(scan(language, state, text, from)));
    }
    longest
}

// The word of a token.
fn word_of(scanned: Scanned) -> Option<Word>
    ensures { IsWordOf scanned result }
{
    match scanned {
        Scanned::Token {
            terminal,
            at,
            lexeme: _,
            end,
        } => Some(Word { terminal, at, end }),
        Scanned::End { at: _ } => None,
        Scanned::NoToken { at: _ } => None,
    }
}

// The word that ends later, the first where both end at one place.
fn longer(one: Option<Word>, other: Option<Word>) -> Option<Word>
    ensures { IsLonger one other result }
{
    let Some(first) = one else {
        return other;
    };
    let Some(second) = other else {
        return one;
    };
    if first.end < second.end { other } else { one }
}
