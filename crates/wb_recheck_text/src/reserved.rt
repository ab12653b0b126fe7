//! Is an identifier reserved?

ghost use Rattle.std.specs.Prelude.{Contains, MatchBool, map};
ghost use Rattle.wb_base.specs.Identifiers.{IsReserved};
ghost use Rattle.wb_text_tokens.specs.Words.{word_text};

use wb_text_tokens::Word;

// What is a word in every format. `closed` is one in format 2 alone, and a name in format 1.
static WORDS: [Word; 35] = [
    Word::Abstract,
    Word::Aspect,
    Word::Bool,
    Word::Concrete,
    Word::Else,
    Word::End,
    Word::Extensible,
    Word::Extension,
    Word::False,
    Word::For,
    Word::Format,
    Word::Forward,
    Word::Forwards,
    Word::Host,
    Word::If,
    Word::Ignore,
    Word::Inh,
    Word::Int,
    Word::Lexeme,
    Word::Local,
    Word::Marking,
    Word::Needs,
    Word::Nonterminal,
    Word::Occurs,
    Word::On,
    Word::Over,
    Word::Prefer,
    Word::Start,
    Word::Syn,
    Word::Terminal,
    Word::Text,
    Word::Then,
    Word::To,
    Word::Top,
    Word::True,
];

// Whether the bytes are a reserved word.
pub(crate) fn is_reserved(text: &[u8]) -> bool
    ensures { MatchBool result (IsReserved text.now) (¬ IsReserved text.now) }
{
    is_among(&WORDS, text)
}

// Whether one of the words is spelled so.
fn is_among(words: &[Word], text: &[u8]) -> bool
    ensures { MatchBool result (Contains (map word_text words.now) text.now) (¬ Contains (map word_text words.now) text.now) }
{
    for word in words {
        if word.text() == text {
            return true;
        }
    }
    false
}
