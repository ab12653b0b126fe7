//! Which kinds of tokens are asked for, and how is each shown?

use wb_text_tokens::Punctuation::{
    At, Becomes, CloseBrace, CloseParenthesis, Colon, Comma, Dot, Equals, OpenBrace,
    OpenParenthesis, Semicolon,
};
use wb_text_tokens::TokenKind::{Mark, Name, Number, One, Regex, String, Two};
use wb_text_tokens::{TokenKind, Word};

// Each kind with what is shown for it: the words come with `TokenKind::Word`.
pub(crate) static KINDS: [TokenKind; 53] = [
    Name,
    Number,
    One,
    Two,
    String,
    Regex,
    TokenKind::Word(Word::Abstract),
    TokenKind::Word(Word::Aspect),
    TokenKind::Word(Word::Bool),
    TokenKind::Word(Word::Concrete),
    TokenKind::Word(Word::Else),
    TokenKind::Word(Word::End),
    TokenKind::Word(Word::Extensible),
    TokenKind::Word(Word::Extension),
    TokenKind::Word(Word::False),
    TokenKind::Word(Word::For),
    TokenKind::Word(Word::Format),
    TokenKind::Word(Word::Forward),
    TokenKind::Word(Word::Forwards),
    TokenKind::Word(Word::Host),
    TokenKind::Word(Word::If),
    TokenKind::Word(Word::Ignore),
    TokenKind::Word(Word::Inh),
    TokenKind::Word(Word::Int),
    TokenKind::Word(Word::Lexeme),
    TokenKind::Word(Word::Local),
    TokenKind::Word(Word::Marking),
    TokenKind::Word(Word::Needs),
    TokenKind::Word(Word::Nonterminal),
    TokenKind::Word(Word::Occurs),
    TokenKind::Word(Word::On),
    TokenKind::Word(Word::Over),
    TokenKind::Word(Word::Prefer),
    TokenKind::Word(Word::Start),
    TokenKind::Word(Word::Syn),
    TokenKind::Word(Word::Terminal),
    TokenKind::Word(Word::Text),
    TokenKind::Word(Word::Then),
    TokenKind::Word(Word::To),
    TokenKind::Word(Word::Top),
    TokenKind::Word(Word::True),
    TokenKind::Word(Word::Closed),
    Mark(Semicolon),
    Mark(Colon),
    Mark(Becomes),
    Mark(OpenBrace),
    Mark(CloseBrace),
    Mark(Equals),
    Mark(Dot),
    Mark(Comma),
    Mark(OpenParenthesis),
    Mark(CloseParenthesis),
    Mark(At),
];

// How a kind is shown, but for the words and the marks.
pub(crate) fn sort_shown(kind: TokenKind) -> &'static str {
    match kind {
        Name => "a name",
        Number => "a number",
        One => "1",
        Two => "2",
        String => "a string",
        Regex => "an expression between slashes",
        _ => "the end",
    }
}
