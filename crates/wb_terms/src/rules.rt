//! The rules of the grammar of terms, as a table.
//!
//! They are those of `specs/TermGrammar` with actions between the symbols. What is made of the actions is in `events`.

use wb_text_predictive::Rule;
use wb_text_predictive::Symbol::{Act, Nonterminal, Token};
use wb_text_tokens::{Punctuation, TokenKind, Word};

// The parts of a text, the grammar's nonterminals.
#[derive(Clone, Copy, Debug, PartialEq, Eq)]
pub(crate) enum Part {
    Term,
    Owner,
    Arguments,
    More,
    Argument,
}

// What is done between the symbols of a right side.
#[derive(Clone, Copy, Debug, PartialEq, Eq)]
pub(crate) enum Action {
    Qualify,
    Close,
}

// A rule of the table.
pub(crate) type TermRule = Rule<'static, TokenKind, Part, Action>;

pub(crate) static TERM: [TermRule; 1] = [Rule {
    kinds: &[TokenKind::Name],
    right: &[
        Token(TokenKind::Name),
        Nonterminal(Part::Owner),
        Token(TokenKind::Mark(Punctuation::OpenParenthesis)),
        Nonterminal(Part::Arguments),
        Token(TokenKind::Mark(Punctuation::CloseParenthesis)),
        Act(Action::Close),
    ],
}];

pub(crate) static OWNER: [TermRule; 2] = [
    Rule {
        kinds: &[TokenKind::Mark(Punctuation::OpenParenthesis)],
        right: &[],
    },
    Rule {
        kinds: &[TokenKind::Mark(Punctuation::Colon)],
        right: &[
            Token(TokenKind::Mark(Punctuation::Colon)),
            Token(TokenKind::Name),
            Act(Action::Qualify),
        ],
    },
];

pub(crate) static ARGUMENTS: [TermRule; 2] = [
    Rule {
        kinds: &[TokenKind::Mark(Punctuation::CloseParenthesis)],
        right: &[],
    },
    Rule {
        kinds: &[
            TokenKind::Name,
            TokenKind::One,
            TokenKind::Two,
            TokenKind::Number,
            TokenKind::String,
            TokenKind::Word(Word::True),
            TokenKind::Word(Word::False),
        ],
        right: &[Nonterminal(Part::Argument), Nonterminal(Part::More)],
    },
];

pub(crate) static MORE: [TermRule; 2] = [
    Rule {
        kinds: &[TokenKind::Mark(Punctuation::CloseParenthesis)],
        right: &[],
    },
    Rule {
        kinds: &[TokenKind::Mark(Punctuation::Comma)],
        right: &[
            Token(TokenKind::Mark(Punctuation::Comma)),
            Nonterminal(Part::Argument),
            Nonterminal(Part::More),
        ],
    },
];

pub(crate) static ARGUMENT: [TermRule; 7] = [
    Rule {
        kinds: &[TokenKind::One],
        right: &[Token(TokenKind::One)],
    },
    Rule {
        kinds: &[TokenKind::Two],
        right: &[Token(TokenKind::Two)],
    },
    Rule {
        kinds: &[TokenKind::Number],
        right: &[Token(TokenKind::Number)],
    },
    Rule {
        kinds: &[TokenKind::String],
        right: &[Token(TokenKind::String)],
    },
    Rule {
        kinds: &[TokenKind::Word(Word::True)],
        right: &[Token(TokenKind::Word(Word::True))],
    },
    Rule {
        kinds: &[TokenKind::Word(Word::False)],
        right: &[Token(TokenKind::Word(Word::False))],
    },
    Rule {
        kinds: &[TokenKind::Name],
        right: &[Nonterminal(Part::Term)],
    },
];
