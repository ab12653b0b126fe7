//! The rules of kinds, flow types, children and equations.
//!
//! ```text
//! kind     = 'int' | 'bool' | 'text' | NAME
//! needs    = 'needs' '{' [NAME (',' NAME)*] '}'
//! child    = NAME ':' kind
//! block    = '{' equation* '}'
//! equation = 'top' '.' NAME '=' value
//!          | NAME '.' NAME '=' value
//!          | 'forward' '.' NAME '=' value
//!          | 'local' NAME ':' NAME '=' value
//!          | 'forwards' 'to' value
//! value    = expression ';'
//! ```

use crate::part::{Part, SpecRule};
use wb_reader_builder::{Action, PartAction};
use wb_text_predictive::Rule;
use wb_text_predictive::Symbol::{Act, Nonterminal, Token};
use wb_text_tokens::{Punctuation, TokenKind, Word};

pub(crate) static KIND: [SpecRule; 4] = [
    Rule {
        kinds: &[TokenKind::Word(Word::Int)],
        right: &[
            Token(TokenKind::Word(Word::Int)),
            Act(Action::Part(PartAction::IntKind)),
        ],
    },
    Rule {
        kinds: &[TokenKind::Word(Word::Bool)],
        right: &[
            Token(TokenKind::Word(Word::Bool)),
            Act(Action::Part(PartAction::BoolKind)),
        ],
    },
    Rule {
        kinds: &[TokenKind::Word(Word::Text)],
        right: &[
            Token(TokenKind::Word(Word::Text)),
            Act(Action::Part(PartAction::TextKind)),
        ],
    },
    Rule {
        kinds: &[TokenKind::Name],
        right: &[
            Token(TokenKind::Name),
            Act(Action::Part(PartAction::NameKind)),
        ],
    },
];

pub(crate) static OPTIONAL_NEEDS: [SpecRule; 2] = [
    Rule {
        kinds: &[TokenKind::Mark(Punctuation::Semicolon)],
        right: &[Act(Action::Part(PartAction::NoNeeds))],
    },
    Rule {
        kinds: &[TokenKind::Word(Word::Needs)],
        right: &[
            Nonterminal(Part::Needs),
            Act(Action::Part(PartAction::SomeNeeds)),
        ],
    },
];

pub(crate) static NEEDS: [SpecRule; 1] = [Rule {
    kinds: &[TokenKind::Word(Word::Needs)],
    right: &[
        Token(TokenKind::Word(Word::Needs)),
        Token(TokenKind::Mark(Punctuation::OpenBrace)),
        Act(Action::Part(PartAction::BeginNames)),
        Nonterminal(Part::Names),
        Token(TokenKind::Mark(Punctuation::CloseBrace)),
    ],
}];

pub(crate) static NAMES: [SpecRule; 2] = [
    Rule {
        kinds: &[TokenKind::Mark(Punctuation::CloseBrace)],
        right: &[],
    },
    Rule {
        kinds: &[TokenKind::Name],
        right: &[
            Token(TokenKind::Name),
            Act(Action::Part(PartAction::AddName)),
            Nonterminal(Part::FurtherNames),
        ],
    },
];

pub(crate) static FURTHER_NAMES: [SpecRule; 2] = [
    Rule {
        kinds: &[TokenKind::Mark(Punctuation::CloseBrace)],
        right: &[],
    },
    Rule {
        kinds: &[TokenKind::Mark(Punctuation::Comma)],
        right: &[
            Token(TokenKind::Mark(Punctuation::Comma)),
            Token(TokenKind::Name),
            Act(Action::Part(PartAction::AddName)),
            Nonterminal(Part::FurtherNames),
        ],
    },
];

pub(crate) static CHILDREN: [SpecRule; 2] = [
    Rule {
        kinds: &[TokenKind::Mark(Punctuation::OpenBrace)],
        right: &[],
    },
    Rule {
        kinds: &[TokenKind::Name],
        right: &[
            Token(TokenKind::Name),
            Token(TokenKind::Mark(Punctuation::Colon)),
            Nonterminal(Part::Kind),
            Act(Action::Part(PartAction::AddChild)),
            Nonterminal(Part::Children),
        ],
    },
];

pub(crate) static BLOCK: [SpecRule; 1] = [Rule {
    kinds: &[TokenKind::Mark(Punctuation::OpenBrace)],
    right: &[
        Token(TokenKind::Mark(Punctuation::OpenBrace)),
        Act(Action::Part(PartAction::BeginEquations)),
        Nonterminal(Part::Equations),
        Token(TokenKind::Mark(Punctuation::CloseBrace)),
    ],
}];

pub(crate) static EQUATIONS: [SpecRule; 2] = [
    Rule {
        kinds: &[TokenKind::Mark(Punctuation::CloseBrace)],
        right: &[],
    },
    Rule {
        kinds: &[
            TokenKind::Word(Word::Forward),
            TokenKind::Word(Word::Forwards),
            TokenKind::Word(Word::Local),
            TokenKind::Word(Word::Top),
            TokenKind::Name,
        ],
        right: &[Nonterminal(Part::Equation), Nonterminal(Part::Equations)],
    },
];

pub(crate) static EQUATION: [SpecRule; 5] = [
    Rule {
        kinds: &[TokenKind::Word(Word::Top)],
        right: &[
            Token(TokenKind::Word(Word::Top)),
            Token(TokenKind::Mark(Punctuation::Dot)),
            Token(TokenKind::Name),
            Token(TokenKind::Mark(Punctuation::Equals)),
            Act(Action::Part(PartAction::TopTarget)),
            Nonterminal(Part::Value),
        ],
    },
    Rule {
        kinds: &[TokenKind::Name],
        right: &[
            Token(TokenKind::Name),
            Token(TokenKind::Mark(Punctuation::Dot)),
            Token(TokenKind::Name),
            Token(TokenKind::Mark(Punctuation::Equals)),
            Act(Action::Part(PartAction::LabelTarget)),
            Nonterminal(Part::Value),
        ],
    },
    Rule {
        kinds: &[TokenKind::Word(Word::Forward)],
        right: &[
            Token(TokenKind::Word(Word::Forward)),
            Token(TokenKind::Mark(Punctuation::Dot)),
            Token(TokenKind::Name),
            Token(TokenKind::Mark(Punctuation::Equals)),
            Act(Action::Part(PartAction::ForwardTarget)),
            Nonterminal(Part::Value),
        ],
    },
    Rule {
        kinds: &[TokenKind::Word(Word::Local)],
        right: &[
            Token(TokenKind::Word(Word::Local)),
            Token(TokenKind::Name),
            Token(TokenKind::Mark(Punctuation::Colon)),
            Token(TokenKind::Name),
            Token(TokenKind::Mark(Punctuation::Equals)),
            Act(Action::Part(PartAction::LocalTarget)),
            Nonterminal(Part::Value),
        ],
    },
    Rule {
        kinds: &[TokenKind::Word(Word::Forwards)],
        right: &[
            Token(TokenKind::Word(Word::Forwards)),
            Token(TokenKind::Word(Word::To)),
            Act(Action::Part(PartAction::ForwardsToTarget)),
            Nonterminal(Part::Value),
        ],
    },
];

pub(crate) static VALUE: [SpecRule; 1] = [Rule {
    kinds: &[
        TokenKind::Word(Word::False),
        TokenKind::Word(Word::Forward),
        TokenKind::Word(Word::If),
        TokenKind::Word(Word::Top),
        TokenKind::Word(Word::True),
        TokenKind::Mark(Punctuation::At),
        TokenKind::Name,
        TokenKind::One,
        TokenKind::Two,
        TokenKind::Number,
        TokenKind::String,
    ],
    right: &[
        Act(Action::Part(PartAction::BeginNodes)),
        Nonterminal(Part::Expression),
        Token(TokenKind::Mark(Punctuation::Semicolon)),
        Act(Action::Part(PartAction::AddEquation)),
    ],
}];
