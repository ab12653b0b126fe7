//! The rules of expressions.
//!
//! ```text
//! expression = INT | STRING | 'true' | 'false'
//!            | NAME | NAME '.' NAME | NAME '.' 'lexeme'
//!            | 'top' '.' NAME | 'forward' '.' NAME
//!            | NAME '(' arguments ')' | '@' NAME '(' arguments ')'
//!            | 'if' expression 'then' expression 'else' expression
//! arguments  = [expression (',' expression)*]
//! ```

use crate::part::{Part, SpecRule};
use wb_reader_builder::{Action, ExpressionAction};
use wb_text_predictive::Rule;
use wb_text_predictive::Symbol::{Act, Nonterminal, Token};
use wb_text_tokens::{Punctuation, TokenKind, Word};

pub(crate) static EXPRESSION: [SpecRule; 9] = [
    Rule {
        kinds: &[TokenKind::One, TokenKind::Two, TokenKind::Number],
        right: &[
            Nonterminal(Part::Integer),
            Act(Action::Expression(ExpressionAction::Number)),
        ],
    },
    Rule {
        kinds: &[TokenKind::String],
        right: &[
            Token(TokenKind::String),
            Act(Action::Expression(ExpressionAction::String)),
        ],
    },
    Rule {
        kinds: &[TokenKind::Word(Word::True)],
        right: &[
            Token(TokenKind::Word(Word::True)),
            Act(Action::Expression(ExpressionAction::True)),
        ],
    },
    Rule {
        kinds: &[TokenKind::Word(Word::False)],
        right: &[
            Token(TokenKind::Word(Word::False)),
            Act(Action::Expression(ExpressionAction::False)),
        ],
    },
    Rule {
        kinds: &[TokenKind::Name],
        right: &[Token(TokenKind::Name), Nonterminal(Part::Tail)],
    },
    Rule {
        kinds: &[TokenKind::Word(Word::Top)],
        right: &[
            Token(TokenKind::Word(Word::Top)),
            Token(TokenKind::Mark(Punctuation::Dot)),
            Token(TokenKind::Name),
            Act(Action::Expression(ExpressionAction::ReadTop)),
        ],
    },
    Rule {
        kinds: &[TokenKind::Word(Word::Forward)],
        right: &[
            Token(TokenKind::Word(Word::Forward)),
            Token(TokenKind::Mark(Punctuation::Dot)),
            Token(TokenKind::Name),
            Act(Action::Expression(ExpressionAction::ReadForward)),
        ],
    },
    Rule {
        kinds: &[TokenKind::Mark(Punctuation::At)],
        right: &[
            Token(TokenKind::Mark(Punctuation::At)),
            Token(TokenKind::Name),
            Token(TokenKind::Mark(Punctuation::OpenParenthesis)),
            Act(Action::Expression(ExpressionAction::BeginArguments)),
            Nonterminal(Part::Arguments),
            Token(TokenKind::Mark(Punctuation::CloseParenthesis)),
            Act(Action::Expression(ExpressionAction::Call)),
        ],
    },
    Rule {
        kinds: &[TokenKind::Word(Word::If)],
        right: &[
            Token(TokenKind::Word(Word::If)),
            Nonterminal(Part::Expression),
            Token(TokenKind::Word(Word::Then)),
            Nonterminal(Part::Expression),
            Token(TokenKind::Word(Word::Else)),
            Nonterminal(Part::Expression),
            Act(Action::Expression(ExpressionAction::If)),
        ],
    },
];

pub(crate) static TAIL: [SpecRule; 3] = [
    Rule {
        kinds: &[
            TokenKind::Word(Word::Else),
            TokenKind::Word(Word::Then),
            TokenKind::Mark(Punctuation::Semicolon),
            TokenKind::Mark(Punctuation::Comma),
            TokenKind::Mark(Punctuation::CloseParenthesis),
        ],
        right: &[Act(Action::Expression(ExpressionAction::Label))],
    },
    Rule {
        kinds: &[TokenKind::Mark(Punctuation::Dot)],
        right: &[
            Token(TokenKind::Mark(Punctuation::Dot)),
            Nonterminal(Part::Read),
        ],
    },
    Rule {
        kinds: &[TokenKind::Mark(Punctuation::OpenParenthesis)],
        right: &[
            Token(TokenKind::Mark(Punctuation::OpenParenthesis)),
            Act(Action::Expression(ExpressionAction::BeginArguments)),
            Nonterminal(Part::Arguments),
            Token(TokenKind::Mark(Punctuation::CloseParenthesis)),
            Act(Action::Expression(ExpressionAction::Build)),
        ],
    },
];

pub(crate) static READ: [SpecRule; 2] = [
    Rule {
        kinds: &[TokenKind::Name],
        right: &[
            Token(TokenKind::Name),
            Act(Action::Expression(ExpressionAction::Read)),
        ],
    },
    Rule {
        kinds: &[TokenKind::Word(Word::Lexeme)],
        right: &[
            Token(TokenKind::Word(Word::Lexeme)),
            Act(Action::Expression(ExpressionAction::Lexeme)),
        ],
    },
];

pub(crate) static ARGUMENTS: [SpecRule; 2] = [
    Rule {
        kinds: &[TokenKind::Mark(Punctuation::CloseParenthesis)],
        right: &[],
    },
    Rule {
        kinds: &[
            TokenKind::Word(Word::False),
            TokenKind::Word(Word::Forward),
            TokenKind::Word(Word::If),
            TokenKind::Word(Word::Top),
            TokenKind::Word(Word::True),
            TokenKind::Mark(Punctuation::At),
            TokenKind::Name,
            TokenKind::One,
            TokenKind::Two,
            TokenKind::Number,
            TokenKind::String,
        ],
        right: &[
            Nonterminal(Part::Expression),
            Act(Action::Expression(ExpressionAction::AddArgument)),
            Nonterminal(Part::FurtherArguments),
        ],
    },
];

pub(crate) static FURTHER_ARGUMENTS: [SpecRule; 2] = [
    Rule {
        kinds: &[TokenKind::Mark(Punctuation::CloseParenthesis)],
        right: &[],
    },
    Rule {
        kinds: &[TokenKind::Mark(Punctuation::Comma)],
        right: &[
            Token(TokenKind::Mark(Punctuation::Comma)),
            Nonterminal(Part::Expression),
            Act(Action::Expression(ExpressionAction::AddArgument)),
            Nonterminal(Part::FurtherArguments),
        ],
    },
];

pub(crate) static INTEGER: [SpecRule; 3] = [
    Rule {
        kinds: &[TokenKind::One],
        right: &[Token(TokenKind::One)],
    },
    Rule {
        kinds: &[TokenKind::Two],
        right: &[Token(TokenKind::Two)],
    },
    Rule {
        kinds: &[TokenKind::Number],
        right: &[Token(TokenKind::Number)],
    },
];
