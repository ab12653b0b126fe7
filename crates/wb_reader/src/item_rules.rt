//! The rules of headers, items and productions.
//!
//! ```text
//! file       = 'format' format ';' header item*
//! format     = 1 | 2
//! header     = 'host' NAME ';' | 'extension' NAME 'for' NAME ';'
//! item       = ('terminal' | 'ignore' | 'marking') NAME REGEX ';'
//!            | ('concrete' | 'abstract') production
//!            | 'aspect' NAME block
//!            | 'prefer' NAME 'over' NAME ';'
//!            | ('nonterminal' | 'start' | 'extensible' | 'closed') NAME ';'
//!            | ('syn' | 'inh') NAME ':' kind ';'
//!            | 'occurs' NAME 'on' NAME [needs] ';'
//!            | 'forward' 'on' NAME needs ';'
//! production = NAME ':' NAME '::=' child* block
//! ```

use crate::part::{Part, SpecRule};
use wb_reader_builder::{Action, ItemAction};
use wb_syntax::{ProductionRole, Role};
use wb_text_predictive::Rule;
use wb_text_predictive::Symbol::{Act, Nonterminal, Token};
use wb_text_tokens::{Punctuation, TokenKind, Word};

pub(crate) static FILE: [SpecRule; 1] = [Rule {
    kinds: &[TokenKind::Word(Word::Format)],
    right: &[
        Token(TokenKind::Word(Word::Format)),
        Nonterminal(Part::Format),
        Token(TokenKind::Mark(Punctuation::Semicolon)),
        Act(Action::Item(ItemAction::Begin)),
        Nonterminal(Part::Header),
        Nonterminal(Part::Items),
    ],
}];

pub(crate) static FORMAT: [SpecRule; 2] = [
    Rule {
        kinds: &[TokenKind::One],
        right: &[Token(TokenKind::One)],
    },
    Rule {
        kinds: &[TokenKind::Two],
        right: &[Token(TokenKind::Two)],
    },
];

pub(crate) static HEADER: [SpecRule; 2] = [
    Rule {
        kinds: &[TokenKind::Word(Word::Host)],
        right: &[
            Token(TokenKind::Word(Word::Host)),
            Token(TokenKind::Name),
            Token(TokenKind::Mark(Punctuation::Semicolon)),
            Act(Action::Item(ItemAction::Host)),
        ],
    },
    Rule {
        kinds: &[TokenKind::Word(Word::Extension)],
        right: &[
            Token(TokenKind::Word(Word::Extension)),
            Token(TokenKind::Name),
            Token(TokenKind::Word(Word::For)),
            Token(TokenKind::Name),
            Token(TokenKind::Mark(Punctuation::Semicolon)),
            Act(Action::Item(ItemAction::Extension)),
        ],
    },
];

pub(crate) static ITEMS: [SpecRule; 2] = [
    Rule {
        kinds: &[TokenKind::End],
        right: &[],
    },
    Rule {
        kinds: &[
            TokenKind::Word(Word::Terminal),
            TokenKind::Word(Word::Ignore),
            TokenKind::Word(Word::Marking),
            TokenKind::Word(Word::Concrete),
            TokenKind::Word(Word::Abstract),
            TokenKind::Word(Word::Aspect),
            TokenKind::Word(Word::Prefer),
            TokenKind::Word(Word::Nonterminal),
            TokenKind::Word(Word::Start),
            TokenKind::Word(Word::Extensible),
            TokenKind::Word(Word::Closed),
            TokenKind::Word(Word::Syn),
            TokenKind::Word(Word::Inh),
            TokenKind::Word(Word::Occurs),
            TokenKind::Word(Word::Forward),
        ],
        right: &[Nonterminal(Part::Item), Nonterminal(Part::Items)],
    },
];

pub(crate) static ITEM: [SpecRule; 15] = [
    Rule {
        kinds: &[TokenKind::Word(Word::Terminal)],
        right: &[
            Token(TokenKind::Word(Word::Terminal)),
            Token(TokenKind::Name),
            Token(TokenKind::Regex),
            Token(TokenKind::Mark(Punctuation::Semicolon)),
            Act(Action::Item(ItemAction::Lexical(Role::Terminal))),
        ],
    },
    Rule {
        kinds: &[TokenKind::Word(Word::Ignore)],
        right: &[
            Token(TokenKind::Word(Word::Ignore)),
            Token(TokenKind::Name),
            Token(TokenKind::Regex),
            Token(TokenKind::Mark(Punctuation::Semicolon)),
            Act(Action::Item(ItemAction::Lexical(Role::Ignore))),
        ],
    },
    Rule {
        kinds: &[TokenKind::Word(Word::Marking)],
        right: &[
            Token(TokenKind::Word(Word::Marking)),
            Token(TokenKind::Name),
            Token(TokenKind::Regex),
            Token(TokenKind::Mark(Punctuation::Semicolon)),
            Act(Action::Item(ItemAction::Lexical(Role::Marking))),
        ],
    },
    Rule {
        kinds: &[TokenKind::Word(Word::Concrete)],
        right: &[
            Token(TokenKind::Word(Word::Concrete)),
            Nonterminal(Part::Production),
            Act(Action::Item(ItemAction::ProductionItem(ProductionRole::Concrete))),
        ],
    },
    Rule {
        kinds: &[TokenKind::Word(Word::Abstract)],
        right: &[
            Token(TokenKind::Word(Word::Abstract)),
            Nonterminal(Part::Production),
            Act(Action::Item(ItemAction::ProductionItem(ProductionRole::Abstract))),
        ],
    },
    Rule {
        kinds: &[TokenKind::Word(Word::Aspect)],
        right: &[
            Token(TokenKind::Word(Word::Aspect)),
            Token(TokenKind::Name),
            Nonterminal(Part::Block),
            Act(Action::Item(ItemAction::Aspect)),
        ],
    },
    Rule {
        kinds: &[TokenKind::Word(Word::Prefer)],
        right: &[
            Token(TokenKind::Word(Word::Prefer)),
            Token(TokenKind::Name),
            Token(TokenKind::Word(Word::Over)),
            Token(TokenKind::Name),
            Token(TokenKind::Mark(Punctuation::Semicolon)),
            Act(Action::Item(ItemAction::Prefer)),
        ],
    },
    Rule {
        kinds: &[TokenKind::Word(Word::Nonterminal)],
        right: &[
            Token(TokenKind::Word(Word::Nonterminal)),
            Token(TokenKind::Name),
            Token(TokenKind::Mark(Punctuation::Semicolon)),
            Act(Action::Item(ItemAction::Nonterminal)),
        ],
    },
    Rule {
        kinds: &[TokenKind::Word(Word::Start)],
        right: &[
            Token(TokenKind::Word(Word::Start)),
            Token(TokenKind::Name),
            Token(TokenKind::Mark(Punctuation::Semicolon)),
            Act(Action::Item(ItemAction::Start)),
        ],
    },
    Rule {
        kinds: &[TokenKind::Word(Word::Extensible)],
        right: &[
            Token(TokenKind::Word(Word::Extensible)),
            Token(TokenKind::Name),
            Token(TokenKind::Mark(Punctuation::Semicolon)),
            Act(Action::Item(ItemAction::Extensible)),
        ],
    },
    Rule {
        kinds: &[TokenKind::Word(Word::Closed)],
        right: &[
            Token(TokenKind::Word(Word::Closed)),
            Token(TokenKind::Name),
            Token(TokenKind::Mark(Punctuation::Semicolon)),
            Act(Action::Item(ItemAction::Closed)),
        ],
    },
    Rule {
        kinds: &[TokenKind::Word(Word::Syn)],
        right: &[
            Token(TokenKind::Word(Word::Syn)),
            Token(TokenKind::Name),
            Token(TokenKind::Mark(Punctuation::Colon)),
            Nonterminal(Part::Kind),
            Token(TokenKind::Mark(Punctuation::Semicolon)),
            Act(Action::Item(ItemAction::Synthesized)),
        ],
    },
    Rule {
        kinds: &[TokenKind::Word(Word::Inh)],
        right: &[
            Token(TokenKind::Word(Word::Inh)),
            Token(TokenKind::Name),
            Token(TokenKind::Mark(Punctuation::Colon)),
            Nonterminal(Part::Kind),
            Token(TokenKind::Mark(Punctuation::Semicolon)),
            Act(Action::Item(ItemAction::Inherited)),
        ],
    },
    Rule {
        kinds: &[TokenKind::Word(Word::Occurs)],
        right: &[
            Token(TokenKind::Word(Word::Occurs)),
            Token(TokenKind::Name),
            Token(TokenKind::Word(Word::On)),
            Token(TokenKind::Name),
            Nonterminal(Part::OptionalNeeds),
            Token(TokenKind::Mark(Punctuation::Semicolon)),
            Act(Action::Item(ItemAction::Occurs)),
        ],
    },
    Rule {
        kinds: &[TokenKind::Word(Word::Forward)],
        right: &[
            Token(TokenKind::Word(Word::Forward)),
            Token(TokenKind::Word(Word::On)),
            Token(TokenKind::Name),
            Nonterminal(Part::Needs),
            Token(TokenKind::Mark(Punctuation::Semicolon)),
            Act(Action::Item(ItemAction::ForwardOn)),
        ],
    },
];

pub(crate) static PRODUCTION: [SpecRule; 1] = [Rule {
    kinds: &[TokenKind::Name],
    right: &[
        Token(TokenKind::Name),
        Token(TokenKind::Mark(Punctuation::Colon)),
        Token(TokenKind::Name),
        Token(TokenKind::Mark(Punctuation::Becomes)),
        Act(Action::Item(ItemAction::BeginChildren)),
        Nonterminal(Part::Children),
        Nonterminal(Part::Block),
        Act(Action::Item(ItemAction::Production)),
    ],
}];
