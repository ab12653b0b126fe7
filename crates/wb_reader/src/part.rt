//! What are the nonterminals of the grammar of specifications?
//!
//! Their rules are in `item_rules`, `part_rules` and `expression_rules`, the actions in `wb_reader_builder`.

use wb_reader_builder::Action;
use wb_text_predictive::Rule;
use wb_text_tokens::TokenKind;

// The parts of a text, the grammar's nonterminals.
#[derive(Clone, Copy)]
pub(crate) enum Part {
    File,
    Format,
    Header,
    Items,
    Item,
    Production,
    Kind,
    OptionalNeeds,
    Needs,
    Names,
    FurtherNames,
    Children,
    Block,
    Equations,
    Equation,
    Value,
    Expression,
    Tail,
    Read,
    Arguments,
    FurtherArguments,
    Integer,
}

// A rule of the table.
pub(crate) type SpecRule = Rule<'static, TokenKind, Part, Action>;
