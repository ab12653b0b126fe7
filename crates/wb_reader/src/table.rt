//! How is a specification read?
//!
//! By a table of `wb_text_predictive`, of the rules of this crate and of what `wb_reader_builder` makes of tokens and actions.

ghost use Rattle.std.specs.Prelude.{◌≡◌, OnOk};
ghost use Rattle.wb_reader.specs.Inner.LookaheadTable.{lookahead_table};
ghost use Rattle.wb_reader_builder.specs.Items.{word_shift};
ghost use Rattle.wb_reader_builder.specs.Actions.{act};
ghost use Rattle.wb_reader.specs.Inner.Table.{spec_grammar};
ghost use Rattle.wb_reader.specs.Inner.Laws.{spec_decided, spec_ends};
ghost use Rattle.wb_text_tokens.proofs.KindLaws.{kinds_same, kinds_sampled};
ghost use Rattle.wb_text_tokens.specs.NextToken.{IsNextIn};
ghost use Rattle.wb_text_tokens.proofs.PlacedLaws.{one_next, advances};

use crate::expression_rules::{ARGUMENTS, EXPRESSION, FURTHER_ARGUMENTS, INTEGER, READ, TAIL};
use crate::item_rules::{FILE, FORMAT, HEADER, ITEM, ITEMS, PRODUCTION};
use crate::part::Part;
use crate::part_rules::{
    BLOCK, CHILDREN, EQUATION, EQUATIONS, FURTHER_NAMES, KIND, NAMES, NEEDS, OPTIONAL_NEEDS, VALUE,
};
use std::alloc::{AllocError, Global};
use wb_reader_builder::{Action, SpecBuilder, act};
use wb_text_predictive::{Next, Rule, Table};
use wb_text_tokens::{Dialect, Token, TokenKind, next_token};

// The table of specifications whose tokens are of this dialect.
#[derive(Clone, Copy)]
pub(crate) struct SpecTable {
    pub(crate) dialect: Dialect,
}

impl Table for SpecTable {
    type Kind = TokenKind;

    type Nonterminal = Part;

    type Action = Action;

    type Token = Token;

    type Values = SpecBuilder;

    ghost use Rattle.wb_text_tokens.specs.declared.kind.TokenKind.TheVariants.{End};

    ghost grammar = { spec_grammar };

    ghost end_kind = { End };

    ghost entries = { lookahead_table };

    ghost IsNext = { λ table. IsNextIn table.dialect };

    ghost same = { kinds_same };

    ghost sampled = { kinds_sampled };

    ghost one_next = { λ table. one_next table.dialect };

    ghost advances = { λ table. advances table.dialect };

    ghost decided = { spec_decided };

    ghost ends = { spec_ends };

    fn start(&self) -> Part {
        Part::File
    }

    fn end(&self) -> TokenKind {
        TokenKind::End
    }

    fn kind(&self, token: &Token) -> TokenKind {
        token.kind()
    }

    #[tactic(auto, unfolding(crate::specs::Inner::RightSides::right_sides, crate::specs::Inner::LookaheadTable::lookahead_table))]
    fn rules(&self, part: Part) -> &[Rule<'_, TokenKind, Part, Action>] {
        match part {
            Part::File => &FILE,
            Part::Format => &FORMAT,
            Part::Header => &HEADER,
            Part::Items => &ITEMS,
            Part::Item => &ITEM,
            Part::Production => &PRODUCTION,
            Part::Kind => &KIND,
            Part::OptionalNeeds => &OPTIONAL_NEEDS,
            Part::Needs => &NEEDS,
            Part::Names => &NAMES,
            Part::FurtherNames => &FURTHER_NAMES,
            Part::Children => &CHILDREN,
            Part::Block => &BLOCK,
            Part::Equations => &EQUATIONS,
            Part::Equation => &EQUATION,
            Part::Value => &VALUE,
            Part::Expression => &EXPRESSION,
            Part::Tail => &TAIL,
            Part::Read => &READ,
            Part::Arguments => &ARGUMENTS,
            Part::FurtherArguments => &FURTHER_ARGUMENTS,
            Part::Integer => &INTEGER,
        }
    }

    fn next(&self, alloc: Global, text: &[u8], from: usize) -> Result<Next<Token>, AllocError> {
        next_token(alloc, text, from, self.dialect)
    }

    fn shift(
        &self,
        alloc: Global,
        token: Token,
        at: usize,
        end: usize,
        values: &mut SpecBuilder,
    ) -> Result<(), AllocError> {
        match token {
            Token::Name(name) => values.read_name(name, at),
            Token::Word(word) => values.read_word(word, at),
            Token::Int(value) => values.read_integer(value),
            Token::Text(text) => values.read_text(text),
            Token::Regex(body) => values.read_pattern(body, at),
            Token::Punctuation(_) => Ok(()),
        }
    }

    fn act(
        &self,
        alloc: Global,
        action: Action,
        values: &mut SpecBuilder,
    ) -> Result<(), AllocError> {
        act(alloc, action, values)
    }
}
