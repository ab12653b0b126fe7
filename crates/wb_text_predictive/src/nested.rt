//! Nested lists of digits, as `(1 (2 3))`: an example of a table, with all that one needs.
//!
//! A reading is the list of what is met from left to right, each digit with its place. Spaces may be between tokens. Only the tests
//! use it: a format's table is built in the same way, and the laws of the trait are shown to be met here.

ghost use Rattle.std.specs.Prelude.{◌≡◌, ◌≢◌, ◌<◌, ◌≤◌, ◌++◌, ◌∷◌, [], OnOk, drop, length, slice_index};
ghost use denote.Enum.Bare.{same_true, true_same};
ghost use Rattle.wb_text_predictive.specs.contracts.nested.Kind.{the_type};
ghost use Rattle.wb_text_predictive.specs.Nested.{kind_of, next_after, mark_of, shift, act, nested_grammar, nested_entries, IsNestedNext};
ghost use Rattle.wb_text_predictive.specs.Inner.NestedLaws.{nested_sampled, nested_one_next, nested_advances, nested_decided, nested_ends};

use crate::symbol::Rule;
use crate::symbol::Symbol::{Act, Nonterminal, Token};
use crate::table::{Next, Placed, Table};
use std::alloc::{AllocError, Global};
use std::marker::Model;

/// The kinds of tokens, and the end of the text.
#[derive(Clone, Copy, PartialEq, Eq)]
pub enum Kind {
    Open,
    Close,
    Digit,
    End,
}

/// The parts of a text, the grammar's nonterminals: a list in parentheses, and what is between
/// them.
#[derive(Clone, Copy)]
pub enum Part {
    Nest,
    Items,
}

/// What is done between the symbols of a right side.
#[derive(Clone, Copy)]
pub enum Action {
    Begin,
    Finish,
}

/// A token.
#[derive(Clone, Copy, Drop)]
pub enum Mark {
    Open,
    Close,
    Digit(u8),
}

/// What a reading meets.
#[derive(Clone, Copy, Debug, PartialEq, Eq, Drop)]
pub enum Event {
    Began,
    Met { digit: u8, at: usize },
    Finished,
}

/// What a reading has met, in order.
pub struct Events {
    items: Vec<Event>,
}

impl Model for Events {
    ghost use Rattle.std.specs.Prelude.{List};
    ghost use Rattle.wb_text_predictive.specs.declared.nested.Event.{Event};

    ghost Value = { List Event };

    ghost view = { λ e. e.items.items };
}

impl Events {
    /// Nothing yet.
    pub fn new(alloc: Global) -> Events
        ensures { result ≡ [] }
    {
        Events {
            items: Vec::new(alloc),
        }
    }

    /// One event more.
    pub fn push(&mut self, event: Event) -> Result<(), AllocError>
        ensures ok { OnOk result (self.new ≡ self.old ++ event ∷ []) }
    {
        self.items.push(event)?;
        Ok(())
    }

    /// The events.
    pub fn as_slice(&self) -> &[Event]
        ensures { result.now ≡ self.now }
    {
        self.items.as_slice()
    }
}

impl Drop for Events {
    fn drop(self) {
        let Events { items } = self;
        drop(items);
    }
}

type NestedRule = Rule<'static, Kind, Part, Action>;

static NEST: [NestedRule; 1] = [Rule {
    kinds: &[Kind::Open],
    right: &[
        Token(Kind::Open),
        Act(Action::Begin),
        Nonterminal(Part::Items),
        Token(Kind::Close),
        Act(Action::Finish),
    ],
}];

static ITEMS: [NestedRule; 3] = [
    Rule {
        kinds: &[Kind::Close],
        right: &[],
    },
    Rule {
        kinds: &[Kind::Digit],
        right: &[Token(Kind::Digit), Nonterminal(Part::Items)],
    },
    Rule {
        kinds: &[Kind::Open],
        right: &[Nonterminal(Part::Nest), Nonterminal(Part::Items)],
    },
];

// The place of the first byte from there on that is no space, or the text's length.
fn skip_spaces(text: &[u8], from: usize) -> usize
    requires { from ≤ length text.now }
    ensures within { result ≤ length text.now }
    ensures same { next_after result (drop result text.now) ≡ next_after from (drop from text.now) }
    ensures stops { result < length text.now → slice_index text.now result ≢ 32 }
{
    let mut at = from;
    while at < text.len() {
        if text[at] != b' ' {
            return at;
        }
        at += 1;
    }
    at
}

// The token that a byte is.
fn mark_of(byte: u8) -> Option<Mark>
    ensures { result ≡ mark_of byte }
{
    match byte {
        b'(' => Some(Mark::Open),
        b')' => Some(Mark::Close),
        b'0'..=b'9' => Some(Mark::Digit(byte - b'0')),
        _ => None,
    }
}

/// The table of nested lists.
pub struct Nested;

impl Table for Nested {
    type Kind = Kind;

    type Nonterminal = Part;

    type Action = Action;

    type Token = Mark;

    type Values = Events;

    ghost use Rattle.wb_text_predictive.specs.declared.nested.Kind.TheVariants.{End};

    ghost grammar = { nested_grammar };

    ghost end_kind = { End };

    ghost entries = { nested_entries };

    ghost IsNext = { λ table. IsNestedNext };

    ghost same = { λ a b. (same_true the_type tt a b, true_same the_type a b) };

    ghost sampled = { nested_sampled };

    ghost one_next = { λ table. nested_one_next };

    ghost advances = { λ table. nested_advances };

    ghost decided = { nested_decided };

    ghost ends = { nested_ends };

    fn start(&self) -> Part {
        Part::Nest
    }

    fn end(&self) -> Kind {
        Kind::End
    }

    fn kind(&self, token: &Mark) -> Kind {
        match token {
            Mark::Open => Kind::Open,
            Mark::Close => Kind::Close,
            Mark::Digit(_) => Kind::Digit,
        }
    }

    #[tactic(auto, unfolding(crate::specs::Nested::nested_rights, crate::specs::Nested::nested_entries))]
    fn rules(&self, part: Part) -> &[Rule<'_, Kind, Part, Action>] {
        match part {
            Part::Nest => &NEST,
            Part::Items => &ITEMS,
        }
    }

    fn next(&self, alloc: Global, text: &[u8], from: usize) -> Result<Next<Mark>, AllocError> {
        let at = skip_spaces(text, from);
        if at == text.len() {
            return Ok(Next::End { at });
        }
        match mark_of(text[at]) {
            None => Ok(Next::NoToken { at }),
            Some(token) => Ok(Next::Found(Placed {
                token,
                at,
                end: at + 1,
            })),
        }
    }

    fn shift(
        &self,
        alloc: Global,
        token: Mark,
        at: usize,
        end: usize,
        values: &mut Events,
    ) -> Result<(), AllocError> {
        match token {
            Mark::Open => Ok(()),
            Mark::Close => Ok(()),
            Mark::Digit(digit) => values.push(Event::Met { digit, at }),
        }
    }

    fn act(&self, alloc: Global, action: Action, values: &mut Events) -> Result<(), AllocError> {
        match action {
            Action::Begin => values.push(Event::Began),
            Action::Finish => values.push(Event::Finished),
        }
    }
}
