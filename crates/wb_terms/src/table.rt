//! How is a term read: its tokens, its rules, and what each makes of what was met so far?
//!
//! The rules are in `rules`, and what is made of them in `events`.

ghost use Rattle.std.specs.Prelude.{◌≡◌, OnOk};
ghost use Rattle.wb_terms.specs.Inner.Events.{shift_word};
ghost use Rattle.wb_terms.specs.Inner.TermTable.{term_grammar};
ghost use Rattle.wb_terms.specs.Inner.TermEntries.{term_entries};
ghost use Rattle.wb_text_tokens.specs.NextToken.{IsNextIn};
ghost use Rattle.wb_text_tokens.proofs.PlacedLaws.{one_next, advances};
ghost use Rattle.wb_terms.specs.Inner.TermLaws.{term_decided, term_ends};
ghost use Rattle.wb_text_tokens.proofs.KindLaws.{kinds_same, kinds_sampled};

use crate::event::Event;
use crate::events::Events;
use crate::rules::{ARGUMENT, ARGUMENTS, Action, MORE, OWNER, Part, TERM};
use std::alloc::{AllocError, Global};
use wb_text_predictive::{Next, Rule, Table};
use wb_text_tokens::{Dialect, Token, TokenKind, Word, next_token};

// What a reserved word makes of what was met.
fn shift_word(word: Word, at: usize, values: &mut Events) -> Result<(), AllocError>
    ensures ok { OnOk result (values.new ≡ shift_word word at values.old) }
{
    match word {
        Word::True => values.push(Event::Bool { value: true, at }),
        Word::False => values.push(Event::Bool { value: false, at }),
        _ => Ok(()),
    }
}

// The table of terms.
pub(crate) struct TermTable;

impl Table for TermTable {
    type Kind = TokenKind;

    type Nonterminal = Part;

    type Action = Action;

    type Token = Token;

    type Values = Events;

    ghost use Rattle.wb_text_tokens.specs.declared.kind.TokenKind.TheVariants.{End};
    ghost use Rattle.wb_text_tokens.specs.declared.token.Dialect.TheVariants.{Terms};

    ghost grammar = { term_grammar };

    ghost end_kind = { End };

    ghost entries = { term_entries };

    ghost IsNext = { λ table. IsNextIn Terms };

    ghost same = { kinds_same };

    ghost sampled = { kinds_sampled };

    ghost one_next = { λ table. one_next Terms };

    ghost advances = { λ table. advances Terms };

    ghost decided = { term_decided };

    ghost ends = { term_ends };

    fn start(&self) -> Part {
        Part::Term
    }

    fn end(&self) -> TokenKind {
        TokenKind::End
    }

    fn kind(&self, token: &Token) -> TokenKind {
        token.kind()
    }

    #[tactic(auto, unfolding(crate::specs::Inner::TermTable::term_rights, crate::specs::Inner::TermEntries::term_entries))]
    fn rules(&self, part: Part) -> &[Rule<'_, TokenKind, Part, Action>] {
        match part {
            Part::Term => &TERM,
            Part::Owner => &OWNER,
            Part::Arguments => &ARGUMENTS,
            Part::More => &MORE,
            Part::Argument => &ARGUMENT,
        }
    }

    fn next(&self, alloc: Global, text: &[u8], from: usize) -> Result<Next<Token>, AllocError> {
        next_token(alloc, text, from, Dialect::Terms)
    }

    fn shift(
        &self,
        alloc: Global,
        token: Token,
        at: usize,
        end: usize,
        values: &mut Events,
    ) -> Result<(), AllocError> {
        match token {
            Token::Name(name) => values.push(Event::Begin { name, at }),
            Token::Word(word) => shift_word(word, at, values),
            Token::Int(value) => values.push(Event::Int { value, at }),
            Token::Text(value) => values.push(Event::Text { value, at }),
            Token::Regex(_) => Ok(()),
            Token::Punctuation(_) => Ok(()),
        }
    }

    fn act(&self, alloc: Global, action: Action, values: &mut Events) -> Result<(), AllocError> {
        match action {
            Action::Qualify => values.qualify(alloc),
            Action::Close => values.push(Event::End),
        }
    }
}
