//! Which tokens have a space between them?
//!
//! A text is written token by token, and knows whether the next token is at its end without a space.

ghost use Rattle.std.specs.Prelude.{◌≡◌, ◌||◌, [], ◌∷◌, ◌++◌, OnOk, if◌then◌else◌, true};
ghost use Rattle.wb_text_tokens.specs.declared.token.Token.TheVariants as t;
ghost use Rattle.wb_text_tokens.specs.declared.punctuation.Punctuation.{Punctuation};
ghost use Rattle.wb_syntax.specs.Canonical.{follows_closely, leads_closely};
ghost use Rattle.wb_reader_printer.specs.Inner.Output.{Output, put, ended};

use std::alloc::{AllocError, Global};
use std::marker::Model;
use wb_base::push;
use wb_text_tokens::{Punctuation, Word, print_int, print_text};

// The text so far. Where memory runs out in a call, what it holds is open.
#[derive(Drop)]
pub(crate) struct Line {
    text: Vec<u8>,
    closely: bool,
}

impl Model for Line {
    ghost use Rattle.wb_reader_printer.specs.Inner.Output.{Output};

    ghost Value = { Output };

    ghost view = { λ l. record { text = l.text.items; closely = l.closely } };
}

// Whether no space comes before the mark.
fn is_close_before(mark: Punctuation) -> bool
    ensures { result ≡ follows_closely (t.Punctuation mark) }
{
    matches!(
        mark,
        Punctuation::Semicolon
            | Punctuation::Comma
            | Punctuation::Dot
            | Punctuation::OpenParenthesis
            | Punctuation::CloseParenthesis
    )
}

// Whether no space comes after the mark.
fn is_close_after(mark: Punctuation) -> bool
    ensures { result ≡ leads_closely (t.Punctuation mark) }
{
    matches!(
        mark,
        Punctuation::Dot | Punctuation::At | Punctuation::OpenParenthesis
    )
}

#[tactic(auto, unfolding(crate::specs::Inner::Output::put, crate::specs::Inner::Output::ended))]
impl Line {
    // The first line of a text of these bytes, with nothing on it.
    pub(crate) fn new(text: Vec<u8>) -> Line
        ensures { result ≡ record { text = text.items; closely = true } }
    {
        Line {
            text,
            closely: true,
        }
    }

    // The bytes.
    pub(crate) fn into_text(self) -> Vec<u8>
        ensures { result.items ≡ self.text }
    {
        self.text
    }

    // What comes before a token.
    fn gap(&mut self, follows: bool, leads: bool) -> Result<(), AllocError>
        ensures { OnOk result (self.new ≡ record {
          text = self.old.text ++ (if self.old.closely || follows then [] else 32 ∷ []);
          closely = leads;
        }) }
    {
        if !(self.closely || follows) {
            push(&mut self.text, b' ')?;
        }
        self.closely = leads;
        Ok(())
    }

    // A name more.
    pub(crate) fn name(&mut self, name: &[u8]) -> Result<(), AllocError>
        ensures { OnOk result (self.new ≡ put self.old (t.Name name.now)) }
    {
        self.gap(false, false)?;
        self.text.extend_from_slice(name)
    }

    // A reserved word more.
    pub(crate) fn word(&mut self, word: Word) -> Result<(), AllocError>
        ensures { OnOk result (self.new ≡ put self.old (t.Word word)) }
    {
        self.gap(false, false)?;
        self.text.extend_from_slice(word.text())
    }

    // A punctuation mark more.
    pub(crate) fn mark(&mut self, mark: Punctuation) -> Result<(), AllocError>
        ensures { OnOk result (self.new ≡ put self.old (t.Punctuation mark)) }
    {
        self.gap(is_close_before(mark), is_close_after(mark))?;
        self.text.extend_from_slice(mark.text())
    }

    // An integer more.
    pub(crate) fn int(&mut self, value: i64) -> Result<(), AllocError>
        ensures { OnOk result (self.new ≡ put self.old (t.Int value)) }
    {
        self.gap(false, false)?;
        print_int(&mut self.text, value)
    }

    // A string more.
    pub(crate) fn string(&mut self, text: &[u8]) -> Result<(), AllocError>
        ensures { OnOk result (self.new ≡ put self.old (t.Text text.now)) }
    {
        self.gap(false, false)?;
        print_text(&mut self.text, text)
    }

    // A regular expression more, by the bytes between its slashes.
    pub(crate) fn regex(&mut self, bytes: &[u8]) -> Result<(), AllocError>
        ensures { OnOk result (self.new ≡ put self.old (t.Regex bytes.now)) }
    {
        self.gap(false, false)?;
        push(&mut self.text, b'/')?;
        self.text.extend_from_slice(bytes)?;
        push(&mut self.text, b'/')
    }

    // The line ends.
    pub(crate) fn end(&mut self) -> Result<(), AllocError>
        ensures { OnOk result (self.new ≡ ended self.old) }
    {
        push(&mut self.text, b'\n')?;
        self.closely = true;
        Ok(())
    }
}
