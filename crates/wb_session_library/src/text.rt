//! How is a text held beside its language, which it shares with other texts? With its answer, and where it is to be edited, as a session keeps
//! it.

ghost use Rattle.std.specs.Prelude.{◌≡◌, IfErr, IfOk, OnErr, OnOk};
ghost use Rattle.wb_compose_files.specs.Languages.{IsTextLanguage};
ghost use Rattle.wb_session.specs.Parses.{IsParsed};
ghost use Rattle.wb_session.specs.Sessions.{IsShort};
ghost use Rattle.wb_session_library.specs.Edits.{IsEditRefusal, IsEdited, IsReleaseRefusal, IsReleased, StaysText};
ghost use Rattle.wb_session_library.specs.Places.{HasNoPlace, HaveNone, HaveSome, IsPlaced, counts};

use crate::kept_texts::{Held, PlainText, edit_held, place_in, release_held};
use crate::{CallRefusal, StandardLanguage};
use std::alloc::{AllocError, Global};
use std::marker::Model;
use wb_session::{Edited, KeptText, LeafPlace, Parsed};
use wb_values::TreeStore;

/// A text in a composed language, with its answer: its one tree, or its one stop.
///
/// Several texts may share a language, which is let go of with the last of them.
pub struct LanguageText {
    language: StandardLanguage,
    held: Held,
}

impl Model for LanguageText {
    ghost use Rattle.std.specs.Coded.{codes};
    ghost use Rattle.wb_regex.specs.contracts.regex.Regex as regex;
    ghost use Rattle.wb_values.specs.contracts.store.TreeStore as store;
    ghost use Rattle.wb_session_library.specs.Held.{IsTextIn, held_view};
    ghost use Rattle.wb_session_library.specs.Views.{TextView};

    ghost Value = { TextView };

    ghost coded = { Prim.hlevel (codes, regex.the_row.coded, store.the_row.coded) };

    ghost view = { λ t. held_view t.language t.held };

    ghost invariant = { λ t. IsTextIn t.language t.held };
}

impl Drop for LanguageText {
    fn drop(self) {
        let LanguageText { language, held } = self;
        drop(language);
        drop(held);
    }
}

impl LanguageText {
    /// Parses a text in a language. The only error is out of memory.
    pub fn parse(
        alloc: Global,
        language: StandardLanguage,
        text: &[u8],
    ) -> Result<LanguageText, AllocError>
        requires { IsShort text.now }
        ensures language { IfOk result (λ made. made.language ≡ language) }
        ensures text { IfOk result (λ made. made.text ≡ text.now) }
        ensures alone { IfOk result (λ made. HaveNone made.places) }
    {
        match PlainText::parse(alloc, language.inner().language(), text) {
            Ok(plain) => Ok(LanguageText {
                language,
                held: Held::Plain(plain),
            }),
            Err(error) => {
                drop(language);
                Err(error)
            }
        }
    }

    /// Reads a text in a language, to be edited. The only error is out of memory.
    pub fn open(
        alloc: Global,
        language: StandardLanguage,
        text: &[u8],
    ) -> Result<LanguageText, AllocError>
        requires { IsShort text.now }
        ensures language { IfOk result (λ made. made.language ≡ language) }
        ensures text { IfOk result (λ made. made.text ≡ text.now) }
        ensures kept { IfOk result (λ made. HaveSome made.places) }
    {
        match KeptText::open(alloc, language.inner().language(), text) {
            Ok(kept) => Ok(LanguageText {
                language,
                held: Held::Kept(kept),
            }),
            Err(error) => {
                drop(language);
                Err(error)
            }
        }
    }

    /// Puts these bytes in the place of those from `from` to before `to`, places that are counted from 0.
    ///
    /// The text is read as a session reads it. After each refusal the text, its answer and its places are as before. The store begins with
    /// what it held before, also after a refusal, so a node keeps its number.
    pub fn edit(&mut self, from: usize, to: usize, with: &[u8]) -> Result<Edited, CallRefusal>
        ensures ok { IfOk result (IsEdited self.old from to with.now self.new) }
        ensures refused { IfErr result (IsEditRefusal self.old from to with.now) }
        ensures err { OnErr result (StaysText self.old self.new) }
    {
        edit_held(&self.language, &mut self.held, from, to, with)
    }

    /// Drops the trees of earlier texts, by reading the text once more. Nodes have other numbers then. Where memory runs out, all is as before.
    pub fn release(&mut self) -> Result<(), CallRefusal>
        ensures ok { OnOk result (IsReleased self.old self.new) }
        ensures refused { IfErr result (IsReleaseRefusal self.old) }
        ensures err { OnErr result (self.new ≡ self.old) }
    {
        release_held(&self.language, &mut self.held)
    }

    /// The language.
    pub fn language(&self) -> &StandardLanguage
        ensures { result.now ≡ self.now.language }
    {
        &self.language
    }

    /// The text.
    pub fn text(&self) -> &[u8]
        ensures { result.now ≡ self.now.text }
    {
        self.held.text()
    }

    /// The tree of the text, which is in the store, or its stop.
    pub fn answer(&self) -> &Parsed
        ensures answer { result.now ≡ self.now.answer }
        ensures parsed { IsParsed self.now.language.language.language self.now.text self.now.store self.now.answer }
        ensures composed { IsTextLanguage self.now.language }
    {
        self.held.answer()
    }

    /// The store with the tree of the text, and those of the texts before.
    pub fn store(&self) -> &TreeStore
        ensures { result.now ≡ self.now.store }
    {
        self.held.store()
    }

    /// How many leaves have a place: those of the tree of the text, or those before its stop, where the text is kept to be edited.
    pub fn leaves(&self) -> usize
        ensures { result ≡ counts self.now.places }
    {
        self.held.leaves()
    }

    /// Where the leaf of a number lies in the text. Leaves are numbered from 0, in the order of the text.
    pub fn place_of(&self, leaf: usize) -> Result<LeafPlace, CallRefusal>
        ensures ok { IfOk result (IsPlaced self.now leaf) }
        ensures refused { IfErr result (HasNoPlace self.now.places leaf) }
    {
        place_in(&self.held, leaf)
    }
}
