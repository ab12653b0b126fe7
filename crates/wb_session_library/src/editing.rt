//! How are texts read in a language, and edited? Each is named by a handle of its own, and shares its language with others.

ghost use Rattle.std.specs.Prelude.{◌≡◌, IfErr, IfOk, IsFalse, IsTrue, OnErr, OnOk};
ghost use Rattle.wb_library_handles.specs.Handles.{AreOthersKept, AreSpentKept, IsSpent, NamesNone};
ghost use Rattle.wb_session_library.specs.Edits.{IsEditRefusal, IsReleaseRefusal};
ghost use Rattle.wb_session_library.specs.Kept.{KeepsButTexts, StaysIn};
ghost use Rattle.wb_session_library.specs.Places.{HaveNone, HaveSome};
ghost use Rattle.wb_session_library.specs.Refusals.{IsNamedRefusal, IsOpenRefusal};
ghost use Rattle.wb_session_library.specs.Inner.Lengths.{IsLengthRefusal};
ghost use Rattle.wb_session_library.specs.Workbenches.{EditsText, OpensText, ReleasesText, StaysText};

use crate::workbench::{added, removed};
use crate::{CallRefusal, LanguageText, StandardLanguage, Workbench};
use std::alloc::Global;
use wb_library_handles::Handle;
use wb_session::Edited;

// The longest text.
const LIMIT: usize = 1_048_576;

impl Workbench {
    /// Parses a text alone in the language of a handle, and answers the handle of the text.
    pub fn parse(&mut self, language: Handle, text: &[u8]) -> Result<Handle, CallRefusal>
        ensures ok { IfOk result (OpensText HaveNone self.old.languages.slots.items language text.now self.old.texts.slots.items self.new.texts.slots.items) }
        ensures refused { IfErr result (IsNamedRefusal self.old.languages.slots.items language (λ parts. IsOpenRefusal text.now)) }
        ensures err { OnErr result (self.new.texts.slots.items ≡ self.old.texts.slots.items) }
        ensures spent { AreSpentKept self.old.texts.slots.items self.new.texts.slots.items }
        ensures kept { KeepsButTexts self.old self.new }
    {
        match self.languages.get(language) {
            Some(shared) => match parsed(self.alloc, shared, text) {
                Ok(made) => added(&mut self.texts, made),
                Err(refusal) => Err(refusal),
            },
            None => Err(CallRefusal::WrongHandle),
        }
    }

    /// Reads a text in the language of a handle, to be edited, and answers the handle of the text.
    pub fn open(&mut self, language: Handle, text: &[u8]) -> Result<Handle, CallRefusal>
        ensures ok { IfOk result (OpensText HaveSome self.old.languages.slots.items language text.now self.old.texts.slots.items self.new.texts.slots.items) }
        ensures refused { IfErr result (IsNamedRefusal self.old.languages.slots.items language (λ parts. IsOpenRefusal text.now)) }
        ensures err { OnErr result (self.new.texts.slots.items ≡ self.old.texts.slots.items) }
        ensures spent { AreSpentKept self.old.texts.slots.items self.new.texts.slots.items }
        ensures kept { KeepsButTexts self.old self.new }
    {
        match self.languages.get(language) {
            Some(shared) => match opened(self.alloc, shared, text) {
                Ok(made) => added(&mut self.texts, made),
                Err(refusal) => Err(refusal),
            },
            None => Err(CallRefusal::WrongHandle),
        }
    }

    /// Edits the text of a handle, as [`LanguageText::edit`] does.
    pub fn edit(
        &mut self,
        text: Handle,
        from: usize,
        to: usize,
        with: &[u8],
    ) -> Result<Edited, CallRefusal>
        ensures ok { IfOk result (EditsText self.old.texts.slots.items text from to with.now self.new.texts.slots.items) }
        ensures refused { IfErr result (IsNamedRefusal self.old.texts.slots.items text (λ view. IsEditRefusal view from to with.now)) }
        ensures err { OnErr result (StaysText self.old.texts.slots.items text self.new.texts.slots.items) }
        ensures others { AreOthersKept self.old.texts.slots.items self.new.texts.slots.items text }
        ensures spent { AreSpentKept self.old.texts.slots.items self.new.texts.slots.items }
        ensures kept { KeepsButTexts self.old self.new }
    {
        let Some(mut taken) = self.texts.take(text) else {
            return Err(CallRefusal::WrongHandle);
        };
        let answer = taken.edit(from, to, with);
        self.texts.put(text, taken);
        answer
    }

    /// Drops the trees of earlier texts of the text of a handle, as [`LanguageText::release`] does.
    pub fn release(&mut self, text: Handle) -> Result<(), CallRefusal>
        ensures ok { OnOk result (ReleasesText self.old.texts.slots.items text self.new.texts.slots.items) }
        ensures refused { IfErr result (IsNamedRefusal self.old.texts.slots.items text IsReleaseRefusal) }
        ensures err { OnErr result (StaysIn self.old.texts.slots.items self.new.texts.slots.items text) }
        ensures others { AreOthersKept self.old.texts.slots.items self.new.texts.slots.items text }
        ensures spent { AreSpentKept self.old.texts.slots.items self.new.texts.slots.items }
        ensures kept { KeepsButTexts self.old self.new }
    {
        let Some(mut taken) = self.texts.take(text) else {
            return Err(CallRefusal::WrongHandle);
        };
        let answer = taken.release();
        self.texts.put(text, taken);
        answer
    }

    /// Lets go of the text of a handle, and answers whether there was one. No later text has this handle.
    pub fn close_text(&mut self, text: Handle) -> bool
        ensures gone { IsTrue result → IsSpent self.new.texts.slots.items text }
        ensures some { IsTrue result → NamesNone self.old.texts.slots.items text → ⊥ }
        ensures none { IsFalse result → NamesNone self.old.texts.slots.items text }
        ensures others { AreOthersKept self.old.texts.slots.items self.new.texts.slots.items text }
        ensures spent { AreSpentKept self.old.texts.slots.items self.new.texts.slots.items }
        ensures kept { KeepsButTexts self.old self.new }
    {
        removed(&mut self.texts, text)
    }
}

// A text that is parsed in a language.
fn parsed(
    alloc: Global,
    language: &StandardLanguage,
    text: &[u8],
) -> Result<LanguageText, CallRefusal>
    ensures language { IfOk result (λ made. made.language ≡ language.now) }
    ensures text { IfOk result (λ made. made.text ≡ text.now) }
    ensures alone { IfOk result (λ made. HaveNone made.places) }
    ensures refused { IfErr result (IsLengthRefusal text.now) }
{
    if text.len() > LIMIT {
        return Err(CallRefusal::TextTooLong);
    }
    match language.copy() {
        Ok(shared) => match LanguageText::parse(alloc, shared, text) {
            Ok(made) => Ok(made),
            Err(_) => Err(CallRefusal::NoMemory),
        },
        Err(_) => Err(CallRefusal::NoMemory),
    }
}

// A text that is read in a language, to be edited.
fn opened(
    alloc: Global,
    language: &StandardLanguage,
    text: &[u8],
) -> Result<LanguageText, CallRefusal>
    ensures language { IfOk result (λ made. made.language ≡ language.now) }
    ensures text { IfOk result (λ made. made.text ≡ text.now) }
    ensures kept { IfOk result (λ made. HaveSome made.places) }
    ensures refused { IfErr result (IsLengthRefusal text.now) }
{
    if text.len() > LIMIT {
        return Err(CallRefusal::TextTooLong);
    }
    match language.copy() {
        Ok(shared) => match LanguageText::open(alloc, shared, text) {
            Ok(made) => Ok(made),
            Err(_) => Err(CallRefusal::NoMemory),
        },
        Err(_) => Err(CallRefusal::NoMemory),
    }
}
