//! What is held of a text beside its language? Its answer, or what a session keeps to edit it.

ghost use Rattle.std.specs.Prelude.{◌≡◌, IfErr, IfOk, OnErr, OnOk};
ghost use Rattle.wb_scan.specs.Views.{LanguageParts};
ghost use Rattle.wb_session_library.specs.Edits.{IsEditRefusal, IsEdited, IsReleaseRefusal, IsReleased, StaysText};
ghost use Rattle.wb_session.specs.KeptTexts.{IsKeptIn};
ghost use Rattle.wb_session_library.specs.Inner.Kept.{kept_view};
ghost use Rattle.wb_session_library.specs.Held.{IsHeldIn, IsPlainIn, answer_in, held_view, places_in, store_in, text_in};
ghost use Rattle.wb_session_library.specs.Places.{ArePlaces, HasNoPlace, IsPlace, counts};

use crate::{CallRefusal, StandardLanguage};
use std::alloc::{AllocError, Global};
use wb_scan::Language;
use wb_session::{EditRefusal, Edited, KeptText, LeafPlace, Parsed, parse};
use wb_values::TreeStore;

// A text that was parsed alone, with its answer and the store of its tree.
pub(crate) struct PlainText {
    text: Vec<u8>,
    store: TreeStore,
    answer: Parsed,
}

impl Drop for PlainText {
    fn drop(self) {
        let PlainText {
            text,
            store,
            answer: _,
        } = self;
        drop(text);
        drop(store);
    }
}

impl PlainText {
    // Parses a text.
    pub(crate) fn parse(
        alloc: Global,
        language: &Language,
        text: &[u8],
    ) -> Result<PlainText, AllocError>
        ensures plain { IfOk result (IsPlainIn language.now) }
        ensures text { IfOk result (λ made. made.text.items ≡ text.now) }
    {
        let mut store = TreeStore::new(alloc);
        match parse(alloc, language, text, &mut store) {
            Ok(answer) => with_copy(alloc, text, store, answer),
            Err(error) => {
                drop(store);
                Err(error)
            }
        }
    }
}

// A text that was parsed, of which a copy is kept.
fn with_copy(
    alloc: Global,
    text: &[u8],
    store: TreeStore,
    answer: Parsed,
) -> Result<PlainText, AllocError>
    ensures text { IfOk result (λ made. made.text.items ≡ text.now) }
    ensures store { IfOk result (λ made. made.store ≡ store) }
    ensures answer { IfOk result (λ made. made.answer ≡ answer) }
{
    let mut copy = Vec::new(alloc);
    match copy.extend_from_slice(text) {
        Ok(()) => Ok(PlainText {
            text: copy,
            store,
            answer,
        }),
        Err(error) => {
            drop(copy);
            drop(store);
            Err(error)
        }
    }
}

// A text that was parsed alone, or is kept to be edited.
pub(crate) enum Held {
    Plain(PlainText),
    Kept(KeptText),
}

impl Drop for Held {
    fn drop(self) {
        match self {
            Held::Plain(plain) => drop(plain),
            Held::Kept(kept) => drop(kept),
        }
    }
}

impl Held {
    // The text.
    pub(crate) fn text(&self) -> &[u8]
        ensures { result.now ≡ text_in self.now }
    {
        match self {
            Held::Plain(plain) => &plain.text,
            Held::Kept(kept) => kept.text(),
        }
    }

    // Its answer.
    pub(crate) fn answer(&self) -> &Parsed
        ensures { result.now ≡ answer_in self.now }
    {
        match self {
            Held::Plain(plain) => &plain.answer,
            Held::Kept(kept) => kept.answer(),
        }
    }

    // The store with its tree.
    pub(crate) fn store(&self) -> &TreeStore
        ensures { result.now ≡ store_in self.now }
    {
        match self {
            Held::Plain(plain) => &plain.store,
            Held::Kept(kept) => kept.store(),
        }
    }

    // How many leaves have a place.
    pub(crate) fn leaves(&self) -> usize
        ensures { result ≡ counts (places_in self.now) }
    {
        match self {
            Held::Plain(_) => 0,
            Held::Kept(kept) => kept.leaves(),
        }
    }
}

// Where the leaf of a number lies.
pub(crate) fn place_in(held: &Held, leaf: usize) -> Result<LeafPlace, CallRefusal>
    ensures ok { IfOk result (IsPlace (places_in held.now) leaf) }
    ensures refused { IfErr result (HasNoPlace (places_in held.now) leaf) }
    ensures all { (language : LanguageParts) → IsHeldIn language held.now → ArePlaces language.language (text_in held.now) (places_in held.now) }
{
    match held {
        Held::Plain(_) => Err(CallRefusal::NotKept),
        Held::Kept(kept) => match kept.place_of(leaf) {
            Some(place) => Ok(place),
            None => Err(CallRefusal::OutOfRange),
        },
    }
}

// Edits what is held in a language.
pub(crate) fn edit_held(
    language: &StandardLanguage,
    held: &mut Held,
    from: usize,
    to: usize,
    with: &[u8],
) -> Result<Edited, CallRefusal>
    requires { IsHeldIn language.now.language held.old }
    ensures is_held { IsHeldIn language.now.language held.new }
    ensures ok { IfOk result (IsEdited (held_view language.now held.old) from to with.now (held_view language.now held.new)) }
    ensures refused { IfErr result (IsEditRefusal (held_view language.now held.old) from to with.now) }
    ensures err { OnErr result (StaysText (held_view language.now held.old) (held_view language.now held.new)) }
{
    match held {
        Held::Plain(_) => Err(CallRefusal::NotKept),
        Held::Kept(kept) => edit_kept(language, kept, from, to, with),
    }
}

// Edits a text that is kept.
fn edit_kept(
    language: &StandardLanguage,
    kept: &mut KeptText,
    from: usize,
    to: usize,
    with: &[u8],
) -> Result<Edited, CallRefusal>
    requires { IsKeptIn language.now.language kept.old }
    ensures is_kept { IsKeptIn language.now.language kept.new }
    ensures ok { IfOk result (IsEdited (kept_view language.now kept.old) from to with.now (kept_view language.now kept.new)) }
    ensures refused { IfErr result (IsEditRefusal (kept_view language.now kept.old) from to with.now) }
    ensures err { OnErr result (StaysText (kept_view language.now kept.old) (kept_view language.now kept.new)) }
{
    match kept.edit(language.inner().language(), from, to, with) {
        Ok(done) => Ok(done),
        Err(EditRefusal::OutOfRange) => Err(CallRefusal::EditRefused),
        Err(EditRefusal::TooLong) => Err(CallRefusal::TextTooLong),
        Err(EditRefusal::NoMemory(_)) => Err(CallRefusal::NoMemory),
    }
}

// Drops the trees of earlier texts of what is held in a language.
pub(crate) fn release_held(language: &StandardLanguage, held: &mut Held) -> Result<(), CallRefusal>
    requires { IsHeldIn language.now.language held.old }
    ensures is_held { IsHeldIn language.now.language held.new }
    ensures ok { OnOk result (IsReleased (held_view language.now held.old) (held_view language.now held.new)) }
    ensures refused { IfErr result (IsReleaseRefusal (held_view language.now held.old)) }
    ensures err { OnErr result (held.new ≡ held.old) }
{
    match held {
        Held::Plain(_) => Err(CallRefusal::NotKept),
        Held::Kept(kept) => match kept.release(language.inner().language()) {
            Ok(()) => Ok(()),
            Err(_) => Err(CallRefusal::NoMemory),
        },
    }
}
