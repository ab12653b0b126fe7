//! What is asked of a text and of its language? Numbers, by which a tree is walked, or bytes, which become the note.

ghost use Rattle.std.specs.Prelude.{◌≡◌, ◌≤◌, IfErr, IfOk, None, OnOk, length};
ghost use Rattle.wb_session_library.specs.Answers.{IsAnswer};
ghost use Rattle.wb_session_library.specs.Kept.{KeepsTables};
ghost use Rattle.wb_session_library.specs.Nodes.{HasNoChild, HasNoText, IsChild, IsLeafText, IsName, IsNode, IsPrinted, IsTerminalName};
ghost use Rattle.wb_session_library.specs.Places.{HasNoPlace, IsPlaced};
ghost use Rattle.wb_session_library.specs.Questions.{HasValue, IsValueRefusal};
ghost use Rattle.wb_session_library.specs.Refusals.{IsNamedRefusal, IsNoRefusal, IsPlaceRefusal, IsPrintRefusal, Names};

use crate::answer::answer_of;
use crate::notes::{note_leaf, note_production, note_terminal, note_tree};
use crate::questions::note_value;
use crate::walk::{child_at, node_at};
use crate::{CallRefusal, Child, Node, Reason, TextAnswer, Workbench};
use std::mem::replace;
use wb_library_handles::Handle;
use wb_session::LeafPlace;

impl Workbench {
    /// The answer of the text of a handle, in numbers.
    pub fn answer(&self, text: Handle) -> Result<TextAnswer, CallRefusal>
        ensures ok { IfOk result (λ found. Names self.now.texts.slots.items text (λ view. IsAnswer view found)) }
        ensures refused { IfErr result (IsNamedRefusal self.now.texts.slots.items text (λ view. IsNoRefusal)) }
    {
        match self.texts.get(text) {
            Some(found) => Ok(answer_of(found)),
            None => Err(CallRefusal::WrongHandle),
        }
    }

    /// What is at the node of a number, in the store of the text of a handle.
    pub fn node(&self, text: Handle, node: usize) -> Result<Node, CallRefusal>
        ensures ok { IfOk result (λ found. Names self.now.texts.slots.items text (λ view. IsNode view.store node found)) }
        ensures refused { IfErr result (IsNamedRefusal self.now.texts.slots.items text (λ view. IsPlaceRefusal (length view.store ≤ node))) }
    {
        match self.texts.get(text) {
            Some(found) => node_at(found.store(), node),
            None => Err(CallRefusal::WrongHandle),
        }
    }

    /// The child of a node at a place, counted from 0, in the store of the text of a handle.
    pub fn child(&self, text: Handle, node: usize, place: usize) -> Result<Child, CallRefusal>
        ensures ok { IfOk result (λ found. Names self.now.texts.slots.items text (λ view. IsChild view.store node place found)) }
        ensures refused { IfErr result (IsNamedRefusal self.now.texts.slots.items text (λ view. IsPlaceRefusal (HasNoChild view.store node place))) }
    {
        match self.texts.get(text) {
            Some(found) => child_at(found.store(), node, place),
            None => Err(CallRefusal::WrongHandle),
        }
    }

    /// Where the leaf of a number lies in the text of a handle. Leaves are numbered from 0, in the order of the text.
    pub fn place(&self, text: Handle, leaf: usize) -> Result<LeafPlace, CallRefusal>
        ensures ok { IfOk result (λ found. Names self.now.texts.slots.items text (λ view. IsPlaced view leaf found)) }
        ensures refused { IfErr result (IsNamedRefusal self.now.texts.slots.items text (λ view. HasNoPlace view.places leaf)) }
    {
        match self.texts.get(text) {
            Some(found) => found.place_of(leaf),
            None => Err(CallRefusal::WrongHandle),
        }
    }

    /// Makes a note of the name of a production of the language of a handle.
    pub fn production_name(
        &mut self,
        language: Handle,
        production: usize,
    ) -> Result<(), CallRefusal>
        ensures ok { OnOk result (Names self.old.languages.slots.items language (λ parts. IsName parts.signatures production self.new.note.items)) }
        ensures refused { IfErr result (IsNamedRefusal self.old.languages.slots.items language (λ parts. IsPlaceRefusal (length parts.signatures ≤ production))) }
        ensures kept { KeepsTables self.old self.new }
    {
        match self.languages.get(language) {
            Some(found) => note_production(found, production, &mut self.note),
            None => Err(CallRefusal::WrongHandle),
        }
    }

    /// Makes a note of the name of a terminal of the language of a handle.
    pub fn terminal_name(&mut self, language: Handle, terminal: usize) -> Result<(), CallRefusal>
        ensures ok { OnOk result (Names self.old.languages.slots.items language (λ parts. IsTerminalName parts.terminals terminal self.new.note.items)) }
        ensures refused { IfErr result (IsNamedRefusal self.old.languages.slots.items language (λ parts. IsPlaceRefusal (length parts.terminals ≤ terminal))) }
        ensures kept { KeepsTables self.old self.new }
    {
        match self.languages.get(language) {
            Some(found) => note_terminal(found, terminal, &mut self.note),
            None => Err(CallRefusal::WrongHandle),
        }
    }

    /// Makes a note of the text of a leaf, the child of a node at a place, counted from 0, in the store of the text of a handle. A child that
    /// is a node is refused.
    pub fn leaf_text(&mut self, text: Handle, node: usize, place: usize) -> Result<(), CallRefusal>
        ensures ok { OnOk result (Names self.old.texts.slots.items text (λ view. IsLeafText view.store node place self.new.note.items)) }
        ensures refused { IfErr result (IsNamedRefusal self.old.texts.slots.items text (λ view. IsPlaceRefusal (HasNoText view.store node place))) }
        ensures kept { KeepsTables self.old self.new }
    {
        match self.texts.get(text) {
            Some(found) => note_leaf(found.store(), node, place, &mut self.note),
            None => Err(CallRefusal::WrongHandle),
        }
    }

    /// Makes a note of the printed tree at a node of the text of a handle.
    pub fn print(&mut self, text: Handle, node: usize) -> Result<(), CallRefusal>
        ensures ok { OnOk result (Names self.old.texts.slots.items text (λ view. IsPrinted view node self.new.note.items)) }
        ensures refused { IfErr result (IsNamedRefusal self.old.texts.slots.items text (λ view. IsPrintRefusal view node)) }
        ensures kept { KeepsTables self.old self.new }
    {
        match self.texts.get(text) {
            Some(found) => note_tree(self.alloc, found, node, &mut self.note),
            None => Err(CallRefusal::WrongHandle),
        }
    }

    /// Makes a note of the value of the attribute of a printed name at the root of the text of a handle, within so many steps. The text is read
    /// once more. Without a value, the note says why.
    pub fn value(&mut self, text: Handle, name: &[u8], steps: u64) -> Result<(), CallRefusal>
        ensures ok { OnOk result (Names self.old.texts.slots.items text (λ view. HasValue view name.now steps self.new.note.items None)) }
        ensures refused { IfErr result (IsNamedRefusal self.old.texts.slots.items text (λ view. IsValueRefusal view name.now steps self.new.note.items)) }
        ensures kept { KeepsTables self.old self.new }
    {
        match self.texts.get(text) {
            Some(found) => note_value(self.alloc, found, name, steps, &mut self.note),
            None => Err(CallRefusal::WrongHandle),
        }
    }

    /// Why contents were refused last, where that was for a rule that has a code.
    pub fn reason(&self) -> Reason
        ensures { result ≡ self.now.reason }
    {
        self.reason
    }

    /// Takes the note out, to be put back.
    pub fn take_note(&mut self) -> Vec<u8>
        ensures note { result ≡ self.old.note }
        ensures kept { KeepsTables self.old self.new }
    {
        let alloc = self.alloc;
        replace(&mut self.note, Vec::new(alloc))
    }

    /// Puts a note back.
    pub fn put_note(&mut self, note: Vec<u8>)
        ensures note { self.new.note ≡ note }
        ensures kept { KeepsTables self.old self.new }
    {
        self.note = note;
    }
}
