//! Edits a text, each edit in turn, and gathers the lines of all texts on the way.

ghost use Rattle.std.specs.Prelude.{◌≡◌, ◌<◌, ◌-◌, ◌^◌, ℕ, List, [], IfOk, IfErr, OnOk, length};
ghost use Rattle.wb_compose_texts.specs.Composed.{IsComposed};
ghost use Rattle.wb_compose_texts.specs.Names.{terminals_of};
ghost use Rattle.wb_compose_texts.specs.Signatures.{signatures_of};
ghost use Rattle.wb_compose_texts.specs.Unions.{all_resolved};
ghost use Rattle.wb_session.specs.Sessions.{HasCause, IsShort, MakesText};
ghost use Rattle.wb_session_edits.specs.declared.edit.Edit.{Edit as TheEdit};
ghost use Rattle.wb_compose_texts.specs.EditAnswers.{IsEditsAnswerIn, IsUnitedEditsAnswer};
ghost use Rattle.wb_compose_texts.specs.Inner.Walks.{HasCome, HaltsAt, IsBefore, IsHalted};
ghost use Rattle.wb_compose_texts.specs.Inner.Gathered.{AreGathered};

use crate::EditsAnswer;
use crate::halt::Halt;
use crate::line::add_line;
use crate::lines::Lines;
use std::alloc::{AllocError, Global};
use wb_compose::{CertifiedExtension, CertifiedHost, Composed};
use wb_session::{EditRefusal, Session};
use wb_session_edits::Edit;

/// What becomes of a text by a list of edits in the language that is composed of a host and extensions.
///
/// A line of a tree that isn't printed any more, as the lines are too long already, costs no more than its edit; no clause bounds the time.
pub fn united_edits_answer(
    alloc: Global,
    host: &CertifiedHost,
    extensions: &[CertifiedExtension],
    composed: &Composed,
    text: &[u8],
    edits: &[Edit],
) -> Result<EditsAnswer, AllocError>
    requires composed { IsComposed host.now extensions.now composed.now.language.language composed.now.withdrawn.items }
    requires short { IsShort text.now }
    ensures { IfOk result (IsUnitedEditsAnswer host.now.resolved host.now.operations (all_resolved extensions.now) text.now edits.now) }
{
    let language = composed.language();
    let _grammar = language.grammar();
    let mut session = Session::open(alloc, language, text)?;
    let answer = edited_answer(alloc, host, extensions, &mut session, edits);
    drop(session);
    answer
}

// What becomes of the text of a session.
fn edited_answer(
    alloc: Global,
    host: &CertifiedHost,
    extensions: &[CertifiedExtension],
    session: &mut Session<'_>,
    edits: &[Edit],
) -> Result<EditsAnswer, AllocError>
    ensures { IfOk result (IsEditsAnswerIn (terminals_of host.now.resolved (all_resolved extensions.now)) (signatures_of host.now.resolved (all_resolved extensions.now)) session.old.language session.old.text edits.now) }
{
    let mut lines = Lines::new(alloc);
    match edit_all(alloc, host, extensions, session, edits, &mut lines) {
        Ok(()) => Ok(lines.answer()),
        Err(halt) => {
            drop(lines);
            halted(halt)
        }
    }
}

// The answer where edits halt.
fn halted(halt: Halt) -> Result<EditsAnswer, AllocError>
    ensures { IfOk result (IsHalted halt) }
{
    match halt {
        Halt::OutOfRange(number) => Ok(EditsAnswer::OutOfRange(number)),
        Halt::TooLong(number) => Ok(EditsAnswer::TextTooLong(number)),
        Halt::NoMemory(error) => Err(error),
    }
}

// Gathers the line of the text, and does each edit and gathers the line after it.
fn edit_all(
    alloc: Global,
    host: &CertifiedHost,
    extensions: &[CertifiedExtension],
    session: &mut Session<'_>,
    edits: &[Edit],
    lines: &mut Lines,
) -> Result<(), Halt>
    requires { AreGathered lines.old [] }
    ensures done { OnOk result (HasCome (terminals_of host.now.resolved (all_resolved extensions.now)) (signatures_of host.now.resolved (all_resolved extensions.now)) session.old.language session.old.text edits.now (length edits.now) session.new.text lines.new) }
    ensures halted { IfErr result (HaltsAt session.old.text edits.now) }
{
    add_line(alloc, host, extensions, session, lines)?;
    let mut place = 0;
    'places: while place < edits.len() {
        do_edit(session, &edits[place], place)?;
        add_line(alloc, host, extensions, session, lines)?;
        place += 1;
    }
    Ok(())
}

// Does one edit, which is at this place of the list.
fn do_edit(session: &mut Session<'_>, edit: &Edit, place: usize) -> Result<(), Halt>
    requires { place < 2 ^ 64 - 1 }
    ensures done { OnOk result (MakesText session.old.text edit.now.from edit.now.to edit.now.bytes session.new.text) }
    ensures language { session.new.language ≡ session.old.language }
    ensures halted { IfErr result (λ halt. (text : List ℕ) (edits : List TheEdit) → IsBefore text edits place edit.now session.old.text → HaltsAt text edits halt) }
{
    match session.edit(edit.from, edit.to, edit.bytes.as_slice()) {
        Ok(_) => Ok(()),
        Err(refusal) => Err(halt_of(refusal, place)),
    }
}

// Why edits halt where the one at this place is refused.
fn halt_of(refusal: EditRefusal, place: usize) -> Halt
    requires { place < 2 ^ 64 - 1 }
    ensures { (text : List ℕ) (edits : List TheEdit) (edit : TheEdit) (now : List ℕ) → IsBefore text edits place edit now → HasCause now edit.from edit.to edit.bytes refusal → HaltsAt text edits result }
{
    match refusal {
        EditRefusal::OutOfRange => Halt::OutOfRange(place + 1),
        EditRefusal::TooLong => Halt::TooLong(place + 1),
        EditRefusal::NoMemory(error) => Halt::NoMemory(error),
    }
}
