//! What does `edit --text FILE --edits FILE HOST EXT..` answer for a text and a list of its edits?
//!
//! The host and the extensions, if any, come first, by the checks of `composable`, then the text, and then the edits. What becomes of the
//! text by them is in `wb_compose_texts`.

ghost use Rattle.std.specs.Prelude.{◌≡◌, ◌≤◌, ◌⊎◌, IfOk, ℕ, List, length};
ghost use Rattle.wb_compose_texts.specs.Unions.{all_resolved};
ghost use Rattle.wb_program_words.specs.Asked.{texts};
ghost use Rattle.wb_program_files.specs.Checks.{Check, Ends};
ghost use Rattle.wb_program_texts.specs.Composable.{AreApart};
ghost use Rattle.wb_program_texts.specs.Inner.EditFiles.{ReadList, ShownList};
ghost use Rattle.wb_program_files.specs.Makes.{Answers};
ghost use Rattle.wb_program_files.specs.Stopped.{outside};
ghost use Rattle.wb_program_files.specs.Texts.{IsText, IsTooLongText};
ghost use Rattle.wb_program_texts.specs.Commands.Edit.{EditReport, EditStops, EditsReport, ShownEdits, TextEditsReport, refused_line};
ghost use Rattle.wb_compose_texts.specs.EditAnswers.{IsUnitedEditsAnswer};

use crate::composable::read_composable;
use std::alloc::{AllocError, Global};
use wb_base::{Bytes, FILE_LIMIT};
use wb_compose_texts::{EditsAnswer, compose, united_edits_answer};
use wb_operations::{Meaning, OperationTable};
use wb_program_files::{
    Answer, CertifiedExtension, CertifiedHost, Contents, ReadFailure, Status, read_file, reported,
};
use wb_report::{Done, EditsReason, Outcome, Refusal};
use wb_session_edits::{Edit, EditsRefusal, read_edits};
use wb_world::Shelf;

/// The answer to `edit --text FILE --edits FILE HOST EXT..`.
pub fn answer_edit<S: Shelf, M: Meaning>(
    alloc: Global,
    shelf: &mut S,
    text: &str,
    edits: &str,
    host: &str,
    extensions: &[String],
    operations: &OperationTable<M>,
) -> Result<Answer, ReadFailure>
    ensures { Answers (outside (S.files shelf.old) (S.absences shelf.old) (S.faults shelf.old)) (outside (S.files shelf.new) (S.absences shelf.new) (S.faults shelf.new))
        result (EditReport operations.now.signatures (S.files shelf.old) text.now edits.now host.now (texts extensions.now))
        (EditStops operations.now.signatures (S.files shelf.old) text.now edits.now host.now (texts extensions.now)) }
{
    match read_composable(alloc, shelf, host, extensions, operations)? {
        Ok(all) => {
            let answer = answer_text(alloc, shelf, text, edits, &all.host, &all.extensions);
            all.release();
            answer
        }
        Err(answer) => Ok(answer),
    }
}

// The answer for the text of a file with the edits of another.
fn answer_text<S: Shelf>(
    alloc: Global,
    shelf: &mut S,
    file: &str,
    edits: &str,
    host: &CertifiedHost,
    extensions: &[CertifiedExtension],
) -> Result<Answer, ReadFailure>
    requires { AreApart host.now extensions.now }
    ensures { Answers (outside (S.files shelf.old) (S.absences shelf.old) (S.faults shelf.old)) (outside (S.files shelf.new) (S.absences shelf.new) (S.faults shelf.new))
        result (Check Status.TextTooLong (IsTooLongText (S.files shelf.old) file.now) (IsText (S.files shelf.old) file.now)
        (λ (text : List ℕ). EditsReport host.now.operations (S.files shelf.old) edits.now host.now.resolved (all_resolved extensions.now) text))
        (λ P. P file.now ⊎ (((text : List ℕ) × IsText (S.files shelf.old) file.now text) × P edits.now)) }
{
    let contents = read_file(alloc, shelf, file, FILE_LIMIT)?;
    match contents {
        Contents::Whole(text) => {
            let answer = answer_file(alloc, shelf, edits, host, extensions, &text);
            drop(text);
            answer
        }
        Contents::TooLong => Ok(reported(alloc, Status::TextTooLong, Outcome::TextTooLong)?),
    }
}

// The answer for a text with the edits of a file.
fn answer_file<S: Shelf>(
    alloc: Global,
    shelf: &mut S,
    file: &str,
    host: &CertifiedHost,
    extensions: &[CertifiedExtension],
    text: &[u8],
) -> Result<Answer, ReadFailure>
    requires apart { AreApart host.now extensions.now }
    requires short { length text.now ≤ 1048576 }
    ensures { Answers (outside (S.files shelf.old) (S.absences shelf.old) (S.faults shelf.old)) (outside (S.files shelf.new) (S.absences shelf.new) (S.faults shelf.new))
        result (EditsReport host.now.operations (S.files shelf.old) file.now host.now.resolved (all_resolved extensions.now) text.now)
        (λ P. P file.now) }
{
    let contents = read_file(alloc, shelf, file, FILE_LIMIT)?;
    Ok(answer_contents(alloc, contents, file, host, extensions, text)?)
}

// The answer for what was read of the file of edits.
fn answer_contents(
    alloc: Global,
    contents: Contents,
    file: &str,
    host: &CertifiedHost,
    extensions: &[CertifiedExtension],
    text: &[u8],
) -> Result<Answer, AllocError>
    requires apart { AreApart host.now extensions.now }
    requires short { length text.now ≤ 1048576 }
    ensures { IfOk result (λ answer. ReadList file.now (TextEditsReport host.now.operations host.now.resolved (all_resolved extensions.now) file.now text.now) contents answer.status answer.report.items) }
{
    match contents {
        Contents::Whole(bytes) => answer_list(alloc, &bytes, file, host, extensions, text),
        Contents::TooLong => refused(alloc, file, EditsReason::TooLong),
    }
}

// The answer for the bytes of the file.
fn answer_list(
    alloc: Global,
    bytes: &[u8],
    file: &str,
    host: &CertifiedHost,
    extensions: &[CertifiedExtension],
    text: &[u8],
) -> Result<Answer, AllocError>
    requires apart { AreApart host.now extensions.now }
    requires short { length text.now ≤ 1048576 }
    ensures { IfOk result (λ answer. ShownList file.now (TextEditsReport host.now.operations host.now.resolved (all_resolved extensions.now) file.now text.now) bytes.now answer.status answer.report.items) }
{
    match read_edits(alloc, bytes) {
        Ok(edits) => {
            let answer = edits_of_text(alloc, file, host, extensions, text, edits.as_slice());
            drop(edits);
            answer
        }
        Err(EditsRefusal::Syntax(at)) => refused(alloc, file, EditsReason::Syntax(at)),
        Err(EditsRefusal::NoMemory(error)) => Err(error),
    }
}

// The answer for a text with edits, which are in this file.
fn edits_of_text(
    alloc: Global,
    file: &str,
    host: &CertifiedHost,
    extensions: &[CertifiedExtension],
    text: &[u8],
    edits: &[Edit],
) -> Result<Answer, AllocError>
    requires apart { AreApart host.now extensions.now }
    requires short { length text.now ≤ 1048576 }
    ensures { IfOk result (λ answer. TextEditsReport host.now.operations host.now.resolved (all_resolved extensions.now) file.now text.now edits.now answer.status answer.report.items) }
{
    let answer = united_answer(alloc, host, extensions, text, edits)?;
    shown_edits(alloc, file, answer)
}

// What becomes of a text by edits.
fn united_answer(
    alloc: Global,
    host: &CertifiedHost,
    extensions: &[CertifiedExtension],
    text: &[u8],
    edits: &[Edit],
) -> Result<EditsAnswer, AllocError>
    requires apart { AreApart host.now extensions.now }
    requires short { length text.now ≤ 1048576 }
    ensures { IfOk result (IsUnitedEditsAnswer host.now.resolved host.now.operations (all_resolved extensions.now) text.now edits.now) }
{
    let composed = compose(alloc, host, extensions)?;
    let answer = united_edits_answer(alloc, host, extensions, &composed, text, edits);
    composed.release();
    answer
}

// The answer for what becomes of a text by the edits of this file.
fn shown_edits(alloc: Global, file: &str, answer: EditsAnswer) -> Result<Answer, AllocError>
    ensures { IfOk result (λ made. ShownEdits file.now answer made.status made.report.items) }
{
    match answer {
        EditsAnswer::Lines(lines) => {
            reported(alloc, Status::Done, Outcome::Done(Done::Edited(lines)))
        }
        EditsAnswer::TooLong => reported(alloc, Status::TooLongToPrint, Outcome::TooLongToPrint),
        EditsAnswer::OutOfRange(number) => refused(alloc, file, EditsReason::OutOfRange(number)),
        EditsAnswer::TextTooLong(number) => refused(alloc, file, EditsReason::TextTooLong(number)),
    }
}

// The answer for a file of edits that is refused.
fn refused(alloc: Global, file: &str, reason: EditsReason) -> Result<Answer, AllocError>
    ensures { IfOk result (λ answer. Ends Status.EditRefused (λ bytes. bytes ≡ refused_line file.now reason) answer.status answer.report.items) }
{
    let file = Bytes::from_slice(alloc, file.as_bytes())?;
    let refusal = Refusal::Edits(reason);
    reported(
        alloc,
        Status::EditRefused,
        Outcome::Refused { file, refusal },
    )
}
