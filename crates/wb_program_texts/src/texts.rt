//! What do `tree --text FILE HOST EXT..` and `reading --text FILE HOST EXT..` answer?
//!
//! The host and the extensions, if any, come first, by the checks of `composable`, and then the text. What is made of it is in `tree` and in
//! `reading`.

ghost use Rattle.std.specs.Prelude.{IfOk, ℕ, List};
ghost use Rattle.wb_compose_texts.specs.Unions.{all_resolved};
ghost use Rattle.wb_program_words.specs.Asked.{texts};
ghost use Rattle.wb_program_files.specs.Checks.{Check};
ghost use Rattle.wb_program_texts.specs.Composable.{AreApart};
ghost use Rattle.wb_program_texts.specs.SeveralStops.{StopsComposed};
ghost use Rattle.wb_program_texts.specs.SeveralChecks.{SeveralChecks};
ghost use Rattle.wb_program_files.specs.Stopped.{outside};
ghost use Rattle.wb_program_files.specs.Makes.{Answers};
ghost use Rattle.wb_program_files.specs.Texts.{IsText, IsTooLongText};
ghost use Rattle.wb_program_files.specs.Contents.{ReadText};
ghost use Rattle.wb_program_texts.specs.Commands.Reading.{ReadingReport};
ghost use Rattle.wb_program_texts.specs.Commands.Tree.{TreeReport};
ghost use Rattle.wb_program_texts.specs.Inner.OfTexts.{OfTextReport};

use crate::composable::read_composable;
use crate::reading::reading_of_text;
use crate::tree::tree_of_text;
use std::alloc::{AllocError, Global};
use wb_base::FILE_LIMIT;
use wb_operations::{Meaning, OperationTable};
use wb_program_files::{
    Answer, CertifiedExtension, CertifiedHost, Contents, ReadFailure, Status, read_file, reported,
};
use wb_report::Outcome;
use wb_world::Shelf;

// What is asked of a text in the language of a host with extensions.
#[derive(Clone, Copy)]
enum OfText {
    // Its tree, or where it stops.
    Tree,
    // Whether it has a marker.
    Reading,
}

/// The answer to `tree --text FILE HOST EXT..`.
pub fn answer_tree<S: Shelf, M: Meaning>(
    alloc: Global,
    shelf: &mut S,
    text: &str,
    host: &str,
    extensions: &[String],
    operations: &OperationTable<M>,
) -> Result<Answer, ReadFailure>
    ensures { Answers (outside (S.files shelf.old) (S.absences shelf.old) (S.faults shelf.old)) (outside (S.files shelf.new) (S.absences shelf.new) (S.faults shelf.new))
        result (TreeReport operations.now.signatures (S.files shelf.old) text.now host.now (texts extensions.now))
        (λ P. StopsComposed operations.now.signatures (S.files shelf.old) host.now (texts extensions.now) P (λ r values. P text.now)) }
{
    let asked = OfText::Tree;
    answer_of_text(alloc, shelf, asked, text, host, extensions, operations)
}

/// The answer to `reading --text FILE HOST EXT..`.
pub fn answer_reading<S: Shelf, M: Meaning>(
    alloc: Global,
    shelf: &mut S,
    text: &str,
    host: &str,
    extensions: &[String],
    operations: &OperationTable<M>,
) -> Result<Answer, ReadFailure>
    ensures { Answers (outside (S.files shelf.old) (S.absences shelf.old) (S.faults shelf.old)) (outside (S.files shelf.new) (S.absences shelf.new) (S.faults shelf.new))
        result (ReadingReport operations.now.signatures (S.files shelf.old) text.now host.now (texts extensions.now))
        (λ P. StopsComposed operations.now.signatures (S.files shelf.old) host.now (texts extensions.now) P (λ r values. P text.now)) }
{
    let asked = OfText::Reading;
    answer_of_text(alloc, shelf, asked, text, host, extensions, operations)
}

// The answer for the text of a file in the language of a host with extensions, by their files.
fn answer_of_text<S: Shelf, M: Meaning>(
    alloc: Global,
    shelf: &mut S,
    asked: OfText,
    text: &str,
    host: &str,
    extensions: &[String],
    operations: &OperationTable<M>,
) -> Result<Answer, ReadFailure>
    ensures { Answers (outside (S.files shelf.old) (S.absences shelf.old) (S.faults shelf.old)) (outside (S.files shelf.new) (S.absences shelf.new) (S.faults shelf.new))
        result (SeveralChecks operations.now.signatures (S.files shelf.old) host.now (texts extensions.now) (λ r values. Check Status.TextTooLong (IsTooLongText (S.files shelf.old) text.now) (IsText (S.files shelf.old) text.now)
        (λ (contents : List ℕ). OfTextReport asked operations.now.signatures r values contents)))
        (λ P. StopsComposed operations.now.signatures (S.files shelf.old) host.now (texts extensions.now) P (λ r values. P text.now)) }
{
    match read_composable(alloc, shelf, host, extensions, operations)? {
        Ok(all) => {
            let answer = answer_file(alloc, shelf, asked, text, &all.host, &all.extensions);
            all.release();
            answer
        }
        Err(answer) => Ok(answer),
    }
}

// The answer for the text of a file.
fn answer_file<S: Shelf>(
    alloc: Global,
    shelf: &mut S,
    asked: OfText,
    file: &str,
    host: &CertifiedHost,
    extensions: &[CertifiedExtension],
) -> Result<Answer, ReadFailure>
    requires { AreApart host.now extensions.now }
    ensures { Answers (outside (S.files shelf.old) (S.absences shelf.old) (S.faults shelf.old)) (outside (S.files shelf.new) (S.absences shelf.new) (S.faults shelf.new))
        result (Check Status.TextTooLong (IsTooLongText (S.files shelf.old) file.now) (IsText (S.files shelf.old) file.now)
        (λ (text : List ℕ). OfTextReport asked host.now.operations host.now.resolved (all_resolved extensions.now) text))
        (λ P. P file.now) }
{
    let contents = read_file(alloc, shelf, file, FILE_LIMIT)?;
    Ok(answer_contents(alloc, contents, asked, host, extensions)?)
}

// The answer for what was read of the file.
fn answer_contents(
    alloc: Global,
    contents: Contents,
    asked: OfText,
    host: &CertifiedHost,
    extensions: &[CertifiedExtension],
) -> Result<Answer, AllocError>
    requires { AreApart host.now extensions.now }
    ensures { IfOk result (λ answer. ReadText (OfTextReport asked host.now.operations host.now.resolved (all_resolved extensions.now)) contents answer.status answer.report.items) }
{
    match contents {
        Contents::Whole(bytes) => text_answer(alloc, asked, host, extensions, &bytes),
        Contents::TooLong => reported(alloc, Status::TextTooLong, Outcome::TextTooLong),
    }
}

// The answer for a text.
fn text_answer(
    alloc: Global,
    asked: OfText,
    host: &CertifiedHost,
    extensions: &[CertifiedExtension],
    text: &[u8],
) -> Result<Answer, AllocError>
    requires { AreApart host.now extensions.now }
    ensures { IfOk result (λ answer. OfTextReport asked host.now.operations host.now.resolved (all_resolved extensions.now) text.now answer.status answer.report.items) }
{
    match asked {
        OfText::Tree => tree_of_text(alloc, host, extensions, text),
        OfText::Reading => reading_of_text(alloc, host, extensions, text),
    }
}
