//! What is answered of an attribute that may be asked at the start, for a text that is read or made?
//!
//! The text's value, and the text that a number makes, are found by `wb_compose_texts`.

ghost use Rattle.std.specs.Prelude.{◌≡◌, ◌≤◌, IfOk, ℕ, List, None, Some, length};
ghost use Rattle.wb_compose_texts.specs.Composed.{IsComposed};
ghost use Rattle.wb_operations.specs.Kept.{IsKept};
ghost use Rattle.wb_compose_texts.specs.Unions.{all_resolved};
ghost use Rattle.wb_program_files.specs.Checks.{Check};
ghost use Rattle.wb_program_files.specs.Makes.{Answers};
ghost use Rattle.wb_program_files.specs.Stopped.{outside};
ghost use Rattle.wb_program_files.specs.Texts.{IsText, IsTooLongText};
ghost use Rattle.wb_program_files.specs.Contents.{ReadText};
ghost use Rattle.wb_program_texts.specs.Commands.Generate.{MadeReport, MadeTextReport};
ghost use Rattle.wb_program_texts.specs.Values.{TextValueReport};
ghost use Rattle.wb_program_texts.specs.Inner.Sources.{IsAsked, shown_with};

use crate::shown::shown_text;
use std::alloc::{AllocError, Global};
use wb_base::FILE_LIMIT;
use wb_compose_texts::{Composed, Generated, Question, generated_text, text_value};
use wb_operations::{Meaning, OperationRefusal, OperationTable};
use wb_program_files::{
    Answer, CertifiedExtension, CertifiedHost, Contents, ReadFailure, Status, read_file, reported,
};
use wb_report::Outcome;
use wb_syntax_resolved::Attribution;
use wb_values::Value;
use wb_world::Shelf;

// The most steps of an evaluation at the root of a text that is made.
const STEPS: u64 = 1_000_000;

// A host with extensions, their attributes, and one of these that may be asked by a name at the start.
#[derive(Clone, Copy)]
pub(crate) struct Asked<'a> {
    pub host: &'a CertifiedHost,
    pub extensions: &'a [CertifiedExtension],
    pub attributes: &'a Attribution,
    pub name: &'a str,
    pub attribute: usize,
}

// The answer for the text of a file.
pub(crate) fn file_answer<S: Shelf, M: Meaning>(
    alloc: Global,
    shelf: &mut S,
    file: &str,
    steps: u64,
    asked: &Asked<'_>,
    composed: &Composed,
    operations: &OperationTable<M>,
) -> Result<Answer, ReadFailure>
    requires asked { IsAsked operations.now.signatures asked.now }
    requires composed { IsComposed asked.now.host.now asked.now.extensions.now composed.now.language.language composed.now.withdrawn.items }
    requires kept { IsKept operations.now.signatures operations.now.built_in operations.now.runs.items M.meaning
        (λ run vs. ⟦<Box<dyn Fn(&[Value]) -> Result<Value, OperationRefusal>> as Fn(&[Value]) -> Result<Value, OperationRefusal>>⟧.pre run vs)
        (λ run vs r. ⟦<Box<dyn Fn(&[Value]) -> Result<Value, OperationRefusal>> as Fn(&[Value]) -> Result<Value, OperationRefusal>>⟧.post run vs r) }
    ensures { Answers (outside (S.files shelf.old) (S.absences shelf.old) (S.faults shelf.old)) (outside (S.files shelf.new) (S.absences shelf.new) (S.faults shelf.new))
        result (Check Status.TextTooLong (IsTooLongText (S.files shelf.old) file.now) (IsText (S.files shelf.old) file.now)
        (λ (text : List ℕ). TextValueReport (record { signatures = operations.now.signatures; meaning = M.meaning }) asked.now.host.now.resolved (all_resolved asked.now.extensions.now) asked.now.name.now steps (shown_with asked.now.name.now 0 None) text))
        (λ P. P file.now) }
{
    let contents = read_file(alloc, shelf, file, FILE_LIMIT)?;
    Ok(contents_answer(alloc, contents, steps, asked, composed, operations)?)
}

// The answer for what was read of the file.
fn contents_answer<M: Meaning>(
    alloc: Global,
    contents: Contents,
    steps: u64,
    asked: &Asked<'_>,
    composed: &Composed,
    operations: &OperationTable<M>,
) -> Result<Answer, AllocError>
    requires asked { IsAsked operations.now.signatures asked.now }
    requires composed { IsComposed asked.now.host.now asked.now.extensions.now composed.now.language.language composed.now.withdrawn.items }
    requires kept { IsKept operations.now.signatures operations.now.built_in operations.now.runs.items M.meaning
        (λ run vs. ⟦<Box<dyn Fn(&[Value]) -> Result<Value, OperationRefusal>> as Fn(&[Value]) -> Result<Value, OperationRefusal>>⟧.pre run vs)
        (λ run vs r. ⟦<Box<dyn Fn(&[Value]) -> Result<Value, OperationRefusal>> as Fn(&[Value]) -> Result<Value, OperationRefusal>>⟧.post run vs r) }
    ensures { IfOk result (λ answer. ReadText (λ (text : List ℕ). TextValueReport (record { signatures = operations.now.signatures; meaning = M.meaning }) asked.now.host.now.resolved (all_resolved asked.now.extensions.now) asked.now.name.now steps (shown_with asked.now.name.now 0 None) text) contents answer.status answer.report.items) }
{
    match contents {
        Contents::Whole(bytes) => {
            let answer = text_answer(alloc, &bytes, steps, None, asked, composed, operations);
            drop(bytes);
            answer
        }
        Contents::TooLong => reported(alloc, Status::TextTooLong, Outcome::TextTooLong),
    }
}

// The answer for a text.
fn text_answer<M: Meaning>(
    alloc: Global,
    text: &[u8],
    steps: u64,
    leaves: Option<u64>,
    asked: &Asked<'_>,
    composed: &Composed,
    operations: &OperationTable<M>,
) -> Result<Answer, AllocError>
    requires asked { IsAsked operations.now.signatures asked.now }
    requires composed { IsComposed asked.now.host.now asked.now.extensions.now composed.now.language.language composed.now.withdrawn.items }
    requires kept { IsKept operations.now.signatures operations.now.built_in operations.now.runs.items M.meaning
        (λ run vs. ⟦<Box<dyn Fn(&[Value]) -> Result<Value, OperationRefusal>> as Fn(&[Value]) -> Result<Value, OperationRefusal>>⟧.pre run vs)
        (λ run vs r. ⟦<Box<dyn Fn(&[Value]) -> Result<Value, OperationRefusal>> as Fn(&[Value]) -> Result<Value, OperationRefusal>>⟧.post run vs r) }
    ensures { IfOk result (λ answer. TextValueReport (record { signatures = operations.now.signatures; meaning = M.meaning }) asked.now.host.now.resolved (all_resolved asked.now.extensions.now) asked.now.name.now steps (shown_with asked.now.name.now (length text.now) leaves) text.now answer.status answer.report.items) }
{
    let question = Question {
        host: asked.host,
        extensions: asked.extensions,
        composed,
        attributes: asked.attributes,
        attribute: asked.attribute,
        steps,
    };
    let value = text_value(alloc, &question, text, operations)?;
    shown_text(alloc, value, asked.name, steps, text.len(), leaves)
}

// The answer for what a number makes.
pub(crate) fn made_answer<M: Meaning>(
    alloc: Global,
    number: u64,
    size: u64,
    asked: &Asked<'_>,
    composed: &Composed,
    operations: &OperationTable<M>,
) -> Result<Answer, AllocError>
    requires asked { IsAsked operations.now.signatures asked.now }
    requires composed { IsComposed asked.now.host.now asked.now.extensions.now composed.now.language.language composed.now.withdrawn.items }
    requires size { size ≤ 100000 }
    requires kept { IsKept operations.now.signatures operations.now.built_in operations.now.runs.items M.meaning
        (λ run vs. ⟦<Box<dyn Fn(&[Value]) -> Result<Value, OperationRefusal>> as Fn(&[Value]) -> Result<Value, OperationRefusal>>⟧.pre run vs)
        (λ run vs r. ⟦<Box<dyn Fn(&[Value]) -> Result<Value, OperationRefusal>> as Fn(&[Value]) -> Result<Value, OperationRefusal>>⟧.post run vs r) }
    ensures { IfOk result (λ answer. MadeReport (record { signatures = operations.now.signatures; meaning = M.meaning }) asked.now.host.now.resolved (all_resolved asked.now.extensions.now) asked.now.name.now number size answer.status answer.report.items) }
{
    match generated_text(alloc, asked.host, asked.extensions, composed, number, size)? {
        Generated::Text { text, leaves } => {
            let answer = made_text(alloc, text.as_slice(), leaves, asked, composed, operations);
            drop(text);
            answer
        }
        Generated::NoSentence(least) => reported(
            alloc,
            Status::NoSentence,
            Outcome::NoSentence { size, least },
        ),
    }
}

// The answer for a text that was made.
fn made_text<M: Meaning>(
    alloc: Global,
    text: &[u8],
    leaves: u64,
    asked: &Asked<'_>,
    composed: &Composed,
    operations: &OperationTable<M>,
) -> Result<Answer, AllocError>
    requires asked { IsAsked operations.now.signatures asked.now }
    requires composed { IsComposed asked.now.host.now asked.now.extensions.now composed.now.language.language composed.now.withdrawn.items }
    requires kept { IsKept operations.now.signatures operations.now.built_in operations.now.runs.items M.meaning
        (λ run vs. ⟦<Box<dyn Fn(&[Value]) -> Result<Value, OperationRefusal>> as Fn(&[Value]) -> Result<Value, OperationRefusal>>⟧.pre run vs)
        (λ run vs r. ⟦<Box<dyn Fn(&[Value]) -> Result<Value, OperationRefusal>> as Fn(&[Value]) -> Result<Value, OperationRefusal>>⟧.post run vs r) }
    ensures { IfOk result (λ answer. MadeTextReport (record { signatures = operations.now.signatures; meaning = M.meaning }) asked.now.host.now.resolved (all_resolved asked.now.extensions.now) asked.now.name.now leaves text.now answer.status answer.report.items) }
{
    if text.len() > FILE_LIMIT {
        return reported(alloc, Status::TextTooLong, Outcome::TextTooLong);
    }
    text_answer(
        alloc,
        text,
        STEPS,
        Some(leaves),
        asked,
        composed,
        operations,
    )
}
