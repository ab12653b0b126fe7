//! What is the value of an attribute at the root of a text? The note is what the program reports of it.

ghost use Rattle.std.specs.Prelude.{◌≡◌, IfErr, IfOk, None, OnOk, Some};
ghost use Rattle.wb_report.specs.Lines.{report_of};
ghost use Rattle.wb_session_library.specs.Questions.{HasValue, IsShown, IsShownTree, IsValueRefusal};

use crate::notes::note_outcome;
use crate::{CallRefusal, LanguageText};
use std::alloc::{AllocError, Global};
use wb_base::{Bytes, Sequence};
use wb_compose_files::{TextValue, TreeValue};
use wb_report::{Done, Outcome};

// Makes a note of the value of an attribute at the root of a text, within so many steps.
pub(crate) fn note_value(
    alloc: Global,
    text: &LanguageText,
    name: &[u8],
    steps: u64,
    note: &mut Vec<u8>,
) -> Result<(), CallRefusal>
    ensures ok { OnOk result (HasValue text.now name.now steps note.new.items None) }
    ensures refused { IfErr result (IsValueRefusal text.now name.now steps note.new.items) }
{
    match text.language().value(alloc, text.text(), name, steps) {
        Ok(Some(value)) => match note_text(alloc, name, steps, value, note) {
            Ok(None) => Ok(()),
            Ok(Some(refusal)) => Err(refusal),
            Err(_) => Err(CallRefusal::NoMemory),
        },
        Ok(None) => match note_unknown(alloc, name, note) {
            Ok(()) => Err(CallRefusal::UnknownAttribute),
            Err(_) => Err(CallRefusal::NoMemory),
        },
        Err(_) => Err(CallRefusal::NoMemory),
    }
}

// Makes a note of what comes of a text, and answers why it is no value.
fn note_text(
    alloc: Global,
    name: &[u8],
    steps: u64,
    value: TextValue,
    note: &mut Vec<u8>,
) -> Result<Option<CallRefusal>, AllocError>
    ensures { IfOk result (IsShown name.now steps note.new.items value) }
{
    match value {
        TextValue::Tree(value) => note_root(alloc, name, steps, value, note),
        TextValue::Stopped { at, stop } => note_as(
            alloc,
            Outcome::Stopped { at, stop },
            CallRefusal::TextStopped,
            note,
        ),
    }
}

// Makes a note of what comes of an attribute at the root of a tree, and answers why it is no value.
fn note_root(
    alloc: Global,
    name: &[u8],
    steps: u64,
    value: TreeValue,
    note: &mut Vec<u8>,
) -> Result<Option<CallRefusal>, AllocError>
    ensures { IfOk result (IsShownTree name.now steps note.new.items value) }
{
    match value {
        TreeValue::Fault { operation, code } => note_as(
            alloc,
            Outcome::Fault { operation, code },
            CallRefusal::OperationFault,
            note,
        ),
        TreeValue::MoreSteps => note_as(
            alloc,
            Outcome::MoreSteps(steps),
            CallRefusal::MoreSteps,
            note,
        ),
        TreeValue::TooLong => note_as(
            alloc,
            Outcome::TooLongToPrint,
            CallRefusal::TooLongToPrint,
            note,
        ),
        TreeValue::Value(printed) => {
            let answer = note_printed(alloc, name, &printed, note);
            drop(printed);
            answer
        }
    }
}

// Makes a note of the report of an outcome, and answers the refusal.
fn note_as(
    alloc: Global,
    outcome: Outcome,
    refusal: CallRefusal,
    note: &mut Vec<u8>,
) -> Result<Option<CallRefusal>, AllocError>
    ensures status { IfOk result (λ status. status ≡ Some refusal) }
    ensures note { OnOk result (note.new.items ≡ report_of outcome) }
{
    match note_outcome(alloc, outcome, note) {
        Ok(()) => Ok(Some(refusal)),
        Err(error) => Err(error),
    }
}

// Makes a note of a printed value of an attribute.
fn note_printed(
    alloc: Global,
    name: &[u8],
    printed: &Bytes,
    note: &mut Vec<u8>,
) -> Result<Option<CallRefusal>, AllocError>
    ensures status { IfOk result (λ status. status ≡ None) }
    ensures note { OnOk result (note.new.items ≡ report_of (Outcome.Done (Done.Value name.now printed.now))) }
{
    let attribute = Bytes::from_slice(alloc, name)?;
    match copied(alloc, printed.as_slice()) {
        Ok(value) => {
            note_outcome(alloc, Outcome::Done(Done::Value { attribute, value }), note)?;
            Ok(None)
        }
        Err(error) => {
            drop(attribute);
            Err(error)
        }
    }
}

// A copy of bytes.
fn copied(alloc: Global, bytes: &[u8]) -> Result<Sequence<u8>, AllocError>
    ensures { IfOk result (λ made. made ≡ bytes.now) }
{
    let mut copy = Vec::new(alloc);
    match copy.extend_from_slice(bytes) {
        Ok(()) => Ok(Sequence::from_vec(copy)),
        Err(error) => {
            drop(copy);
            Err(error)
        }
    }
}

// Makes a note of an attribute that no root has.
fn note_unknown(alloc: Global, name: &[u8], note: &mut Vec<u8>) -> Result<(), AllocError>
    ensures { OnOk result (note.new.items ≡ report_of (Outcome.UnknownAttribute name.now)) }
{
    let name = Bytes::from_slice(alloc, name)?;
    note_outcome(alloc, Outcome::UnknownAttribute(name), note)
}
