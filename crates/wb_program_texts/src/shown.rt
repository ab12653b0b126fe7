//! What is answered for what comes of a text and an attribute?

ghost use Rattle.std.specs.Prelude.{◌≡◌, IfOk};
ghost use Rattle.wb_report.specs.Lines.{report_of};
ghost use Rattle.wb_program_files.specs.Checks.{Ends};
ghost use Rattle.wb_program_texts.specs.Values.{ShownTextValue, ShownTreeValue};
ghost use Rattle.wb_program_texts.specs.Inner.Sources.{shown_with};

use std::alloc::{AllocError, Global};
use wb_base::{Bytes, Sequence};
use wb_compose_texts::{TextValue, TreeValue};
use wb_program_files::{Answer, Status, reported};
use wb_report::{Done, Outcome};

// The answer for a text, which stops, or has a tree and a value at its root.
pub(crate) fn shown_text(
    alloc: Global,
    value: TextValue,
    name: &str,
    steps: u64,
    bytes: usize,
    leaves: Option<u64>,
) -> Result<Answer, AllocError>
    ensures { IfOk result (λ made. ShownTextValue (shown_with name.now bytes leaves) steps value made.status made.report.items) }
{
    match value {
        TextValue::Tree(value) => shown_value(alloc, value, name, steps, bytes, leaves),
        TextValue::Stopped { at, stop } => {
            reported(alloc, Status::TextStopped, Outcome::Stopped { at, stop })
        }
    }
}

// The answer for what comes of an attribute.
fn shown_value(
    alloc: Global,
    value: TreeValue,
    name: &str,
    steps: u64,
    bytes: usize,
    leaves: Option<u64>,
) -> Result<Answer, AllocError>
    ensures { IfOk result (λ made. ShownTreeValue (shown_with name.now bytes leaves) steps value made.status made.report.items) }
{
    match value {
        TreeValue::Fault { operation, code } => reported(
            alloc,
            Status::OperationFault,
            Outcome::Fault { operation, code },
        ),
        TreeValue::MoreSteps => reported(alloc, Status::MoreSteps, Outcome::MoreSteps(steps)),
        TreeValue::TooLong => reported(alloc, Status::TooLongToPrint, Outcome::TooLongToPrint),
        TreeValue::Value(printed) => {
            let answer = printed_value(alloc, &printed, name, bytes, leaves);
            drop(printed);
            answer
        }
    }
}

// The answer for a printed value.
fn printed_value(
    alloc: Global,
    printed: &Bytes,
    name: &str,
    bytes: usize,
    leaves: Option<u64>,
) -> Result<Answer, AllocError>
    ensures { IfOk result (λ made. Ends Status.Done (λ line. line ≡ report_of (Outcome.Done (shown_with name.now bytes leaves printed.now))) made.status made.report.items) }
{
    let value = Sequence::from_vec(Vec::from_slice(alloc, printed.as_slice())?);
    let attribute = Bytes::from_slice(alloc, name.as_bytes())?;
    match leaves {
        Some(leaves) => reported(
            alloc,
            Status::Done,
            Outcome::Done(Done::Generated {
                leaves,
                bytes,
                attribute,
                value,
            }),
        ),
        None => reported(
            alloc,
            Status::Done,
            Outcome::Done(Done::Value { attribute, value }),
        ),
    }
}
