//! What does `value HOST TERM ATTR` answer?
//!
//! The host comes first, whose attributes must be well defined, and then the term, whose answer is found by `wb_eval_root`.

ghost use Rattle.std.specs.Prelude.{IfOk, List, ℕ, [], ◌∷◌};
ghost use Rattle.wb_flow_theory.specs.Modular.{EachProduction};
ghost use Rattle.wb_flow_theory.specs.WellDefined.{IsWellDefinedProduction};
ghost use Rattle.wb_operations.specs.Kept.{IsKept};
ghost use Rattle.wb_types.specs.Rules.{KindsOk};
ghost use Rattle.wb_program_files.specs.Checks.{Check};
ghost use Rattle.wb_program_files.specs.Stops.{well_defined_host, written_term, StopsAt};
ghost use Rattle.wb_program_files.specs.Stopped.{outside};
ghost use Rattle.wb_program_files.specs.Makes.{Answers};
ghost use Rattle.wb_program_files.specs.Texts.{IsText, IsTooLongText};
ghost use Rattle.wb_program_files.specs.Contents.{ReadText};
ghost use Rattle.wb_program_files.specs.Commands.Value.{RootReport, TermReport, ValueReport};

use crate::answer::{Answer, reported};
use crate::files::{Contents, ReadFailure, read_file};
use crate::hosts::read_well_defined;
use crate::status::Status;
use std::alloc::{AllocError, Global};
use wb_base::{Bytes, FILE_LIMIT, Sequence};
use wb_eval_root::{RootAnswer, root_value};
use wb_operations::{Meaning, OperationRefusal, OperationTable};
use wb_report::{Done, Outcome, Refusal, TermReason};
use wb_syntax_resolved::Attribution;
use wb_values::Value;
use wb_world::Shelf;

// The most steps of an evaluation.
const STEPS: u64 = 1_000_000;

/// The answer to `value HOST TERM ATTR`.
pub fn answer_value<S: Shelf, M: Meaning>(
    alloc: Global,
    shelf: &mut S,
    host: &str,
    term: &str,
    attribute: &str,
    operations: &OperationTable<M>,
) -> Result<Answer, ReadFailure>
    requires kept { IsKept operations.now.signatures operations.now.built_in operations.now.runs.items M.meaning
        (λ run vs. ⟦<Box<dyn Fn(&[Value]) -> Result<Value, OperationRefusal>> as Fn(&[Value]) -> Result<Value, OperationRefusal>>⟧.pre run vs)
        (λ run vs r. ⟦<Box<dyn Fn(&[Value]) -> Result<Value, OperationRefusal>> as Fn(&[Value]) -> Result<Value, OperationRefusal>>⟧.post run vs r) }
    ensures { Answers (outside (S.files shelf.old) (S.absences shelf.old) (S.faults shelf.old)) (outside (S.files shelf.new) (S.absences shelf.new) (S.faults shelf.new))
        result (ValueReport (record { signatures = operations.now.signatures; meaning = M.meaning }) (S.files shelf.old) host.now term.now attribute.now)
        (λ P. StopsAt operations.now.signatures (S.files shelf.old) P (well_defined_host host.now ∷ written_term term.now ∷ [])) }
{
    match read_well_defined(alloc, shelf, host, operations)? {
        Ok(resolved) => {
            let answer = answer_term(
                alloc,
                shelf,
                &resolved.parts().attributes,
                term,
                attribute,
                operations,
            );
            resolved.release();
            answer
        }
        Err(answer) => Ok(answer),
    }
}

// The answer for the term of a file in a host of these attributes.
fn answer_term<S: Shelf, M: Meaning>(
    alloc: Global,
    shelf: &mut S,
    attributes: &Attribution,
    file: &str,
    attribute: &str,
    operations: &OperationTable<M>,
) -> Result<Answer, ReadFailure>
    requires productions { EachProduction attributes.now (IsWellDefinedProduction attributes.now) }
    requires kinds { KindsOk attributes.now operations.now.signatures }
    requires kept { IsKept operations.now.signatures operations.now.built_in operations.now.runs.items M.meaning
        (λ run vs. ⟦<Box<dyn Fn(&[Value]) -> Result<Value, OperationRefusal>> as Fn(&[Value]) -> Result<Value, OperationRefusal>>⟧.pre run vs)
        (λ run vs r. ⟦<Box<dyn Fn(&[Value]) -> Result<Value, OperationRefusal>> as Fn(&[Value]) -> Result<Value, OperationRefusal>>⟧.post run vs r) }
    ensures { Answers (outside (S.files shelf.old) (S.absences shelf.old) (S.faults shelf.old)) (outside (S.files shelf.new) (S.absences shelf.new) (S.faults shelf.new))
        result (Check Status.TextTooLong (IsTooLongText (S.files shelf.old) file.now) (IsText (S.files shelf.old) file.now)
        (λ (text : List ℕ). TermReport (record { signatures = operations.now.signatures; meaning = M.meaning }) attributes.now file.now attribute.now text))
        (λ P. P file.now) }
{
    let contents = read_file(alloc, shelf, file, FILE_LIMIT)?;
    Ok(answer_contents(alloc, contents, attributes, file, attribute, operations)?)
}

// The answer for what was read of the file.
fn answer_contents<M: Meaning>(
    alloc: Global,
    contents: Contents,
    attributes: &Attribution,
    file: &str,
    attribute: &str,
    operations: &OperationTable<M>,
) -> Result<Answer, AllocError>
    requires productions { EachProduction attributes.now (IsWellDefinedProduction attributes.now) }
    requires kinds { KindsOk attributes.now operations.now.signatures }
    requires kept { IsKept operations.now.signatures operations.now.built_in operations.now.runs.items M.meaning
        (λ run vs. ⟦<Box<dyn Fn(&[Value]) -> Result<Value, OperationRefusal>> as Fn(&[Value]) -> Result<Value, OperationRefusal>>⟧.pre run vs)
        (λ run vs r. ⟦<Box<dyn Fn(&[Value]) -> Result<Value, OperationRefusal>> as Fn(&[Value]) -> Result<Value, OperationRefusal>>⟧.post run vs r) }
    ensures { IfOk result (λ answer. ReadText (TermReport (record { signatures = operations.now.signatures; meaning = M.meaning }) attributes.now file.now attribute.now)
        contents answer.status answer.report.items) }
{
    match contents {
        Contents::Whole(bytes) => {
            let answer = root_value(
                alloc,
                attributes,
                &bytes,
                attribute.as_bytes(),
                STEPS,
                operations,
            )?;
            shown(alloc, answer, file, attribute)
        }
        Contents::TooLong => reported(alloc, Status::TextTooLong, Outcome::TextTooLong),
    }
}

// The answer for what an attribute is at the root of the term of a file.
fn shown(
    alloc: Global,
    answer: RootAnswer,
    file: &str,
    attribute: &str,
) -> Result<Answer, AllocError>
    ensures { IfOk result (λ made. RootReport file.now attribute.now answer made.status made.report.items) }
{
    match answer {
        RootAnswer::Refused(reason) => refused_term(alloc, file, reason),
        RootAnswer::UnknownAttribute => unknown(alloc, attribute),
        RootAnswer::Fault { operation, code } => reported(
            alloc,
            Status::OperationFault,
            Outcome::Fault { operation, code },
        ),
        RootAnswer::MoreSteps => reported(alloc, Status::MoreSteps, Outcome::MoreSteps(STEPS)),
        RootAnswer::TooLong => reported(alloc, Status::TooLongToPrint, Outcome::TooLongToPrint),
        RootAnswer::Value(printed) => done_with(alloc, attribute, &printed),
    }
}

// The answer for a file that isn't a term of its host.
fn refused_term(alloc: Global, file: &str, reason: TermReason) -> Result<Answer, AllocError>
    ensures { IfOk result (λ made. RootReport file.now [] (RootAnswer.Refused reason) made.status made.report.items) }
{
    let file = Bytes::from_slice(alloc, file.as_bytes())?;
    let refusal = Refusal::Term(reason);
    reported(
        alloc,
        Status::TermRefused,
        Outcome::Refused { file, refusal },
    )
}

// The answer for an attribute that can't be asked for at the root.
fn unknown(alloc: Global, attribute: &str) -> Result<Answer, AllocError>
    ensures { IfOk result (λ made. RootReport [] attribute.now RootAnswer.UnknownAttribute made.status made.report.items) }
{
    let name = Bytes::from_slice(alloc, attribute.as_bytes())?;
    reported(
        alloc,
        Status::UnknownAttribute,
        Outcome::UnknownAttribute(name),
    )
}

// The answer for a printed value.
fn done_with(alloc: Global, attribute: &str, printed: &Bytes) -> Result<Answer, AllocError>
    ensures { IfOk result (λ made. RootReport [] attribute.now (RootAnswer.Value printed.now) made.status made.report.items) }
{
    let value = Sequence::from_vec(Vec::from_slice(alloc, printed.as_slice())?);
    let attribute = Bytes::from_slice(alloc, attribute.as_bytes())?;
    reported(
        alloc,
        Status::Done,
        Outcome::Done(Done::Value { attribute, value }),
    )
}
