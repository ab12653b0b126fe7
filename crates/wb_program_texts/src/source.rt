//! What do `run --text FILE --attr NAME [--steps N] HOST EXT..` and `generate --number N --size K --attr NAME HOST EXT..` answer?
//!
//! The host comes first, then the extensions, then the attribute among those of their union, and then the text.

ghost use Rattle.std.specs.Prelude.{◌≡◌, ◌≤◌, IfOk};
ghost use Rattle.wb_compose_texts.specs.Composed.{IsComposed, IsOfUnion};
ghost use Rattle.wb_operations.specs.Kept.{IsKept};
ghost use Rattle.wb_report.specs.Lines.{report_of};
ghost use Rattle.wb_compose_texts.specs.Unions.{all_resolved};
ghost use Rattle.wb_program_words.specs.Asked.{texts};
ghost use Rattle.wb_program_files.specs.Checks.{Ends};
ghost use Rattle.wb_program_texts.specs.Composable.{AreApart};
ghost use Rattle.wb_program_files.specs.Makes.{Answers};
ghost use Rattle.wb_program_texts.specs.SeveralStops.{StopsComposed};
ghost use Rattle.wb_program_texts.specs.SeveralChecks.{SeveralChecks};
ghost use Rattle.wb_program_files.specs.Stopped.{outside};
ghost use Rattle.wb_program_texts.specs.Commands.Generate.{GenerateReport};
ghost use Rattle.wb_program_texts.specs.Commands.Run.{RunReport, RunStops};
ghost use Rattle.wb_program_texts.specs.Inner.Sources.{HasFewLeaves, IsAsked, SourceChecks, SourceEnd, SourceRest, SourceText};

use crate::asked::{Asked, file_answer, made_answer};
use crate::composable::read_composable;
use std::alloc::{AllocError, Global};
use wb_base::Bytes;
use wb_compose_texts::{Composed, compose, composed_attributes, root_attribute};
use wb_operations::{Meaning, OperationRefusal, OperationTable};
use wb_program_files::{Answer, CertifiedExtension, CertifiedHost, ReadFailure, Status, reported};
use wb_report::Outcome;
use wb_syntax_resolved::Attribution;
use wb_values::Value;
use wb_world::Shelf;

// Where a text comes from.
#[derive(Clone, Copy)]
pub(crate) enum Source<'a> {
    // A file holds it, and an evaluation at its root has so many steps.
    File { file: &'a str, steps: u64 },
    // A number makes it, of so many leaves at most.
    Number { number: u64, size: u64 },
}

/// The answer to `run --text FILE --attr NAME [--steps N] HOST EXT..`.
pub fn answer_run<S: Shelf, M: Meaning>(
    alloc: Global,
    shelf: &mut S,
    text: &str,
    attribute: &str,
    steps: u64,
    host: &str,
    extensions: &[String],
    operations: &OperationTable<M>,
) -> Result<Answer, ReadFailure>
    requires kept { IsKept operations.now.signatures operations.now.built_in operations.now.runs.items M.meaning
        (λ run vs. ⟦<Box<dyn Fn(&[Value]) -> Result<Value, OperationRefusal>> as Fn(&[Value]) -> Result<Value, OperationRefusal>>⟧.pre run vs)
        (λ run vs r. ⟦<Box<dyn Fn(&[Value]) -> Result<Value, OperationRefusal>> as Fn(&[Value]) -> Result<Value, OperationRefusal>>⟧.post run vs r) }
    ensures { Answers (outside (S.files shelf.old) (S.absences shelf.old) (S.faults shelf.old)) (outside (S.files shelf.new) (S.absences shelf.new) (S.faults shelf.new))
        result (RunReport (record { signatures = operations.now.signatures; meaning = M.meaning }) (S.files shelf.old) text.now attribute.now steps host.now (texts extensions.now))
        (RunStops operations.now.signatures (S.files shelf.old) text.now attribute.now host.now (texts extensions.now)) }
{
    let source = Source::File { file: text, steps };
    answer_source(
        alloc, shelf, source, attribute, host, extensions, operations,
    )
}

/// The answer to `generate --number N --size K --attr NAME HOST EXT..`.
pub fn answer_generate<S: Shelf, M: Meaning>(
    alloc: Global,
    shelf: &mut S,
    number: u64,
    size: u64,
    attribute: &str,
    host: &str,
    extensions: &[String],
    operations: &OperationTable<M>,
) -> Result<Answer, ReadFailure>
    requires size { size ≤ 100000 }
    requires kept { IsKept operations.now.signatures operations.now.built_in operations.now.runs.items M.meaning
        (λ run vs. ⟦<Box<dyn Fn(&[Value]) -> Result<Value, OperationRefusal>> as Fn(&[Value]) -> Result<Value, OperationRefusal>>⟧.pre run vs)
        (λ run vs r. ⟦<Box<dyn Fn(&[Value]) -> Result<Value, OperationRefusal>> as Fn(&[Value]) -> Result<Value, OperationRefusal>>⟧.post run vs r) }
    ensures { Answers (outside (S.files shelf.old) (S.absences shelf.old) (S.faults shelf.old)) (outside (S.files shelf.new) (S.absences shelf.new) (S.faults shelf.new))
        result (GenerateReport (record { signatures = operations.now.signatures; meaning = M.meaning }) (S.files shelf.old) number size attribute.now host.now (texts extensions.now))
        (λ P. StopsComposed operations.now.signatures (S.files shelf.old) host.now (texts extensions.now) P (λ r values. ⊥)) }
{
    let source = Source::Number { number, size };
    answer_source(
        alloc, shelf, source, attribute, host, extensions, operations,
    )
}

// The answer for an attribute at the root of a text, in the union of a host and extensions that files hold.
fn answer_source<S: Shelf, M: Meaning>(
    alloc: Global,
    shelf: &mut S,
    source: Source<'_>,
    attribute: &str,
    host: &str,
    extensions: &[String],
    operations: &OperationTable<M>,
) -> Result<Answer, ReadFailure>
    requires size { HasFewLeaves source }
    requires kept { IsKept operations.now.signatures operations.now.built_in operations.now.runs.items M.meaning
        (λ run vs. ⟦<Box<dyn Fn(&[Value]) -> Result<Value, OperationRefusal>> as Fn(&[Value]) -> Result<Value, OperationRefusal>>⟧.pre run vs)
        (λ run vs r. ⟦<Box<dyn Fn(&[Value]) -> Result<Value, OperationRefusal>> as Fn(&[Value]) -> Result<Value, OperationRefusal>>⟧.post run vs r) }
    ensures { Answers (outside (S.files shelf.old) (S.absences shelf.old) (S.faults shelf.old)) (outside (S.files shelf.new) (S.absences shelf.new) (S.faults shelf.new))
        result (SeveralChecks operations.now.signatures (S.files shelf.old) host.now (texts extensions.now) (SourceChecks (record { signatures = operations.now.signatures; meaning = M.meaning }) (S.files shelf.old) attribute.now source.entry))
        (λ P. StopsComposed operations.now.signatures (S.files shelf.old) host.now (texts extensions.now) P (SourceEnd operations.now.signatures attribute.now source.entry P)) }
{
    match read_composable(alloc, shelf, host, extensions, operations)? {
        Ok(all) => {
            let answer = union_answer(
                alloc,
                shelf,
                source,
                attribute,
                &all.host,
                &all.extensions,
                operations,
            );
            all.release();
            answer
        }
        Err(answer) => Ok(answer),
    }
}

// The answer in the union of a host with extensions.
fn union_answer<S: Shelf, M: Meaning>(
    alloc: Global,
    shelf: &mut S,
    source: Source<'_>,
    attribute: &str,
    host: &CertifiedHost,
    extensions: &[CertifiedExtension],
    operations: &OperationTable<M>,
) -> Result<Answer, ReadFailure>
    requires operations { host.now.operations ≡ operations.now.signatures }
    requires apart { AreApart host.now extensions.now }
    requires size { HasFewLeaves source }
    requires kept { IsKept operations.now.signatures operations.now.built_in operations.now.runs.items M.meaning
        (λ run vs. ⟦<Box<dyn Fn(&[Value]) -> Result<Value, OperationRefusal>> as Fn(&[Value]) -> Result<Value, OperationRefusal>>⟧.pre run vs)
        (λ run vs r. ⟦<Box<dyn Fn(&[Value]) -> Result<Value, OperationRefusal>> as Fn(&[Value]) -> Result<Value, OperationRefusal>>⟧.post run vs r) }
    ensures { Answers (outside (S.files shelf.old) (S.absences shelf.old) (S.faults shelf.old)) (outside (S.files shelf.new) (S.absences shelf.new) (S.faults shelf.new))
        result (SourceChecks (record { signatures = operations.now.signatures; meaning = M.meaning }) (S.files shelf.old) attribute.now source.entry host.now.resolved (all_resolved extensions.now))
        (λ P. SourceEnd operations.now.signatures attribute.now source.entry P host.now.resolved (all_resolved extensions.now)) }
{
    let attributes = composed_attributes(alloc, host, extensions)?;
    let answer = attribute_answer(
        alloc,
        shelf,
        source,
        attribute,
        host,
        extensions,
        &attributes,
        operations,
    );
    attributes.release();
    answer
}

// The answer for an attribute among those of the union.
fn attribute_answer<S: Shelf, M: Meaning>(
    alloc: Global,
    shelf: &mut S,
    source: Source<'_>,
    name: &str,
    host: &CertifiedHost,
    extensions: &[CertifiedExtension],
    attributes: &Attribution,
    operations: &OperationTable<M>,
) -> Result<Answer, ReadFailure>
    requires operations { host.now.operations ≡ operations.now.signatures }
    requires apart { AreApart host.now extensions.now }
    requires attributes { IsOfUnion host.now.resolved host.now.operations (all_resolved extensions.now) attributes.now }
    requires size { HasFewLeaves source }
    requires kept { IsKept operations.now.signatures operations.now.built_in operations.now.runs.items M.meaning
        (λ run vs. ⟦<Box<dyn Fn(&[Value]) -> Result<Value, OperationRefusal>> as Fn(&[Value]) -> Result<Value, OperationRefusal>>⟧.pre run vs)
        (λ run vs r. ⟦<Box<dyn Fn(&[Value]) -> Result<Value, OperationRefusal>> as Fn(&[Value]) -> Result<Value, OperationRefusal>>⟧.post run vs r) }
    ensures { Answers (outside (S.files shelf.old) (S.absences shelf.old) (S.faults shelf.old)) (outside (S.files shelf.new) (S.absences shelf.new) (S.faults shelf.new))
        result (SourceChecks (record { signatures = operations.now.signatures; meaning = M.meaning }) (S.files shelf.old) name.now source.entry host.now.resolved (all_resolved extensions.now))
        (λ P. SourceEnd operations.now.signatures name.now source.entry P host.now.resolved (all_resolved extensions.now)) }
{
    match root_attribute(alloc, host, attributes, name.as_bytes())? {
        Some(attribute) => {
            let asked = Asked {
                host,
                extensions,
                attributes,
                name,
                attribute,
            };
            source_answer(alloc, shelf, source, &asked, operations)
        }
        None => Ok(unknown(alloc, name)?),
    }
}

// The answer for an attribute that no root has.
fn unknown(alloc: Global, name: &str) -> Result<Answer, AllocError>
    ensures { IfOk result (λ answer. Ends Status.UnknownAttribute (λ bytes. bytes ≡ report_of (Outcome.UnknownAttribute name.now)) answer.status answer.report.items) }
{
    let name = Bytes::from_slice(alloc, name.as_bytes())?;
    reported(
        alloc,
        Status::UnknownAttribute,
        Outcome::UnknownAttribute(name),
    )
}

// The answer for an attribute that may be asked at the start.
fn source_answer<S: Shelf, M: Meaning>(
    alloc: Global,
    shelf: &mut S,
    source: Source<'_>,
    asked: &Asked<'_>,
    operations: &OperationTable<M>,
) -> Result<Answer, ReadFailure>
    requires asked { IsAsked operations.now.signatures asked.now }
    requires size { HasFewLeaves source }
    requires kept { IsKept operations.now.signatures operations.now.built_in operations.now.runs.items M.meaning
        (λ run vs. ⟦<Box<dyn Fn(&[Value]) -> Result<Value, OperationRefusal>> as Fn(&[Value]) -> Result<Value, OperationRefusal>>⟧.pre run vs)
        (λ run vs r. ⟦<Box<dyn Fn(&[Value]) -> Result<Value, OperationRefusal>> as Fn(&[Value]) -> Result<Value, OperationRefusal>>⟧.post run vs r) }
    ensures { Answers (outside (S.files shelf.old) (S.absences shelf.old) (S.faults shelf.old)) (outside (S.files shelf.new) (S.absences shelf.new) (S.faults shelf.new))
        result (SourceRest (record { signatures = operations.now.signatures; meaning = M.meaning }) (S.files shelf.old) source.entry asked.now)
        (λ P. SourceText P source.entry) }
{
    let composed = compose(alloc, asked.host, asked.extensions)?;
    let answer = composed_answer(alloc, shelf, source, asked, &composed, operations);
    composed.release();
    answer
}

// The answer for an attribute that may be asked at the start, in what is composed.
fn composed_answer<S: Shelf, M: Meaning>(
    alloc: Global,
    shelf: &mut S,
    source: Source<'_>,
    asked: &Asked<'_>,
    composed: &Composed,
    operations: &OperationTable<M>,
) -> Result<Answer, ReadFailure>
    requires asked { IsAsked operations.now.signatures asked.now }
    requires composed { IsComposed asked.now.host.now asked.now.extensions.now composed.now.language.language composed.now.withdrawn.items }
    requires size { HasFewLeaves source }
    requires kept { IsKept operations.now.signatures operations.now.built_in operations.now.runs.items M.meaning
        (λ run vs. ⟦<Box<dyn Fn(&[Value]) -> Result<Value, OperationRefusal>> as Fn(&[Value]) -> Result<Value, OperationRefusal>>⟧.pre run vs)
        (λ run vs r. ⟦<Box<dyn Fn(&[Value]) -> Result<Value, OperationRefusal>> as Fn(&[Value]) -> Result<Value, OperationRefusal>>⟧.post run vs r) }
    ensures { Answers (outside (S.files shelf.old) (S.absences shelf.old) (S.faults shelf.old)) (outside (S.files shelf.new) (S.absences shelf.new) (S.faults shelf.new))
        result (SourceRest (record { signatures = operations.now.signatures; meaning = M.meaning }) (S.files shelf.old) source.entry asked.now)
        (λ P. SourceText P source.entry) }
{
    match source {
        Source::File { file, steps } => {
            file_answer(alloc, shelf, file, steps, asked, composed, operations)
        }
        Source::Number { number, size } => Ok(made_answer(
            alloc, number, size, asked, composed, operations,
        )?),
    }
}
