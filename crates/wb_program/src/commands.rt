//! What is the answer to a command?
//!
//! What stands alone in a file is answered in `wb_program_files`, a text in `wb_program_texts`, and a host with its extensions as a whole here.

ghost use Rattle.wb_operations.specs.Kept.{IsKept};
ghost use Rattle.wb_program_words.specs.Asked.{asked_by};
ghost use Rattle.wb_program_words.specs.Laws.{HasFewLeaves};
ghost use Rattle.wb_program_texts.specs.Stopped.{outside};
ghost use Rattle.wb_program_texts.specs.Makes.{Answers};
ghost use Rattle.wb_program.specs.Inner.OnTexts.{IsOnText};
ghost use Rattle.wb_program.specs.Commands.{IsReportOf, ReadsTo};

mod certificate;
mod compose;

use certificate::answer_certificate;
use compose::answer_compose;
use std::alloc::Global;
use wb_operations::{Meaning, OperationRefusal, OperationTable};
use wb_program_texts::{
    Answer, ReadFailure, answer_certify, answer_check, answer_edit, answer_generate,
    answer_reading, answer_recheck, answer_run, answer_show, answer_tree, answer_value,
};
use wb_program_words::Command;
use wb_values::Value;
use wb_world::Shelf;

// The answer to a command.
pub(crate) fn answer_to<S: Shelf, M: Meaning>(
    alloc: Global,
    shelf: &mut S,
    command: Command<'_>,
    operations: &OperationTable<M>,
) -> Result<Answer, ReadFailure>
    requires leaves { HasFewLeaves (asked_by command) }
    requires kept { IsKept operations.now.signatures operations.now.built_in operations.now.runs.items M.meaning
        (λ run vs. ⟦<Box<dyn Fn(&[Value]) -> Result<Value, OperationRefusal>> as Fn(&[Value]) -> Result<Value, OperationRefusal>>⟧.pre run vs)
        (λ run vs r. ⟦<Box<dyn Fn(&[Value]) -> Result<Value, OperationRefusal>> as Fn(&[Value]) -> Result<Value, OperationRefusal>>⟧.post run vs r) }
    ensures { Answers (outside (S.files shelf.old) (S.absences shelf.old) (S.faults shelf.old)) (outside (S.files shelf.new) (S.absences shelf.new) (S.faults shelf.new))
        result (λ status bytes. IsReportOf (record { signatures = operations.now.signatures; meaning = M.meaning }) (S.files shelf.old) status bytes (asked_by command.entry))
        (ReadsTo operations.now.signatures (S.files shelf.old) (asked_by command.entry)) }
{
    match command {
        Command::Value {
            host,
            term,
            attribute,
        } => answer_value(alloc, shelf, host, term, attribute, operations),
        Command::Show { file } => answer_show(alloc, shelf, file),
        Command::Check { host } => answer_check(alloc, shelf, host, operations),
        Command::Certify { host, extensions } => {
            answer_certify(alloc, shelf, host, extensions, operations)
        }
        Command::Compose { host, extensions } => {
            answer_compose(alloc, shelf, host, extensions, operations)
        }
        Command::Certificate { host, extensions } => {
            answer_certificate(alloc, shelf, host, extensions, operations)
        }
        Command::Recheck {
            host,
            certificate,
            extension,
        } => answer_recheck(alloc, shelf, host, certificate, extension, operations),
        on_text => answer_on_text(alloc, shelf, on_text, operations),
    }
}

// The same, for what is asked of a text in the language of a host with extensions.
fn answer_on_text<S: Shelf, M: Meaning>(
    alloc: Global,
    shelf: &mut S,
    command: Command<'_>,
    operations: &OperationTable<M>,
) -> Result<Answer, ReadFailure>
    requires on_text { IsOnText command }
    requires leaves { HasFewLeaves (asked_by command) }
    requires kept { IsKept operations.now.signatures operations.now.built_in operations.now.runs.items M.meaning
        (λ run vs. ⟦<Box<dyn Fn(&[Value]) -> Result<Value, OperationRefusal>> as Fn(&[Value]) -> Result<Value, OperationRefusal>>⟧.pre run vs)
        (λ run vs r. ⟦<Box<dyn Fn(&[Value]) -> Result<Value, OperationRefusal>> as Fn(&[Value]) -> Result<Value, OperationRefusal>>⟧.post run vs r) }
    ensures { Answers (outside (S.files shelf.old) (S.absences shelf.old) (S.faults shelf.old)) (outside (S.files shelf.new) (S.absences shelf.new) (S.faults shelf.new))
        result (λ status bytes. IsReportOf (record { signatures = operations.now.signatures; meaning = M.meaning }) (S.files shelf.old) status bytes (asked_by command.entry))
        (ReadsTo operations.now.signatures (S.files shelf.old) (asked_by command.entry)) }
{
    match command {
        Command::Tree {
            text,
            host,
            extensions,
        } => answer_tree(alloc, shelf, text, host, extensions, operations),
        Command::Run {
            text,
            attribute,
            steps,
            host,
            extensions,
        } => answer_run(
            alloc, shelf, text, attribute, steps, host, extensions, operations,
        ),
        Command::Generate {
            number,
            size,
            attribute,
            host,
            extensions,
        } => answer_generate(
            alloc, shelf, number, size, attribute, host, extensions, operations,
        ),
        Command::Edit {
            text,
            edits,
            host,
            extensions,
        } => answer_edit(alloc, shelf, text, edits, host, extensions, operations),
        Command::Reading {
            text,
            host,
            extensions,
        } => answer_reading(alloc, shelf, text, host, extensions, operations),
        _ => unreachable!(),
    }
}
