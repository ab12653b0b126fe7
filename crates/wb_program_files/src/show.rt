//! What does `show SPEC` answer?
//!
//! The canonical text comes from `wb_reader_printer`, why a file isn't a specification from `wb_reader`.

ghost use Rattle.std.specs.Prelude.{IfOk};
ghost use Rattle.wb_reader.specs.OneAnswer.{IsNoMemory};
ghost use Rattle.wb_program_files.specs.Checks.{Ends};
ghost use Rattle.wb_program_files.specs.Stopped.{outside};
ghost use Rattle.wb_program_files.specs.Makes.{Answers};
ghost use Rattle.wb_program_files.specs.Commands.Show.{ShowReport};
ghost use Rattle.wb_program_files.specs.Inner.Shown.{ContentsShow, ShowsRefusal};

use crate::answer::{Answer, reported};
use crate::files::{Contents, ReadFailure, read_file};
use crate::status::Status;
use std::alloc::{AllocError, Global};
use wb_base::{Bytes, FILE_LIMIT};
use wb_certify_files::written_rule;
use wb_reader::{SpecRefusal, read_spec};
use wb_reader_printer::print_spec;
use wb_report::{Outcome, Refusal};
use wb_world::Shelf;

/// The answer to `show SPEC`.
pub fn answer_show<S: Shelf>(
    alloc: Global,
    shelf: &mut S,
    file: &str,
) -> Result<Answer, ReadFailure>
    ensures { Answers (outside (S.files shelf.old) (S.absences shelf.old) (S.faults shelf.old)) (outside (S.files shelf.new) (S.absences shelf.new) (S.faults shelf.new))
        result (ShowReport (S.files shelf.old) file.now)
        (λ P. P file.now) }
{
    let contents = read_file(alloc, shelf, file, FILE_LIMIT)?;
    Ok(answer_contents(alloc, file, contents)?)
}

// The answer for what was read of the file.
fn answer_contents(alloc: Global, file: &str, contents: Contents) -> Result<Answer, AllocError>
    ensures { IfOk result (λ answer. ContentsShow contents answer.status answer.report.items file.now) }
{
    match contents {
        Contents::Whole(bytes) => match read_spec(alloc, &bytes) {
            Ok(spec) => {
                drop(bytes);
                let report = print_spec(alloc, &spec);
                spec.release();
                Ok(Answer {
                    status: Status::Done,
                    report: report?,
                })
            }
            Err(SpecRefusal::NoMemory(error)) => {
                drop(bytes);
                Err(error)
            }
            Err(refusal) => {
                drop(bytes);
                let answer = refused(alloc, file, &refusal);
                refusal.release();
                answer
            }
        },
        Contents::TooLong => refused(alloc, file, &SpecRefusal::TooLong),
    }
}

// The answer for a file that isn't taken.
fn refused(alloc: Global, file: &str, refusal: &SpecRefusal) -> Result<Answer, AllocError>
    requires { ¬ IsNoMemory refusal.now }
    ensures { IfOk result (λ answer. Ends Status.SpecRefused (ShowsRefusal refusal.now file.now) answer.status answer.report.items) }
{
    let file = Bytes::from_slice(alloc, file.as_bytes())?;
    match written_rule(refusal)? {
        Some(reason) => {
            let refusal = Refusal::Specification(reason);
            reported(
                alloc,
                Status::SpecRefused,
                Outcome::Refused { file, refusal },
            )
        }
        None => unreachable!(),
    }
}
