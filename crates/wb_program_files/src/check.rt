//! What does `check HOST` answer?
//!
//! Which certified host is in a file is found in `hosts`, with whose checks other commands begin too.

ghost use Rattle.std.specs.Prelude.{◌≡◌, IfOk, [], ◌∷◌};
ghost use Rattle.wb_report.specs.Lines.{report_of};
ghost use Rattle.wb_program_files.specs.Stops.{certified_host, StopsAt};
ghost use Rattle.wb_program_files.specs.Stopped.{outside};
ghost use Rattle.wb_program_files.specs.Makes.{Answers};
ghost use Rattle.wb_program_files.specs.Commands.Check.{CheckReport};

use crate::answer::{Answer, reported};
use crate::files::ReadFailure;
use crate::hosts::read_host;
use crate::status::Status;
use std::alloc::{AllocError, Global};
use wb_base::{Bytes, Sequence};
use wb_certify_files::CertifiedHost;
use wb_operations::{Meaning, OperationTable};
use wb_report::{Done, Outcome};
use wb_world::Shelf;

/// The answer to `check HOST`.
pub fn answer_check<S: Shelf, M: Meaning>(
    alloc: Global,
    shelf: &mut S,
    host: &str,
    operations: &OperationTable<M>,
) -> Result<Answer, ReadFailure>
    ensures { Answers (outside (S.files shelf.old) (S.absences shelf.old) (S.faults shelf.old)) (outside (S.files shelf.new) (S.absences shelf.new) (S.faults shelf.new))
        result (CheckReport operations.now.signatures (S.files shelf.old) host.now) (λ P. StopsAt operations.now.signatures (S.files shelf.old) P (certified_host host.now ∷ [])) }
{
    match read_host(alloc, shelf, host, operations)? {
        Ok(certified) => Ok(certified_answer(alloc, certified)?),
        Err(answer) => Ok(answer),
    }
}

// The answer for a host that is certified.
fn certified_answer(alloc: Global, host: CertifiedHost) -> Result<Answer, AllocError>
    ensures status { IfOk result (λ answer. answer.status ≡ Status.Done) }
    ensures report { IfOk result (λ answer. answer.report.items ≡ report_of (Outcome.Done (Done.Certified host.resolved.host []))) }
{
    let answer = name_answer(alloc, host.name());
    host.release();
    answer
}

// The answer for a certified host of this name.
fn name_answer(alloc: Global, name: &[u8]) -> Result<Answer, AllocError>
    ensures status { IfOk result (λ answer. answer.status ≡ Status.Done) }
    ensures report { IfOk result (λ answer. answer.report.items ≡ report_of (Outcome.Done (Done.Certified name.now []))) }
{
    let host = Bytes::from_slice(alloc, name)?;
    let extensions = Sequence::from_vec(Vec::new(alloc));
    reported(
        alloc,
        Status::Done,
        Outcome::Done(Done::Certified { host, extensions }),
    )
}
