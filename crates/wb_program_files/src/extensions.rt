//! What is answered where a file is no certified extension, by itself or after others?
//!
//! Why contents aren't one is found by `wb_certify_files`.

ghost use Rattle.std.specs.Prelude.{IfOk};
ghost use Rattle.wb_program_files.specs.ExtensionChecks.{RefusedExtension};

use crate::answer::{Answer, reported};
use crate::status::Status;
use std::alloc::{AllocError, Global};
use wb_base::Bytes;
use wb_certify_files::FileRefusal;
use wb_report::Outcome;

/// The most extensions that a command takes.
pub const MOST_EXTENSIONS: usize = 64;

/// The answer for a file that is no certified extension.
pub fn refused_extension(
    alloc: Global,
    file: Bytes,
    refusal: FileRefusal,
) -> Result<Answer, AllocError>
    ensures { IfOk result (λ answer. RefusedExtension file refusal answer.status answer.report.items) }
{
    match refusal {
        FileRefusal::Specification(refusal) => reported(
            alloc,
            Status::SpecRefused,
            Outcome::Refused { file, refusal },
        ),
        FileRefusal::WrongHost(host) => {
            reported(alloc, Status::WrongHost, Outcome::WrongHost { file, host })
        }
        FileRefusal::Certification(refusal) => reported(
            alloc,
            Status::NotCertified,
            Outcome::Refused { file, refusal },
        ),
        FileRefusal::NoMemory(error) => Err(error),
    }
}
