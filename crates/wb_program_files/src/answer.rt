//! What is an answer? A status with its report, which is made whole before its first byte is written.

ghost use Rattle.std.specs.Prelude.{◌≡◌, IfOk};
ghost use Rattle.wb_report.specs.Lines.{report_of};

use crate::status::Status;
use std::alloc::{AllocError, Global};
use wb_report::{Outcome, report};

/// A status with its report.
pub struct Answer {
    /// How the run ends.
    pub status: Status,
    /// What is written.
    pub report: Vec<u8>,
}

impl Drop for Answer {
    fn drop(self) {
        let Answer { status: _, report } = self;
        drop(report);
    }
}

/// The answer with the report of an outcome.
pub fn reported(alloc: Global, status: Status, outcome: Outcome) -> Result<Answer, AllocError>
    ensures status { IfOk result (λ answer. answer.status ≡ status) }
    ensures report { IfOk result (λ answer. answer.report.items ≡ report_of outcome) }
{
    Ok(Answer {
        status,
        report: report(alloc, outcome)?,
    })
}
