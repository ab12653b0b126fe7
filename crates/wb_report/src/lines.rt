//! Which lines report an outcome?
//!
//! Each is a definition of `specs/Lines`, so that its bytes are promised once.

ghost use Rattle.std.specs.Prelude.{◌≡◌, ◌++◌, IfOk, OnOk};
ghost use Rattle.std.specs.Fmt.{decimal};
ghost use lib.Chars.{codes};
ghost use Rattle.wb_report.specs.Lines.{report_of};
ghost use Rattle.wb_report.specs.Parts.{stop_text};

use crate::done::{into_lines, push_done};
use crate::pieces::{Piece, push_line, push_name, push_pieces};
use crate::refusal::push_refusal;
use crate::{Outcome, Refusal, ShownStop};
use std::alloc::{AllocError, Global};
use wb_base::Bytes;

/// The report of an outcome: one line, or the lines of a command that comes to its end, each ended by LF.
///
/// Names and printed values are written as they are handed in. A printed tree, a canonical text and the lines of edits become the report and
/// aren't copied.
pub fn report(alloc: Global, outcome: Outcome) -> Result<Vec<u8>, AllocError>
    ensures { IfOk result (λ lines. lines.items ≡ report_of outcome) }
{
    match outcome {
        Outcome::Done(done) => into_lines(alloc, done),
        other => {
            let lines = lines_of(alloc, &other);
            other.release();
            lines
        }
    }
}

// The report of an outcome that is lent.
fn lines_of(alloc: Global, outcome: &Outcome) -> Result<Vec<u8>, AllocError>
    ensures { IfOk result (λ lines. lines.items ≡ report_of outcome.now) }
{
    let mut out = Vec::new(alloc);
    push_outcome(&mut out, outcome)?;
    Ok(out)
}

// Appends the report of an outcome.
fn push_outcome(out: &mut Vec<u8>, outcome: &Outcome) -> Result<(), AllocError>
    ensures { OnOk result (out.new.items ≡ out.old.items ++ report_of outcome.now) }
{
    match outcome {
        Outcome::Done(done) => push_done(out, done),
        Outcome::Refused { file, refusal } => push_refused(out, file, refusal),
        Outcome::Stopped { at, stop } => push_stopped(out, *at, stop),
        Outcome::Fault { operation, code } => push_fault(out, operation, *code),
        Outcome::MoreSteps(steps) => push_more_steps(out, *steps),
        Outcome::TextTooLong => out.extend_from_slice(b"text too long\n"),
        Outcome::TooLongToPrint => out.extend_from_slice(b"value too long to print\n"),
        Outcome::TooManyExtensions => out.extend_from_slice(b"too many extensions\n"),
        Outcome::DuplicateExtension(name) => push_line(out, b"duplicate extension ", name),
        Outcome::WrongHost { file, host } => push_wrong_host(out, file, host),
        Outcome::UnknownAttribute(name) => push_line(out, b"no attribute ", name),
        Outcome::NoSentence { size, least } => push_no_sentence(out, *size, *least),
    }
}

// Appends the line of a file that is refused.
fn push_refused(out: &mut Vec<u8>, file: &Bytes, refusal: &Refusal) -> Result<(), AllocError>
    ensures { OnOk result (out.new.items ≡ out.old.items ++ report_of (Outcome.Refused file.now refusal.now)) }
{
    push_pieces(
        out,
        &[
            Piece::Plain(b"refused "),
            Piece::Plain(file.as_slice()),
            Piece::Plain(b" "),
        ],
    )?;
    push_refusal(out, refusal)?;
    out.extend_from_slice(b"\n")
}

// Appends the line of a text that stops.
fn push_stopped(out: &mut Vec<u8>, at: usize, stop: &ShownStop) -> Result<(), AllocError>
    ensures { OnOk result (out.new.items ≡ out.old.items ++ report_of (Outcome.Stopped at stop.now)) }
{
    push_pieces(
        out,
        &[
            Piece::Plain(b"stopped at "),
            Piece::Number(at as u64),
            Piece::Plain(b" "),
        ],
    )?;
    push_stop(out, stop)?;
    out.extend_from_slice(b"\n")
}

// Appends why a text stops.
fn push_stop(out: &mut Vec<u8>, stop: &ShownStop) -> Result<(), AllocError>
    ensures { OnOk result (out.new.items ≡ out.old.items ++ stop_text stop.now) }
{
    match stop {
        ShownStop::NoToken => out.extend_from_slice(b"no token"),
        ShownStop::Unexpected(terminal) => push_name(out, b"unexpected ", terminal),
    }
}

// Appends the line of an operation that has no result.
fn push_fault(out: &mut Vec<u8>, operation: &Bytes, code: u32) -> Result<(), AllocError>
    ensures { OnOk result (out.new.items ≡ out.old.items ++ report_of (Outcome.Fault operation.now code)) }
{
    push_pieces(
        out,
        &[
            Piece::Plain(b"fault "),
            Piece::Plain(operation.as_slice()),
            Piece::Plain(b" "),
            Piece::Number(code as u64),
            Piece::Plain(b"\n"),
        ],
    )
}

// Appends the line of more steps than this.
fn push_more_steps(out: &mut Vec<u8>, steps: u64) -> Result<(), AllocError>
    ensures { OnOk result (out.new.items ≡ out.old.items ++ report_of (Outcome.MoreSteps steps)) }
{
    push_pieces(
        out,
        &[
            Piece::Plain(b"more than "),
            Piece::Number(steps),
            Piece::Plain(b" steps\n"),
        ],
    )
}

// Appends the line of an extension for another host.
fn push_wrong_host<'a>(
    out: &mut Vec<u8>,
    file: &'a Bytes,
    host: &'a Bytes,
) -> Result<(), AllocError>
    ensures { OnOk result (out.new.items ≡ out.old.items ++ report_of (Outcome.WrongHost file.now host.now)) }
{
    push_pieces(
        out,
        &[
            Piece::Plain(b"wrong host "),
            Piece::Plain(file.as_slice()),
            Piece::Plain(b" names "),
            Piece::Plain(host.as_slice()),
            Piece::Plain(b"\n"),
        ],
    )
}

// Appends the line of a size that no sentence has.
fn push_no_sentence(out: &mut Vec<u8>, size: u64, least: u64) -> Result<(), AllocError>
    ensures { OnOk result (out.new.items ≡ out.old.items ++ report_of (Outcome.NoSentence size least)) }
{
    push_pieces(
        out,
        &[
            Piece::Plain(b"no sentence of "),
            Piece::Number(size),
            Piece::Plain(b" leaves, least "),
            Piece::Number(least),
            Piece::Plain(b"\n"),
        ],
    )
}
