//! What is said of a run, from its words, its status and its report?
//!
//! First the places of which the report speaks, with their lines, and then what it means and what mends it. What is said of refusals is in
//! `refusal`, the texts are in `advice`.

ghost use Rattle.std.specs.Prelude.{◌≡◌, [], IfOk};
ghost use Rattle.wb_explain_lines.specs.Outside.{outside, Keeps};

use crate::advice::{of_fault, of_status, usage_of};
use crate::file::{contents_of, is_unread};
use crate::line::{fault_code, refused_of, stopped_in};
use crate::refusal::{push_offset, push_refusal, push_text};
use crate::words::{file_at, text_of};
use std::alloc::{AllocError, Global};
use wb_world::Shelf;

/// What there is to say of a run after its report: nothing of one that comes to its end. The words are those of the command line without the
/// program's name, the status goes by its number, and the lines are those of the report.
///
/// The file of which the report speaks is read once more. Where it can't be, no place is shown.
pub fn explanation<S: Shelf>(
    alloc: Global,
    shelf: &mut S,
    words: &[String],
    status: u8,
    lines: &[u8],
) -> Result<Vec<u8>, AllocError>
    ensures none { status ≡ 0 → IfOk result (λ more. more.items ≡ []) }
    ensures keeps { Keeps (outside (S.files shelf.old) (S.absences shelf.old) (S.faults shelf.old))
        (outside (S.files shelf.new) (S.absences shelf.new) (S.faults shelf.new)) }
{
    if status == 0 {
        return Ok(Vec::new(alloc));
    }
    if status == 8 || status == 9 {
        return unread_said(alloc, shelf, words, status);
    }
    let reported = Reported {
        words,
        status,
        lines,
    };
    said(alloc, shelf, &reported)
}

// What is known of a run.
#[derive(Clone, Copy)]
struct Reported<'r> {
    // The words of the command line.
    words: &'r [String],
    // The number of the status.
    status: u8,
    // The lines of the report.
    lines: &'r [u8],
}

// What is said of a file that isn't there, or else can't be read.
fn unread_said<S: Shelf>(
    alloc: Global,
    shelf: &mut S,
    words: &[String],
    status: u8,
) -> Result<Vec<u8>, AllocError>
    ensures { Keeps (outside (S.files shelf.old) (S.absences shelf.old) (S.faults shelf.old))
        (outside (S.files shelf.new) (S.absences shelf.new) (S.faults shelf.new)) }
{
    let file = first_unread(shelf, words, status == 8);
    with_file(alloc, status, file)
}

// The first file that isn't there, or else can't be read; an empty one where it is found no more.
fn first_unread<'w, S: Shelf>(shelf: &mut S, words: &'w [String], absent: bool) -> &'w str
    ensures { Keeps (outside (S.files shelf.old) (S.absences shelf.old) (S.faults shelf.old))
        (outside (S.files shelf.new) (S.absences shelf.new) (S.faults shelf.new)) }
{
    let mut place = 1;
    while place < words.len() {
        let file = file_at(words, place);
        if is_unread(shelf, file, absent) {
            return file;
        }
        place += 1;
    }
    ""
}

// What is said of a status, with a file.
fn with_file(alloc: Global, status: u8, file: &str) -> Result<Vec<u8>, AllocError> {
    let mut more = Vec::new(alloc);
    match push_file(&mut more, status, file) {
        Ok(()) => Ok(more),
        Err(error) => {
            drop(more);
            Err(error)
        }
    }
}

// Appends what is said of a status, and a file.
fn push_file(out: &mut Vec<u8>, status: u8, file: &str) -> Result<(), AllocError> {
    let Some(text) = of_status(status) else {
        return Ok(());
    };
    out.extend_from_slice(text.as_bytes())?;
    if !file.is_empty() {
        out.extend_from_slice(b"\n\n    ")?;
        out.extend_from_slice(file.as_bytes())?;
    }
    out.extend_from_slice(b"\n")
}

// What is said of a run that has a report, once the file is read of which that speaks.
fn said<S: Shelf>(
    alloc: Global,
    shelf: &mut S,
    reported: &Reported<'_>,
) -> Result<Vec<u8>, AllocError>
    ensures { Keeps (outside (S.files shelf.old) (S.absences shelf.old) (S.faults shelf.old))
        (outside (S.files shelf.new) (S.absences shelf.new) (S.faults shelf.new)) }
{
    let file = file_of(reported);
    let contents = contents_of(alloc, shelf, file)?;
    let more = with_contents(alloc, reported, file, &contents);
    drop(contents);
    more
}

// The file of which a report speaks: the one that is refused, or the text that stops. An empty name where there is none.
fn file_of<'r>(reported: &Reported<'r>) -> &'r str {
    if let Some(refused) = refused_of(reported.lines, reported.words) {
        return refused.file;
    }
    text_of(reported.words)
}

// What is said of a run with these contents of the file of which it speaks.
fn with_contents(
    alloc: Global,
    reported: &Reported<'_>,
    file: &str,
    contents: &[u8],
) -> Result<Vec<u8>, AllocError> {
    let mut more = Vec::new(alloc);
    match push_said(alloc, &mut more, reported, file, contents) {
        Ok(()) => Ok(more),
        Err(error) => {
            drop(more);
            Err(error)
        }
    }
}

// Appends that.
fn push_said(
    alloc: Global,
    out: &mut Vec<u8>,
    reported: &Reported<'_>,
    file: &str,
    contents: &[u8],
) -> Result<(), AllocError> {
    if let Some(refused) = refused_of(reported.lines, reported.words) {
        return push_refusal(alloc, out, refused, contents);
    }
    push_place_said(out, reported, file, contents)?;
    push_status(out, reported.status)?;
    match reported.status {
        2 => push_usage(out, reported.words),
        6 => push_fault(out, reported.lines),
        _ => Ok(()),
    }
}

// Appends the place at which a text stops.
fn push_place_said(
    out: &mut Vec<u8>,
    reported: &Reported<'_>,
    file: &str,
    contents: &[u8],
) -> Result<(), AllocError> {
    if file.is_empty() {
        return Ok(());
    }
    if let Some((at, _)) = stopped_in(reported.lines) {
        return push_offset(out, file, contents, at);
    }
    Ok(())
}

// Appends what is said of a status.
fn push_status(out: &mut Vec<u8>, status: u8) -> Result<(), AllocError> {
    match of_status(status) {
        Some(text) => push_text(out, text),
        None => Ok(()),
    }
}

// Appends how the command of the first word is written.
fn push_usage(out: &mut Vec<u8>, words: &[String]) -> Result<(), AllocError> {
    let [verb, ..] = words else {
        return Ok(());
    };
    match usage_of(verb.as_bytes()) {
        Some(row) => {
            out.extend_from_slice(b"\nThis command is written so:\n\n    ")?;
            out.extend_from_slice(row.as_bytes())?;
            out.extend_from_slice(b"\n")
        }
        None => Ok(()),
    }
}

// Appends what is said of the fault of a standard operation.
fn push_fault(out: &mut Vec<u8>, lines: &[u8]) -> Result<(), AllocError> {
    let Some(code) = fault_code(lines) else {
        return Ok(());
    };
    match of_fault(code) {
        Some(text) => push_text(out, text),
        None => Ok(()),
    }
}
