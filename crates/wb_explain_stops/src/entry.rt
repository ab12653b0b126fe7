//! How is a terminal named? By its printed name, and by its expression, where a file has it.

ghost use Rattle.std.specs.Prelude.{◌≡◌, ◌++◌, OnOk, slice_get};
ghost use lib.Chars.{codes};
ghost use Rattle.wb_explain_stops.specs.Inner.Entries.{HasEntries, HasEntry};
ghost use Rattle.wb_explain_stops.specs.Said.{or_end};

use crate::writing::push_text;
use crate::written::expression_of;
use std::alloc::{AllocError, Global};
use wb_base::Bytes;

// The most bytes of an expression that are shown.
const MOST: usize = 40;

// Appends a line for each of these terminals.
pub(crate) fn push_entries(
    alloc: Global,
    out: &mut Vec<u8>,
    names: &[Bytes],
    files: &[Bytes],
    terminals: &[usize],
) -> Result<(), AllocError>
    ensures { OnOk result (HasEntries names.now terminals.now out.old.items out.new.items) }
{
    'terminals: for &terminal in terminals {
        push_entry(alloc, out, names, files, terminal)?;
    }
    Ok(())
}

// Appends a line for a terminal, or for the end of the text.
fn push_entry(
    alloc: Global,
    out: &mut Vec<u8>,
    names: &[Bytes],
    files: &[Bytes],
    terminal: usize,
) -> Result<(), AllocError>
    ensures { OnOk result (HasEntry names.now terminal out.old.items out.new.items) }
{
    let name = name_of(names, terminal);
    let more = rest_of(alloc, files, name)?;
    let answer = push_parts(out, name, &more);
    drop(more);
    answer
}

// The printed name of a terminal, or what the end of a text is called.
fn name_of(names: &[Bytes], terminal: usize) -> &[u8]
    ensures { result.now ≡ or_end (slice_get names.now terminal) }
{
    match names.get(terminal) {
        Some(name) => name.as_slice(),
        None => b"the end of the text",
    }
}

// Appends a name further in, and what comes after it.
fn push_parts(out: &mut Vec<u8>, name: &[u8], more: &[u8]) -> Result<(), AllocError>
    ensures { OnOk result (out.new.items ≡ out.old.items ++ codes "    " ++ name.now ++ more.now) }
{
    out.extend_from_slice(b"    ")?;
    out.extend_from_slice(name)?;
    out.extend_from_slice(more)
}

// What comes after a name on its line: its expression, where one of the files has it.
fn rest_of(alloc: Global, files: &[Bytes], name: &[u8]) -> Result<Vec<u8>, AllocError> {
    let mut rest = Vec::new(alloc);
    match push_rest(&mut rest, files, name) {
        Ok(()) => Ok(rest),
        Err(error) => {
            drop(rest);
            Err(error)
        }
    }
}

// Appends that.
fn push_rest(out: &mut Vec<u8>, files: &[Bytes], name: &[u8]) -> Result<(), AllocError> {
    if let Some(expression) = expression_of(files, name) {
        push_text(out, " ")?;
        let count = expression.len().min(MOST);
        out.extend_from_slice(&expression[..count])?;
        if count < expression.len() {
            push_text(out, "...")?;
        }
    }
    push_text(out, "\n")
}
