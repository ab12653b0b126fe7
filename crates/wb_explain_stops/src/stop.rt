//! What is said of a text that stops? First what could come there, then what is there instead.

ghost use Rattle.std.specs.Prelude.{◌≡◌, OnOk, take};
ghost use Rattle.wb_explain_stops.specs.Said.{Lists, Says};

use crate::before::push_before;
use crate::entry::push_entries;
use crate::prefix::push_prefixes;
use crate::there::push_there;
use crate::writing::{push_number, push_text};
use std::alloc::{AllocError, Global};
use wb_base::Bytes;
use wb_parser_expected::{Stop, stop_of};
use wb_scan::Language;

// The most terminals that are named.
const MOST: usize = 40;

/// Appends what is said of a text that stops: what could come there, by name and as the files write it, and what is there instead. Nothing of
/// a text that has a tree.
///
/// Of more than 40 terminals the first are named, in the order of their numbers. `names` are the printed names of the language's terminals,
/// by number, and `files` the contents of the files of its host and its extensions, in which expressions are looked for. The text is read
/// once, and where at most 16,384 bytes are before the stop up to 16 times more, for the forms of markers that would do; no tree is built. The only error is out of memory.
pub fn push_stop(
    alloc: Global,
    out: &mut Vec<u8>,
    language: &Language,
    names: &[Bytes],
    files: &[Bytes],
    text: &[u8],
) -> Result<(), AllocError>
    ensures { OnOk result (Says language.now.language names.now text.now out.old.items out.new.items) }
{
    match stop_of(alloc, language, text)? {
        Some(found) => {
            let shown = Shown {
                language,
                names,
                files,
            };
            let answer = push_expected(alloc, out, &shown, text, &found);
            drop(found);
            answer
        }
        None => Ok(()),
    }
}

// A language, the printed names of its terminals, and the contents of its files.
#[derive(Clone, Copy)]
pub(crate) struct Shown<'a> {
    pub(crate) language: &'a Language,
    pub(crate) names: &'a [Bytes],
    pub(crate) files: &'a [Bytes],
}

// Appends what could come at a stop, and what is there.
fn push_expected(
    alloc: Global,
    out: &mut Vec<u8>,
    shown: &Shown<'_>,
    text: &[u8],
    found: &Stop,
) -> Result<(), AllocError>
    ensures { OnOk result (Lists shown.now.names.now found.now.terminals.items out.old.items out.new.items) }
{
    let rest = rest_of(alloc, shown, text, found)?;
    let answer = push_lists(
        alloc,
        out,
        shown.names,
        shown.files,
        &found.terminals,
        &rest,
    );
    drop(rest);
    answer
}

// Appends the names of what could come, and what comes after them.
fn push_lists(
    alloc: Global,
    out: &mut Vec<u8>,
    names: &[Bytes],
    files: &[Bytes],
    terminals: &[usize],
    rest: &[u8],
) -> Result<(), AllocError>
    ensures { OnOk result (Lists names.now terminals.now out.old.items out.new.items) }
{
    out.extend_from_slice(b"\nWhat could come here:\n\n")?;
    push_entries(alloc, out, names, files, first_of(terminals))?;
    out.extend_from_slice(rest)?;
    Ok(())
}

// The first of these terminals, so many as are named.
fn first_of(terminals: &[usize]) -> &[usize]
    ensures { result.now ≡ take 40 terminals.now }
{
    if terminals.len() <= MOST {
        return terminals;
    }
    &terminals[..MOST]
}

// What comes after the names.
fn rest_of(
    alloc: Global,
    shown: &Shown<'_>,
    text: &[u8],
    found: &Stop,
) -> Result<Vec<u8>, AllocError> {
    let mut rest = Vec::new(alloc);
    match push_rest(alloc, &mut rest, shown, text, found) {
        Ok(()) => Ok(rest),
        Err(error) => {
            drop(rest);
            Err(error)
        }
    }
}

// Appends that.
fn push_rest(
    alloc: Global,
    out: &mut Vec<u8>,
    shown: &Shown<'_>,
    text: &[u8],
    found: &Stop,
) -> Result<(), AllocError> {
    push_further(out, found.terminals.len())?;
    push_there(out, shown, text, found)?;
    push_before(alloc, out, shown, text, found.at)?;
    push_prefixes(alloc, out, shown, text, found.at)
}

// Appends how many further terminals there are.
fn push_further(out: &mut Vec<u8>, count: usize) -> Result<(), AllocError> {
    if count <= MOST {
        return Ok(());
    }
    push_text(out, "    and ")?;
    push_number(out, count - MOST)?;
    push_text(out, " more\n")
}
