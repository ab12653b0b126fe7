//! Which attributes wait? A line for each, or for the first and the last of many.

ghost use Rattle.std.specs.Prelude.{OnOk};
ghost use Rattle.wb_explain_instances.specs.Said.{HasChain, HasLines, HasLinesAfter};

use crate::Shown;
use crate::instance::push_line;
use crate::writing::{push_number, push_text};
use std::alloc::{AllocError, Global};
use wb_eval::Key;

// How many are named at each end.
const ENDS: usize = 10;

// Appends the lines of these attributes.
pub(crate) fn push_chain(
    alloc: Global,
    out: &mut Vec<u8>,
    shown: &Shown<'_>,
    keys: &[Key],
) -> Result<(), AllocError>
    ensures { OnOk result (HasChain shown.now.attributes.now keys.now out.old.items out.new.items) }
{
    if keys.len() <= 2 * ENDS {
        return push_lines(alloc, out, shown, keys);
    }
    push_lines(alloc, out, shown, &keys[..ENDS])?;
    let between = between(alloc, keys.len() - 2 * ENDS)?;
    let answer = push_last(alloc, out, shown, &between, &keys[keys.len() - ENDS..]);
    drop(between);
    answer
}

// Appends how many are left out, and the lines of those at the end.
fn push_last(
    alloc: Global,
    out: &mut Vec<u8>,
    shown: &Shown<'_>,
    between: &[u8],
    keys: &[Key],
) -> Result<(), AllocError>
    ensures { OnOk result (HasLinesAfter shown.now.attributes.now between.now keys.now out.old.items out.new.items) }
{
    out.extend_from_slice(between)?;
    push_lines(alloc, out, shown, keys)
}

// The line of those that are left out.
fn between(alloc: Global, count: usize) -> Result<Vec<u8>, AllocError> {
    let mut line = Vec::new(alloc);
    match push_between(&mut line, count) {
        Ok(()) => Ok(line),
        Err(error) => {
            drop(line);
            Err(error)
        }
    }
}

// Appends that line.
fn push_between(out: &mut Vec<u8>, count: usize) -> Result<(), AllocError> {
    push_text(out, "    and ")?;
    push_number(out, count)?;
    push_text(out, " between\n")
}

// Appends a line for each of these attributes.
fn push_lines(
    alloc: Global,
    out: &mut Vec<u8>,
    shown: &Shown<'_>,
    keys: &[Key],
) -> Result<(), AllocError>
    ensures { OnOk result (HasLines shown.now.attributes.now keys.now out.old.items out.new.items) }
{
    'keys: for &key in keys {
        push_line(alloc, out, shown, key)?;
    }
    Ok(())
}
