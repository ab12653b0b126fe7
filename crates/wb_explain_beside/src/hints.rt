//! What is said of a place besides what stands there: what the host has there, and what mends it.

use crate::names::{push_nonterminal, push_symbol, push_terminal};
use crate::search::{extensible_after, has_all, new_after};
use crate::sets::{has, last};
use crate::told::{Sets, Side, Told};
use itoa::Buffer;
use std::alloc::{AllocError, Global};
use wb_base::Symbol;

// The most terminals that are listed.
const MOST: usize = 20;

// The column before which a line ends.
const WIDTH: usize = 90;

// What is said after the sentence.
pub(crate) fn hints_of(
    alloc: Global,
    told: &Told<'_>,
    sets: &Sets<'_>,
    side: Side,
) -> Result<Vec<u8>, AllocError> {
    let mut text = Vec::new(alloc);
    push_new(alloc, &mut text, told, sets, side)?;
    push_known(alloc, &mut text, told, sets, side)?;
    push_forms(alloc, &mut text, told, sets, side)?;
    Ok(text)
}

// Appends what the host never has there.
fn push_new(
    alloc: Global,
    text: &mut Vec<u8>,
    told: &Told<'_>,
    sets: &Sets<'_>,
    side: Side,
) -> Result<(), AllocError> {
    match (side.behind, new_after(sets, side)) {
        (Symbol::Nonterminal(_), Some(terminal)) => {
            text.extend_from_slice(b"It can begin with ")?;
            push_terminal(alloc, text, told.resolved, terminal)?;
            text.extend_from_slice(b", which the host never has there.")
        }
        _ => text.extend_from_slice(b"The host never has it there."),
    }
}

// Appends what the host has after the nonterminal.
fn push_known(
    alloc: Global,
    text: &mut Vec<u8>,
    told: &Told<'_>,
    sets: &Sets<'_>,
    side: Side,
) -> Result<(), AllocError> {
    text.extend_from_slice(b" After ")?;
    push_nonterminal(alloc, text, told.resolved, side.nonterminal)?;
    if count_after(sets, side.nonterminal) == 0 {
        return text.extend_from_slice(b" it has the end of a text alone.\n");
    }
    text.extend_from_slice(b" it has:\n\n   ")?;
    push_terminals(alloc, text, told, sets, side.nonterminal)?;
    if has(sets.follows, side.nonterminal, last(sets.follows)) {
        text.extend_from_slice(b"\n\nand the end of a text.")?;
    }
    text.extend_from_slice(b"\n")
}

// How many terminals the host has after a nonterminal.
fn count_after(sets: &Sets<'_>, nonterminal: usize) -> usize {
    let mut count: usize = 0;
    'terminals: for terminal in 0..last(sets.follows) {
        if has(sets.follows, nonterminal, terminal) {
            count = count.saturating_add(1);
        }
    }
    count
}

// Appends the names of these terminals, up to twenty.
fn push_terminals(
    alloc: Global,
    text: &mut Vec<u8>,
    told: &Told<'_>,
    sets: &Sets<'_>,
    nonterminal: usize,
) -> Result<(), AllocError> {
    let mut done: usize = 0;
    let mut start = text.len();
    'terminals: for terminal in 0..last(sets.follows) {
        if has(sets.follows, nonterminal, terminal) && done < MOST {
            start = push_blank(text, start)?;
            push_terminal(alloc, text, told.resolved, terminal)?;
            done = done.saturating_add(1);
        }
    }
    push_rest(text, count_after(sets, nonterminal).saturating_sub(done))
}

// Appends a space or a new line before a name, and answers where the line begins.
fn push_blank(text: &mut Vec<u8>, start: usize) -> Result<usize, AllocError> {
    if text.len().saturating_sub(start) > WIDTH {
        text.extend_from_slice(b"\n    ")?;
        return Ok(text.len());
    }
    text.extend_from_slice(b" ")?;
    Ok(start)
}

// Appends how many more there are.
fn push_rest(text: &mut Vec<u8>, rest: usize) -> Result<(), AllocError> {
    if rest == 0 {
        return Ok(());
    }
    let mut buffer = Buffer::new();
    text.extend_from_slice(b"\n    and ")?;
    text.extend_from_slice(buffer.format(rest).as_bytes())?;
    text.extend_from_slice(b" more")
}

// Appends the forms that can mend it.
fn push_forms(
    alloc: Global,
    text: &mut Vec<u8>,
    told: &Told<'_>,
    sets: &Sets<'_>,
    side: Side,
) -> Result<(), AllocError> {
    text.extend_from_slice(b"\nWhat can mend it:\n")?;
    if count_after(sets, side.nonterminal) > 0 {
        push_listed(alloc, text, told, side)?;
    }
    if can_be_last(told, sets, side) {
        push_last(alloc, text, told, side)?;
    }
    push_extensible(alloc, text, told, side)?;
    text.extend_from_slice(b"- Another part in the place of both.\n")
}

// Appends the forms with a terminal that the host has.
fn push_listed(
    alloc: Global,
    text: &mut Vec<u8>,
    told: &Told<'_>,
    side: Side,
) -> Result<(), AllocError> {
    text.extend_from_slice(b"- A terminal of this list in the place of ")?;
    push_symbol(alloc, text, told.resolved, side.behind)?;
    text.extend_from_slice(b".\n- A terminal of this list, and then ")?;
    push_symbol(alloc, text, told.resolved, side.behind)?;
    text.extend_from_slice(b".\n")
}

// Appends the form with the nonterminal at the end.
fn push_last(
    alloc: Global,
    text: &mut Vec<u8>,
    told: &Told<'_>,
    side: Side,
) -> Result<(), AllocError> {
    text.extend_from_slice(b"- ")?;
    push_nonterminal(alloc, text, told.resolved, side.nonterminal)?;
    text.extend_from_slice(b" as the last part of the production.\n")
}

// Whether the host has after the nonterminal all that it has after the left side, which is a nonterminal of the host.
fn can_be_last(told: &Told<'_>, sets: &Sets<'_>, side: Side) -> bool {
    if side.production >= told.grammar.productions() {
        return false;
    }
    let left = told.grammar.left(side.production);
    left < told.host.nonterminals() && has_all(sets, side.nonterminal, left)
}

// Appends the form with an extensible nonterminal, where the host has one there.
fn push_extensible(
    alloc: Global,
    text: &mut Vec<u8>,
    told: &Told<'_>,
    side: Side,
) -> Result<(), AllocError> {
    let extensible = told.resolved.parts().extensible.as_slice();
    match extensible_after(told.host, extensible, side.nonterminal) {
        Some(number) => {
            text.extend_from_slice(b"- ")?;
            push_nonterminal(alloc, text, told.resolved, number)?;
            text.extend_from_slice(
                b", which is extensible and which the host has there. A construct of the extension\n  on it comes with a marker of its own.\n",
            )
        }
        None => Ok(()),
    }
}
