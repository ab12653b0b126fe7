//! Which pieces of a long tree are shown?
//!
//! A production of one part is left out with its brackets, unless the conflict is about it.

use std::alloc::{AllocError, Global};
use wb_base::Grammar;
use wb_explain_readings::{Conflict, Piece, Turn};

// The most pieces of a tree of which all are shown.
const FEW: usize = 60;

// Whether each piece is shown, by place; nothing where all are.
pub(crate) fn flags_of(
    alloc: Global,
    grammar: &Grammar,
    conflict: &Conflict<'_>,
    pieces: &[Piece],
) -> Result<Vec<bool>, AllocError> {
    let mut flags = Vec::new(alloc);
    if pieces.len() <= FEW {
        return Ok(flags);
    }
    let mut open = Vec::new(alloc);
    let answer = push_flags(grammar, conflict, pieces, &mut flags, &mut open);
    drop(open);
    match answer {
        Ok(()) => Ok(flags),
        Err(error) => {
            drop(flags);
            Err(error)
        }
    }
}

// Appends it for each piece, where what was said of brackets that aren't closed is kept.
fn push_flags(
    grammar: &Grammar,
    conflict: &Conflict<'_>,
    pieces: &[Piece],
    flags: &mut Vec<bool>,
    open: &mut Vec<bool>,
) -> Result<(), AllocError> {
    'pieces: for &piece in pieces {
        match piece {
            Piece::Leaf(_) => flags.push(true)?,
            Piece::Open(production) => {
                let is = is_shown(grammar, conflict, production);
                flags.push(is)?;
                open.push(is)?;
            }
            Piece::Close => match open.pop() {
                Some(is) => flags.push(is)?,
                None => flags.push(true)?,
            },
        }
    }
    Ok(())
}

// Whether a production is shown in a long tree.
fn is_shown(grammar: &Grammar, conflict: &Conflict<'_>, production: usize) -> bool {
    if is_reduced(conflict.first, production) || is_reduced(conflict.second, production) {
        return true;
    }
    if production < grammar.productions() {
        return grammar.right(production).len() != 1;
    }
    true
}

// Whether a parser reduces by it at the conflict.
fn is_reduced(turn: Turn, production: usize) -> bool {
    match turn {
        Turn::Reduce(number) => number == production,
        Turn::Shift => false,
        Turn::Accept => false,
    }
}
