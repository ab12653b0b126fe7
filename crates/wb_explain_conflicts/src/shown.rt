//! How are two trees shown?

ghost use Rattle.std.specs.Prelude.{◌≡◌, ◌++◌, OnOk, true};
ghost use Rattle.wb_explain_conflicts.specs.Said.{heading, Lines};
ghost use Rattle.wb_explain_conflicts.specs.Inner.Pieces.{HasWord};
ghost use Rattle.wb_explain_conflicts.specs.Words.{HasTree, HasWords, piece_shown, text_shown};
ghost use Rattle.wb_explain_conflicts.specs.Inner.Pieces.{HasPiece, IsBracket};

use crate::names::piece_name;
use crate::words::push_word;
use std::alloc::{AllocError, Global};
use wb_explain_readings::{Found, Piece};
use wb_syntax_resolved::Resolved;

// Two trees, and which of their pieces are shown, by place. Those past the end are.
#[derive(Clone, Copy)]
pub(crate) struct Shown<'a> {
    pub(crate) found: &'a Found,
    pub(crate) first: &'a [bool],
    pub(crate) second: &'a [bool],
}

// Appends the text that both trees have, and the trees.
pub(crate) fn push_found(
    alloc: Global,
    out: &mut Vec<u8>,
    resolved: &Resolved,
    shown: &Shown<'_>,
) -> Result<(), AllocError>
    ensures { OnOk result (Lines resolved.now shown.now.found.now out.old.items out.new.items) }
{
    let found = shown.found;
    push_heading(out, found.is_whole)?;
    push_text(alloc, out, resolved, found.text.as_slice())?;
    out.extend_from_slice(
        b"\n\nBy the first of the two things, each production with its parts:\n\n   ",
    )?;
    push_tree(alloc, out, resolved, found.first.as_slice(), shown.first)?;
    out.extend_from_slice(b"\n\nBy the second:\n\n   ")?;
    push_tree(alloc, out, resolved, found.second.as_slice(), shown.second)?;
    out.extend_from_slice(b"\n")
}

// Appends what is said before the text.
fn push_heading(out: &mut Vec<u8>, is_whole: bool) -> Result<(), AllocError>
    ensures { OnOk result (out.new.items ≡ out.old.items ++ heading is_whole) }
{
    if is_whole {
        return out.extend_from_slice(b"\nThis text, by its terminals, has two trees:\n\n   ");
    }
    out.extend_from_slice(
        b"\nNo text with two trees was found. Both trees below begin with these terminals, and\nthen differ:\n\n   ",
    )
}

// Appends the names of terminals.
fn push_text(
    alloc: Global,
    out: &mut Vec<u8>,
    resolved: &Resolved,
    text: &[usize],
) -> Result<(), AllocError>
    ensures { OnOk result (HasWords (text_shown resolved.now text.now) out.old.items out.new.items) }
{
    let mut column = 3;
    'terminals: for &terminal in text {
        column = push_piece(alloc, out, resolved, Piece::Leaf(terminal), column)?;
    }
    Ok(())
}

// Appends the pieces of a tree that are shown.
fn push_tree(
    alloc: Global,
    out: &mut Vec<u8>,
    resolved: &Resolved,
    pieces: &[Piece],
    shown: &[bool],
) -> Result<(), AllocError>
    ensures { OnOk result (HasTree resolved.now pieces.now out.old.items out.new.items) }
{
    let mut column = 3;
    let mut place: usize = 0;
    'pieces: for &piece in pieces {
        column = push_shown(alloc, out, resolved, piece, is_shown(shown, place), column)?;
        place = place.saturating_add(1);
    }
    Ok(())
}

// Whether the piece at a place is shown.
fn is_shown(shown: &[bool], place: usize) -> bool {
    match shown.get(place) {
        Some(is) => *is,
        None => true,
    }
}

// Appends a piece after a column, where it is shown or a leaf, and answers the column after it.
fn push_shown(
    alloc: Global,
    out: &mut Vec<u8>,
    resolved: &Resolved,
    piece: Piece,
    is_shown: bool,
    column: usize,
) -> Result<usize, AllocError>
    ensures { OnOk result (HasPiece resolved.now piece out.old.items out.new.items) }
{
    if !is_shown {
        if is_bracket(piece) {
            return Ok(column);
        }
    }
    push_piece(alloc, out, resolved, piece, column)
}

// Whether a piece is no leaf.
fn is_bracket(piece: Piece) -> bool
    ensures { result ≡ true → IsBracket piece }
{
    match piece {
        Piece::Leaf(_) => false,
        Piece::Open(_) => true,
        Piece::Close => true,
    }
}

// Appends a piece after a column, and answers the column after it.
fn push_piece(
    alloc: Global,
    out: &mut Vec<u8>,
    resolved: &Resolved,
    piece: Piece,
    column: usize,
) -> Result<usize, AllocError>
    ensures { OnOk result (HasWord (piece_shown resolved.now piece) out.old.items out.new.items) }
{
    let name = piece_name(alloc, resolved, piece)?;
    let answer = push_word(out, name.as_slice(), column);
    drop(name);
    answer
}
