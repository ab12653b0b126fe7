//! Which text has a tree that is written, and do two differ?

ghost use Rattle.std.specs.Prelude.{◌≡◌, ◌≢◌, ◌↔◌, ◌++◌, ◌∷◌, [], IfOk, IsTrue, OnOk, true};
ghost use Rattle.wb_explain_readings.specs.Inner.Leaves.{leaves};
ghost use Rattle.wb_explain_readings.specs.Readings.{Begins, HasText};

use crate::Piece;
use std::alloc::{AllocError, Global};

// Appends the terminals of a tree that is written.
pub(crate) fn put_terminals(made: &mut Vec<usize>, pieces: &[Piece]) -> Result<(), AllocError>
    ensures { OnOk result (made.new.items ≡ made.old.items ++ leaves pieces.now) }
{
    'pieces: for &piece in pieces {
        push_leaf(made, piece)?;
    }
    Ok(())
}

// Appends the terminal of a leaf.
fn push_leaf(made: &mut Vec<usize>, piece: Piece) -> Result<(), AllocError>
    ensures { OnOk result (made.new.items ≡ made.old.items ++ leaves (piece ∷ [])) }
{
    match piece {
        Piece::Leaf(terminal) => {
            made.push(terminal)?;
            Ok(())
        }
        Piece::Open(_) => Ok(()),
        Piece::Close => Ok(()),
    }
}

// Whether a tree that is written has this text, or begins with it.
pub(crate) fn has_text(
    alloc: Global,
    pieces: &[Piece],
    is_whole: bool,
    text: &[usize],
) -> Result<bool, AllocError>
    ensures { IfOk result (λ is. is ≡ true → HasText is_whole text.now (leaves pieces.now)) }
{
    let mut all = Vec::new(alloc);
    let answer = is_text(&mut all, pieces, is_whole, text);
    drop(all);
    answer
}

// The same, with an empty list for the terminals.
fn is_text(
    all: &mut Vec<usize>,
    pieces: &[Piece],
    is_whole: bool,
    text: &[usize],
) -> Result<bool, AllocError>
    requires { all.old.items ≡ [] }
    ensures { IfOk result (λ is. is ≡ true → HasText is_whole text.now (leaves pieces.now)) }
{
    put_terminals(all, pieces)?;
    Ok(begins(all, is_whole, text))
}

// Whether the terminals are this text, or begin with it.
fn begins(all: &[usize], is_whole: bool, text: &[usize]) -> bool
    ensures { result ≡ true → HasText is_whole text.now all.now }
{
    if is_whole {
        return is_same(all, text);
    }
    begins_with(all, text)
}

// Whether terminals are these.
fn is_same(all: &[usize], text: &[usize]) -> bool
    ensures { IsTrue result ↔ (all.now ≡ text.now) }
{
    all == text
}

// Whether terminals begin with these.
fn begins_with(all: &[usize], text: &[usize]) -> bool
    ensures { result ≡ true → Begins text.now all.now }
{
    if all.len() < text.len() {
        return false;
    }
    is_same(&all[..text.len()], text)
}

// Whether two trees are written differently.
pub(crate) fn differ(one: &[Piece], other: &[Piece]) -> bool
    ensures { result ≡ true → one.now ≢ other.now }
{
    !are_same(one, other)
}

// Whether two trees are written alike.
fn are_same(one: &[Piece], other: &[Piece]) -> bool
    ensures { IsTrue result ↔ (one.now ≡ other.now) }
{
    one == other
}
