//! What is found of a conflict, and shown only where it was read once more.

ghost use Rattle.std.specs.Prelude.{◌≡◌, true, IfOk};
ghost use Rattle.wb_explain_readings.specs.Readings.{AreReadings};

use crate::Piece;
use crate::text::{differ, has_text};
use crate::tree::is_tree;
use std::alloc::{AllocError, Global};
use wb_base::{Grammar, Sequence, Symbol};

/// Two derivation trees that part at a conflict.
#[derive(Drop)]
pub struct Found {
    /// Whether both have the whole text. Else they begin with it.
    pub is_whole: bool,
    /// The terminals that both have.
    pub text: Sequence<usize>,
    /// The tree by the first action, as it is written.
    pub first: Sequence<Piece>,
    /// The tree by the second action.
    pub second: Sequence<Piece>,
}

// Whether it is true what is found.
pub(crate) fn is_true(alloc: Global, grammar: &Grammar, found: &Found) -> Result<bool, AllocError>
    ensures { IfOk result (λ is. is ≡ true → AreReadings grammar.now found.now) }
{
    let first = found.first.as_slice();
    let second = found.second.as_slice();
    if !is_tree(alloc, grammar, first)? {
        return Ok(false);
    }
    if !is_tree(alloc, grammar, second)? {
        return Ok(false);
    }
    if !differ(first, second) {
        return Ok(false);
    }
    if !has_text(alloc, first, found.is_whole, found.text.as_slice())? {
        return Ok(false);
    }
    has_text(alloc, second, found.is_whole, found.text.as_slice())
}
