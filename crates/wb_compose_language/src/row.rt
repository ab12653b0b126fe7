//! Gives the number in the union of a terminal or layout of the host, or of the host with an extension.

ghost use Rattle.std.specs.Prelude.{◌≡◌, ◌≤◌, ◌↔◌, IfOk, IsTrue};
ghost use Rattle.wb_compose_language.specs.Inner.Rows.{AreWithin, IsFrom, IsOwnNumber, among, row_in};

use std::alloc::AllocError;

// What an extension has among what all have: how much the host has, how much extensions before this one, this one, and all.
#[derive(Clone, Copy)]
pub(crate) struct Block {
    pub(crate) own: usize,
    pub(crate) before: usize,
    pub(crate) size: usize,
    pub(crate) total: usize,
}

// The terminals of an extension, and its layouts after all terminals and the host's layouts. In its own numbers these begin at the first.
#[derive(Clone, Copy)]
pub(crate) struct Blocks {
    pub(crate) terminals: Block,
    pub(crate) layouts: Block,
    pub(crate) first: usize,
}

// The number in the union.
pub(crate) fn row(blocks: Blocks, number: usize) -> Result<usize, AllocError>
    requires { AreWithin blocks }
    ensures { IfOk result (λ made. made ≡ row_in blocks number) }
{
    let terminal = row_among(blocks.terminals, number)?;
    row_among(blocks.layouts, terminal)
}

// The number among all of its kind. More numbers than there are need more than any memory.
fn row_among(block: Block, number: usize) -> Result<usize, AllocError>
    requires { block.size ≤ block.total }
    ensures { IfOk result (λ made. made ≡ among block number) }
{
    if number < block.own {
        return Ok(number);
    }
    let more = if number - block.own < block.size {
        block.before
    } else {
        block.total - block.size
    };
    match number.checked_add(more) {
        Some(made) => Ok(made),
        None => Err(AllocError),
    }
}

// Whether the number is that of a terminal or layout of the extension's own.
pub(crate) fn is_own(blocks: Blocks, number: usize) -> bool
    ensures { IsTrue result ↔ IsOwnNumber blocks number }
{
    is_from(blocks.terminals.own, blocks.terminals.size, number)
        || is_from(blocks.first, blocks.layouts.size, number)
}

// Whether the number is one of so many from the first on.
fn is_from(first: usize, count: usize, number: usize) -> bool
    ensures { IsTrue result ↔ IsFrom first count number }
{
    number >= first && number - first < count
}
