//! Which numbers of the union are an extension's own? They come after those of the extensions before it.

ghost use Rattle.std.specs.Prelude.{◌≡◌, ◌<◌, ◌-◌, IfOk, length};
ghost use Rattle.wb_compose_theory.specs.Homes.{of_host};
ghost use Rattle.wb_compose_kernels.specs.Lent.{AreSpliceable};
ghost use Rattle.wb_compose_kernels.specs.Inner.Blocks.{AreBlocksUpTo, IsBlocksOf, IsSizeOf, IsSum, IsWith};

use crate::Splice;
use crate::blocks::{Block, Blocks, sum};
use crate::numbers::part_at;
use std::alloc::{AllocError, Global};
use wb_base::push;

// So many terminals, nonterminals and productions.
#[derive(Clone, Copy)]
pub(crate) struct Before {
    pub(crate) terminals: usize,
    pub(crate) nonterminals: usize,
    pub(crate) productions: usize,
}

// The numbers of the host with holes.
pub(crate) fn host_blocks(splice: &Splice) -> Blocks
    requires { AreSpliceable splice.now }
    ensures { IsBlocksOf splice.now of_host result }
{
    let none = Before {
        terminals: 0,
        nonterminals: 0,
        productions: 0,
    };
    blocks_with(splice, none, none)
}

// The numbers of the host with each extension.
pub(crate) fn part_blocks(alloc: Global, splice: &Splice) -> Result<Vec<Blocks>, AllocError>
    requires { AreSpliceable splice.now }
    ensures { IfOk result (λ list. AreBlocksUpTo splice.now (length splice.now.parts.now) list.items) }
{
    let mut list = Vec::with_capacity(alloc, splice.parts.len())?;
    let mut before = Before {
        terminals: 0,
        nonterminals: 0,
        productions: 0,
    };
    'parts: for part in 0..splice.parts.len() {
        let size = size_of(splice, part);
        let blocks = blocks_with(splice, before, size);
        push(&mut list, blocks)?;
        let sums = after(before, size)?;
        before = sums;
    }
    Ok(list)
}

// How many numbers an extension has of its own.
fn size_of(splice: &Splice, part: usize) -> Before
    requires spliceable { AreSpliceable splice.now }
    requires part { part < length splice.now.parts.now }
    ensures { IsSizeOf splice.now part result }
{
    let numbers = part_at(splice, part).beside.numbers;
    Before {
        terminals: numbers.terminals.more,
        nonterminals: numbers.nonterminals.more,
        productions: numbers.productions.more,
    }
}

// The sums of both.
fn after(before: Before, size: Before) -> Result<Before, AllocError>
    ensures { IfOk result (λ sums. IsSum before size sums) }
{
    Ok(Before {
        terminals: sum(before.terminals, size.terminals)?,
        nonterminals: sum(before.nonterminals, size.nonterminals)?,
        productions: sum(before.productions, size.productions)?,
    })
}

// The numbers of an extension with so many of its own and before it.
fn blocks_with(splice: &Splice, before: Before, size: Before) -> Blocks
    requires { AreSpliceable splice.now }
    ensures { IsWith splice.now before size result }
{
    Blocks {
        terminals: terminals_with(splice, before.terminals, size.terminals),
        nonterminals: nonterminals_with(splice, before.nonterminals, size.nonterminals),
        productions: productions_with(splice, before.productions, size.productions),
    }
}

// Those of terminals.
fn terminals_with(splice: &Splice, before: usize, size: usize) -> Block
    ensures { result ≡ record { own = splice.now.host.now.terminals; before = before; size = size; total = splice.now.union.now.terminals - splice.now.host.now.terminals; holes = splice.now.holes } }
{
    let own = splice.host.terminals();
    let all = splice.union.terminals();
    block(own, before, size, all, splice.holes)
}

// Those of nonterminals.
fn nonterminals_with(splice: &Splice, before: usize, size: usize) -> Block
    ensures { result ≡ record { own = splice.now.host.now.nonterminals; before = before; size = size; total = splice.now.union.now.nonterminals - splice.now.host.now.nonterminals; holes = 0 } }
{
    let own = splice.host.nonterminals();
    let all = splice.union.nonterminals();
    block(own, before, size, all, 0)
}

// Those of productions.
fn productions_with(splice: &Splice, before: usize, size: usize) -> Block
    ensures { result ≡ record { own = length splice.now.host.now.productions; before = before; size = size; total = length splice.now.union.now.productions - length splice.now.host.now.productions; holes = splice.now.holes } }
{
    let own = splice.host.productions();
    let all = splice.union.productions();
    block(own, before, size, all, splice.holes)
}

// The numbers where there are so many in all.
fn block(own: usize, before: usize, size: usize, all: usize, holes: usize) -> Block
    ensures { result ≡ record { own = own; before = before; size = size; total = all - own; holes = holes } }
{
    Block {
        own,
        before,
        size,
        total: beyond(all, own),
        holes,
    }
}

// What one count is more than another.
fn beyond(all: usize, own: usize) -> usize
    ensures { result ≡ all - own }
{
    if own < all { all - own } else { 0 }
}
