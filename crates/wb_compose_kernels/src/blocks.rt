//! Which numbers do symbols and items of a certified grammar have in the union?
//!
//! The host's numbers stay, an extension's own move up by what the extensions before it have, and what comes after holes comes after all
//! extensions. Where holes are tested, what they are in the host's numbers is told.

ghost use Rattle.std.specs.Prelude.{◌≡◌, ◌↔◌, ◌+◌, IfOk, IsTrue, MatchOption, map};
ghost use Rattle.wb_base.specs.declared.symbol.Symbol.TheVariants.{Terminal};
ghost use Rattle.wb_compose_theory.specs.Renamings.{renamed, renamed_item};
ghost use Rattle.wb_compose_kernels.specs.Inner.Blocks.{HasHoleItem, HasOwnBy, IsHoleBy, IsHoleSymbol, IsOwnBy, names_by, number_by};

use crate::numbers::production_at;
use std::alloc::{AllocError, Global};
use wb_base::{Sequence, Symbol, push};
use wb_items::Item;

// How many numbers the host has of its own, how many extensions before this one have, how many this one has, how many all have, and how
// many holes there are.
#[derive(Clone, Copy)]
pub(crate) struct Block {
    pub(crate) own: usize,
    pub(crate) before: usize,
    pub(crate) size: usize,
    pub(crate) total: usize,
    pub(crate) holes: usize,
}

// Those of terminals, nonterminals and productions.
#[derive(Clone, Copy)]
pub(crate) struct Blocks {
    pub(crate) terminals: Block,
    pub(crate) nonterminals: Block,
    pub(crate) productions: Block,
}

// The sum of two counts. More than there are numbers need more than any memory.
pub(crate) fn sum(one: usize, other: usize) -> Result<usize, AllocError>
    ensures { IfOk result (λ made. made ≡ one + other) }
{
    match one.checked_add(other) {
        Some(made) => Ok(made),
        None => Err(AllocError),
    }
}

// The number in the union.
pub(crate) fn number_in_union(block: Block, number: usize) -> Result<usize, AllocError>
    ensures { IfOk result (λ made. made ≡ number_by block number) }
{
    if number < block.own {
        return Ok(number);
    }
    if number - block.own < block.size {
        return sum(number, block.before);
    }
    let past = sum(block.size, block.holes)?;
    if number < past {
        return Ok(block.total);
    }
    sum(number - past, block.total)
}

// The symbol in the union.
pub(crate) fn symbol_in_union(blocks: Blocks, symbol: Symbol) -> Result<Symbol, AllocError>
    ensures { IfOk result (λ made. made ≡ renamed (names_by blocks) symbol) }
{
    match symbol {
        Symbol::Terminal(terminal) => Ok(Symbol::Terminal(number_in_union(
            blocks.terminals,
            terminal,
        )?)),
        Symbol::Nonterminal(nonterminal) => Ok(Symbol::Nonterminal(number_in_union(
            blocks.nonterminals,
            nonterminal,
        )?)),
    }
}

// The item in the union.
pub(crate) fn item_in_union(blocks: Blocks, item: Item) -> Result<Item, AllocError>
    ensures { IfOk result (λ made. made ≡ renamed_item (names_by blocks) item) }
{
    Ok(Item {
        production: number_in_union(blocks.productions, item.production)?,
        dot: item.dot,
    })
}

// The items in the union.
pub(crate) fn items_in_union(
    alloc: Global,
    blocks: Blocks,
    items: &[Item],
) -> Result<Sequence<Item>, AllocError>
    ensures { IfOk result (λ made. made ≡ map (renamed_item (names_by blocks)) items.now) }
{
    let mut made = Vec::with_capacity(alloc, items.len())?;
    'items: for &item in items {
        let item = item_in_union(blocks, item)?;
        push(&mut made, item)?;
    }
    Ok(Sequence::from_vec(made))
}

// Whether the number is that of a hole.
pub(crate) fn is_hole(block: Block, number: usize) -> bool
    ensures { IsTrue result ↔ IsHoleBy block number }
{
    if number < block.own {
        return false;
    }
    if number - block.own < block.size {
        return false;
    }
    number - block.own - block.size < block.holes
}

// Whether the number is the extension's own.
fn is_own(block: Block, number: usize) -> bool
    ensures { IsTrue result ↔ IsOwnBy block number }
{
    if number < block.own {
        return false;
    }
    number - block.own < block.size
}

// The hole that the symbol is, in the host's numbers.
pub(crate) fn hole_of(block: Block, symbol: Symbol) -> Option<usize>
    ensures { MatchOption result (¬ IsHoleSymbol block symbol) (λ hole. IsHoleSymbol block symbol × (symbol ≡ Terminal (hole + block.size))) }
{
    match symbol {
        Symbol::Terminal(terminal) => {
            if is_hole(block, terminal) {
                Some(terminal - block.size)
            } else {
                None
            }
        }
        Symbol::Nonterminal(_) => None,
    }
}

// Whether some item is of a hole's production.
pub(crate) fn has_hole(block: Block, items: &[Item]) -> bool
    ensures { IsTrue result ↔ HasHoleItem block items.now }
{
    'items: for place in 0..items.len() {
        if is_hole(block, production_at(items, place)) {
            return true;
        }
    }
    false
}

// Whether some item is of a production of the extension's own.
pub(crate) fn has_own(block: Block, items: &[Item]) -> bool
    ensures { IsTrue result ↔ HasOwnBy block items.now }
{
    'items: for place in 0..items.len() {
        if is_own(block, production_at(items, place)) {
            return true;
        }
    }
    false
}
