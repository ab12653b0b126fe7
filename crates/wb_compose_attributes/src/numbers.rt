//! Gives the number of something in a union.
//!
//! Numbers of one sort are in blocks: those of the host come first, and then those of each extension.

ghost use Rattle.std.specs.Prelude.{◌≡◌, IfOk};
ghost use Rattle.wb_compose_attributes.specs.NewNumbers.{grouped_in, place_in};

use std::alloc::AllocError;

/// The numbers of an extension's own among those of all: how many the host has, how many of other extensions come before, how many these
/// are, and how many those of all extensions are.
#[derive(Clone, Copy)]
pub struct Block {
    pub own: usize,
    pub before: usize,
    pub size: usize,
    pub total: usize,
}

/// Such numbers of two groups, of which one leads.
///
/// The host of the second is what comes before its extensions' own in the union: all that leads, and what of the host follows.
#[derive(Clone, Copy)]
pub struct Grouped {
    pub lead: Block,
    pub follow: Block,
}

/// The new numbers of an extension with its host, and of its locals on one production.
#[derive(Clone, Copy)]
pub struct Numbers {
    pub terminal: Block,
    pub nonterminal: Grouped,
    pub attribute: Block,
    pub production: Grouped,
    pub local: Block,
    /// The owner that the extension becomes.
    pub owner: usize,
}

// The new number. More numbers than there are need more than any memory.
pub(crate) fn place(block: &Block, number: usize) -> Result<usize, AllocError>
    ensures { IfOk result (λ made. made ≡ place_in block.now number) }
{
    if number < block.own {
        return Ok(number);
    }
    let more = if number - block.own < block.size {
        block.before
    } else {
        block.total.saturating_sub(block.size)
    };
    match number.checked_add(more) {
        Some(made) => Ok(made),
        None => Err(AllocError),
    }
}

pub(crate) fn place_grouped(group: &Grouped, number: usize) -> Result<usize, AllocError>
    ensures { IfOk result (λ made. made ≡ grouped_in group.now number) }
{
    let number = place(&group.lead, number)?;
    place(&group.follow, number)
}
