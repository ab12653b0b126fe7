//! Gives the new numbers of the host and of each extension.
//!
//! Each sort of rows has a block for the host and one for each extension, in order.

ghost use Rattle.std.specs.Prelude.{◌≡◌, ◌+◌, ◌<◌, IfOk, IfSome, length, slice_get};
ghost use Rattle.wb_compose_theory_lists.specs.Joined.{numbered};
ghost use Rattle.wb_compose_attributes.specs.Inner.Counted.{counts_in, no_counts, numbers_by, placed_by, sums_in, totals_in};
ghost use Rattle.wb_compose_attributes.specs.Inner.Counted as spec;

use crate::{Addition, Block, Grouped, Numbers, Rows};
use std::alloc::{AllocError, Global};
use wb_base::push;

// An extension with its new numbers.
#[derive(Clone, Copy)]
pub(crate) struct Placed<'a> {
    pub(crate) numbers: Numbers,
    pub(crate) addition: Addition<'a>,
}

// How many rows there are of each sort.
#[derive(Clone, Copy)]
pub(crate) struct Counts {
    pub(crate) terminals: usize,
    pub(crate) nonterminals: usize,
    pub(crate) abstract_nonterminals: usize,
    pub(crate) attributes: usize,
    pub(crate) productions: usize,
    pub(crate) abstract_productions: usize,
}

// The host's new numbers, where extensions have so many rows together, and no locals move.
pub(crate) fn host_numbers(host: &Counts, all: &Counts) -> Result<Numbers, AllocError>
    ensures { IfOk result (λ made. made ≡ numbers_by host.now 0 no_counts no_counts all.now) }
{
    let nonterminals = following(
        host.nonterminals,
        all.nonterminals,
        host.abstract_nonterminals,
    )?;
    let productions = following(host.productions, all.productions, host.abstract_productions)?;
    Ok(Numbers {
        terminal: host_block(host.terminals, all.terminals),
        nonterminal: Grouped {
            lead: host_block(host.nonterminals, all.nonterminals),
            follow: host_block(nonterminals, all.abstract_nonterminals),
        },
        attribute: host_block(host.attributes, all.attributes),
        production: Grouped {
            lead: host_block(host.productions, all.productions),
            follow: host_block(productions, all.abstract_productions),
        },
        local: host_block(0, 0),
        owner: 0,
    })
}

// How much is before the extensions' own that follows: all that leads, and what of the host follows.
fn following(lead: usize, total: usize, follow: usize) -> Result<usize, AllocError>
    ensures { IfOk result (λ made. made ≡ lead + total + follow) }
{
    sum(sum(lead, total)?, follow)
}

// A block of the host's, where extensions have so many together.
fn host_block(own: usize, total: usize) -> Block
    ensures { result ≡ record { own = own; before = 0; size = 0; total = total } }
{
    Block {
        own,
        before: 0,
        size: 0,
        total,
    }
}

// The extensions with their new numbers, in order, where the host has these.
pub(crate) fn placed_of<'a>(
    alloc: Global,
    host: &Numbers,
    additions: &[Addition<'a>],
) -> Result<Vec<Placed<'a>>, AllocError>
    ensures { IfOk result (λ placed. placed.items ≡ numbered (placed_by host.now additions.now) 0 additions.now) }
{
    let mut placed = Vec::new(alloc);
    'additions: for number in 0..additions.len() {
        let next = placed_one(host, additions, number)?;
        push(&mut placed, next)?;
    }
    Ok(placed)
}

// That of one extension.
fn placed_one<'a>(
    host: &Numbers,
    additions: &[Addition<'a>],
    number: usize,
) -> Result<Placed<'a>, AllocError>
    requires { number < length additions.now }
    ensures { IfOk result (λ made. IfSome (slice_get additions.now number) (λ x. made ≡ placed_by host.now additions.now number x)) }
{
    let before = totals_of(&additions[..number])?;
    let addition = additions[number];
    let size = counts_of(&addition.rows);
    let numbers = numbers_after(host, number + 1, &size, &before);
    Ok(Placed { numbers, addition })
}

// The numbers of an owner beside the host's, with so many rows of its own, and so many of others before them.
fn numbers_after(host: &Numbers, owner: usize, size: &Counts, before: &Counts) -> Numbers
    ensures { result ≡ spec.numbers_after host.now owner size.now before.now }
{
    Numbers {
        terminal: Block {
            before: before.terminals,
            size: size.terminals,
            ..host.terminal
        },
        nonterminal: Grouped {
            lead: Block {
                before: before.nonterminals,
                size: size.nonterminals,
                ..host.nonterminal.lead
            },
            follow: Block {
                before: before.abstract_nonterminals,
                size: size.abstract_nonterminals,
                ..host.nonterminal.follow
            },
        },
        attribute: Block {
            before: before.attributes,
            size: size.attributes,
            ..host.attribute
        },
        production: Grouped {
            lead: Block {
                before: before.productions,
                size: size.productions,
                ..host.production.lead
            },
            follow: Block {
                before: before.abstract_productions,
                size: size.abstract_productions,
                ..host.production.follow
            },
        },
        local: host.local,
        owner,
    }
}

// How many rows extensions have together.
pub(crate) fn totals_of(additions: &[Addition]) -> Result<Counts, AllocError>
    ensures { IfOk result (λ counts. counts ≡ totals_in additions.now) }
{
    let mut totals = no_rows();
    'additions: for addition in additions {
        totals = sums(&totals, &counts_of(&addition.rows))?;
    }
    Ok(totals)
}

// How many there are of both.
fn sums(one: &Counts, other: &Counts) -> Result<Counts, AllocError>
    ensures { IfOk result (λ made. made ≡ sums_in one.now other.now) }
{
    Ok(Counts {
        terminals: sum(one.terminals, other.terminals)?,
        nonterminals: sum(one.nonterminals, other.nonterminals)?,
        abstract_nonterminals: sum(one.abstract_nonterminals, other.abstract_nonterminals)?,
        attributes: sum(one.attributes, other.attributes)?,
        productions: sum(one.productions, other.productions)?,
        abstract_productions: sum(one.abstract_productions, other.abstract_productions)?,
    })
}

fn no_rows() -> Counts
    ensures { result ≡ no_counts }
{
    Counts {
        terminals: 0,
        nonterminals: 0,
        abstract_nonterminals: 0,
        attributes: 0,
        productions: 0,
        abstract_productions: 0,
    }
}

// How many rows these are.
pub(crate) fn counts_of(rows: &Rows) -> Counts
    ensures { result ≡ counts_in rows.now }
{
    Counts {
        terminals: rows.terminals,
        nonterminals: rows.nonterminals.len(),
        abstract_nonterminals: rows.abstract_nonterminals.len(),
        attributes: rows.attributes.len(),
        productions: rows.productions.len(),
        abstract_productions: rows.abstract_productions.len(),
    }
}

// More numbers than there are need more than any memory.
pub(crate) fn sum(one: usize, other: usize) -> Result<usize, AllocError>
    ensures { IfOk result (λ total. total ≡ one + other) }
{
    match one.checked_add(other) {
        Some(total) => Ok(total),
        None => Err(AllocError),
    }
}
