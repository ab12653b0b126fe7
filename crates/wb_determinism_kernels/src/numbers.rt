//! Converts between the host's numbers and those of the host with an extension.
//!
//! What the host has of its own keeps its number. Holes, the end of a text, productions of holes and `S' -> S` come after the extension's.

ghost use Rattle.std.specs.Prelude.{◌≡◌, ◌≢◌, ◌↔◌, ℕ, IfOk, IsTrue, List, MatchOption, map};
ghost use Rattle.wb_compose_theory.specs.Blocks.{lift};
ghost use Rattle.wb_compose_theory.specs.Renamings.{renamed_item};
ghost use Rattle.wb_determinism_kernels.specs.Numbers.{up_by};
ghost use Rattle.wb_determinism_kernels.specs.Inner.Down.{AreDown};
ghost use Rattle.wb_grammar_theory.specs.declared.item.Item.{Item};

use std::alloc::{AllocError, Global};
use wb_base::{Sequence, push};
use wb_items::Item;

/// How many numbers a host has of its own, without holes, and how many an extension adds after these.
#[derive(Clone, Copy)]
pub struct Added {
    pub own: usize,
    pub more: usize,
}

/// These numbers of terminals, nonterminals and productions.
#[derive(Clone, Copy)]
pub struct Numbers {
    pub terminals: Added,
    pub nonterminals: Added,
    pub productions: Added,
}

// The items in the host's numbers, where all are the host's.
pub(crate) fn own_items(
    alloc: Global,
    numbers: &Numbers,
    items: &[Item],
) -> Result<Option<Sequence<Item>>, AllocError>
    ensures { IfOk result (λ found. AreDown (up_by numbers.now) items.now found) }
{
    let mut own = Vec::new(alloc);
    'items: for &item in items {
        let Some(down) = host_item(numbers, item) else {
            return Ok(None);
        };
        push(&mut own, down)?;
    }
    Ok(Some(Sequence::from_vec(own)))
}

/// The host's item that has become this one.
pub fn host_item(numbers: &Numbers, item: Item) -> Option<Item>
    ensures { MatchOption result ((own : Item) → item ≢ renamed_item (up_by numbers.now) own) (λ own. item ≡ renamed_item (up_by numbers.now) own) }
{
    match down(numbers.productions, item.production) {
        Some(production) => Some(Item {
            production,
            dot: item.dot,
        }),
        None => None,
    }
}

// The number that was moved to this one.
fn down(added: Added, number: usize) -> Option<usize>
    ensures { MatchOption result ((n : ℕ) → number ≢ lift added.own added.more n) (λ n. number ≡ lift added.own added.more n) }
{
    if number < added.own {
        return Some(number);
    }
    if number - added.own < added.more {
        return None;
    }
    Some(number - added.more)
}

// Whether the number is this one of the host, moved up.
pub(crate) fn is_up(added: Added, own: usize, number: usize) -> bool
    ensures { IsTrue result ↔ (lift added.own added.more own ≡ number) }
{
    if own < added.own {
        return own == number;
    }
    if number < added.more {
        return false;
    }
    number - added.more == own
}
