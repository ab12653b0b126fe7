//! Is a terminal added to the sets of the items that one nonterminal opens, and to no other?

ghost use Rattle.std.specs.Prelude.{◌≡◌, ◌<◌, length};

use crate::small::{A, Small, T0, grammar_of, kernels_of};
use std::alloc::{AllocError, Global};
use std::test::Fail;
use wb_base::Grammar;
use wb_items::{Kernels, Lookaheads};
use wb_termset::TermSet;

// Whether the set has the terminal.
fn has(set: &TermSet, terminal: usize) -> bool {
    terminal < set.count() && set.contains(terminal)
}

// Whether the terminal is in the set at the items of productions below a number, and in no other of the kernel.
fn is_only_below(lookaheads: &Lookaheads, state: usize, production: usize, terminal: usize) -> bool
    requires { state < length lookaheads.now.items }
{
    for place in 0..lookaheads.len(state) {
        let is_there = lookaheads.item_at(state, place).production < production;
        if has(lookaheads.at(state, place), terminal) != is_there {
            return false;
        }
    }
    true
}

// Whether the terminal was new in the set at the first item, and is then there and at the items of productions below a number alone.
fn takes(lookaheads: &mut Lookaheads, state: usize, terminal: usize, production: usize) -> bool
    requires state { state < length lookaheads.old.items }
{
    if lookaheads.len(state) == 0 {
        return false;
    }
    if terminal >= lookaheads.at(state, 0).count() {
        return false;
    }
    lookaheads.insert_at(state, 0, terminal)
        && is_only_below(lookaheads, state, production, terminal)
}

// Whether the end of a text goes to all items that the grammar's nonterminal opens in the first kernel, and not to `S' -> S`.
fn takes_the_end(alloc: Global, grammar: &Grammar, kernels: &Kernels) -> Result<bool, AllocError>
    requires { kernels.now.grammar ≡ grammar.now }
{
    if kernels.count() == 0 {
        return Ok(false);
    }
    let mut lookaheads = Lookaheads::new(alloc, grammar, kernels)?;
    Ok(takes(
        &mut lookaheads,
        0,
        grammar.terminals(),
        grammar.productions(),
    ))
}

// A -> , A -> A t0
static LIST: Small = Small {
    terminals: 1,
    nonterminals: 1,
    productions: &[(0, &[]), (0, &[A, T0])],
};

fn is_taken_by(alloc: Global, grammar: &Grammar) -> Result<bool, AllocError> {
    let kernels = kernels_of(alloc, grammar)?;
    takes_the_end(alloc, grammar, &kernels)
}

fn is_taken(alloc: Global) -> Result<bool, AllocError> {
    match grammar_of(alloc, &LIST)? {
        Some(grammar) => is_taken_by(alloc, &grammar),
        None => Ok(false),
    }
}

#[test]
fn a_set_takes_a_terminal_for_the_items_that_one_nonterminal_opens(
    rt: HostRuntime,
) -> Result<(), Fail> {
    assert!(rt; is_taken(rt.alloc())?);
    Ok(())
}
