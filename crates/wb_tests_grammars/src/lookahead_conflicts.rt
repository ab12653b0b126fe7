//! Is a conflict that is looked for on sets the one that tables show, and are there valid sets where there are tables?

ghost use Rattle.std.specs.Prelude.{◌≡◌};
ghost use Rattle.wb_items.specs.LookaheadSets.{AreLookaheads};

use crate::small::{A, B, C, Small, T0, T1, T2, grammar_of, kernels_of, lookaheads_of};
use std::alloc::{AllocError, Global};
use std::test::Fail;
use wb_base::Grammar;
use wb_items::{Kernels, Lookaheads};
use wb_lookahead::{TableRefusal, tables, valid_sets};

static GRAMMARS: [Small; 6] = [
    // a shift and a reduction: A -> t0, A -> A t1 A
    Small {
        terminals: 2,
        nonterminals: 1,
        productions: &[(0, &[T0]), (0, &[A, T1, A])],
    },
    // two reductions: A -> B, A -> C, B -> t0, C -> t0
    Small {
        terminals: 1,
        nonterminals: 3,
        productions: &[(0, &[B]), (0, &[C]), (1, &[T0]), (2, &[T0])],
    },
    // both at one kernel, on several terminals: A -> B t1, A -> B t2, A -> C t1, A -> C t2, A -> t0 t2, B -> t0, C -> t0
    Small {
        terminals: 3,
        nonterminals: 3,
        productions: &[
            (0, &[B, T1]),
            (0, &[B, T2]),
            (0, &[C, T1]),
            (0, &[C, T2]),
            (0, &[T0, T2]),
            (1, &[T0]),
            (2, &[T0]),
        ],
    },
    // the reduction of the lesser production: B -> t0, B -> t0 t1, A -> B t1 after them
    Small {
        terminals: 2,
        nonterminals: 2,
        productions: &[(1, &[T0]), (1, &[T0, T1]), (0, &[B, T1])],
    },
    // an empty production: A -> B t0, A -> t0, B ->
    Small {
        terminals: 1,
        nonterminals: 2,
        productions: &[(0, &[B, T0]), (0, &[T0]), (1, &[])],
    },
    // none: A -> B t1, A -> C t2, B -> t0, C -> t0
    Small {
        terminals: 3,
        nonterminals: 3,
        productions: &[(0, &[B, T1]), (0, &[C, T2]), (1, &[T0]), (2, &[T0])],
    },
];

// Whether both show one conflict.
fn is_same(one: &TableRefusal, other: &TableRefusal) -> bool {
    let TableRefusal::Conflict {
        state,
        terminal,
        first,
        second,
    } = one
    else {
        return false;
    };
    match other {
        TableRefusal::Conflict {
            state: other_state,
            terminal: other_terminal,
            first: other_first,
            second: other_second,
        } => {
            state == other_state
                && terminal == other_terminal
                && first == other_first
                && second == other_second
        }
        TableRefusal::NoMemory(_) => false,
    }
}

// Whether there is no conflict, or the sets show the same as the tables, whose refusal this is.
fn is_shown(
    alloc: Global,
    grammar: &Grammar,
    kernels: &Kernels,
    lookaheads: &Lookaheads,
    refusal: Option<&TableRefusal>,
) -> bool
    requires kernels { kernels.now.grammar ≡ grammar.now }
    requires lookaheads { AreLookaheads kernels.now lookaheads.now }
{
    match valid_sets(alloc, grammar, kernels, lookaheads) {
        Ok(sets) => refusal.is_none() && sets.len() == kernels.count(),
        Err(found) => match refusal {
            Some(shown) => is_same(shown, &found),
            None => false,
        },
    }
}

fn is_alike(alloc: Global, grammar: &Grammar) -> Result<bool, AllocError> {
    let kernels = kernels_of(alloc, grammar)?;
    let lookaheads = lookaheads_of(alloc, grammar, &kernels)?;
    Ok(match tables(alloc, grammar, &kernels, &lookaheads) {
        Ok(_) => is_shown(alloc, grammar, &kernels, &lookaheads, None),
        Err(refusal) => is_shown(alloc, grammar, &kernels, &lookaheads, Some(&refusal)),
    })
}

fn is_alike_for(alloc: Global, small: &Small) -> Result<bool, AllocError> {
    match grammar_of(alloc, small)? {
        Some(grammar) => is_alike(alloc, &grammar),
        None => Ok(false),
    }
}

#[test]
fn sets_show_the_conflict_of_the_tables(rt: HostRuntime) -> Result<(), Fail> {
    for small in &GRAMMARS {
        assert!(rt; is_alike_for(rt.alloc(), small)?);
    }
    Ok(())
}
