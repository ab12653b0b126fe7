//! Lookaheads of small grammars. Expected sets are those of canonical LR(1) item sets, found by another program and merged by kernel.

ghost use Rattle.std.specs.Prelude.{◌<◌, length};
ghost use Rattle.wb_items.specs.Lookaheads.{AreLookaheadsOf};

use crate::small::{
    A, B, C, Small, T0, T1, T2, T3, T4, after, grammar_of, kernels_of, lookaheads_of,
};
use std::alloc::{AllocError, Global};
use std::test::Fail;
use wb_base::{Grammar, Symbol};
use wb_items::{Kernels, Lookaheads};
use wb_termset::TermSet;

// The symbols that lead to a kernel, and for each item of its closure a mask of its lookaheads.
struct Expected {
    prefix: &'static [Symbol],
    masks: &'static [u64],
}

// Whether the members of a set are the bits of the mask.
pub(crate) fn is_mask(set: &TermSet, mask: u64) -> bool {
    for n in 0..set.count() {
        if n >= 64 || set.contains(n) != (mask & (1 << n) != 0) {
            return false;
        }
    }
    true
}

// Whether the sets of a kernel are these, in order.
fn are_masks(lookaheads: &Lookaheads, state: usize, masks: &[u64]) -> bool
    requires { state < length lookaheads.now.items }
{
    if lookaheads.len(state) != masks.len() {
        return false;
    }
    for place in 0..lookaheads.len(state) {
        if !is_mask(lookaheads.at(state, place), masks[place]) {
            return false;
        }
    }
    true
}

// Whether the sets of the kernel after these symbols are those of the masks, in the order of its closure.
fn looks(kernels: &Kernels, lookaheads: &Lookaheads, row: &Expected) -> bool
    requires { AreLookaheadsOf kernels.now lookaheads.now }
{
    match after(kernels, row.prefix) {
        Some(state) => state < kernels.count() && are_masks(lookaheads, state, row.masks),
        None => false,
    }
}

// Whether the rows are those of the kernels after their symbols.
fn are_all(kernels: &Kernels, lookaheads: &Lookaheads, rows: &[Expected]) -> bool
    requires { AreLookaheadsOf kernels.now lookaheads.now }
{
    for row in rows {
        if !looks(kernels, lookaheads, row) {
            return false;
        }
    }
    true
}

// Whether the grammar's lookaheads are those of the rows.
fn agree(alloc: Global, grammar: &Grammar, rows: &[Expected]) -> Result<bool, AllocError> {
    let kernels = kernels_of(alloc, grammar)?;
    let lookaheads = lookaheads_of(alloc, grammar, &kernels)?;
    Ok(are_all(&kernels, &lookaheads, rows))
}

fn is_right(alloc: Global, case: &Case) -> Result<bool, AllocError> {
    match grammar_of(alloc, &case.grammar)? {
        Some(grammar) => agree(alloc, &grammar, case.rows),
        None => Ok(false),
    }
}

// A grammar and its expected lookaheads.
pub(crate) struct Case {
    pub(crate) grammar: Small,
    rows: &'static [Expected],
}

pub(crate) static CASES: [Case; 4] = [
    // A -> B t1 C, A -> C, B -> t0 C, B -> t2, C -> B
    Case {
        grammar: Small {
            terminals: 3,
            nonterminals: 3,
            productions: &[
                (0, &[B, T1, C]),
                (0, &[C]),
                (1, &[T0, C]),
                (1, &[T2]),
                (2, &[B]),
            ],
        },
        rows: &[
            Expected {
                prefix: &[],
                masks: &[8, 8, 10, 10, 8, 8],
            },
            Expected {
                prefix: &[A],
                masks: &[8],
            },
            Expected {
                prefix: &[B],
                masks: &[8, 8],
            },
            Expected {
                prefix: &[C],
                masks: &[8],
            },
            Expected {
                prefix: &[T0],
                masks: &[10, 10, 10, 10],
            },
            Expected {
                prefix: &[T2],
                masks: &[10],
            },
            Expected {
                prefix: &[B, T1],
                masks: &[8, 8, 8, 8],
            },
            Expected {
                prefix: &[T0, B],
                masks: &[10],
            },
            Expected {
                prefix: &[T0, C],
                masks: &[10],
            },
            Expected {
                prefix: &[B, T1, C],
                masks: &[8],
            },
        ],
    },
    // A -> , A -> A t0
    Case {
        grammar: Small {
            terminals: 1,
            nonterminals: 1,
            productions: &[(0, &[]), (0, &[A, T0])],
        },
        rows: &[
            Expected {
                prefix: &[],
                masks: &[3, 3, 2],
            },
            Expected {
                prefix: &[A],
                masks: &[3, 2],
            },
            Expected {
                prefix: &[A, T0],
                masks: &[3],
            },
        ],
    },
    // A nonterminal that may be empty: A -> B C t2, B -> t0, C -> , C -> t1
    Case {
        grammar: Small {
            terminals: 3,
            nonterminals: 3,
            productions: &[(0, &[B, C, T2]), (1, &[T0]), (2, &[]), (2, &[T1])],
        },
        rows: &[
            Expected {
                prefix: &[],
                masks: &[8, 6, 8],
            },
            Expected {
                prefix: &[A],
                masks: &[8],
            },
            Expected {
                prefix: &[B],
                masks: &[8, 4, 4],
            },
            Expected {
                prefix: &[T0],
                masks: &[6],
            },
            Expected {
                prefix: &[B, C],
                masks: &[8],
            },
            Expected {
                prefix: &[B, T1],
                masks: &[4],
            },
            Expected {
                prefix: &[B, C, T2],
                masks: &[8],
            },
        ],
    },
    // Kernels that merge: A -> t0 B t2, A -> t0 C t3, A -> t1 C t2, A -> t1 B t3, B -> t4, C -> t4
    Case {
        grammar: Small {
            terminals: 5,
            nonterminals: 3,
            productions: &[
                (0, &[T0, B, T2]),
                (0, &[T0, C, T3]),
                (0, &[T1, C, T2]),
                (0, &[T1, B, T3]),
                (1, &[T4]),
                (2, &[T4]),
            ],
        },
        rows: &[
            Expected {
                prefix: &[],
                masks: &[32, 32, 32, 32, 32],
            },
            Expected {
                prefix: &[T0],
                masks: &[32, 32, 4, 8],
            },
            Expected {
                prefix: &[T1],
                masks: &[32, 32, 8, 4],
            },
            Expected {
                prefix: &[T0, T4],
                masks: &[12, 12],
            },
            Expected {
                prefix: &[T1, T4],
                masks: &[12, 12],
            },
            Expected {
                prefix: &[T0, C],
                masks: &[32],
            },
            Expected {
                prefix: &[T1, C, T2],
                masks: &[32],
            },
        ],
    },
];

#[test]
fn lookaheads_are_those_of_merged_sets(rt: HostRuntime) -> Result<(), Fail> {
    for case in &CASES {
        assert!(rt; is_right(rt.alloc(), case)?);
    }
    Ok(())
}
