//! Are the lookaheads by relations those by propagation? Both calls are compared, set by set.

ghost use Rattle.std.specs.Prelude.{◌≡◌, ◌<◌, IfOk, length};
ghost use Rattle.wb_items.specs.Lookaheads.{AreLookaheadsOf};
ghost use Rattle.wb_items.specs.LookaheadSets.{AreLookaheads};

use crate::items_rows::CASES as KERNELS;
use crate::lookahead::CASES as LOOKAHEADS;
use crate::lookahead_canonical::GRAMMARS as CANONICAL;
use crate::small::{A, B, C, Small, T0, T1, T2, facts_of, grammar_of, kernels_of, lookaheads_of};
use std::alloc::{AllocError, Global};
use std::test::Fail;
use wb_base::Grammar;
use wb_digraph::digraph_lookaheads;
use wb_items::{Kernels, Lookaheads};
use wb_termset::TermSet;

// Moves that read others in a row, moves that include each other, and one with an empty rest behind it.
static GRAMMARS: [Small; 4] = [
    // A -> B C B t0, B -> , B -> t1, C -> , C -> t2
    Small {
        terminals: 3,
        nonterminals: 3,
        productions: &[
            (0, &[B, C, B, T0]),
            (1, &[]),
            (1, &[T1]),
            (2, &[]),
            (2, &[T2]),
        ],
    },
    // A -> t0 B, A -> t2, B -> t1 A, B -> A t0 B
    Small {
        terminals: 3,
        nonterminals: 2,
        productions: &[(0, &[T0, B]), (0, &[T2]), (1, &[T1, A]), (1, &[A, T0, B])],
    },
    // A -> t1 A C, A -> B, B -> t2, C -> , C -> t0
    Small {
        terminals: 3,
        nonterminals: 3,
        productions: &[
            (0, &[T1, A, C]),
            (0, &[B]),
            (1, &[T2]),
            (2, &[]),
            (2, &[T0]),
        ],
    },
    // A -> B A B, A -> t0, B -> t1, B -> C C, C -> t2, C -> A t2
    Small {
        terminals: 3,
        nonterminals: 3,
        productions: &[
            (0, &[B, A, B]),
            (0, &[T0]),
            (1, &[T1]),
            (1, &[C, C]),
            (2, &[T2]),
            (2, &[A, T2]),
        ],
    },
];

// Whether the sets have the same members.
fn are_same(one: &TermSet, other: &TermSet) -> bool {
    one.count() == other.count() && one.equals(other)
}

// Whether a kernel has the same items in both, with the same sets.
fn are_same_at(one: &Lookaheads, other: &Lookaheads, state: usize) -> bool
    requires one { state < length one.now.items }
    requires other { state < length other.now.items }
{
    if one.len(state) != other.len(state) {
        return false;
    }
    for place in 0..one.len(state) {
        let same = one.item_at(state, place) == other.item_at(state, place);
        if !same || !are_same(one.at(state, place), other.at(state, place)) {
            return false;
        }
    }
    true
}

// Whether all rows do.
fn all_same(kernels: &Kernels, one: &Lookaheads, other: &Lookaheads) -> bool
    requires one { AreLookaheadsOf kernels.now one.now }
    requires other { AreLookaheadsOf kernels.now other.now }
{
    for state in 0..kernels.count() {
        if !are_same_at(one, other, state) {
            return false;
        }
    }
    true
}

// The lookaheads by relations.
fn relations_of(
    alloc: Global,
    grammar: &Grammar,
    kernels: &Kernels,
) -> Result<Lookaheads, AllocError>
    requires { kernels.now.grammar ≡ grammar.now }
    ensures { IfOk result (AreLookaheads kernels.now) }
{
    let facts = facts_of(alloc, grammar)?;
    digraph_lookaheads(alloc, grammar, &facts, kernels)
}

// Whether the lookaheads by relations are these.
fn are_by_relations(
    alloc: Global,
    grammar: &Grammar,
    kernels: &Kernels,
    lookaheads: &Lookaheads,
) -> Result<bool, AllocError>
    requires kernels { kernels.now.grammar ≡ grammar.now }
    requires lookaheads { AreLookaheadsOf kernels.now lookaheads.now }
{
    let relations = relations_of(alloc, grammar, kernels)?;
    Ok(all_same(kernels, lookaheads, &relations))
}

pub(crate) fn agree(alloc: Global, grammar: &Grammar) -> Result<bool, AllocError> {
    let kernels = kernels_of(alloc, grammar)?;
    let lookaheads = lookaheads_of(alloc, grammar, &kernels)?;
    are_by_relations(alloc, grammar, &kernels, &lookaheads)
}

fn is_right(alloc: Global, small: &Small) -> Result<bool, AllocError> {
    match grammar_of(alloc, small)? {
        Some(grammar) => agree(alloc, &grammar),
        None => Ok(false),
    }
}

#[test]
fn relations_agree_with_propagation(rt: HostRuntime) -> Result<(), Fail> {
    for small in &GRAMMARS {
        assert!(rt; is_right(rt.alloc(), small)?);
    }
    for small in &CANONICAL {
        assert!(rt; is_right(rt.alloc(), small)?);
    }
    for case in &LOOKAHEADS {
        assert!(rt; is_right(rt.alloc(), &case.grammar)?);
    }
    for case in &KERNELS {
        assert!(rt; is_right(rt.alloc(), &case.grammar)?);
    }
    Ok(())
}
