//! The sets of one new kernel.

ghost use Rattle.std.specs.Prelude.{◌≡◌, [], IfOk, Bool, List, MatchOption, IsTrue, Some, false, length, replicate, slice_get, slice_index_or, ℕ};
ghost use Rattle.wb_determinism_lookaheads.specs.Inner.Spreading.{AddsTo};

use std::alloc::{AllocError, Global};
use std::marker::Model;
use wb_base::push;
use wb_termset::TermSet;

// A set for each item that has one.
#[derive(Drop)]
pub(crate) struct Row {
    sets: Vec<TermSet>,
}

impl Model for Row {
    ghost use Rattle.std.specs.Prelude.{List, Bool};

    ghost Value = { List (List Bool) };

    ghost view = { λ r. r.sets.items };
}

impl Row {
    // So many empty sets of numbers below a width.
    pub(crate) fn new(alloc: Global, count: usize, width: usize) -> Result<Row, AllocError>
        ensures { IfOk result (λ row. row ≡ replicate count (replicate width false)) }
    {
        let mut sets = Vec::with_capacity(alloc, count)?;
        'sets: for _set in 0..count {
            push(&mut sets, TermSet::new(alloc, width)?)?;
        }
        Ok(Row { sets })
    }

    // The set at a place.
    pub(crate) fn get(&self, at: usize) -> Option<&TermSet>
        ensures { MatchOption result (slice_index_or self.now at [] ≡ []) (λ set. slice_get self.now at ≡ Some set.now) }
    {
        if at < self.sets.len() {
            Some(&self.sets[at])
        } else {
            None
        }
    }

    // Adds members to the set at a place, if it is as wide, and answers whether it grew.
    pub(crate) fn unite(&mut self, at: usize, set: &TermSet) -> bool
        ensures { AddsTo self.old at set.now self.new }
    {
        if at >= self.sets.len() || self.sets[at].count() != set.count() {
            return false;
        }
        self.sets[at].union_with(set)
    }

    // Whether each set is of numbers below the width.
    pub(crate) fn is_wide(&self, width: usize) -> bool
        ensures { IsTrue result → (j : ℕ) (set : List Bool) → slice_get self.now j ≡ Some set → length set ≡ width }
    {
        'sets: for at in 0..self.sets.len() {
            if self.sets[at].count() != width {
                return false;
            }
        }
        true
    }
}
