//! What do callers ask of lookaheads at new kernels? Which items have a set, and their sets; `spread.rt` fills them, `test.rt` tests them.

ghost use Rattle.std.specs.Prelude.{◌≡◌, ◌<◌, [], IfOk, IfSome, IsTrue, MatchOption, Some, length, slice_get, slice_index_or};
ghost use Rattle.wb_grammar.specs.Facts.{AreFacts};
ghost use Rattle.wb_items.specs.LookaheadSets.{AreLookaheads};
ghost use Rattle.wb_items.specs.Table.{AreProductions};
ghost use Rattle.wb_determinism_kernels.specs.Given.{IsGiven};
ghost use Rattle.wb_determinism_kernels.specs.NewKernels.{AreNewKernels};
ghost use Rattle.wb_determinism_kernels.specs.Numbers.{phi_by, up_by};
ghost use Rattle.wb_determinism_lookaheads.specs.NewLookaheads.{AreHolesAlone, AreNewLookaheads, set_at};

use crate::fill::fill;
use crate::row::Row;
use crate::slots::slots_of;
use std::alloc::{AllocError, Global};
use std::marker::Model;
use wb_base::Sequence;
use wb_determinism_kernels::{Beside, NewKernels};
use wb_grammar::Facts;
use wb_items::{Item, Lookaheads, Numbers};
use wb_termset::TermSet;

/// The lookaheads of the items of new kernels.
///
/// At each new kernel some items have a set: each item of the kernel its own, and for each nonterminal that the kernel opens one of the
/// initial items, whose set is that of all of them. Contracts see these items and their sets.
pub struct NewLookaheads {
    slots: Vec<Sequence<Item>>,
    sets: Vec<Row>,
}

impl Model for NewLookaheads {
    ghost use Rattle.wb_determinism_lookaheads.specs.NewLookaheads.{NewLookaheadsView};

    ghost Value = { NewLookaheadsView };

    ghost view = { λ n. record { slots = n.slots.items; sets = n.sets.items } };
}

impl NewLookaheads {
    /// The lookaheads at the new kernels of a host with an extension; or none, where the answer has to be found otherwise.
    ///
    /// The sets of the host are lent, and none is made for a kernel of the host. Where the extension adds a lookahead to an item of a
    /// kernel of the host the answer is none. No clause says when else it is, or bounds the time.
    pub fn find(
        alloc: Global,
        beside: &Beside,
        facts: &Facts,
        rules: &[Numbers],
        known: &Lookaheads,
        new: &NewKernels,
    ) -> Result<Option<NewLookaheads>, AllocError>
        requires given { IsGiven beside.now.host.now beside.now.grammar.now beside.now.numbers.now beside.now.images.now }
        requires facts { AreFacts beside.now.grammar.now facts.now }
        requires rules { AreProductions beside.now.grammar.now rules.now }
        requires known { AreLookaheads beside.now.host.now known.now }
        requires alone { AreHolesAlone beside.now.host.now.grammar (up_by beside.now.numbers.now) (phi_by beside.now.numbers.now beside.now.images.now) }
        requires new { AreNewKernels beside.now.host.now beside.now.grammar.now beside.now.numbers.now beside.now.images.now new.now }
        ensures { IfOk result (λ found. IfSome found (AreNewLookaheads beside.now.host.now beside.now.grammar.now beside.now.numbers.now beside.now.images.now new.now)) }
    {
        let slots = slots_of(alloc, beside.grammar, rules, new)?;
        let mut sets = Vec::new(alloc);
        if fill(alloc, beside, facts, rules, known, new, &slots, &mut sets)? {
            Ok(Some(NewLookaheads { slots, sets }))
        } else {
            Ok(None)
        }
    }

    /// The items of a new kernel that have a set.
    pub fn slots(&self, place: usize) -> &[Item]
        requires { place < length self.now.slots }
        ensures { slice_get self.now.slots place ≡ Some result.now }
    {
        self.slots[place].as_slice()
    }

    /// The set at a place among them. Where there is none, nothing is listed there.
    pub fn set(&self, place: usize, at: usize) -> Option<&TermSet>
        ensures is { MatchOption result (set_at self.now place at ≡ []) (λ set. set.now ≡ set_at self.now place at) }
        ensures there { IfSome result (λ set. slice_get (slice_index_or self.now.sets place []) at ≡ Some set.now) }
    {
        if place < self.sets.len() {
            self.sets[place].get(at)
        } else {
            None
        }
    }
}

impl Drop for NewLookaheads {
    fn drop(self) {
        let NewLookaheads { slots, sets } = self;
        drop(slots);
        drop(sets);
    }
}
