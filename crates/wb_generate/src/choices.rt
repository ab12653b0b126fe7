//! What is known of the productions of each nonterminal before anything is made?

ghost use Rattle.std.specs.Prelude.{◌≡◌, ◌<◌, ◌≤◌, ◌+◌, ℕ, All, IfOk, Some, length, slice_index};
ghost use Rattle.wb_generate.specs.Counts.{AreLeast};
ghost use Rattle.wb_generate.specs.Inner.Choices.{AreChoices, between, number_of};
ghost use Rattle.wb_generate.specs.Inner.Groups.{group_at};

use crate::choose::choose;
use crate::counts::least_counts;
use crate::groups::{Group, by_left, productions_of};
use crate::totals::all_totals;
use std::alloc::{AllocError, Global};
use wb_base::Grammar;

/// The least count of each nonterminal, its productions, and the least count of the right side of each production.
#[derive(Drop)]
pub(crate) struct Choices {
    pub(crate) counts: Vec<u64>,
    pub(crate) rules: Vec<Group>,
    pub(crate) totals: Vec<u64>,
}

impl Choices {
    // The least count of a nonterminal.
    pub(crate) fn least(&self, a: usize) -> u64
        requires { a < length self.now.counts.items }
        ensures { result ≡ slice_index self.now.counts.items a }
    {
        self.counts[a]
    }

    // The least count of the right side of a production.
    pub(crate) fn total(&self, production: usize) -> u64
        requires { production < length self.now.totals.items }
        ensures { result ≡ slice_index self.now.totals.items production }
    {
        self.totals[production]
    }

    // The production of a nonterminal that a number chooses, where so many leaves are to spare.
    pub(crate) fn choose(&self, a: usize, spare: u64, number: u64) -> usize
        requires counts { a < length self.now.counts.items }
        requires rules { a < length self.now.rules.items }
        requires some { 0 < length (between self.now.totals.items 0 (spare + slice_index self.now.counts.items a) (group_at self.now.rules.items a)) }
        requires known { All (λ p. p < length self.now.totals.items) (group_at self.now.rules.items a) }
        requires few { spare + slice_index self.now.counts.items a ≤ 100000 }
        ensures { number_of self.now.totals.items (slice_index self.now.counts.items a) spare (group_at self.now.rules.items a) number ≡ Some result }
    {
        let numbers = productions_of(&self.rules, a);
        let least = self.least(a);
        choose(numbers, &self.totals, least, spare, number)
    }
}

// Those of the grammar.
pub(crate) fn choices_of(alloc: Global, grammar: &Grammar) -> Result<Choices, AllocError>
    ensures { IfOk result (AreChoices grammar.now 100001) }
{
    let counts = least_counts(alloc, grammar)?;
    with_counts(alloc, grammar, counts)
}

// Those with these least counts.
fn with_counts(alloc: Global, grammar: &Grammar, counts: Vec<u64>) -> Result<Choices, AllocError>
    requires { AreLeast grammar.now 100001 counts.items }
    ensures { IfOk result (AreChoices grammar.now 100001) }
{
    let totals = all_totals(alloc, grammar, &counts)?;
    let rules = by_left(alloc, grammar)?;
    Ok(Choices {
        counts,
        rules,
        totals,
    })
}
