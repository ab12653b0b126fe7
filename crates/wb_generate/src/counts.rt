//! What is the least number of leaves of the trees of each nonterminal? Knuth's generalization of Dijkstra's algorithm: the nonterminals
//! with the fewest leaves come first, and lower the counts of those whose right sides they are in.

ghost use Rattle.std.specs.Prelude.{◌≡◌, ◌↔◌, ◌+◌, ◌<◌, ◌≤◌, ℕ, All, IfOk, IsTrue, OnOk, [], ◌∷◌, length, replicate};
ghost use Rattle.std.specs.BinaryHeap.{heap_items};
ghost use Rattle.wb_generate.specs.Counts.{AreLeast};
ghost use Rattle.wb_generate.specs.Inner.Groups.{AreUses};
ghost use Rattle.wb_generate.specs.Inner.Lowerings.{Advances, IsLowering, IsSettled, Settles, state_of};

use crate::groups::{Group, productions_of, uses};
use crate::totals::{LIMIT, least_total};
use std::alloc::{AllocError, Global};
use std::collections::BinaryHeap;
use wb_base::{Grammar, push};

// The least count of each nonterminal.
pub(crate) fn least_counts(alloc: Global, grammar: &Grammar) -> Result<Vec<u64>, AllocError>
    ensures { IfOk result (λ counts. AreLeast grammar.now 100001 counts.items) }
{
    let groups = uses(alloc, grammar)?;
    lowered_counts(alloc, grammar, &groups)
}

// Like `least_counts`, by the productions that have each nonterminal on the right.
fn lowered_counts(alloc: Global, grammar: &Grammar, uses: &[Group]) -> Result<Vec<u64>, AllocError>
    requires { AreUses grammar.now uses.now }
    ensures { IfOk result (λ counts. AreLeast grammar.now 100001 counts.items) }
{
    let mut lowering = Lowering::new(alloc, grammar.nonterminals())?;
    'productions: for production in 0..grammar.productions() {
        lowering.lower(grammar, production)?;
    }
    'waiting: while !lowering.waiting.is_empty() {
        lowering.advance(grammar, uses)?;
    }
    Ok(lowering.counts)
}

// So many counts at their limit.
fn limits(alloc: Global, many: usize) -> Result<Vec<u64>, AllocError>
    ensures { IfOk result (λ counts. counts.items ≡ replicate many 100001) }
{
    let mut counts = Vec::new(alloc);
    'many: for _ in 0..many {
        push(&mut counts, LIMIT)?;
    }
    Ok(counts)
}

/// Counts that are lowered, and the nonterminals whose productions on the right have still to be looked at, each with how far its count was
/// below the limit, so that the fewest leaves come first. An entry whose count was lowered since then is passed over.
#[derive(Drop)]
pub(crate) struct Lowering {
    pub(crate) counts: Vec<u64>,
    pub(crate) waiting: BinaryHeap<(u64, usize)>,
}

impl Lowering {
    // All counts at their limit, and nothing that waits.
    fn new(alloc: Global, many: usize) -> Result<Lowering, AllocError>
        ensures { IfOk result (λ made. state_of made ≡ record { counts = replicate many 100001; waiting = [] }) }
    {
        let counts = limits(alloc, many)?;
        Ok(Lowering {
            counts,
            waiting: BinaryHeap::new(alloc),
        })
    }

    // Takes the first entry, and lowers by the productions that have its nonterminal on the right.
    fn advance(&mut self, grammar: &Grammar, uses: &[Group]) -> Result<(), AllocError>
        requires waiting { 0 < length (heap_items self.old.waiting) }
        requires lowering { IsLowering grammar.now 100001 (state_of self.old) }
        requires settled { (q : ℕ) → IsSettled grammar.now 100001 (state_of self.old) q }
        requires uses { AreUses grammar.now uses.now }
        ensures { OnOk result (Advances grammar.now 100001 (state_of self.old) (state_of self.new)) }
    {
        let Some(entry) = self.waiting.pop() else {
            return Ok(());
        };
        let count = self.counts[entry.1];
        if is_latest(count, entry.0) {
            self.lower_all(grammar, productions_of(uses, entry.1))?;
        }
        Ok(())
    }

    // Lowers by each of these productions.
    fn lower_all(&mut self, grammar: &Grammar, productions: &[usize]) -> Result<(), AllocError>
        requires productions { All (λ p. p < length grammar.now.productions) productions.now }
        requires lowering { IsLowering grammar.now 100001 (state_of self.old) }
        ensures { OnOk result (Settles grammar.now 100001 productions.now (state_of self.old) (state_of self.new)) }
    {
        'productions: for &production in productions {
            self.lower(grammar, production)?;
        }
        Ok(())
    }

    // Lowers the count of a production's left side to the sum of its right side, where that is less, and lets it wait.
    fn lower(&mut self, grammar: &Grammar, production: usize) -> Result<(), AllocError>
        requires production { production < length grammar.now.productions }
        requires lowering { IsLowering grammar.now 100001 (state_of self.old) }
        ensures { OnOk result (Settles grammar.now 100001 (production ∷ []) (state_of self.old) (state_of self.new)) }
    {
        let least = least_total(grammar.right(production), &self.counts);
        let left = grammar.left(production);
        let count = self.counts[left];
        if is_low(count, least) {
            return Ok(());
        }
        self.waiting.push((LIMIT - least, left))?;
        self.counts[left] = least;
        Ok(())
    }
}

// Whether the count is so far below the limit.
fn is_latest(count: u64, below: u64) -> bool
    ensures { IsTrue result ↔ (count + below ≡ 100001) }
{
    below <= LIMIT && count == LIMIT - below
}

// Whether the count isn't above the sum.
fn is_low(count: u64, sum: u64) -> bool
    ensures { IsTrue result ↔ (count ≤ sum) }
{
    count <= sum
}
