//! What is the least number of leaves of a right side? Sums stop at 100,001, since no text may have more leaves than 100,000.

ghost use Rattle.std.specs.Prelude.{◌≡◌, ◌≤◌, ℕ, IfOk, min, slice_index};
ghost use Rattle.wb_base.specs.declared.symbol.Symbol.{Symbol};
ghost use Rattle.wb_generate.specs.Counts.{least_of, total};
ghost use Rattle.wb_generate.specs.Inner.Choices.{totals_of};

use std::alloc::{AllocError, Global};
use wb_base::{Grammar, Symbol, push};

// No text has so many leaves.
pub(crate) const LIMIT: u64 = 100_001;

// The sum of each right side.
pub(crate) fn all_totals(
    alloc: Global,
    grammar: &Grammar,
    counts: &[u64],
) -> Result<Vec<u64>, AllocError>
    requires most { (a : ℕ) → slice_index counts.now a ≤ 100001 }
    ensures { IfOk result (λ totals. totals.items ≡ totals_of 100001 counts.now grammar.now.productions) }
{
    let mut totals = Vec::new(alloc);
    'productions: for production in 0..grammar.productions() {
        push(&mut totals, least_total(grammar.right(production), counts))?;
    }
    Ok(totals)
}

// The sum of the counts of the symbols, up to the limit.
pub(crate) fn least_total(symbols: &[Symbol], counts: &[u64]) -> u64
    requires most { (a : ℕ) → slice_index counts.now a ≤ 100001 }
    ensures { result ≡ min (total counts.now symbols.now) 100001 }
{
    let mut sum = 0;
    'symbols: for place in 0..symbols.len() {
        sum = stopped(sum + least_count(symbols[place], counts));
    }
    sum
}

// The number, or the limit where it is greater.
fn stopped(number: u64) -> u64
    ensures { result ≡ min number 100001 }
{
    if number < LIMIT { number } else { LIMIT }
}

// The count of one symbol: a terminal is one leaf.
fn least_count(symbol: Symbol, counts: &[u64]) -> u64
    ensures { result ≡ least_of counts.now symbol }
{
    match symbol {
        Symbol::Terminal(_) => 1,
        Symbol::Nonterminal(a) => if a < counts.len() { counts[a] } else { 0 },
    }
}
