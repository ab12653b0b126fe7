//! Which terminals can be shifted at a new kernel of the host's items, and which are valid there with the envelope as lookaheads?

ghost use Rattle.std.specs.Prelude.{◌≡◌, ◌≤◌, ◌<◌, ◌+◌, ◌↔◌, ◌⊎◌, ℕ, All, IfOk, length};
ghost use Rattle.wb_items.specs.declared.item_lookahead.ItemLookahead.{ItemLookahead};
ghost use Rattle.wb_termset.specs.Sets.{IsMember};
ghost use Rattle.wb_determinism.specs.Valid.{AddsReductions, AddsShift, IsReduced, IsShifted};

use std::alloc::{AllocError, Global};
use wb_base::{Grammar, Symbol};
use wb_items::{Item, ItemLookahead, symbol_after};
use wb_termset::TermSet;

// The terminals after dots.
pub(crate) fn shifts_of(
    alloc: Global,
    grammar: &Grammar,
    row: &[ItemLookahead],
) -> Result<TermSet, AllocError>
    ensures len { IfOk result (λ set. length set ≡ grammar.now.terminals + 1) }
    ensures each { IfOk result (λ set. (t : ℕ) → IsMember set t ↔ IsShifted grammar.now row.now (length row.now) t) }
{
    let mut shifts = TermSet::new(alloc, grammar.lookahead_count()?)?;
    'items: for place in 0..row.len() {
        add_shift(grammar, row[place].item, &mut shifts);
    }
    Ok(shifts)
}

// Adds the terminal after a dot, if there is one.
fn add_shift(grammar: &Grammar, item: Item, shifts: &mut TermSet)
    requires { length shifts.old ≡ grammar.now.terminals + 1 }
    ensures len { length shifts.new ≡ length shifts.old }
    ensures each { AddsShift grammar.now item shifts.old shifts.new }
{
    if let Some(symbol) = symbol_after(grammar, item) {
        if let Symbol::Terminal(terminal) = symbol {
            shifts.insert(terminal);
        }
    }
}

// Adds to a set the terminals below a number that can be shifted, or are lookaheads of complete items.
pub(crate) fn add_valid(
    grammar: &Grammar,
    shifts: &TermSet,
    row: &[ItemLookahead],
    below: usize,
    set: &mut TermSet,
)
    requires below { below ≤ length set.old }
    requires shifts { below ≤ length shifts.now }
    requires row { All (λ (looks : ItemLookahead). below ≤ length looks.set) row.now }
    ensures len { length set.new ≡ length set.old }
    ensures each { (t : ℕ) → IsMember set.new t ↔ (((t < below) × (IsMember shifts.now t ⊎ IsReduced grammar.now row.now (length row.now) t)) ⊎ IsMember set.old t) }
{
    add_members(set, shifts, below);
    add_reduced(grammar, row, below, set);
}

// Adds the lookaheads below a number of complete items.
fn add_reduced(grammar: &Grammar, row: &[ItemLookahead], below: usize, set: &mut TermSet)
    requires below { below ≤ length set.old }
    requires row { All (λ (looks : ItemLookahead). below ≤ length looks.set) row.now }
    ensures len { length set.new ≡ length set.old }
    ensures each { (t : ℕ) → IsMember set.new t ↔ (IsMember set.old t ⊎ ((t < below) × IsReduced grammar.now row.now (length row.now) t)) }
{
    'items: for place in 0..row.len() {
        add_reductions(grammar, &row[place], below, set);
    }
}

// Adds the lookaheads of an item below a number, if it is complete.
fn add_reductions(grammar: &Grammar, looks: &ItemLookahead, below: usize, set: &mut TermSet)
    requires below { below ≤ length set.old }
    requires looks { below ≤ length looks.now.set }
    ensures len { length set.new ≡ length set.old }
    ensures each { AddsReductions grammar.now looks.now below set.old set.new }
{
    match symbol_after(grammar, looks.item) {
        Some(_) => {}
        None => add_members(set, &looks.set, below),
    }
}

// Adds the members of another set below a number.
fn add_members(set: &mut TermSet, other: &TermSet, below: usize)
    requires set { below ≤ length set.old }
    requires other { below ≤ length other.now }
    ensures len { length set.new ≡ length set.old }
    ensures each { (t : ℕ) → IsMember set.new t ↔ (((t < below) × IsMember other.now t) ⊎ IsMember set.old t) }
{
    'numbers: for number in 0..below {
        if other.contains(number) {
            set.insert(number);
        }
    }
}
