//! What does a reduction do to the states? Those of its children make way for the one after its left side.

ghost use Rattle.std.specs.Prelude.{◌≡◌, ◌<◌, ◌≤◌, ℕ, All, IfOk, OnOk, Some, length};
ghost use Rattle.wb_base.specs.Grammar.{GrammarView};
ghost use Rattle.wb_lookahead.specs.Contents.{size_of, goto_of};
ghost use Rattle.wb_scan_theory.specs.Parts.{AreTablesOf};
ghost use Rattle.wb_parser_states.specs.Stacks.{IsMoved, last_or};

use crate::stack::top;
use std::alloc::AllocError;
use wb_lookahead::Tables;

/// Takes the last states, so many of them, or all where there are fewer, and puts the one after a nonterminal there. Answers that one.
///
/// Where the nonterminal leads nowhere, which no reduction of the tables does, the state 0 is put there. The only error is out of memory,
/// and then the states may be fewer.
#[inline]
pub fn move_states(
    tables: &Tables,
    states: &mut Vec<usize>,
    width: usize,
    left: usize,
) -> Result<usize, AllocError>
    requires left { left < tables.now.nonterminals }
    requires states { All (λ s. s < size_of tables.now) states.old.items }
    requires tables { (g : GrammarView) × AreTablesOf g tables.now }
    ensures moved { OnOk result (IsMoved tables.now states.old.items width left states.new.items) }
    ensures top { IfOk result (λ state. state ≡ last_or 0 states.new.items) }
    ensures below { OnOk result (All (λ s. s < size_of tables.now) states.new.items) }
{
    if width == 1 && !states.is_empty() {
        return Ok(replace_top(tables, states, left));
    }
    let kept = states.len().saturating_sub(width);
    states.truncate(kept);
    let below = top(states);
    let target = target_of(tables, below, left);
    states.push(target)?;
    Ok(target)
}

// Like `move_states`, for one state. That below it is known before the action is, so that a chain of such reductions doesn't wait for it.
fn replace_top(tables: &Tables, states: &mut Vec<usize>, left: usize) -> usize
    requires left { left < tables.now.nonterminals }
    requires some { 1 ≤ length states.old.items }
    requires states { All (λ s. s < size_of tables.now) states.old.items }
    requires tables { (g : GrammarView) × AreTablesOf g tables.now }
    ensures moved { IsMoved tables.now states.old.items 1 left states.new.items }
    ensures top { result ≡ last_or 0 states.new.items }
    ensures below { All (λ s. s < size_of tables.now) states.new.items }
{
    let place = states.len() - 1;
    let below = top(&states[..place]);
    let target = target_of(tables, below, left);
    states[place] = target;
    target
}

// The state after a nonterminal, and 0 where it leads nowhere.
pub(crate) fn target_of(tables: &Tables, state: usize, nonterminal: usize) -> usize
    requires state { state < size_of tables.now }
    requires nonterminal { nonterminal < tables.now.nonterminals }
    ensures next { (next : ℕ) → goto_of tables.now state nonterminal ≡ Some next → result ≡ next }
    ensures below { (g : GrammarView) → AreTablesOf g tables.now → result < size_of tables.now }
{
    match tables.goto(state, nonterminal) {
        Some(next) => next,
        None => 0,
    }
}
