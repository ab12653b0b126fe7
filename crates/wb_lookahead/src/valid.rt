//! Which terminals are valid at each kernel, where no kernel has a conflict?
//!
//! Terminals that are shifted and lookaheads of complete items are compared as whole sets. A row of actions (`rows.rt`) is made only
//! where two of them meet, to show the conflict.

ghost use Rattle.std.specs.Prelude.{◌≡◌, ◌+◌, ◌<◌, IfErr, IfOk, IsTrue, MatchOption, OnOk, false, length};
ghost use Rattle.wb_termset.specs.Sets.{Intersects, IsUnion};
ghost use Rattle.wb_grammar_theory.specs.Items.{HasItem};
ghost use Rattle.wb_grammar_theory.specs.Lookaheads.{HasNoConflict};
ghost use Rattle.wb_items.specs.Kernels.{AreKernels, count_of, prefix_of};
ghost use Rattle.wb_items.specs.LookaheadSets.{AreLookaheads};
ghost use Rattle.wb_lookahead.specs.Tables.{AreValidSets, IsTableRefusal};
ghost use Rattle.wb_lookahead.specs.Inner.Valid.{AddsActions, AreClearUpTo, AreEmpty, AreSetsOf, HasConflictAt, IsClearSet, Meets};

use crate::action::TableRefusal;
use crate::rows::row_at;
use std::alloc::{AllocError, Global};
use wb_base::{Grammar, Symbol, push};
use wb_items::{Item, Kernels, Lookaheads, symbol_after};
use wb_termset::TermSet;

/// For each kernel the terminals that are valid there, or a conflict. The only other error is out of memory.
///
/// Which conflict is shown, where there are several, is left open. No clause bounds the time.
pub fn valid_sets(
    alloc: Global,
    grammar: &Grammar,
    kernels: &Kernels,
    lookaheads: &Lookaheads,
) -> Result<Vec<TermSet>, TableRefusal>
    requires kernels { kernels.now.grammar ≡ grammar.now }
    requires lookaheads { AreLookaheads kernels.now lookaheads.now }
    ensures ok { IfOk result (λ sets. AreValidSets kernels.now sets.items) }
    ensures no_conflict { IfOk result (λ sets. HasNoConflict kernels.now.grammar) }
    ensures refused { IfErr result (IsTableRefusal kernels.now) }
{
    let mut sets = Vec::new(alloc);
    'kernels: for state in 0..kernels.count() {
        add_kernel(alloc, grammar, kernels, lookaheads, state, &mut sets)?;
    }
    Ok(sets)
}

// Adds the set of one kernel more.
fn add_kernel(
    alloc: Global,
    grammar: &Grammar,
    kernels: &Kernels,
    lookaheads: &Lookaheads,
    state: usize,
    sets: &mut Vec<TermSet>,
) -> Result<(), TableRefusal>
    requires kernels { AreKernels kernels.now }
    requires grammar { kernels.now.grammar ≡ grammar.now }
    requires lookaheads { AreLookaheads kernels.now lookaheads.now }
    requires state { state < count_of kernels.now }
    requires before { AreClearUpTo kernels.now sets.old.items state }
    ensures ok { OnOk result (AreClearUpTo kernels.now sets.new.items (state + 1)) }
    ensures refused { IfErr result (IsTableRefusal kernels.now) }
{
    match clear_set(alloc, grammar, kernels, lookaheads, state)? {
        Some(set) => Ok(push(sets, set)?),
        None => Err(conflict_at(alloc, grammar, kernels, lookaheads, state)),
    }
}

// The conflict of a kernel that has one.
fn conflict_at(
    alloc: Global,
    grammar: &Grammar,
    kernels: &Kernels,
    lookaheads: &Lookaheads,
    state: usize,
) -> TableRefusal
    requires kernels { AreKernels kernels.now }
    requires grammar { kernels.now.grammar ≡ grammar.now }
    requires lookaheads { AreLookaheads kernels.now lookaheads.now }
    requires state { state < count_of kernels.now }
    requires conflict { HasConflictAt kernels.now state }
    ensures { IsTableRefusal kernels.now result }
{
    match row_at(alloc, grammar, kernels, lookaheads, state) {
        Ok(_) => unreachable!(),
        Err(refusal) => refusal,
    }
}

// The valid terminals of a kernel, or none where it has a conflict.
fn clear_set(
    alloc: Global,
    grammar: &Grammar,
    kernels: &Kernels,
    lookaheads: &Lookaheads,
    state: usize,
) -> Result<Option<TermSet>, AllocError>
    requires kernels { AreKernels kernels.now }
    requires grammar { kernels.now.grammar ≡ grammar.now }
    requires lookaheads { AreLookaheads kernels.now lookaheads.now }
    requires state { state < count_of kernels.now }
    ensures { IfOk result (λ found. MatchOption found (HasConflictAt kernels.now state) (IsClearSet kernels.now state)) }
{
    let mut sets = empty_sets(alloc, grammar.lookahead_count()?)?;
    if are_apart(grammar, kernels, lookaheads, state, &mut sets) {
        Ok(Some(union_of(sets)))
    } else {
        drop(sets);
        Ok(None)
    }
}

// The terminals that items of a kernel shift, and those before which one reduces.
#[derive(Drop)]
struct Sets {
    shifted: TermSet,
    reduced: TermSet,
}

// Two empty sets of so many terminals.
fn empty_sets(alloc: Global, count: usize) -> Result<Sets, AllocError>
    ensures { IfOk result (AreEmpty count) }
{
    let shifted = TermSet::new(alloc, count)?;
    let reduced = TermSet::new(alloc, count)?;
    Ok(Sets { shifted, reduced })
}

// The members of both.
fn union_of(sets: Sets) -> TermSet
    requires { length sets.shifted ≡ length sets.reduced }
    ensures { IsUnion sets.shifted sets.reduced result }
{
    let Sets {
        mut shifted,
        reduced,
    } = sets;
    shifted.union_with(&reduced);
    drop(reduced);
    shifted
}

// Fills both sets by the items of a kernel, unless it has a conflict. Answers whether it has none.
fn are_apart(
    grammar: &Grammar,
    kernels: &Kernels,
    lookaheads: &Lookaheads,
    state: usize,
    sets: &mut Sets,
) -> bool
    requires kernels { AreKernels kernels.now }
    requires grammar { kernels.now.grammar ≡ grammar.now }
    requires lookaheads { AreLookaheads kernels.now lookaheads.now }
    requires state { state < count_of kernels.now }
    requires sets { AreEmpty (kernels.now.grammar.terminals + 1) sets.old }
    ensures apart { IsTrue result → AreSetsOf kernels.now state sets.new }
    ensures conflict { result ≡ false → HasConflictAt kernels.now state }
{
    'items: for &item in kernels.closure(state) {
        if !add_item(grammar, kernels, lookaheads, state, item, sets) {
            return false;
        }
    }
    !sets.shifted.intersects(&sets.reduced)
}

// Adds the terminal that an item shifts, or the lookaheads before which it reduces, unless an item before reduces before one of them.
// Answers whether none does.
fn add_item(
    grammar: &Grammar,
    kernels: &Kernels,
    lookaheads: &Lookaheads,
    state: usize,
    item: Item,
    sets: &mut Sets,
) -> bool
    requires kernels { AreKernels kernels.now }
    requires grammar { kernels.now.grammar ≡ grammar.now }
    requires lookaheads { AreLookaheads kernels.now lookaheads.now }
    requires state { state < count_of kernels.now }
    requires item { HasItem kernels.now.grammar (prefix_of kernels.now state) item }
    requires shifted { length sets.old.shifted ≡ kernels.now.grammar.terminals + 1 }
    requires reduced { length sets.old.reduced ≡ kernels.now.grammar.terminals + 1 }
    ensures apart { IsTrue result → AddsActions kernels.now state item sets.old sets.new }
    ensures meets { result ≡ false → Meets kernels.now state item sets.old }
{
    let Some(symbol) = symbol_after(grammar, item) else {
        return add_lookaheads(lookaheads.of(state, item), &mut sets.reduced);
    };
    if let Symbol::Terminal(terminal) = symbol {
        sets.shifted.insert(terminal);
    }
    true
}

// Adds the members of another set, unless one is there already. Answers whether none was there.
fn add_lookaheads(other: &TermSet, set: &mut TermSet) -> bool
    requires { length set.old ≡ length other.now }
    ensures apart { IsTrue result → IsUnion set.old other.now set.new × (¬ Intersects set.old other.now) }
    ensures meets { result ≡ false → Intersects set.old other.now }
{
    if set.intersects(other) {
        return false;
    }
    set.union_with(other);
    true
}
