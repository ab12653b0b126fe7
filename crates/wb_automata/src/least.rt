//! What is the least text that an expression matches?
//!
//! States of an automaton are numbered by their paths, so that the first one that accepts has the least text.

ghost use Rattle.std.specs.Prelude.{◌≡◌, ◌<◌, ◌∷◌, ℕ, [], false, List, IfOk, IfSome, IsNone, IsTrue, length};
ghost use Rattle.wb_regex.specs.Filled.{Filled};
ghost use Rattle.wb_automata.specs.Automata.{LeadsTo, MatchesIn};
ghost use Rattle.wb_automata.specs.Inner.LeastStates.{HasAll, IsLeastState};
ghost use Rattle.wb_automata.specs.Overlaps.{IsLeastMatch};

use crate::automaton::Automaton;
use std::alloc::{AllocError, Global};
use wb_base::{Bytes, push};
use wb_regex::Regex;
use wb_termset::TermSet;

/// The shortest text that matches, and of these the first in byte order.
pub fn least_text(alloc: Global, regex: &Regex) -> Result<Bytes, AllocError>
    ensures { IfOk result (IsLeastMatch regex.now) }
{
    let automaton = automaton_of_one(alloc, regex)?;
    match first_accepting(&automaton, 0) {
        // Each set of bytes holds one, so some text matches.
        None => unreachable!(),
        Some(state) => automaton.text(alloc, state),
    }
}

// The automaton of one expression, in one set.
fn automaton_of_one(alloc: Global, regex: &Regex) -> Result<Automaton, AllocError>
    ensures terminals { IfOk result (λ automaton. automaton.terminals ≡ regex.now ∷ []) }
    ensures sets { IfOk result (λ automaton. HasAll 1 automaton.sets) }
    ensures filled { IfOk result (λ _. Filled regex.now) }
{
    let one = single(alloc, regex)?;
    build_of(alloc, &one)
}

// The automaton of these expressions, in one set.
fn build_of(alloc: Global, terminals: &[Regex]) -> Result<Automaton, AllocError>
    ensures terminals { IfOk result (λ automaton. automaton.terminals ≡ terminals.now) }
    ensures sets { IfOk result (λ automaton. HasAll (length terminals.now) automaton.sets) }
{
    let sets = all_of(alloc, terminals.len())?;
    Automaton::build(alloc, terminals, &sets)
}

// One set of all numbers below the count.
fn all_of(alloc: Global, count: usize) -> Result<Vec<TermSet>, AllocError>
    ensures { IfOk result (λ sets. HasAll count sets.items) }
{
    let mut set = TermSet::new(alloc, count)?;
    for number in 0..count {
        set.insert(number);
    }
    let mut sets = Vec::new(alloc);
    push(&mut sets, set)?;
    Ok(sets)
}

fn single(alloc: Global, regex: &Regex) -> Result<Vec<Regex>, AllocError>
    ensures items { IfOk result (λ one. one.items ≡ regex.now ∷ []) }
    ensures filled { IfOk result (λ _. Filled regex.now) }
{
    let mut one = Vec::new(alloc);
    push(&mut one, regex.copy()?)?;
    Ok(one)
}

// The first state that accepts the terminal.
fn first_accepting(automaton: &Automaton, terminal: usize) -> Option<usize>
    ensures below { IfSome result (λ state. state < length automaton.now.paths) }
    ensures some { IfSome result (IsLeastState automaton.now terminal) }
    ensures none { IsNone result → (set : ℕ) (text : List ℕ) → ¬ MatchesIn automaton.now set terminal text }
{
    for state in 0..automaton.states() {
        if automaton.accepts(state, terminal) {
            return Some(state);
        }
    }
    None
}
