//! Does an expression match a text? Each expression that isn't one text alone has a start of its own in one automaton, which is followed.
//!
//! A marker is a text alone nearly always, so it costs a step a byte, where pairs of places cost a walk.

ghost use Rattle.std.specs.Prelude.{◌≡◌, ◌<◌, ◌↔◌, ◌++◌, ◌∷◌, [], Bool, IfOk, IsTrue, List, OnOk, length};
ghost use Rattle.wb_automata.specs.Automata.{IsConsidered, IsMatch};
ghost use Rattle.wb_termset.specs.Sets.{IsMember};
ghost use Rattle.wb_compose_language.specs.Inner.TextMachines.{AreSetsUpTo, IsSetOf, IsTextMachine};

use std::alloc::{AllocError, Global};
use wb_automata::Automaton;
use wb_base::{Sequence, push};
use wb_regex::Regex;
use wb_termset::TermSet;

// The automaton of expressions of which these are texts alone.
pub(crate) fn text_machine(
    alloc: Global,
    patterns: &[Regex],
    texts: &[Option<Sequence<u8>>],
) -> Result<Automaton, AllocError>
    ensures { IfOk result (λ machine. IsTextMachine patterns.now texts.now machine) }
{
    let mut sets = no_sets(alloc);
    add_sets(alloc, texts, &mut sets)?;
    let made = Automaton::build(alloc, patterns, &sets);
    drop(sets);
    made
}

// No set.
fn no_sets(alloc: Global) -> Vec<TermSet>
    ensures { result.items ≡ [] }
{
    Vec::new(alloc)
}

// Adds a set for each expression.
fn add_sets(
    alloc: Global,
    texts: &[Option<Sequence<u8>>],
    sets: &mut Vec<TermSet>,
) -> Result<(), AllocError>
    requires { sets.old.items ≡ [] }
    ensures { OnOk result (AreSetsUpTo texts.now (length texts.now) sets.new.items) }
{
    'texts: for place in 0..texts.len() {
        let set = set_of(alloc, place, &texts[place])?;
        push(sets, set)?;
    }
    Ok(())
}

// The set of an expression: it is a member of its own set where it is no text alone.
fn set_of(alloc: Global, number: usize, text: &Option<Sequence<u8>>) -> Result<TermSet, AllocError>
    ensures { IfOk result (IsSetOf text.now number) }
{
    match text {
        Some(_) => TermSet::new(alloc, 0),
        None => single(alloc, number),
    }
}

// The set of one number.
fn single(alloc: Global, number: usize) -> Result<TermSet, AllocError>
    ensures { IfOk result (λ set. IsMember set number) }
{
    let Some(count) = number.checked_add(1) else {
        return Err(AllocError);
    };
    let mut set = TermSet::new(alloc, count)?;
    set.insert(number);
    Ok(set)
}

// Whether the expression of a number, which is in the set of the number, matches a text.
pub(crate) fn is_match(machine: &Automaton, number: usize, text: &[u8]) -> bool
    requires { IsConsidered machine.now.sets number number }
    ensures { IsTrue result ↔ IsMatch machine.now.terminals number text.now }
{
    let mut state = machine.start(number);
    let mut place = 0;
    'bytes: while place < text.len() {
        let Some(next) = machine.step(state, text[place]) else {
            return false;
        };
        state = next;
        place += 1;
    }
    machine.accepts(state, number)
}
