//! Is every nonterminal reachable from the start, and does it derive some text?
//!
//! The reachable ones are those that walks along `edges.rt` lead to; those that derive a text are a set of `least_fixpoint.rt`.

ghost use Rattle.std.specs.Prelude.{◌≡◌, ◌<◌, ℕ, Bool, true, false, length, All, IfOk, IfErr, OnOk, MatchOption, slice_index_or};
ghost use Rattle.wb_termset.specs.Sets.{IsMember};
ghost use Rattle.wb_grammar_theory.specs.Shape.{IsReachable, IsProductive, IsReduced};
ghost use Rattle.wb_grammar.specs.Facts.{IsNullableSet};
ghost use Rattle.wb_grammar.specs.Refusals.{IsTrueRefusal};

use crate::edges::edges;
use crate::least_fixpoint::least_set;
use crate::occurrence::Occurrence;
use crate::{GrammarRefusal, Reason};
use std::alloc::{AllocError, Global};
use wb_base::Grammar;
use wb_graph::reachable_from;
use wb_termset::TermSet;

// Refuses a grammar that isn't reduced.
pub(crate) fn test_reduced(
    alloc: Global,
    grammar: &Grammar,
    nullable: &TermSet,
) -> Result<(), GrammarRefusal>
    requires { IsNullableSet grammar.now nullable.now }
    ensures ok { OnOk result (IsReduced grammar.now) }
    ensures refused { IfErr result (IsTrueRefusal grammar.now) }
{
    if let Some(nonterminal) = unreachable_in(alloc, grammar, nullable)? {
        return Err(GrammarRefusal::NotReduced(Reason::Unreachable(nonterminal)));
    }
    if let Some(nonterminal) = unproductive_in(alloc, grammar)? {
        return Err(GrammarRefusal::NotReduced(Reason::Unproductive(nonterminal)));
    }
    Ok(())
}

// A nonterminal that isn't reachable, if there is one.
fn unreachable_in(
    alloc: Global,
    grammar: &Grammar,
    nullable: &TermSet,
) -> Result<Option<usize>, AllocError>
    requires { IsNullableSet grammar.now nullable.now }
    ensures { IfOk result (λ found. MatchOption found ((a : ℕ) → a < grammar.now.nonterminals → IsReachable grammar.now a) (λ a. (a < grammar.now.nonterminals) × (¬ IsReachable grammar.now a))) }
{
    let edges = edges(alloc, grammar, nullable, Occurrence::Any)?;
    let start = [grammar.start()];
    let reached = reachable_from(alloc, grammar.nonterminals(), &edges, &start)?;
    Ok(first_unset(&reached))
}

// A nonterminal that derives no text, if there is one.
fn unproductive_in(alloc: Global, grammar: &Grammar) -> Result<Option<usize>, AllocError>
    ensures { IfOk result (λ found. MatchOption found ((a : ℕ) → a < grammar.now.nonterminals → IsProductive grammar.now a) (λ a. (a < grammar.now.nonterminals) × (¬ IsProductive grammar.now a))) }
{
    let productive = least_set(alloc, grammar, true)?;
    Ok(first_missing(&productive))
}

// The first flag that isn't set.
fn first_unset(flags: &[bool]) -> Option<usize>
    ensures { MatchOption result ((v : ℕ) → v < length flags.now → slice_index_or flags.now v false ≡ true) (λ v. (v < length flags.now) × (slice_index_or flags.now v false ≡ false)) }
{
    'flags: for (vertex, flag) in flags.iter().enumerate() {
        if !*flag {
            return Some(vertex);
        }
    }
    None
}

// The first number that isn't in the set.
fn first_missing(set: &TermSet) -> Option<usize>
    ensures { MatchOption result ((a : ℕ) → a < length set.now → IsMember set.now a) (λ a. (a < length set.now) × (¬ IsMember set.now a)) }
{
    'numbers: for number in 0..set.count() {
        if !set.contains(number) {
            return Some(number);
        }
    }
    None
}
