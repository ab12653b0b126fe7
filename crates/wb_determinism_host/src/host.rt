//! Is a host deterministic for every extension that may come?
//!
//! Each test in the order in which refusals are shown. The grammar is reduced without holes, since a hole makes nothing productive; all
//! else is asked of the grammar with holes. The tests from the conflict on are in `judge`.

ghost use Rattle.std.specs.Prelude.{◌≡◌, IfErr, IfOk, IfSome, IsSome};
ghost use Rattle.wb_grammar.specs.Facts.{AreFacts};
ghost use Rattle.wb_grammar_theory.specs.Shape.{IsReduced};
ghost use Rattle.wb_items.specs.LookaheadSets.{AreLookaheads};
ghost use Rattle.wb_marking_holes.specs.Holes.{with_holes_of};
ghost use Rattle.wb_determinism_host.specs.Hosts.{AreAcyclic, AreHostParts, IsDeterministicHost, IsSound};
ghost use Rattle.wb_determinism_host.specs.Judged.{AreFactsOfHost, IsReadyToJudge};
ghost use Rattle.wb_determinism_host.specs.Lexicons.{preference_pairs};
ghost use Rattle.wb_determinism_host.specs.Refusals.{IsBeforeConflict, IsHostRefusal};
ghost use Rattle.wb_determinism_host.specs.HostGrammar.{HasGrammar};

use crate::judge::judge_host;
use crate::lexicon::pairs_of;
use crate::{DeterminismRefusal, HostParts};
use std::alloc::{AllocError, Global};
use wb_base::{Grammar, Sequence};
use wb_digraph::digraph_lookaheads;
use wb_grammar::{Facts, GrammarRefusal, analyse};
use wb_items::{Kernels, Lookaheads};
use wb_lexical::preference_cycle;
use wb_marking_holes::with_holes;
use wb_syntax_resolved::Resolved;

/// A host's grammar with holes, and what is found of it before it is judged.
#[derive(Drop)]
pub struct AnalysedHost {
    /// The grammar with holes.
    pub grammar: Grammar,
    /// What an analysis knows of it.
    pub facts: Facts,
    /// The kernels of its prefixes.
    pub kernels: Kernels,
    /// The lookaheads of their items.
    pub lookaheads: Lookaheads,
}

/// What is made of a host's grammar with holes, or why the host isn't deterministic.
///
/// The reasons that speak of extensions don't come. No clause bounds the time.
pub fn host_determinism(alloc: Global, resolved: &Resolved) -> Result<HostParts, DeterminismRefusal>
    requires { IsSome resolved.now.grammar }
    ensures ok { IfOk result (λ parts. IfSome resolved.now.grammar (λ g. IsDeterministicHost resolved.now g × AreHostParts resolved.now g parts)) }
    ensures refused { IfErr result (λ refusal. IfSome resolved.now.grammar (λ g. IsHostRefusal resolved.now g refusal)) }
{
    let AnalysedHost {
        grammar,
        facts,
        kernels,
        lookaheads,
    } = analysed_host(alloc, resolved)?;
    judge_host(alloc, resolved, grammar, &facts, kernels, lookaheads)
}

/// What is found of a host's grammar with holes before it is judged, or the first rule before the conflict that fails.
///
/// The lookaheads are found by relations.
pub fn analysed_host(alloc: Global, resolved: &Resolved) -> Result<AnalysedHost, DeterminismRefusal>
    requires { IsSome resolved.now.grammar }
    ensures ok { IfOk result (λ host. IfSome resolved.now.grammar (λ g. IsReadyToJudge resolved.now g host.grammar host.facts host.kernels host.lookaheads)) }
    ensures refused { IfErr result (λ refusal. IfSome resolved.now.grammar (λ g. IsHostRefusal resolved.now g refusal)) }
    ensures early { IfErr result IsBeforeConflict }
{
    match &resolved.parts().grammar {
        Some(grammar) => with_grammar(alloc, &Host { resolved, grammar }),
        None => unreachable!(),
    }
}

/// A host's grammar with holes, and what an analysis knows of it.
#[derive(Drop)]
pub struct HostFacts {
    /// The grammar with holes.
    pub grammar: Grammar,
    /// What an analysis knows of it.
    pub facts: Facts,
}

/// A host's grammar with holes and its facts, or the first rule before the conflict that fails.
///
/// Neither kernels nor lookaheads are found. No clause bounds the time.
pub fn host_facts(alloc: Global, resolved: &Resolved) -> Result<HostFacts, DeterminismRefusal>
    requires { IsSome resolved.now.grammar }
    ensures ok { IfOk result (λ made. IfSome resolved.now.grammar (λ g. AreFactsOfHost resolved.now g made.grammar made.facts)) }
    ensures refused { IfErr result (λ refusal. IfSome resolved.now.grammar (λ g. IsHostRefusal resolved.now g refusal)) }
    ensures early { IfErr result IsBeforeConflict }
{
    match &resolved.parts().grammar {
        Some(grammar) => facts_of(alloc, &Host { resolved, grammar }),
        None => unreachable!(),
    }
}

// A host and its grammar.
#[derive(Clone, Copy)]
struct Host<'a> {
    resolved: &'a Resolved,
    grammar: &'a Grammar,
}

// Like `analysed_host`, where the host has this grammar.
fn with_grammar(alloc: Global, host: &Host) -> Result<AnalysedHost, DeterminismRefusal>
    requires { HasGrammar host.now.resolved.now host.now.grammar.now }
    ensures ok { IfOk result (λ made. IsReadyToJudge host.now.resolved.now host.now.grammar.now made.grammar made.facts made.kernels made.lookaheads) }
    ensures refused { IfErr result (IsHostRefusal host.now.resolved.now host.now.grammar.now) }
    ensures early { IfErr result IsBeforeConflict }
{
    let HostFacts { grammar, facts } = facts_of(alloc, host)?;
    match kernels_and_lookaheads(alloc, &grammar, &facts) {
        Ok(made) => Ok(AnalysedHost {
            grammar,
            facts,
            kernels: made.kernels,
            lookaheads: made.lookaheads,
        }),
        Err(error) => {
            drop(grammar);
            drop(facts);
            Err(DeterminismRefusal::NoMemory(error))
        }
    }
}

// Like `host_facts`, where the host has this grammar.
fn facts_of(alloc: Global, host: &Host) -> Result<HostFacts, DeterminismRefusal>
    requires { HasGrammar host.now.resolved.now host.now.grammar.now }
    ensures ok { IfOk result (λ made. AreFactsOfHost host.now.resolved.now host.now.grammar.now made.grammar made.facts) }
    ensures refused { IfErr result (IsHostRefusal host.now.resolved.now host.now.grammar.now) }
    ensures early { IfErr result IsBeforeConflict }
{
    test_preferences(alloc, host)?;
    test_reduced(alloc, host)?;
    let holes = with_holes(alloc, host.resolved)?;
    match facts_with_holes(alloc, host, &holes) {
        Ok(facts) => Ok(HostFacts {
            grammar: holes,
            facts,
        }),
        Err(refusal) => {
            drop(holes);
            Err(refusal)
        }
    }
}

// Whether preferences are acyclic.
fn test_preferences(alloc: Global, host: &Host) -> Result<(), DeterminismRefusal>
    ensures ok { IfOk result (λ done. AreAcyclic host.now.resolved.now) }
    ensures refused { IfErr result (IsHostRefusal host.now.resolved.now host.now.grammar.now) }
    ensures early { IfErr result IsBeforeConflict }
{
    let pairs = pairs_of(alloc, host.resolved.parts().preferences.as_slice())?;
    let tested = test_pairs(alloc, host, &pairs);
    drop(pairs);
    tested
}

// Like `test_preferences`, where the preferences are these pairs.
fn test_pairs(
    alloc: Global,
    host: &Host,
    pairs: &[(usize, usize)],
) -> Result<(), DeterminismRefusal>
    requires { pairs.now ≡ preference_pairs host.now.resolved.now }
    ensures ok { IfOk result (λ done. AreAcyclic host.now.resolved.now) }
    ensures refused { IfErr result (IsHostRefusal host.now.resolved.now host.now.grammar.now) }
    ensures early { IfErr result IsBeforeConflict }
{
    let count = host.resolved.parts().terminals.len();
    match preference_cycle(alloc, count, pairs)? {
        Some(cycle) => Err(DeterminismRefusal::PreferenceCycle(Sequence::from_vec(cycle))),
        None => Ok(()),
    }
}

// Whether the grammar is reduced.
fn test_reduced(alloc: Global, host: &Host) -> Result<(), DeterminismRefusal>
    requires { AreAcyclic host.now.resolved.now }
    ensures ok { IfOk result (λ done. IsReduced host.now.grammar.now) }
    ensures refused { IfErr result (IsHostRefusal host.now.resolved.now host.now.grammar.now) }
    ensures early { IfErr result IsBeforeConflict }
{
    match analyse(alloc, host.grammar) {
        Ok(facts) => {
            drop(facts);
            Ok(())
        }
        Err(GrammarRefusal::NotReduced(reason)) => Err(DeterminismRefusal::NotReduced(reason)),
        Err(GrammarRefusal::UnitCycle(cycle)) => {
            drop(cycle);
            Ok(())
        }
        Err(GrammarRefusal::HiddenLeftRecursion(cycle)) => {
            drop(cycle);
            Ok(())
        }
        Err(GrammarRefusal::NoMemory(error)) => Err(DeterminismRefusal::NoMemory(error)),
    }
}

// The facts of the grammar with holes.
fn facts_with_holes(
    alloc: Global,
    host: &Host,
    holes: &Grammar,
) -> Result<Facts, DeterminismRefusal>
    requires sound { IsSound host.now.resolved.now host.now.grammar.now }
    requires holes { holes.now ≡ with_holes_of host.now.grammar.now host.now.resolved.now.extensible }
    ensures ok { IfOk result (AreFacts holes.now) }
    ensures refused { IfErr result (IsHostRefusal host.now.resolved.now host.now.grammar.now) }
    ensures early { IfErr result IsBeforeConflict }
{
    match analyse(alloc, holes) {
        Ok(facts) => Ok(facts),
        Err(GrammarRefusal::NotReduced(reason)) => Err(DeterminismRefusal::NotReduced(reason)),
        Err(GrammarRefusal::UnitCycle(cycle)) => Err(DeterminismRefusal::UnitCycle(cycle)),
        Err(GrammarRefusal::HiddenLeftRecursion(cycle)) => {
            Err(DeterminismRefusal::HiddenLeftRecursion(cycle))
        }
        Err(GrammarRefusal::NoMemory(error)) => Err(DeterminismRefusal::NoMemory(error)),
    }
}

// The kernels of a grammar, and their lookaheads.
#[derive(Drop)]
struct Looked {
    kernels: Kernels,
    lookaheads: Lookaheads,
}

// The kernels and lookaheads of a grammar with these facts.
fn kernels_and_lookaheads(
    alloc: Global,
    grammar: &Grammar,
    facts: &Facts,
) -> Result<Looked, AllocError>
    requires { AreFacts grammar.now facts.now }
    ensures kernels { IfOk result (λ made. made.kernels.grammar ≡ grammar.now) }
    ensures lookaheads { IfOk result (λ made. AreLookaheads made.kernels made.lookaheads) }
{
    let kernels = Kernels::build(alloc, grammar, facts)?;
    match digraph_lookaheads(alloc, grammar, facts, &kernels) {
        Ok(lookaheads) => Ok(Looked {
            kernels,
            lookaheads,
        }),
        Err(error) => {
            drop(kernels);
            Err(error)
        }
    }
}
