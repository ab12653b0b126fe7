//! Is a host deterministic, or a host with an extension, where its kernels and lookaheads are there already?
//!
//! The tests from the conflict on: it doesn't matter here how kernels and lookaheads were found. The earlier tests are in `host`.

ghost use Rattle.std.specs.Prelude.{◌≡◌, IfErr, IfOk, IfSome, IsSome};
ghost use Rattle.wb_determinism_contexts.specs.Considered.{HasNoClashAt};
ghost use Rattle.wb_determinism_contexts.specs.Sets.{lent};
ghost use Rattle.wb_items.specs.Kernels.{AreKernels};
ghost use Rattle.wb_grammar_theory.specs.Lookaheads.{HasNoConflict};
ghost use Rattle.wb_lookahead.specs.Tables.{AreValidSets};
ghost use Rattle.wb_marking_holes.specs.Holes.{with_holes_of};
ghost use Rattle.wb_determinism_host.specs.HostGrammar.{HasGrammar};
ghost use Rattle.wb_determinism_host.specs.Hosts.{AreHostParts, IsDeterministicBy, IsDeterministicHost};
ghost use Rattle.wb_determinism_host.specs.Inner.Judging.{IsJudged, judged_lexicon};
ghost use Rattle.wb_determinism_host.specs.Inner.Lists.{AreLists, everywhere, lexicon_in, own, own_productions};
ghost use Rattle.wb_determinism_host.specs.Judged.{IsReadyToJudge};
ghost use Rattle.wb_determinism_host.specs.Lexicons.{lexicon_beside};
ghost use Rattle.wb_determinism_host.specs.Refusals.{IsHostRefusal, IsRefusalBy};

use crate::lexicon::{LayoutOwner, expressions_of, layout_of, pairs_of};
use crate::{DeterminismRefusal, HostParts};
use std::alloc::{AllocError, Global};
use wb_base::Grammar;
use wb_determinism_contexts::{Lexicon, PartsRefusal, clash_at, valid_sets_of};
use wb_grammar::Facts;
use wb_items::{Kernels, Lookaheads};
use wb_regex::Regex;
use wb_syntax_resolved::Resolved;
use wb_termset::TermSet;

/// A host's grammar with holes, with its kernels and lookaheads, which are there already, or a conflict or a clash.
///
/// `grammar` is the grammar with holes. Every rule before the conflict holds: that it has no unit cycle and no hidden left recursion is in
/// its facts. The lookaheads may come from anywhere. The only other error is out of memory. No clause bounds the time.
pub fn judge_host(
    alloc: Global,
    resolved: &Resolved,
    grammar: Grammar,
    facts: &Facts,
    kernels: Kernels,
    lookaheads: Lookaheads,
) -> Result<HostParts, DeterminismRefusal>
    requires grammar { IsSome resolved.now.grammar }
    requires ready { IfSome resolved.now.grammar (λ g. IsReadyToJudge resolved.now g grammar facts.now kernels lookaheads) }
    ensures ok { IfOk result (λ parts. IfSome resolved.now.grammar (λ g. IsDeterministicHost resolved.now g × AreHostParts resolved.now g parts)) }
    ensures refused { IfErr result (λ refusal. IfSome resolved.now.grammar (λ g. IsHostRefusal resolved.now g refusal)) }
{
    judge_as(alloc, resolved, None, grammar, facts, kernels, lookaheads)
}

/// Like `judge_host`, for a host with an extension, whose productions are those from `first` on. The extension's layout is considered where
/// a kernel holds an item of one of these.
pub fn judge_beside(
    alloc: Global,
    resolved: &Resolved,
    first: usize,
    grammar: Grammar,
    facts: &Facts,
    kernels: Kernels,
    lookaheads: Lookaheads,
) -> Result<HostParts, DeterminismRefusal>
    requires grammar { IsSome resolved.now.grammar }
    requires ready { IfSome resolved.now.grammar (λ g. IsReadyToJudge resolved.now g grammar facts.now kernels lookaheads) }
    ensures ok { IfOk result (λ parts. IfSome resolved.now.grammar (λ g. IsDeterministicBy resolved.now g (lexicon_beside resolved.now g first) × AreHostParts resolved.now g parts)) }
    ensures refused { IfErr result (λ refusal. IfSome resolved.now.grammar (λ g. IsRefusalBy resolved.now g (lexicon_beside resolved.now g first) refusal)) }
{
    let first = Some(first);
    judge_as(alloc, resolved, first, grammar, facts, kernels, lookaheads)
}

// Like `judge_beside`, or like `judge_host` where no first production of an extension is given.
fn judge_as(
    alloc: Global,
    resolved: &Resolved,
    first: Option<usize>,
    grammar: Grammar,
    facts: &Facts,
    kernels: Kernels,
    lookaheads: Lookaheads,
) -> Result<HostParts, DeterminismRefusal>
    requires grammar { IsSome resolved.now.grammar }
    requires ready { IfSome resolved.now.grammar (λ g. IsReadyToJudge resolved.now g grammar facts.now kernels lookaheads) }
    ensures ok { IfOk result (λ parts. IfSome resolved.now.grammar (λ g. IsDeterministicBy resolved.now g (lexicon_in resolved.now g first) × AreHostParts resolved.now g parts)) }
    ensures refused { IfErr result (λ refusal. IfSome resolved.now.grammar (λ g. IsRefusalBy resolved.now g (lexicon_in resolved.now g first) refusal)) }
{
    match test_as(
        alloc,
        resolved,
        first,
        &grammar,
        facts,
        &kernels,
        &lookaheads,
    ) {
        Ok(()) => Ok(HostParts {
            grammar,
            kernels,
            lookaheads,
        }),
        Err(refusal) => {
            drop(grammar);
            drop(kernels);
            drop(lookaheads);
            Err(refusal)
        }
    }
}

// Whether there is neither a conflict nor a clash.
fn test_as(
    alloc: Global,
    resolved: &Resolved,
    first: Option<usize>,
    holes: &Grammar,
    facts: &Facts,
    kernels: &Kernels,
    lookaheads: &Lookaheads,
) -> Result<(), DeterminismRefusal>
    requires grammar { IsSome resolved.now.grammar }
    requires ready { IfSome resolved.now.grammar (λ g. IsReadyToJudge resolved.now g holes.now facts.now kernels.now lookaheads.now) }
    ensures kernels { IfOk result (λ done. AreKernels kernels.now) }
    ensures ok { IfOk result (λ done. IfSome resolved.now.grammar (λ g. IsDeterministicBy resolved.now g (lexicon_in resolved.now g first))) }
    ensures refused { IfErr result (λ refusal. IfSome resolved.now.grammar (λ g. IsRefusalBy resolved.now g (lexicon_in resolved.now g first) refusal)) }
{
    match &resolved.parts().grammar {
        Some(grammar) => test_judged(
            alloc,
            &Judged {
                resolved,
                first,
                grammar,
                holes,
                facts,
                kernels,
                lookaheads,
            },
        ),
        None => unreachable!(),
    }
}

// A host, or a host with an extension whose productions are those from the first on; its grammar, that with holes, and what is found of it.
#[derive(Clone, Copy)]
struct Judged<'a> {
    resolved: &'a Resolved,
    first: Option<usize>,
    grammar: &'a Grammar,
    holes: &'a Grammar,
    facts: &'a Facts,
    kernels: &'a Kernels,
    lookaheads: &'a Lookaheads,
}

// Whether it has neither a conflict nor a clash.
fn test_judged(alloc: Global, host: &Judged) -> Result<(), DeterminismRefusal>
    requires { IsJudged host.now }
    ensures kernels { IfOk result (λ done. AreKernels host.now.kernels.now) }
    ensures ok { IfOk result (λ done. IsDeterministicBy host.now.resolved.now host.now.grammar.now (judged_lexicon host.now)) }
    ensures refused { IfErr result (IsRefusalBy host.now.resolved.now host.now.grammar.now (judged_lexicon host.now)) }
{
    let _count = host.kernels.count();
    let valid = valid_by(alloc, host)?;
    let answer = test_clashes(alloc, host, &valid);
    drop(valid);
    answer
}

// The terminals that are valid at each kernel, or a conflict.
fn valid_by(alloc: Global, host: &Judged) -> Result<Vec<TermSet>, DeterminismRefusal>
    requires { IsJudged host.now }
    ensures ok { IfOk result (λ valid. AreValidSets host.now.kernels.now valid.items) }
    ensures no_conflict { IfOk result (λ valid. HasNoConflict (with_holes_of host.now.grammar.now host.now.resolved.now.extensible)) }
    ensures refused { IfErr result (IsRefusalBy host.now.resolved.now host.now.grammar.now (judged_lexicon host.now)) }
{
    match valid_sets_of(alloc, host.holes, host.kernels, host.lookaheads) {
        Ok(valid) => Ok(valid),
        Err(PartsRefusal::Conflict(conflict)) => Err(DeterminismRefusal::Conflict {
            prefix: conflict.prefix,
            terminal: conflict.terminal,
            first: conflict.first,
            second: conflict.second,
        }),
        Err(PartsRefusal::NoMemory(error)) => Err(DeterminismRefusal::NoMemory(error)),
    }
}

// The lists that a lexicon lends.
#[derive(Drop)]
struct Lists {
    expressions: Vec<Regex>,
    layout: TermSet,
    own_layout: TermSet,
    pairs: Vec<(usize, usize)>,
}

// What is scanned of a specification, as lists, where this layout is considered everywhere, and that is an extension's own.
fn lists_of(
    alloc: Global,
    resolved: &Resolved,
    everywhere: LayoutOwner,
    own: LayoutOwner,
) -> Result<Lists, AllocError>
    ensures { IfOk result (AreLists resolved.now everywhere own) }
{
    let parts = resolved.parts();
    let terminals = parts.terminals.as_slice();
    let layout = layout_of(alloc, terminals, everywhere)?;
    let own_layout = layout_of(alloc, terminals, own)?;
    let pairs = pairs_of(alloc, parts.preferences.as_slice())?;
    let expressions = expressions_of(alloc, terminals)?;
    Ok(Lists {
        expressions,
        layout,
        own_layout,
        pairs,
    })
}

// Whose layout is considered everywhere.
fn everywhere(first: Option<usize>) -> LayoutOwner
    ensures { result ≡ everywhere first }
{
    match first {
        None => LayoutOwner::Any,
        Some(_) => LayoutOwner::Host,
    }
}

// Whose layout is an extension's own.
fn own(first: Option<usize>) -> LayoutOwner
    ensures { result ≡ own first }
{
    match first {
        None => LayoutOwner::Nobody,
        Some(_) => LayoutOwner::Extension,
    }
}

// The extension's productions, from the first number to before the second.
fn own_productions(grammar: &Grammar, first: Option<usize>) -> (usize, usize)
    ensures { result ≡ own_productions grammar.now first }
{
    match first {
        None => (0, 0),
        Some(number) => (number, grammar.productions()),
    }
}

// Whether no two terminals clash.
fn test_clashes(alloc: Global, host: &Judged, valid: &[TermSet]) -> Result<(), DeterminismRefusal>
    requires host { IsJudged host.now }
    requires valid { AreValidSets host.now.kernels.now valid.now }
    requires no_conflict { HasNoConflict (with_holes_of host.now.grammar.now host.now.resolved.now.extensible) }
    ensures ok { IfOk result (λ done. HasNoClashAt (with_holes_of host.now.grammar.now host.now.resolved.now.extensible) (judged_lexicon host.now)) }
    ensures refused { IfErr result (IsRefusalBy host.now.resolved.now host.now.grammar.now (judged_lexicon host.now)) }
{
    let lists = lists_of(
        alloc,
        host.resolved,
        everywhere(host.first),
        own(host.first),
    )?;
    let answer = test_lexicon(
        alloc,
        host,
        valid,
        &Lexicon {
            expressions: &lists.expressions,
            scanned: host.grammar.terminals(),
            layout: &lists.layout,
            own_layout: &lists.own_layout,
            own_productions: own_productions(host.grammar, host.first),
            preferences: &lists.pairs,
        },
    );
    drop(lists);
    answer
}

// Like `test_clashes`, where this is scanned.
fn test_lexicon(
    alloc: Global,
    host: &Judged,
    valid: &[TermSet],
    lexicon: &Lexicon,
) -> Result<(), DeterminismRefusal>
    requires host { IsJudged host.now }
    requires valid { AreValidSets host.now.kernels.now valid.now }
    requires no_conflict { HasNoConflict (with_holes_of host.now.grammar.now host.now.resolved.now.extensible) }
    requires lexicon { lent lexicon.now ≡ judged_lexicon host.now }
    ensures ok { IfOk result (λ done. HasNoClashAt (with_holes_of host.now.grammar.now host.now.resolved.now.extensible) (judged_lexicon host.now)) }
    ensures refused { IfErr result (IsRefusalBy host.now.resolved.now host.now.grammar.now (judged_lexicon host.now)) }
{
    match clash_at(alloc, host.kernels, valid, lexicon)? {
        Some(clash) => Err(DeterminismRefusal::Clash {
            prefix: clash.prefix,
            left: clash.left,
            right: clash.right,
            text: clash.text,
        }),
        None => Ok(()),
    }
}
