//! Is an extension deterministic beside its host?
//!
//! Each test in the order in which refusals are shown: what is asked of hosts is asked of the host with the extension; then what the
//! extension adds is compared with what the host allows. Marks are tested elsewhere, before all this or after.

ghost use Rattle.std.specs.Prelude.{◌≡◌, ◌≤◌, ◌+◌, ◌-◌, IfErr, IfOk, IfSome, IsSome, length};
ghost use Rattle.wb_determinism_host.specs.HostGrammar.{HasGrammar};
ghost use Rattle.wb_determinism_host.specs.Hosts.{AreHostParts, IsDeterministicBy};
ghost use Rattle.wb_determinism_host.specs.Judged.{IsReadyToJudge};
ghost use Rattle.wb_determinism.specs.Extensions.{AreExtensionParts, IsDeterministicExtension, IsHostBeside, both_lexicon, both_numbers, numbers_of};
ghost use Rattle.wb_determinism.specs.Refusals.{IsExtensionRefusal};
ghost use Rattle.wb_determinism.specs.Regions.{AreRegions};
ghost use Rattle.wb_items.specs.Kernels.{count_of};
ghost use Rattle.wb_determinism.specs.Images.{stands_for, AreImages};
ghost use Rattle.wb_determinism.specs.Inner.Extended.{IsContextOf, IsExtended};

use crate::context::Context;
use crate::host_index::host_index;
use crate::images::images_of;
use crate::numbers::Numbers;
use crate::regions::regions_of;
use crate::rules::{test_envelopes, test_lookaheads};
use crate::{ExtensionParts, Region};
use std::alloc::{AllocError, Global};
use wb_base::{Grammar, Sequence};
use wb_determinism_host::{
    AnalysedHost, DeterminismRefusal, HostParts, analysed_host, judge_beside,
};
use wb_grammar::Facts;
use wb_items::{Kernels, Lookaheads};
use wb_syntax_resolved::{Resolved, ResolvedParts};

/// What is made of the grammar of a host with an extension, with holes, or why the extension isn't deterministic beside the host.
///
/// The specification is that of the host with the one extension, and the parts are those of the host alone. The extension's layout is
/// considered where a kernel holds an item of one of its productions. The rules on marks aren't tested here, and their reasons don't come.
/// No clause bounds the time.
pub fn extension_determinism(
    alloc: Global,
    host: &HostParts,
    resolved: &Resolved,
) -> Result<ExtensionParts, DeterminismRefusal>
    requires grammar { IsSome resolved.now.grammar }
    requires host { IfSome resolved.now.grammar (λ g. IsHostBeside resolved.now g host.now) }
    ensures ok { IfOk result (λ parts. IfSome resolved.now.grammar (λ g. IsDeterministicExtension resolved.now g host.now.grammar × AreExtensionParts resolved.now g host.now parts)) }
    ensures refused { IfErr result (λ refusal. IfSome resolved.now.grammar (λ g. IsExtensionRefusal resolved.now g host.now.grammar refusal)) }
{
    let AnalysedHost {
        grammar,
        facts,
        kernels,
        lookaheads,
    } = analysed_host(alloc, resolved)?;
    judge_extension(alloc, host, resolved, grammar, &facts, kernels, lookaheads)
}

/// Like `extension_determinism`, where the kernels and lookaheads are there already: the first rule from the conflict on that fails.
///
/// `grammar` is the grammar of the host with the extension, with holes. Every rule before the conflict holds: that it has no unit cycle and
/// no hidden left recursion is in its facts. The lookaheads may come from anywhere. The only other error is out of memory. No clause bounds
/// the time.
pub fn judge_extension(
    alloc: Global,
    host: &HostParts,
    resolved: &Resolved,
    grammar: Grammar,
    facts: &Facts,
    kernels: Kernels,
    lookaheads: Lookaheads,
) -> Result<ExtensionParts, DeterminismRefusal>
    requires grammar { IsSome resolved.now.grammar }
    requires host { IfSome resolved.now.grammar (λ g. IsHostBeside resolved.now g host.now) }
    requires ready { IfSome resolved.now.grammar (λ g. IsReadyToJudge resolved.now g grammar facts.now kernels lookaheads) }
    ensures ok { IfOk result (λ parts. IfSome resolved.now.grammar (λ g. IsDeterministicExtension resolved.now g host.now.grammar × AreExtensionParts resolved.now g host.now parts)) }
    ensures refused { IfErr result (λ refusal. IfSome resolved.now.grammar (λ g. IsExtensionRefusal resolved.now g host.now.grammar refusal)) }
{
    let first = first_production(host, resolved);
    let both = judge_beside(alloc, resolved, first, grammar, facts, kernels, lookaheads)?;
    match regions_beside(alloc, host, resolved, &both) {
        Ok(regions) => Ok(ExtensionParts {
            grammar: both.grammar,
            kernels: both.kernels,
            lookaheads: both.lookaheads,
            regions,
        }),
        Err(refusal) => {
            both.release();
            Err(refusal)
        }
    }
}

// The number of the extension's first production, which comes after the host's.
fn first_production(host: &HostParts, resolved: &Resolved) -> usize
    requires grammar { IsSome resolved.now.grammar }
    requires host { IfSome resolved.now.grammar (λ g. IsHostBeside resolved.now g host.now) }
    ensures { result ≡ length host.now.grammar.productions - length resolved.now.extensible }
{
    let holes = resolved.parts().extensible.len();
    host.grammar.productions() - holes
}

// The region of each kernel, where the rules hold that compare the host with the host with the extension, of which these are the parts.
fn regions_beside(
    alloc: Global,
    host: &HostParts,
    resolved: &Resolved,
    both: &HostParts,
) -> Result<Sequence<Region>, DeterminismRefusal>
    requires grammar { IsSome resolved.now.grammar }
    requires host { IfSome resolved.now.grammar (λ g. IsHostBeside resolved.now g host.now) }
    requires both { IfSome resolved.now.grammar (λ g. IsDeterministicBy resolved.now g (both_lexicon resolved.now g host.now.grammar) × AreHostParts resolved.now g both.now) }
    ensures ok { IfOk result (λ regions. IfSome resolved.now.grammar (λ g. IsDeterministicExtension resolved.now g host.now.grammar)) }
    ensures regions { IfOk result (λ regions. IfSome resolved.now.grammar (λ g. AreRegions host.now.kernels both.now.kernels (both_numbers resolved.now g host.now.grammar) (count_of both.now.kernels) regions)) }
    ensures refused { IfErr result (λ refusal. IfSome resolved.now.grammar (λ g. IsExtensionRefusal resolved.now g host.now.grammar refusal)) }
{
    match &resolved.parts().grammar {
        Some(grammar) => regions_with(alloc, host, resolved, grammar, both),
        None => unreachable!(),
    }
}

// Like `regions_beside`, where the specification has this grammar.
fn regions_with(
    alloc: Global,
    host: &HostParts,
    resolved: &Resolved,
    grammar: &Grammar,
    both: &HostParts,
) -> Result<Sequence<Region>, DeterminismRefusal>
    requires grammar { HasGrammar resolved.now grammar.now }
    requires host { IsHostBeside resolved.now grammar.now host.now }
    requires deterministic { IsDeterministicBy resolved.now grammar.now (both_lexicon resolved.now grammar.now host.now.grammar) }
    requires both { AreHostParts resolved.now grammar.now both.now }
    ensures ok { IfOk result (λ regions. IsDeterministicExtension resolved.now grammar.now host.now.grammar) }
    ensures regions { IfOk result (AreRegions host.now.kernels both.now.kernels (both_numbers resolved.now grammar.now host.now.grammar) (count_of both.now.kernels)) }
    ensures refused { IfErr result (IsExtensionRefusal resolved.now grammar.now host.now.grammar) }
{
    let parts = resolved.parts();
    tested_regions(
        alloc,
        &Extended {
            host,
            parts,
            grammar,
            both,
        },
    )
}

// A host, the specification of the host with an extension, its grammar, and what is made of that with holes.
#[derive(Drop)]
struct Extended<'a> {
    host: &'a HostParts,
    parts: &'a ResolvedParts,
    grammar: &'a Grammar,
    both: &'a HostParts,
}

// The region of each kernel, where the rules hold that compare the two.
fn tested_regions(
    alloc: Global,
    extended: &Extended,
) -> Result<Sequence<Region>, DeterminismRefusal>
    requires { IsExtended extended.now }
    ensures ok { IfOk result (λ regions. IsDeterministicExtension extended.now.parts.now extended.now.grammar.now extended.now.host.now.grammar) }
    ensures regions { IfOk result (AreRegions extended.now.host.now.kernels extended.now.both.now.kernels (both_numbers extended.now.parts.now extended.now.grammar.now extended.now.host.now.grammar) (count_of extended.now.both.now.kernels)) }
    ensures refused { IfErr result (IsExtensionRefusal extended.now.parts.now extended.now.grammar.now extended.now.host.now.grammar) }
{
    let numbers = numbers_by(
        &extended.host.grammar,
        &extended.both.grammar,
        extended.parts.extensible.len(),
    );
    let regions = regions_of(
        alloc,
        &extended.host.kernels,
        &extended.both.kernels,
        &numbers,
    )?;
    test_rules(alloc, extended, &numbers, regions.as_slice())?;
    Ok(regions)
}

// The numbers of both grammars, each with so many holes.
fn numbers_by(host: &Grammar, both: &Grammar, holes: usize) -> Numbers
    requires terminals { holes ≤ host.now.terminals }
    requires productions { holes ≤ length host.now.productions }
    ensures { result ≡ numbers_of host.now both.now holes }
{
    Numbers {
        own_terminals: host.terminals() - holes,
        host_terminals: host.terminals(),
        both_terminals: both.terminals(),
        own_productions: host.productions() - holes,
        host_productions: host.productions(),
        both_productions: both.productions(),
    }
}

// Whether both rules hold.
fn test_rules(
    alloc: Global,
    extended: &Extended,
    numbers: &Numbers,
    regions: &[Region],
) -> Result<(), DeterminismRefusal>
    requires extended { IsExtended extended.now }
    requires numbers { numbers.now ≡ both_numbers extended.now.parts.now extended.now.grammar.now extended.now.host.now.grammar }
    requires regions { AreRegions extended.now.host.now.kernels extended.now.both.now.kernels numbers.now (count_of extended.now.both.now.kernels) regions.now }
    ensures ok { IfOk result (λ done. IsDeterministicExtension extended.now.parts.now extended.now.grammar.now extended.now.host.now.grammar) }
    ensures refused { IfErr result (IsExtensionRefusal extended.now.parts.now extended.now.grammar.now extended.now.host.now.grammar) }
{
    let count = extended.both.grammar.lookahead_count()?;
    let images = images_of(alloc, extended.parts, extended.grammar, numbers, count)?;
    test_by_images(alloc, extended, numbers, regions, &images)
}

// Like `test_rules`, with what the terminals stand for.
fn test_by_images(
    alloc: Global,
    extended: &Extended,
    numbers: &Numbers,
    regions: &[Region],
    images: &[Option<usize>],
) -> Result<(), DeterminismRefusal>
    requires extended { IsExtended extended.now }
    requires numbers { numbers.now ≡ both_numbers extended.now.parts.now extended.now.grammar.now extended.now.host.now.grammar }
    requires regions { AreRegions extended.now.host.now.kernels extended.now.both.now.kernels numbers.now (count_of extended.now.both.now.kernels) regions.now }
    requires images { AreImages numbers.now (stands_for extended.now.parts.now extended.now.grammar.now) (extended.now.both.now.grammar.terminals + 1) images.now }
    ensures ok { IfOk result (λ done. IsDeterministicExtension extended.now.parts.now extended.now.grammar.now extended.now.host.now.grammar) }
    ensures refused { IfErr result (IsExtensionRefusal extended.now.parts.now extended.now.grammar.now extended.now.host.now.grammar) }
{
    let Some(productions) = extended.host.grammar.productions().checked_add(1) else {
        return Err(DeterminismRefusal::NoMemory(AllocError));
    };
    let index = host_index(alloc, &extended.host.kernels, productions)?;
    let context = Context {
        grammar: &extended.host.grammar,
        host: &extended.host.kernels,
        host_lookaheads: &extended.host.lookaheads,
        both: &extended.both.kernels,
        both_lookaheads: &extended.both.lookaheads,
        numbers,
        images,
        index: &index,
    };
    test_both(alloc, extended, &context, regions)
}

// Whether they hold in what is compared.
fn test_both(
    alloc: Global,
    extended: &Extended,
    context: &Context,
    regions: &[Region],
) -> Result<(), DeterminismRefusal>
    requires extended { IsExtended extended.now }
    requires context { IsContextOf extended.now context.now }
    requires regions { AreRegions context.now.host.now context.now.both.now context.now.numbers.now (count_of context.now.both.now) regions.now }
    ensures ok { IfOk result (λ done. IsDeterministicExtension extended.now.parts.now extended.now.grammar.now extended.now.host.now.grammar) }
    ensures refused { IfErr result (IsExtensionRefusal extended.now.parts.now extended.now.grammar.now extended.now.host.now.grammar) }
{
    test_lookaheads(alloc, context, regions)?;
    test_envelopes(alloc, context, regions, extended.parts)
}
