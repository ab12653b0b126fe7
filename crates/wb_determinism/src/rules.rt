//! Do the lookahead rule and the envelope rule hold? Where one fails, the refusal shows a prefix of the extended host.

ghost use Rattle.std.specs.Prelude.{◌≡◌, ◌≤◌, IfErr, IfOk, length, map};
ghost use Rattle.wb_determinism_contexts.specs.Sets.{lent};
ghost use Rattle.wb_determinism_host.specs.Lexicons.{is_host_layout};
ghost use Rattle.wb_items.specs.Kernels.{count_of};
ghost use Rattle.wb_determinism.specs.Inner.Keeps.{KeepsHostLookaheads};
ghost use Rattle.wb_determinism.specs.Regions.{AreRegions};
ghost use Rattle.wb_determinism.specs.Inner.Clashes.{HasSets};
ghost use Rattle.wb_determinism.specs.Inner.Considered.{AreConsidered};
ghost use Rattle.wb_determinism.specs.Inner.Contexts.{HasImage, IsContext, both_of, host_of};
ghost use Rattle.wb_determinism.specs.Inner.Extended.{IsEnvelopeRefusal, IsLookaheadRefusal, MeetsEnvelope, lexicon_for};
ghost use Rattle.wb_determinism.specs.Inner.Shown.{IsInnerRefusal};

use crate::Region;
use crate::context::Context;
use crate::envelope_clash::test_clashes;
use crate::envelope_test::envelope_sets;
use crate::lookahead_rule::lookahead_fault;
use std::alloc::Global;
use wb_base::Sequence;
use wb_determinism_contexts::Lexicon;
use wb_determinism_host::{DeterminismRefusal, LayoutOwner, expressions_of, layout_of, pairs_of};
use wb_items::production_numbers;
use wb_syntax_resolved::ResolvedParts;
use wb_termset::TermSet;

// Whether the extension adds no lookahead at a host's kernel.
pub(crate) fn test_lookaheads(
    alloc: Global,
    context: &Context,
    regions: &[Region],
) -> Result<(), DeterminismRefusal>
    requires context { IsContext context.now }
    requires regions { AreRegions context.now.host.now context.now.both.now context.now.numbers.now (count_of context.now.both.now) regions.now }
    ensures ok { IfOk result (λ done. KeepsHostLookaheads (host_of context.now) (both_of context.now) context.now.numbers.now (HasImage context.now.images.now)) }
    ensures refused { IfErr result (IsLookaheadRefusal context.now) }
{
    match lookahead_fault(context, regions) {
        Some(found) => {
            let prefix = Sequence::from_vec(context.both.prefix(alloc, found.state)?);
            Err(DeterminismRefusal::Lookahead {
                prefix,
                item: found.fault.item,
                terminal: found.fault.terminal,
            })
        }
        None => Ok(()),
    }
}

// Whether the envelope rule holds.
pub(crate) fn test_envelopes(
    alloc: Global,
    context: &Context,
    regions: &[Region],
    parts: &ResolvedParts,
) -> Result<(), DeterminismRefusal>
    requires context { IsContext context.now }
    requires regions { AreRegions context.now.host.now context.now.both.now context.now.numbers.now (count_of context.now.both.now) regions.now }
    requires terminals { context.now.numbers.now.own_terminals ≤ length parts.now.terminals }
    ensures ok { IfOk result (λ done. MeetsEnvelope context.now (lexicon_for parts.now context.now.numbers.now.own_terminals)) }
    ensures refused { IfErr result (IsEnvelopeRefusal context.now (lexicon_for parts.now context.now.numbers.now.own_terminals)) }
{
    let layout = layout_of(alloc, parts.terminals.as_slice(), LayoutOwner::Host)?;
    test_with_layout(alloc, context, regions, parts, &layout)
}

// Like `test_envelopes`, with the set of the host's layout.
fn test_with_layout(
    alloc: Global,
    context: &Context,
    regions: &[Region],
    parts: &ResolvedParts,
    layout: &TermSet,
) -> Result<(), DeterminismRefusal>
    requires context { IsContext context.now }
    requires regions { AreRegions context.now.host.now context.now.both.now context.now.numbers.now (count_of context.now.both.now) regions.now }
    requires terminals { context.now.numbers.now.own_terminals ≤ length layout.now }
    requires layout { layout.now ≡ map is_host_layout parts.now.terminals }
    ensures ok { IfOk result (λ done. MeetsEnvelope context.now (lexicon_for parts.now context.now.numbers.now.own_terminals)) }
    ensures refused { IfErr result (IsEnvelopeRefusal context.now (lexicon_for parts.now context.now.numbers.now.own_terminals)) }
{
    let sets = considered(alloc, context, regions, layout)?;
    test_scanner(alloc, context, parts, layout, &sets)
}

// The sets of what is considered.
fn considered(
    alloc: Global,
    context: &Context,
    regions: &[Region],
    layout: &TermSet,
) -> Result<Vec<TermSet>, DeterminismRefusal>
    requires context { IsContext context.now }
    requires regions { AreRegions context.now.host.now context.now.both.now context.now.numbers.now (count_of context.now.both.now) regions.now }
    requires layout { context.now.numbers.now.own_terminals ≤ length layout.now }
    ensures ok { IfOk result (λ sets. AreConsidered context.now layout.now regions.now (count_of context.now.both.now) sets.items) }
    ensures refused { IfErr result (IsInnerRefusal context.now) }
{
    let rules = production_numbers(alloc, context.grammar)?;
    envelope_sets(alloc, context, &rules, regions, layout)
}

// Like `test_with_layout`, with the sets of what is considered.
fn test_scanner(
    alloc: Global,
    context: &Context,
    parts: &ResolvedParts,
    layout: &TermSet,
    sets: &[TermSet],
) -> Result<(), DeterminismRefusal>
    requires context { IsContext context.now }
    requires layout { layout.now ≡ map is_host_layout parts.now.terminals }
    requires sets { HasSets context.now layout.now sets.now }
    ensures ok { IfOk result (λ done. MeetsEnvelope context.now (lexicon_for parts.now context.now.numbers.now.own_terminals)) }
    ensures refused { IfErr result (IsEnvelopeRefusal context.now (lexicon_for parts.now context.now.numbers.now.own_terminals)) }
{
    let expressions = expressions_of(alloc, parts.terminals.as_slice())?;
    let pairs = pairs_of(alloc, parts.preferences.as_slice())?;
    let own_layout = layout_of(alloc, parts.terminals.as_slice(), LayoutOwner::Nobody)?;
    let lexicon = Lexicon {
        expressions: &expressions,
        scanned: context.numbers.own_terminals,
        layout,
        own_layout: &own_layout,
        own_productions: (0, 0),
        preferences: &pairs,
    };
    test_with_lexicon(alloc, context, parts, &lexicon, sets)
}

// Like `test_scanner`, where this is scanned.
fn test_with_lexicon(
    alloc: Global,
    context: &Context,
    parts: &ResolvedParts,
    lexicon: &Lexicon,
    sets: &[TermSet],
) -> Result<(), DeterminismRefusal>
    requires context { IsContext context.now }
    requires lexicon { lent lexicon.now ≡ lexicon_for parts.now context.now.numbers.now.own_terminals }
    requires sets { HasSets context.now lexicon.now.layout.now sets.now }
    ensures ok { IfOk result (λ done. MeetsEnvelope context.now (lexicon_for parts.now context.now.numbers.now.own_terminals)) }
    ensures refused { IfErr result (IsEnvelopeRefusal context.now (lexicon_for parts.now context.now.numbers.now.own_terminals)) }
{
    test_clashes(alloc, context, lexicon, sets)
}
