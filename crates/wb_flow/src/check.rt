//! Do attributes need no more than their flow types say, and does nothing need itself?
//!
//! The first rule that fails is the answer, so a cycle is kept until all productions have kept to their flow types.

ghost use Rattle.std.specs.Prelude.{◌≡◌, None, IfOk, IfErr, Contains, length};
ghost use Rattle.wb_flow_theory.specs.Modular.{EachProduction, HoldForwardNeeds, IsProduction};
ghost use Rattle.wb_flow.specs.Inner.Sources.{KeepsAll, KnowsCycle, Notes, RefusesAnyReads, RefusesReads, RefusesForward, HoldsForward};
ghost use Rattle.wb_flow.specs.Occurrences.{IsIndexOf};
ghost use Rattle.wb_flow.specs.Refusals.{FlowsOk, IsTrueFlowRefusal};
ghost use Rattle.wb_syntax_resolved.specs.Attribution.{IsAttribution};

use crate::graph::graph_of;
use crate::tested::{Tested, check_graph};
use crate::{AttributeRefusal, OccurrenceIndex, Scope};
use std::alloc::Global;
use wb_syntax_resolved::{Attribution, Occurrence, Production};

/// Whether each flow type has what that of its nonterminal's forward has, each production needs no more inherited attributes of its top
/// than flow types say, and nothing in a production needs itself.
///
/// A refusal is by the first of these that fails. The time is about linear in the attribution and, for each production, in its flow graph
/// for each 64 inherited attributes of its left side, and in what flow types there have; no clause bounds it.
pub fn check_flow(alloc: Global, attributes: &Attribution) -> Result<(), AttributeRefusal>
    ensures ok { IfOk result (λ done. FlowsOk attributes.now) }
    ensures refused { IfErr result (IsTrueFlowRefusal attributes.now) }
{
    let parts = attributes.parts();
    let index = OccurrenceIndex::new(alloc, parts)?;
    check_in(
        alloc,
        &Scope {
            attributes: parts,
            index: &index,
        },
    )
}

// Like `check_flow`, where occurrences are by nonterminal.
fn check_in(alloc: Global, scope: &Scope) -> Result<(), AttributeRefusal>
    requires attribution { IsAttribution scope.now.attributes.now }
    requires index { IsIndexOf scope.now.attributes.now.occurrences scope.now.index.now }
    ensures ok { IfOk result (λ done. FlowsOk scope.now.attributes.now) }
    ensures refused { IfErr result (IsTrueFlowRefusal scope.now.attributes.now) }
{
    check_forward_needs(scope)?;
    check_productions(alloc, scope)
}

// Whether flow types have what those of forwards have.
fn check_forward_needs(scope: &Scope) -> Result<(), AttributeRefusal>
    requires { IsAttribution scope.now.attributes.now }
    ensures ok { IfOk result (λ done. HoldForwardNeeds scope.now.attributes.now) }
    ensures refused { IfErr result (RefusesForward scope.now.attributes.now) }
{
    'occurrences: for occurrence in scope.attributes.occurrences.as_slice() {
        check_occurrence(scope, occurrence)?;
    }
    Ok(())
}

// Whether the flow type of an occurrence does.
fn check_occurrence(scope: &Scope, occurrence: &Occurrence) -> Result<(), AttributeRefusal>
    requires attribution { IsAttribution scope.now.attributes.now }
    requires listed { Contains scope.now.attributes.now.occurrences occurrence.now }
    ensures ok { IfOk result (λ done. HoldsForward scope.now.attributes.now occurrence.now) }
    ensures refused { IfErr result (RefusesForward scope.now.attributes.now) }
{
    if !scope.is_synthesized(occurrence.attribute) {
        return Ok(());
    }
    'needs: for &inherited in scope.forward_needs(occurrence.nonterminal) {
        if !occurrence.needs.as_slice().contains(&inherited) {
            return Err(AttributeRefusal::LacksForward {
                nonterminal: occurrence.nonterminal,
                attribute: occurrence.attribute,
                inherited,
            });
        }
    }
    Ok(())
}

// The same, where flow types have what those of forwards have.
fn check_productions(alloc: Global, scope: &Scope) -> Result<(), AttributeRefusal>
    requires attribution { IsAttribution scope.now.attributes.now }
    requires index { IsIndexOf scope.now.attributes.now.occurrences scope.now.index.now }
    requires forward_needs { HoldForwardNeeds scope.now.attributes.now }
    ensures ok { IfOk result (λ done. FlowsOk scope.now.attributes.now) }
    ensures refused { IfErr result (IsTrueFlowRefusal scope.now.attributes.now) }
{
    let mut cycle = None;
    match check_each(alloc, scope, &mut cycle) {
        Ok(()) => match cycle {
            Some(refusal) => Err(refusal),
            None => Ok(()),
        },
        Err(refusal) => {
            drop(cycle);
            Err(refusal)
        }
    }
}

// Whether all productions keep to their flow types; a cycle of the first that has one is kept.
fn check_each(
    alloc: Global,
    scope: &Scope,
    cycle: &mut Option<AttributeRefusal>,
) -> Result<(), AttributeRefusal>
    requires attribution { IsAttribution scope.now.attributes.now }
    requires index { IsIndexOf scope.now.attributes.now.occurrences scope.now.index.now }
    requires none { cycle.old ≡ None }
    ensures ok { IfOk result (λ done. EachProduction scope.now.attributes.now (KeepsAll scope.now.attributes.now) × KnowsCycle scope.now.attributes.now (length scope.now.attributes.now.productions) cycle.new) }
    ensures refused { IfErr result (RefusesAnyReads scope.now.attributes.now) }
{
    let productions = scope.attributes.productions.as_slice();
    'productions: for number in 0..productions.len() {
        check_production(alloc, scope, number, &productions[number], cycle)?;
    }
    Ok(())
}

// Whether the production of this number keeps to its flow types; a cycle in it is kept, where none is known.
fn check_production(
    alloc: Global,
    scope: &Scope,
    number: usize,
    production: &Production,
    cycle: &mut Option<AttributeRefusal>,
) -> Result<(), AttributeRefusal>
    requires attribution { IsAttribution scope.now.attributes.now }
    requires index { IsIndexOf scope.now.attributes.now.occurrences scope.now.index.now }
    requires there { IsProduction scope.now.attributes.now number production.now }
    ensures ok { IfOk result (λ done. KeepsAll scope.now.attributes.now production.now × Notes scope.now.attributes.now number production.now cycle.old cycle.new) }
    ensures refused { IfErr result (RefusesReads scope.now.attributes.now number production.now) }
{
    let graph = graph_of(alloc, scope, production)?;
    let tested = Tested {
        scope,
        number,
        production,
        graph: &graph,
    };
    let answer = check_graph(alloc, &tested, cycle);
    drop(graph);
    answer
}
