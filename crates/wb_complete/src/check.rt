//! Is each attribute that is needed in a production defined there?
//!
//! Each rule is tested on all productions before the next, so the first that fails is the answer.

ghost use Rattle.std.specs.Prelude.{◌↔◌, IfOk, IfErr, IfSome, IfNone, IsTrue};
ghost use Rattle.wb_flow_theory.specs.Modular.{EachProduction, InheritsNothing, IsBridging, MustForward, ForwardsAsExtension};
ghost use Rattle.wb_flow_theory.specs.WellDefined.{DefinesTop, DefinesBelow};
ghost use Rattle.wb_complete.specs.Inner.Tests.{IsSo, IsWithoutForward};
ghost use Rattle.wb_complete.specs.Refusals.{CompleteOk, IsTrueCompletenessRefusal, LacksBelow, LacksTop, StartHas};
ghost use Rattle.wb_flow.specs.Occurrences.{IsIndexOf};
ghost use Rattle.wb_syntax_resolved.specs.Attribution.{IsAttribution};
ghost use Rattle.wb_syntax_resolved.specs.Owned.{IsClosed};

use crate::below::lacking_below;
use crate::top::lacking_top;
use std::alloc::{AllocError, Global};
use wb_flow::{AttributeRefusal, OccurrenceIndex, Scope, Vertex, defined_vertices};
use wb_syntax_resolved::{Attribution, Production};

/// Whether a start has no inherited attribute, an extension's productions on those of the host's nonterminals that aren't closed forward,
/// each production has an equation for each synthesized attribute of its left side or forwards, and where an attribute of a child or local is
/// read, each inherited one in its flow type has an equation.
///
/// The extension is given by its owner's number, and by none for a host. Rules are tested in this order, each on all productions. The time
/// is about linear in the attribution and, for each production, in what the flow types of its reads have; no clause bounds it.
pub fn check_complete(
    alloc: Global,
    attributes: &Attribution,
    start: Option<usize>,
    extension: Option<usize>,
) -> Result<(), AttributeRefusal>
    ensures ok { IfOk result (λ done. CompleteOk attributes.now start extension) }
    ensures refused { IfErr result (IsTrueCompletenessRefusal attributes.now start extension) }
{
    let parts = attributes.parts();
    let index = OccurrenceIndex::new(alloc, parts)?;
    let answer = check_in(
        alloc,
        &Scope {
            attributes: parts,
            index: &index,
        },
        start,
        extension,
    );
    drop(index);
    answer
}

// Like `check_complete`, where occurrences are by nonterminal.
fn check_in(
    alloc: Global,
    scope: &Scope,
    start: Option<usize>,
    extension: Option<usize>,
) -> Result<(), AttributeRefusal>
    requires attribution { IsAttribution scope.now.attributes.now }
    requires index { IsIndexOf scope.now.attributes.now.occurrences scope.now.index.now }
    ensures ok { IfOk result (λ done. CompleteOk scope.now.attributes.now start extension) }
    ensures refused { IfErr result (IsTrueCompletenessRefusal scope.now.attributes.now start extension) }
{
    if let Some(attribute) = inherited_of_start(scope, start) {
        return Err(AttributeRefusal::StartInherits(attribute));
    }
    if let Some(production) = without_forward(scope, extension) {
        return Err(AttributeRefusal::NoForward(production));
    }
    if let Some((production, attribute)) = without_equation(alloc, scope)? {
        return Err(AttributeRefusal::NoEquation {
            production,
            attribute,
        });
    }
    if let Some((production, vertex)) = without_inherited(alloc, scope)? {
        return Err(AttributeRefusal::NoInherited { production, vertex });
    }
    Ok(())
}

// An inherited attribute of the start, where there is one.
fn inherited_of_start(scope: &Scope, start: Option<usize>) -> Option<usize>
    requires attribution { IsAttribution scope.now.attributes.now }
    requires index { IsIndexOf scope.now.attributes.now.occurrences scope.now.index.now }
    ensures some { IfSome result (StartHas scope.now.attributes.now start) }
    ensures none { IfNone result (IfSome start (InheritsNothing scope.now.attributes.now)) }
{
    let Some(nonterminal) = start else {
        return None;
    };
    'occurrences: for &number in scope.index.on(nonterminal) {
        let attribute = scope.occurrence(number).attribute;
        if scope.is_inherited(attribute) {
            return Some(attribute);
        }
    }
    None
}

// A production of the extension on a nonterminal of the host that isn't closed, where one doesn't forward.
fn without_forward(scope: &Scope, extension: Option<usize>) -> Option<usize>
    ensures some { IfSome result (IsWithoutForward scope.now.attributes.now extension) }
    ensures none { IfNone result (IfSome extension (ForwardsAsExtension scope.now.attributes.now)) }
{
    let Some(owner) = extension else {
        return None;
    };
    let productions = scope.attributes.productions.as_slice();
    'productions: for number in 0..productions.len() {
        let production = &productions[number];
        if production.forward.is_none() && must_forward(scope, owner, production) {
            return Some(number);
        }
    }
    None
}

// Whether a production is an extension's, on a nonterminal of the host that isn't closed.
fn must_forward(scope: &Scope, extension: usize, production: &Production) -> bool
    ensures { IsTrue result ↔ MustForward scope.now.attributes.now extension production.now }
{
    is_bridging(scope, extension, production) && !is_closed(scope, production.left)
}

// Whether a production is an extension's, on a nonterminal of the host.
fn is_bridging(scope: &Scope, extension: usize, production: &Production) -> bool
    ensures { IsTrue result ↔ IsBridging scope.now.attributes.now extension production.now }
{
    let nonterminals = scope.attributes.nonterminals.as_slice();
    production.owner == extension
        && production.left < nonterminals.len()
        && nonterminals[production.left].owner == 0
}

// Whether a nonterminal is closed.
fn is_closed(scope: &Scope, nonterminal: usize) -> bool
    ensures { IsTrue result ↔ IsClosed scope.now.attributes.now nonterminal }
{
    let nonterminals = scope.attributes.nonterminals.as_slice();
    nonterminal < nonterminals.len() && nonterminals[nonterminal].closed
}

// A production with a synthesized attribute of its left side that it lacks an equation for, where it doesn't forward.
fn without_equation(alloc: Global, scope: &Scope) -> Result<Option<(usize, usize)>, AllocError>
    requires attribution { IsAttribution scope.now.attributes.now }
    requires index { IsIndexOf scope.now.attributes.now.occurrences scope.now.index.now }
    ensures some { IfOk result (λ o. IfSome o (λ found. IsSo scope.now.attributes.now found.0 (λ production. LacksTop scope.now.attributes.now production found.1))) }
    ensures none { IfOk result (λ o. IfNone o (EachProduction scope.now.attributes.now (DefinesTop scope.now.attributes.now))) }
{
    let productions = scope.attributes.productions.as_slice();
    'productions: for number in 0..productions.len() {
        let found = top_of(alloc, scope, &productions[number])?;
        if let Some(attribute) = found {
            return Ok(Some((number, attribute)));
        }
    }
    Ok(None)
}

// Like `lacking_top`, where it isn't known for what there are equations.
fn top_of(
    alloc: Global,
    scope: &Scope,
    production: &Production,
) -> Result<Option<usize>, AllocError>
    requires attribution { IsAttribution scope.now.attributes.now }
    requires index { IsIndexOf scope.now.attributes.now.occurrences scope.now.index.now }
    ensures some { IfOk result (λ o. IfSome o (LacksTop scope.now.attributes.now production.now)) }
    ensures none { IfOk result (λ o. IfNone o (DefinesTop scope.now.attributes.now production.now)) }
{
    let defined = defined_vertices(alloc, production)?;
    let found = lacking_top(scope, production, &defined);
    drop(defined);
    Ok(found)
}

// A production with an inherited attribute one step down that is needed and that it lacks an equation for.
fn without_inherited(alloc: Global, scope: &Scope) -> Result<Option<(usize, Vertex)>, AllocError>
    requires attribution { IsAttribution scope.now.attributes.now }
    requires index { IsIndexOf scope.now.attributes.now.occurrences scope.now.index.now }
    ensures some { IfOk result (λ o. IfSome o (λ found. IsSo scope.now.attributes.now found.0 (λ production. LacksBelow scope.now.attributes.now production found.1))) }
    ensures none { IfOk result (λ o. IfNone o (EachProduction scope.now.attributes.now (DefinesBelow scope.now.attributes.now))) }
{
    let productions = scope.attributes.productions.as_slice();
    'productions: for number in 0..productions.len() {
        let found = below_of(alloc, scope, &productions[number])?;
        if let Some(vertex) = found {
            return Ok(Some((number, vertex)));
        }
    }
    Ok(None)
}

// Like `lacking_below`, where it isn't known for what there are equations.
fn below_of(
    alloc: Global,
    scope: &Scope,
    production: &Production,
) -> Result<Option<Vertex>, AllocError>
    requires attribution { IsAttribution scope.now.attributes.now }
    requires index { IsIndexOf scope.now.attributes.now.occurrences scope.now.index.now }
    ensures some { IfOk result (λ o. IfSome o (LacksBelow scope.now.attributes.now production.now)) }
    ensures none { IfOk result (λ o. IfNone o (DefinesBelow scope.now.attributes.now production.now)) }
{
    let defined = defined_vertices(alloc, production)?;
    let found = lacking_below(scope, production, &defined);
    drop(defined);
    Ok(found)
}
