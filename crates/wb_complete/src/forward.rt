//! Do an extension's equations for forwarded trees keep to the flow types of the forwards?
//!
//! A flow graph is made only for a production that has such an equation.

ghost use Rattle.std.specs.Prelude.{◌≡◌, ◌↔◌, ℕ, Some, IfOk, IfErr, IsTrue, slice_get};
ghost use Rattle.wb_flow_theory.specs.Modular.{ForwardEquationsReach, IsBridging, IsProduction};
ghost use Rattle.wb_complete.specs.Inner.ForwardTests.{KeepsWhereBridging};
ghost use Rattle.wb_complete.specs.ForwardRefusals.{IsTrueForwardRefusal};
ghost use Rattle.wb_flow.specs.Occurrences.{IsIndexOf};
ghost use Rattle.wb_syntax_resolved.specs.Attribution.{IsAttribution};
ghost use Rattle.wb_syntax_resolved.specs.declared.production.Production.{Production};

use crate::equations::{Tested, check_vertices, gives_forward};
use std::alloc::Global;
use wb_flow::{AttributeRefusal, OccurrenceIndex, Scope, graph_of};
use wb_syntax_resolved::{Attribution, Production};

/// Whether in each production of the extension on a nonterminal of the host each equation for an inherited attribute of the forwarded tree
/// reaches, of the inherited attributes of the top, only those in the flow type of the forward and that attribute itself.
///
/// The extension is given by its owner's number. The time is about linear in the attribution and, for each production that has such an
/// equation, in its flow graph for each 64 inherited attributes of its left side; no clause bounds it.
pub fn check_forward(
    alloc: Global,
    attributes: &Attribution,
    extension: usize,
) -> Result<(), AttributeRefusal>
    ensures ok { IfOk result (λ done. ForwardEquationsReach attributes.now extension) }
    ensures refused { IfErr result (IsTrueForwardRefusal attributes.now extension) }
{
    let parts = attributes.parts();
    let index = OccurrenceIndex::new(alloc, parts)?;
    let scope = Scope {
        attributes: parts,
        index: &index,
    };
    let answer = check_in(alloc, &scope, extension);
    drop(index);
    answer
}

// Like `check_forward`, where occurrences are by nonterminal.
fn check_in(alloc: Global, scope: &Scope, extension: usize) -> Result<(), AttributeRefusal>
    requires attribution { IsAttribution scope.now.attributes.now }
    requires index { IsIndexOf scope.now.attributes.now.occurrences scope.now.index.now }
    ensures ok { IfOk result (λ done. ForwardEquationsReach scope.now.attributes.now extension) }
    ensures refused { IfErr result (IsTrueForwardRefusal scope.now.attributes.now extension) }
{
    let productions = scope.attributes.productions.as_slice();
    'productions: for number in 0..productions.len() {
        check_production(alloc, scope, extension, number, &productions[number])?;
    }
    Ok(())
}

// Whether a production does, where it is the extension's on a nonterminal of the host.
fn check_production(
    alloc: Global,
    scope: &Scope,
    extension: usize,
    number: usize,
    production: &Production,
) -> Result<(), AttributeRefusal>
    requires attribution { IsAttribution scope.now.attributes.now }
    requires index { IsIndexOf scope.now.attributes.now.occurrences scope.now.index.now }
    requires there { IsProduction scope.now.attributes.now number production.now }
    ensures ok { IfOk result (λ done. KeepsWhereBridging scope.now.attributes.now extension production.now) }
    ensures refused { IfErr result (IsTrueForwardRefusal scope.now.attributes.now extension) }
{
    if !is_bridging(scope, extension, production) {
        return Ok(());
    }
    if !gives_forward(production) {
        return Ok(());
    }
    let graph = graph_of(alloc, scope, production)?;
    let answer = check_vertices(
        alloc,
        &Tested {
            scope,
            number,
            production,
            graph: &graph,
        },
    );
    drop(graph);
    answer
}

// Whether a production is an extension's, on a nonterminal of the host.
fn is_bridging(scope: &Scope, extension: usize, production: &Production) -> bool
    ensures { IsTrue result ↔ IsBridging scope.now.attributes.now extension production.now }
{
    let nonterminals = scope.attributes.nonterminals.as_slice();
    production.owner == extension
        && production.left < nonterminals.len()
        && nonterminals[production.left].owner == 0
}
