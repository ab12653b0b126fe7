//! Does a production keep to its flow types?
//!
//! What each synthesized attribute of its top reaches in its flow graph, and what the forwarded tree does, has to be in a flow type.

ghost use Rattle.std.specs.Prelude.{◌≡◌, ◌<◌, ◌↔◌, ℕ, Some, IfOk, IfErr, IfSome, IfNone, Contains, Option, length, slice_get, false};
ghost use Rattle.wb_flow_theory.specs.Occurrences.{Occurs};
ghost use Rattle.wb_flow.specs.declared.vertex.Vertex.{Vertex};
ghost use Rattle.wb_flow.specs.Inner.Sources.{IsSource, Allows, KeepsFrom, KeepsAll, RefusesReads, IsTested};
ghost use Rattle.wb_flow.specs.Occurrences.{IsIndexOf};
ghost use Rattle.wb_flow.specs.Tops.{KnowsTops};
ghost use Rattle.wb_syntax_resolved.specs.declared.attributes.Direction.TheVariants.{Inherited};
ghost use Rattle.wb_syntax_resolved.specs.Attribution.{IsAttribution};

use crate::tested::Tested;
use crate::{AttributeRefusal, Scope, TopReach, Vertex};
use std::alloc::Global;
use wb_syntax_resolved::Production;

// Whether all that has a flow type keeps to it.
pub(crate) fn check_reads(
    alloc: Global,
    tested: &Tested,
    reach: &TopReach,
) -> Result<(), AttributeRefusal>
    requires tested { IsTested tested.now }
    requires reach { KnowsTops tested.now.scope.now.attributes.now tested.now.graph.now reach.now }
    ensures ok { IfOk result (λ done. KeepsAll tested.now.scope.now.attributes.now tested.now.production.now) }
    ensures refused { IfErr result (RefusesReads tested.now.scope.now.attributes.now tested.now.number tested.now.production.now) }
{
    'vertices: for start in 0..tested.graph.vertices.len() {
        check_from(alloc, tested, reach, start)?;
    }
    Ok(())
}

// Whether an inherited attribute occurs on a nonterminal.
pub(crate) fn inherits(scope: &Scope, nonterminal: usize) -> bool
    requires { IsIndexOf scope.now.attributes.now.occurrences scope.now.index.now }
    ensures { result ≡ false → (i : ℕ) → ¬ Occurs scope.now.attributes.now Inherited i nonterminal }
{
    'occurrences: for &number in scope.index.on(nonterminal) {
        if scope.is_inherited(scope.occurrence(number).attribute) {
            return true;
        }
    }
    false
}

// Whether a vertex keeps to its flow type, where it has one.
fn check_from(
    alloc: Global,
    tested: &Tested,
    reach: &TopReach,
    start: usize,
) -> Result<(), AttributeRefusal>
    requires tested { IsTested tested.now }
    requires reach { KnowsTops tested.now.scope.now.attributes.now tested.now.graph.now reach.now }
    requires start { start < length tested.now.graph.now.vertices }
    ensures ok { IfOk result (λ done. (vertex : Vertex) → slice_get tested.now.graph.now.vertices start ≡ Some vertex → KeepsFrom tested.now.scope.now.attributes.now tested.now.production.now vertex) }
    ensures refused { IfErr result (RefusesReads tested.now.scope.now.attributes.now tested.now.number tested.now.production.now) }
{
    let vertex = tested.graph.vertices.as_slice()[start];
    let Some(source) = source_of(tested.scope, vertex) else {
        return Ok(());
    };
    let listed = flow_type(tested.scope, tested.production, source);
    let allowed = reach.selection(alloc, listed)?;
    let found = reach.first_outside(start, &allowed);
    drop(allowed);
    let Some(inherited) = found else {
        return Ok(());
    };
    Err(AttributeRefusal::Reads {
        production: tested.number,
        attribute: source,
        inherited,
    })
}

// Which attribute a vertex is, where it has a flow type; none for the forwarded tree.
fn source_of(scope: &Scope, vertex: Vertex) -> Option<Option<usize>>
    ensures some { IfSome result (IsSource scope.now.attributes.now vertex) }
    ensures none { IfNone result ((source : Option ℕ) → ¬ IsSource scope.now.attributes.now vertex source) }
{
    match vertex {
        Vertex::Top(attribute) => {
            if !scope.is_synthesized(attribute) {
                return None;
            }
            Some(Some(attribute))
        }
        Vertex::ForwardTree => Some(None),
        _ => None,
    }
}

// The flow type.
fn flow_type<'a>(scope: &Scope<'a>, production: &Production, source: Option<usize>) -> &'a [usize]
    requires attribution { IsAttribution scope.now.attributes.now }
    requires index { IsIndexOf scope.now.attributes.now.occurrences scope.now.index.now }
    ensures { (i : ℕ) → Contains result.now i ↔ Allows scope.now.attributes.now production.now source i }
{
    match source {
        Some(attribute) => scope.needs(attribute, production.left),
        None => scope.forward_needs(production.left),
    }
}
