//! Which synthesized attribute of its left side does a production lack?
//!
//! One without an equation is that of the tree to which the production forwards, where it does.

ghost use Rattle.std.specs.Prelude.{◌↔◌, IfSome, IfNone, Contains};
ghost use Rattle.wb_flow_theory.specs.WellDefined.{DefinesTop};
ghost use Rattle.wb_complete.specs.Refusals.{LacksTop};
ghost use Rattle.wb_flow.specs.declared.vertex.Vertex.{Vertex};
ghost use Rattle.wb_flow.specs.Occurrences.{IsIndexOf};
ghost use Rattle.wb_flow.specs.Rules.{IsDefined};
ghost use Rattle.wb_syntax_resolved.specs.Attribution.{IsAttribution};

use wb_flow::{Scope, Vertex, VertexSet};
use wb_syntax_resolved::Production;

// A synthesized attribute of its left side that the production has no equation for, where it doesn't forward. It
// is given for what it has equations.
pub(crate) fn lacking_top(
    scope: &Scope,
    production: &Production,
    defined: &VertexSet,
) -> Option<usize>
    requires attribution { IsAttribution scope.now.attributes.now }
    requires index { IsIndexOf scope.now.attributes.now.occurrences scope.now.index.now }
    requires defined { (v : Vertex) → Contains defined.now v ↔ IsDefined production.now v }
    ensures some { IfSome result (LacksTop scope.now.attributes.now production.now) }
    ensures none { IfNone result (DefinesTop scope.now.attributes.now production.now) }
{
    let None = &production.forward else {
        return None;
    };
    'occurrences: for &place in scope.index.on(production.left) {
        let attribute = scope.occurrence(place).attribute;
        if !scope.is_synthesized(attribute) {
            continue;
        }
        if !defined.contains(Vertex::Top(attribute)) {
            return Some(attribute);
        }
    }
    None
}
