//! Laws of the definitions: what each says is proved, and there is nothing to run.

ghost use Rattle.std.specs.Prelude.{Contains};
ghost use Rattle.wb_syntax_resolved.specs.declared.attribution.AttributionParts.{AttributionParts};
ghost use Rattle.wb_syntax_resolved.specs.declared.production.Production.{Production};
ghost use Rattle.wb_syntax_resolved.specs.Attribution.{IsAttribution};
ghost use Rattle.wb_flow_theory.specs.Laws.{AreEdgesWithin, HasOneRule, HasOneFlowType, HaveFlowTypesInherited, HaveForwardsInherited};

/// Edges of a flow graph are between its vertices.
pub fn edges_law()
    ensures { (a : AttributionParts) → IsAttribution a → (production : Production) → Contains a.productions production → AreEdgesWithin a production }
{}

/// A vertex has one rule at most.
pub fn rules_law()
    ensures { (a : AttributionParts) → IsAttribution a → (production : Production) → Contains a.productions production → HasOneRule production }
{}

/// An attribute has one flow type at most on a nonterminal, and what it has is inherited; so is what that of a forward has.
pub fn flow_types_law()
    ensures once { (a : AttributionParts) → IsAttribution a → HasOneFlowType a }
    ensures inherited { (a : AttributionParts) → IsAttribution a → HaveFlowTypesInherited a }
    ensures forward { (a : AttributionParts) → IsAttribution a → HaveForwardsInherited a }
{}
