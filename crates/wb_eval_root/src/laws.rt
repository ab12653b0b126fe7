//! What do the definitions say of themselves?

ghost use Rattle.wb_operations.specs.Operations.{Operations};
ghost use Rattle.wb_syntax_resolved.specs.Attribution.{IsAttribution};
ghost use Rattle.wb_syntax_resolved.specs.declared.attribution.AttributionParts.{AttributionParts};
ghost use Rattle.wb_eval_root.specs.Answers.{HasOneAnswer};
ghost use Rattle.wb_eval_root.specs.Values.{HasOneValue};

/// A term, the name of an attribute and a number of steps have one answer at most.
pub fn one_answer_law()
    ensures { (a : AttributionParts) (operations : Operations) → IsAttribution a → HasOneAnswer a operations }
{}

/// One thing comes of an attribute at the root of a tree at most.
pub fn one_value_law()
    ensures { (a : AttributionParts) (operations : Operations) → HasOneValue a operations }
{}
