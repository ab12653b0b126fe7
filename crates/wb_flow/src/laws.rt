//! A law of the definitions: what it says is proved, and there is nothing to run.

ghost use Rattle.wb_flow.specs.OneAnswer.{FlowsHaveOneAnswer};
ghost use Rattle.wb_syntax_resolved.specs.declared.attribution.AttributionParts.{AttributionParts};

/// That the rules hold excludes each refusal but out of memory, and a refusal by one rule excludes one by another.
pub fn one_answer_law()
    ensures { (a : AttributionParts) → FlowsHaveOneAnswer a }
{}
