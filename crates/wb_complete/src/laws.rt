//! A law of the definitions: what it says is proved, and there is nothing to run.

ghost use Rattle.std.specs.Prelude.{ℕ, Option};
ghost use Rattle.wb_flow_theory.specs.Modular.{ForwardEquationsReach};
ghost use Rattle.wb_complete.specs.OneAnswer.{CompletenessHasOneAnswer};
ghost use Rattle.wb_complete.specs.ForwardRefusals.{HasForwardRead};
ghost use Rattle.wb_syntax_resolved.specs.declared.attribution.AttributionParts.{AttributionParts};

/// That the rules hold excludes each refusal but out of memory, and a refusal by one rule excludes one by another.
pub fn one_answer_law()
    ensures { (a : AttributionParts) (start extension : Option ℕ) → CompletenessHasOneAnswer a start extension }
{}

/// That the rule holds excludes each refusal but out of memory.
pub fn one_forward_answer_law()
    ensures { (a : AttributionParts) (extension production attribute inherited : ℕ) → ForwardEquationsReach a extension → ¬ HasForwardRead a extension production attribute inherited }
{}
