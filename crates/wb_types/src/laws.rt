//! A law of the definitions: what it says is proved, and there is nothing to run.

ghost use Rattle.std.specs.Prelude.{List};
ghost use Rattle.wb_operations.specs.Operations.{OperationSignature};
ghost use Rattle.wb_syntax_resolved.specs.declared.attribution.AttributionParts.{AttributionParts};
ghost use Rattle.wb_types.specs.OneAnswer.{HaveOneAnswer};

/// That the kind rules hold excludes each refusal but out of memory, and a refusal by one rule excludes one by another.
pub fn one_answer_law()
    ensures { (a : AttributionParts) (operations : List OperationSignature) → HaveOneAnswer a operations }
{}
