//! Laws of the definitions: what each says is proved, and there is nothing to run.

ghost use Rattle.std.specs.Prelude.{List};
ghost use Rattle.wb_compose_texts.specs.EditAnswers.{HasOneEditsAnswer};
ghost use Rattle.wb_operations.specs.Operations.{OperationSignature};
ghost use Rattle.wb_syntax_resolved.specs.declared.resolved.ResolvedParts.{ResolvedParts};

/// A text with edits has one answer at most in the language of a host with extensions.
pub fn one_edits_law()
    ensures { (host : ResolvedParts) (operations : List OperationSignature) (extensions : List ResolvedParts) → HasOneEditsAnswer host operations extensions }
{
    crate::tree_laws::one_answer_law();
}
