//! Laws of contents and the texts of certificates: what each says is proved, and there is nothing to run.

ghost use Rattle.std.specs.Prelude.{List, ℕ};
ghost use Rattle.wb_operations.specs.Operations.{OperationSignature};
ghost use Rattle.wb_syntax_resolved.specs.declared.resolved.ResolvedParts.{ResolvedParts};
ghost use Rattle.wb_certify_files.specs.OneRecheckAnswer.{HaveOneExtensionAnswer, HaveOneHostAnswer};

use wb_recheck::one_recheck_answer_law;

/// Contents are by a text one certified host at most. Where they are one, no refusal but out of memory is true of them; and refusals are of
/// one sort.
pub fn one_rechecked_host_law()
    ensures { (operations : List OperationSignature) (contents text : List ℕ) → HaveOneHostAnswer operations contents text }
{
    one_recheck_answer_law();
}

/// So are contents by a text one certified extension of a host at most, and refusals are of one sort.
pub fn one_rechecked_extension_law()
    ensures { (host : ResolvedParts) (operations : List OperationSignature) (contents text : List ℕ) → HaveOneExtensionAnswer host operations contents text }
{
    one_recheck_answer_law();
    wb_recheck::one_answer_law();
    wb_recheck::names_law();
}
