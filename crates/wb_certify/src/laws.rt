//! Laws of the definitions: what they say is proved, and there is nothing to run.

ghost use Rattle.std.specs.Prelude.{List};
ghost use Rattle.wb_operations.specs.Operations.{OperationSignature};
ghost use Rattle.wb_syntax_resolved.specs.declared.resolved.ResolvedParts.{ResolvedParts};
ghost use Rattle.wb_syntax.specs.SpecText.{SpecView};
ghost use Rattle.wb_certify.specs.OneAnswer.{HasOneAnswer, NamesExclude};

use wb_determinism_beside::extension_refusals_law;

/// That an extension is certified excludes each refusal but out of memory, and a refusal of one sort excludes one of another.
pub fn one_answer_law()
    ensures { (host r : ResolvedParts) (operations : List OperationSignature) → HasOneAnswer host r operations }
{
    extension_refusals_law();
    wb_complete::one_forward_answer_law();
}

/// That an extension's names are right excludes each refusal of names but out of memory.
pub fn names_law()
    ensures { (host : ResolvedParts) (spec : SpecView) (r : ResolvedParts) → NamesExclude host spec r }
{}
