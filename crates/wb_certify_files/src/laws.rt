//! What do the definitions say of themselves?

ghost use Rattle.std.specs.Prelude.{List, ℕ};
ghost use Rattle.wb_certify_files.specs.OneExtensionAnswer.{HaveOneExtensionAnswer, HaveOneHeader};
ghost use Rattle.wb_certify_files.specs.OneHostAnswer.{HaveOneHostAnswer, HaveOneWellDefined};
ghost use Rattle.wb_operations.specs.Operations.{OperationSignature};
ghost use Rattle.wb_syntax_resolved.specs.declared.resolved.ResolvedParts.{ResolvedParts};

/// Contents are at most one certified host. Where they are one, no refusal but out of memory is true of them; and refusals are of one sort.
pub fn one_host_answer_law()
    ensures { (operations : List OperationSignature) (contents : List ℕ) → HaveOneHostAnswer operations contents }
{}

/// Contents are at most one host with well-defined attributes. Where they are one, no refusal but out of memory is true of them; and
/// refusals are of one sort.
pub fn one_well_defined_law()
    ensures { (operations : List OperationSignature) (contents : List ℕ) → HaveOneWellDefined operations contents }
{}

/// Contents are one certified extension of a host at most, a refusal of none is true of one, and refusals are of one sort.
pub fn one_extension_answer_law()
    ensures { (host : ResolvedParts) (operations : List OperationSignature) (contents : List ℕ) → HaveOneExtensionAnswer host operations contents }
{
    wb_recheck::one_answer_law();
    wb_recheck::names_law();
}

/// Contents are one specification of an extension of a host at most, and a refusal of their first line is true of none, and of the
/// contents.
pub fn header_law()
    ensures { (host : ResolvedParts) (contents : List ℕ) → HaveOneHeader host contents }
{}
