//! Laws of the definitions: what each says is proved, and there is nothing to run.

ghost use Rattle.std.specs.Prelude.{ℕ, List};
ghost use Rattle.wb_operations.specs.Operations.{OperationSignature};
ghost use Rattle.wb_syntax_resolved.specs.declared.resolved.ResolvedParts.{ResolvedParts};
ghost use Rattle.wb_compose_texts.specs.Generated.{HasOneText};

/// A number makes one text at most of a host with extensions, where there may be so many leaves.
pub fn one_text_law()
    ensures { (host : ResolvedParts) (operations : List OperationSignature) (extensions : List ResolvedParts) (number size : ℕ) → HasOneText host operations extensions number size }
{}
