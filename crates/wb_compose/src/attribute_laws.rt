//! Laws of the definitions: what each says is proved, and there is nothing to run.

ghost use Rattle.std.specs.Prelude.{List};
ghost use Rattle.wb_base.specs.Grammar.{GrammarView};
ghost use Rattle.wb_compose.specs.AttributeLaws.{AreComposable, AreUnitedAttributes};
ghost use Rattle.wb_compose.specs.Joined.{Extended};
ghost use Rattle.wb_operations.specs.Operations.{OperationSignature};
ghost use Rattle.wb_syntax_resolved.specs.declared.resolved.ResolvedParts.{ResolvedParts};

/// Of a certified host with certified extensions of different names the attributes of all together are the union of those that were tested,
/// an attribution that is well defined and whose expressions are of their kinds.
pub fn attributes_law()
    ensures { (host : ResolvedParts) (g : GrammarView) (operations : List OperationSignature) (extended : List Extended) → AreComposable host g operations extended → AreUnitedAttributes host g operations extended }
{}
