//! Laws of the definitions: what each says is proved, and there is nothing to run.

ghost use Rattle.std.specs.Prelude.{ℕ, List};
ghost use Rattle.wb_operations.specs.Operations.{Operations};
ghost use Rattle.wb_program_theory.specs.ValueLaws as order;
ghost use Rattle.wb_syntax_resolved.specs.declared.resolved.ResolvedParts.{ResolvedParts};

/// What comes of a text with extensions comes of it with these in another order: the same value of the attribute, the same fault or the
/// same stop, within as many steps. A name that may be asked at the start in the one order may be asked there in the other.
pub fn value_order_law()
    ensures values { (host : ResolvedParts) (operations : Operations) (extensions others : List ResolvedParts) (to from : ℕ → ℕ) → order.AreInTwoOrders extensions others to from → order.HasSameValues host operations extensions others }
    ensures roots { (host : ResolvedParts) (operations : Operations) (extensions others : List ResolvedParts) (to from : ℕ → ℕ) → order.AreInTwoOrders extensions others to from → order.HasSameRoots host operations.signatures extensions others }
{}
