//! Laws of the definitions: what each says is proved, and there is nothing to run.

ghost use Rattle.std.specs.Prelude.{◌↔◌, ℕ, List, Contains};
ghost use Rattle.wb_base.specs.declared.symbol.Symbol.{Symbol};
ghost use Rattle.wb_grammar_theory.specs.declared.item.Item.{Item};
ghost use Rattle.wb_items.specs.Kernels.{AreKernels, KernelsView, LeadsTo};
ghost use Rattle.wb_items.specs.Parts.{AreListed};
ghost use Rattle.wb_recheck_theory.specs.KernelLists.{AreKernelsAndMoves};

/// The kernels of a grammar, listed in their order with the moves between them in any order, are the lists that `Kernels::from_parts` asks
/// for.
pub fn parts_law()
    ensures { (kernels : KernelsView) (lists : List (List Item)) (moves : List (ℕ × Symbol × ℕ)) → AreKernels kernels → AreListed kernels lists → ((s : ℕ) (x : Symbol) (next : ℕ) → Contains moves (s, x, next) ↔ LeadsTo kernels s x next) → AreKernelsAndMoves kernels.grammar lists moves }
{}
