//! Laws of the definitions: what each says is proved, and there is nothing to run.

ghost use Rattle.std.specs.Prelude.{ℕ, List};
ghost use Rattle.wb_base.specs.Grammar.{GrammarView};
ghost use Rattle.wb_compose_theory.specs.Composed.{Composition, IsComposition};
ghost use Rattle.wb_compose_theory.specs.Homes.{AreComposableApart};
ghost use Rattle.wb_compose_theory.specs.Marks.{IsMarked};
ghost use Rattle.wb_compose_theory.specs.Worlds.{World};
ghost use Rattle.wb_compose_theory_grammar.specs.Certificates.{AreCertified};
ghost use Rattle.wb_compose_theory_grammar.specs.Pieces.{Piece};
ghost use Rattle.wb_compose_theory_layout.specs.Extensions.{HasHeld};
ghost use Rattle.wb_compose_theory_layout.specs.Numbers.{HasHoldersIn};
ghost use Rattle.wb_compose_theory_layout.specs.Worlds.{HasHolders};

/// Each prefix of the union has the kernel of a certified grammar. Where that holds an item of an extension, it holds none of another, and
/// what is valid there is, up to markers, valid in the grammar with that extension, at a prefix with this kernel.
pub fn holders_law()
    ensures world { (w : World) (n : ℕ) → IsMarked w → AreComposableApart w n → HasHolders w n }
    ensures numbers { (w : World) (n : ℕ) (c : Composition) → IsComposition w n c → HasHoldersIn w n c }
{}

/// Where a kernel of the union holds an item of an extension, it holds none of another; what is valid there is valid in the grammar with the
/// extension where its kernel holds one; and of another extension nothing is but its markers.
pub fn held_law()
    ensures { (host : GrammarView) (extensible : List ℕ) (pieces : List Piece) → AreCertified host extensible pieces → HasHeld host extensible pieces }
{}
