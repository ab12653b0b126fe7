//! Laws of the definitions: what each says is proved, and there is nothing to run.

ghost use Rattle.std.specs.Prelude.{◌≡◌, ◌+◌, ℕ, List, Option, [], ◌∷◌, length};
ghost use Rattle.wb_base.specs.Grammar.{GrammarView};
ghost use Rattle.wb_compose_theory_grammar.specs.Numberings.{phi_of};
ghost use Rattle.wb_compose_theory_grammar.specs.Pieces.{ArePieces};
ghost use Rattle.wb_determinism.specs.Images.{stands_for, AreImages};
ghost use Rattle.wb_determinism_host.specs.Lexicons.{lexicon_of};
ghost use Rattle.wb_determinism_kernels.specs.Numbers.{phi_by, up_by};
ghost use Rattle.wb_grammar_theory.specs.Shape.{IsReduced};
ghost use Rattle.wb_marking.specs.Clashes.{HasNoMarkerClash};
ghost use Rattle.wb_marking_holes.specs.Holes.{with_holes_of};
ghost use Rattle.wb_syntax_resolved.specs.declared.resolved.ResolvedParts.{ResolvedParts};
ghost use Rattle.wb_determinism_beside.specs.Given.{AreScannedBeside, IsPieceBeside, moved_beside, numbers_beside};
ghost use Rattle.wb_determinism_beside.specs.Pieces.{IsExtendedBy, piece_in};

/// An extension whose names are right, and which keeps the rules on bridges, is a piece beside its host: its grammar extends the host's, in
/// numbers, its markers are as they should be, what is extensible stays so, and what a terminal stands for is its image there.
pub fn pieces_law()
    ensures pieces { (host r : ResolvedParts) (h g : GrammarView) → IsExtendedBy host r h g → ArePieces h host.extensible (piece_in r g ∷ []) }
    ensures extensible { (host r : ResolvedParts) (h g : GrammarView) → IsExtendedBy host r h g → r.extensible ≡ host.extensible }
    ensures images { (host r : ResolvedParts) (h g : GrammarView) → IsExtendedBy host r h g → (t : ℕ) → stands_for r g t ≡ phi_of host.extensible (piece_in r g) t }
{}

/// Where besides no marker clashes, what is scanned with the extension is what the host scans and what the extension adds, and its markers
/// are told apart by preferences.
pub fn scanned_law()
    ensures { (host r : ResolvedParts) (h g : GrammarView) → IsExtendedBy host r h g → HasNoMarkerClash r → AreScannedBeside r g h (lexicon_of host h) }
{}

/// Where both grammars are reduced, all is given that finding new kernels and their lookaheads asks for, in the numbers that are tested and
/// with a table of what terminals stand for.
pub fn given_law()
    ensures { (host r : ResolvedParts) (h g : GrammarView) → IsExtendedBy host r h g → IsReduced h → IsReduced g → (images : List (Option ℕ)) → AreImages (numbers_beside r.extensible h g) (stands_for r g) (g.terminals + length r.extensible + 1) images → IsPieceBeside (with_holes_of h r.extensible) (with_holes_of g r.extensible) (up_by (moved_beside r.extensible h g)) (phi_by (moved_beside r.extensible h g) images) }
{}
