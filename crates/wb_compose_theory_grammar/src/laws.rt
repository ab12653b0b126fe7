//! Laws of the definitions: what each says is proved, and there is nothing to run.

ghost use Rattle.std.specs.Prelude.{ℕ, Bool, List, [], ◌∷◌, length};
ghost use Rattle.wb_base.specs.Grammar.{GrammarView, IsGrammar};
ghost use Rattle.wb_grammar_theory.specs.Shape.{IsReduced};
ghost use Rattle.wb_compose_theory.specs.Composed.{IsComposition};
ghost use Rattle.wb_compose_theory.specs.Marks.{IsMarked};
ghost use Rattle.wb_compose_theory.specs.Renamings.{Renaming};
ghost use Rattle.wb_compose_theory_grammar.specs.Bridges.{AreMarkers, piece_of};
ghost use Rattle.wb_compose_theory_grammar.specs.Certificates.{AreCertified, IsCertifiedBy, IsCertifiedPiece};
ghost use Rattle.wb_compose_theory_grammar.specs.ChainExample.{HasMarkerAhead, HasNewKernel, chain_host, chain_piece};
ghost use Rattle.wb_compose_theory_grammar.specs.Example.{example_host, example_piece};
ghost use Rattle.wb_compose_theory_grammar.specs.Laws.{HasSameKernels, HasTogether, IsUnited, KeepsHost};
ghost use Rattle.wb_compose_theory_grammar.specs.Numberings.{composition_of};
ghost use Rattle.wb_compose_theory_grammar.specs.Pieces.{ArePieces, Extends, IsPiece, Piece};
ghost use Rattle.wb_compose_theory_grammar.specs.UnitedWorlds.{world_of};

/// A grammar that extends the host's, with markers each of which begins exactly one production and is nowhere else, is an extension of it.
pub fn piece_law()
    ensures { (host : GrammarView) (extensible : List ℕ) (g : GrammarView) (is_marker : ℕ → Bool) → AreMarkers host extensible g is_marker → IsGrammar g → Extends host g → IsPiece host extensible (piece_of g is_marker) }
{}

/// In the world of a host and its extensions names are used by those who may, and marks are where they may be.
pub fn world_law()
    ensures { (host : GrammarView) (extensible : List ℕ) (pieces : List Piece) → ArePieces host extensible pieces → IsMarked (world_of host extensible pieces) }
{}

/// A host and extensions that are certified, each with the host alone, are a composition in that world.
pub fn composition_law()
    ensures { (host : GrammarView) (extensible : List ℕ) (pieces : List Piece) → AreCertified host extensible pieces → IsComposition (world_of host extensible pieces) (length pieces) (composition_of host extensible pieces) }
{}

/// Their union is reduced, and has no unit cycle, no hidden left recursion and no conflict.
pub fn united_law()
    ensures { (host : GrammarView) (extensible : List ℕ) (pieces : List Piece) → AreCertified host extensible pieces → IsUnited host extensible pieces }
{}

/// At each prefix of the host the valid terminals of the union are, besides markers, those of the host.
pub fn host_law()
    ensures { (host : GrammarView) (extensible : List ℕ) (pieces : List Piece) → AreCertified host extensible pieces → KeepsHost host extensible pieces }
{}

/// Two terminals that are valid together in the union, no markers, or one a marker and the other of its extension, are so in one of the
/// certified grammars or in an envelope, and those of two extensions that are no markers never are.
pub fn together_law()
    ensures { (host : GrammarView) (extensible : List ℕ) (pieces : List Piece) → AreCertified host extensible pieces → HasTogether host extensible pieces }
{}

/// Each prefix of a reduced host has the same kernel with a reduced extension, so the lookahead rule by kernels is the lookahead rule.
pub fn kernels_law()
    ensures { (host : GrammarView) (extensible : List ℕ) (x : Piece) → ArePieces host extensible (x ∷ []) → IsReduced host → IsReduced x.grammar → HasSameKernels host extensible x }
{}

/// An extension is certified by any words for where numbers go that say the same, and by the lookahead rule at kernels.
pub fn certificate_law()
    ensures { (host : GrammarView) (extensible : List ℕ) (x : Piece) (up : Renaming) (phi : ℕ → ℕ) → ArePieces host extensible (x ∷ []) → IsReduced host → IsCertifiedBy host extensible x up phi → IsCertifiedPiece host extensible x }
{}

/// The premises can be met: a small host and two small extensions meet them.
pub fn example_law()
    ensures { AreCertified example_host (0 ∷ []) (example_piece ∷ example_piece ∷ []) }
{}

/// They are met by a host and extensions with all that the lookahead rule and the envelope rule speak of: a kernel of the host's items that
/// is none of the host's, and a marker as a lookahead at a kernel of the host.
pub fn chain_example_law()
    ensures certified { AreCertified chain_host (0 ∷ []) (chain_piece ∷ chain_piece ∷ []) }
    ensures new_kernel { HasNewKernel }
    ensures marker { HasMarkerAhead }
{}
