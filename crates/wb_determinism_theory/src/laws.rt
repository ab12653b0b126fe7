//! Laws of the definitions: what each says is proved, and there is nothing to run.

ghost use Rattle.std.specs.Prelude.{◌≡◌, ◌⊎◌, ◌↔◌, ◌<◌, ◌≤◌, ◌++◌, ◌∷◌, [], ℕ, Bool, IsTrue, List};
ghost use Rattle.wb_base.specs.declared.symbol.Symbol.{Symbol};
ghost use Rattle.wb_base.specs.declared.symbol.Symbol.TheVariants.{Terminal, Nonterminal};
ghost use Rattle.wb_grammar_theory.specs.declared.item.Item.{Item};
ghost use Rattle.wb_grammar_theory.specs.Items.{advance, initial_item};
ghost use Rattle.wb_compose_theory.specs.Composable.{KeepsLookaheadsIn};
ghost use Rattle.wb_compose_theory.specs.Derives.{IsFirstIn};
ghost use Rattle.wb_compose_theory.specs.Items.{HasItemIn, IsKernelItemIn, IsViablePrefixIn, SameKernelIn, after_dot_in};
ghost use Rattle.wb_compose_theory.specs.Lookaheads.{IsLookaheadIn};
ghost use Rattle.wb_compose_theory.specs.Marks.{IsMarked};
ghost use Rattle.wb_compose_theory.specs.Worlds.{World, Part, on, plus, both, IsProductionIn};
ghost use Rattle.wb_base.specs.Grammar.{GrammarView};
ghost use Rattle.wb_grammar_theory.specs.Lookaheads.{IsLookahead};
ghost use Rattle.wb_grammar_theory.specs.Shape.{IsLive, IsReduced};
ghost use Rattle.wb_grammar_theory.specs.States.{AreStates, IsNext};
ghost use Rattle.wb_marking_holes.specs.Holes.{with_holes_of};
ghost use Rattle.wb_compose_theory.specs.Numbered.{IsHostKernel, KeepsKernelLookaheads};
ghost use Rattle.wb_compose_theory.specs.Renamings.{Renaming};
ghost use Rattle.wb_compose_theory_grammar.specs.Numberings.{phi_of, up_of};
ghost use Rattle.wb_compose_theory_grammar.specs.Pieces.{ArePieces, Piece};
ghost use Rattle.wb_determinism_theory.specs.Beside.{AreFound, AreHostFirst, HasNumberOf, IsBeside, IsKeptBeside, IsKnown, IsSpreadOver};
ghost use Rattle.wb_determinism_contexts.specs.Considered.{HasNoClashAt, IsClashAt, LexiconView};
ghost use Rattle.wb_determinism_theory.specs.Lexicons.{AreMarkersTold, ExtendsLexicon};
ghost use Rattle.wb_determinism_theory.specs.Tested.{IsTested};
ghost use Rattle.wb_determinism_theory.specs.Spreads.{Spreads, StaysKnown};
ghost use Rattle.wb_grammar_theory.specs.Items.{IsViablePrefix};
ghost use Rattle.wb_determinism_theory.specs.Known.{IsCrossing, IsMarkerOf, KeepsAt};
ghost use Rattle.wb_determinism_theory.specs.Reached.{AreOnce, AreReached, HasNumber};
ghost use Rattle.wb_determinism_theory.specs.Spread.{IsSpread, LeadsIn};
ghost use Rattle.wb_determinism_theory.specs.Laws.{AreMarkersClear, HasNoClashIn, IsKept, IsKnownAt, IsPrepared, Lexicon};

/// At a kernel of the host with holes the host's sets, each hole with the markers beside it and each bridge with its hole's set, are true with
/// the extension, and closed but for moves over markers.
pub fn known_law()
    ensures { (w : World) (e : ℕ) → IsPrepared w e → (other prefix : List Symbol) → SameKernelIn w plus other (both e) prefix → IsKnownAt w e other prefix }
{}

/// Where the lookahead rule holds at a kernel of the host with holes, these are its lookaheads, and it has no conflict and no clash.
pub fn kept_law()
    ensures rule { (w : World) (e : ℕ) → IsPrepared w e → KeepsLookaheadsIn w e → (other prefix : List Symbol) → SameKernelIn w plus other (both e) prefix → KeepsAt w e other prefix }
    ensures kept { (w : World) (e : ℕ) → IsPrepared w e → (other prefix : List Symbol) → SameKernelIn w plus other (both e) prefix → KeepsAt w e other prefix → IsKept w e other prefix }
    ensures clash { (w : World) (e : ℕ) → IsPrepared w e → (l : Lexicon) → AreMarkersClear w e l → (other prefix : List Symbol) → SameKernelIn w plus other (both e) prefix → KeepsAt w e other prefix → HasNoClashIn w e plus l other → HasNoClashIn w e (both e) l prefix }
{}

/// Each prefix of the host with holes has the same kernel with the extension; each other prefix goes through a marker; the kernel after a
/// marker is one item, wherever that is; and what is found from markers on, with the host's kernels, are all.
pub fn reached_law()
    ensures same { (w : World) (e : ℕ) → IsPrepared w e → (prefix : List Symbol) → IsViablePrefixIn w plus prefix → SameKernelIn w plus prefix (both e) prefix }
    ensures split { (w : World) (e : ℕ) → IsPrepared w e → (prefix : List Symbol) → IsViablePrefixIn w (both e) prefix → IsViablePrefixIn w plus prefix ⊎ IsCrossing w e prefix }
    ensures marker { (w : World) (e : ℕ) → IsPrepared w e → (prefix : List Symbol) (m h : ℕ) → w.mark m ≡ on h → IsViablePrefixIn w (both e) (prefix ++ Terminal m ∷ []) → (item : Item) → IsKernelItemIn w (both e) (prefix ++ Terminal m ∷ []) item ↔ (item ≡ advance (initial_item (w.production_of m))) }
    ensures all { (w : World) (e own count : ℕ) (prefix_of : ℕ → List Symbol) → IsPrepared w e → AreReached w e own count prefix_of → (prefix : List Symbol) → IsViablePrefixIn w (both e) prefix → HasNumber w e count prefix_of prefix }
{}

/// Sets that begin with what is known at the host's kernels, and are spread from markers on at the others, are the lookaheads, and then the
/// lookahead rule holds.
pub fn spread_law()
    ensures exact { (w : World) (e own count : ℕ) (prefix_of : ℕ → List Symbol) (set : ℕ → Item → ℕ → Bool) → IsPrepared w e → AreReached w e own count prefix_of → AreOnce w e count prefix_of → IsSpread w e own count prefix_of set → (s : ℕ) → s < count → (i : Item) (t : ℕ) → IsTrue (set s i t) ↔ IsLookaheadIn w (both e) (prefix_of s) i t }
    ensures rule { (w : World) (e own count : ℕ) (prefix_of : ℕ → List Symbol) (set : ℕ → Item → ℕ → Bool) → IsPrepared w e → AreReached w e own count prefix_of → AreOnce w e count prefix_of → IsSpread w e own count prefix_of set → KeepsLookaheadsIn w e }
{}

/// What a step adds to true sets is true.
pub fn steps_law()
    ensures closes { (w : World) (e : ℕ) → IsPrepared w e → (prefix : List Symbol) (i : Item) (t b : ℕ) (rest : List Symbol) (q u : ℕ) → IsLookaheadIn w (both e) prefix i t → after_dot_in w i ≡ Nonterminal b ∷ rest → IsProductionIn w (both e) q → w.left q ≡ b → IsFirstIn w (both e) (rest ++ Terminal t ∷ []) u → IsLookaheadIn w (both e) prefix (initial_item q) u }
    ensures moves { (w : World) (e : ℕ) → IsPrepared w e → (prefix to : List Symbol) (i : Item) (t : ℕ) (x : Symbol) (rest : List Symbol) → IsLookaheadIn w (both e) prefix i t → after_dot_in w i ≡ x ∷ rest → SameKernelIn w (both e) to (both e) (prefix ++ x ∷ []) → IsLookaheadIn w (both e) to (advance i) t }
{}

/// The same in numbers, for a host and an extension that are reduced: what is known at the host's kernels is true and closed; and where the
/// lookahead rule holds there, it is all, and there is no conflict there.
pub fn beside_law()
    ensures known { (host : GrammarView) (extensible : List ℕ) (x : Piece) → ArePieces host extensible (x ∷ []) → IsReduced host → IsReduced x.grammar → IsBeside (with_holes_of host extensible) (with_holes_of x.grammar extensible) (up_of host x.grammar) (phi_of extensible x) }
    ensures kept { (host : GrammarView) (extensible : List ℕ) (x : Piece) → ArePieces host extensible (x ∷ []) → IsReduced host → IsReduced x.grammar → KeepsKernelLookaheads (with_holes_of host extensible) (with_holes_of x.grammar extensible) (up_of host x.grammar) (phi_of extensible x) → IsKeptBeside (with_holes_of host extensible) (with_holes_of x.grammar extensible) (up_of host x.grammar) (phi_of extensible x) }
{}

/// Sets that begin with what is known at the numbers of the host's kernels, and are spread from markers on at the others, are the lookaheads,
/// and then the lookahead rule holds.
pub fn over_law()
    ensures exact { (g k : GrammarView) (up : Renaming) (phi : ℕ → ℕ) (own count : ℕ) (prefix_of host_of : ℕ → List Symbol) (set : ℕ → Item → ℕ → Bool) → IsBeside g k up phi → IsLive g → IsLive k → AreStates k count prefix_of (IsNext k count prefix_of) → IsSpreadOver g k up phi own count prefix_of host_of set → (s : ℕ) → s < count → (i : Item) (t : ℕ) → IsTrue (set s i t) ↔ IsLookahead k (prefix_of s) i t }
    ensures rule { (g k : GrammarView) (up : Renaming) (phi : ℕ → ℕ) (own count : ℕ) (prefix_of host_of : ℕ → List Symbol) (set : ℕ → Item → ℕ → Bool) → IsBeside g k up phi → IsLive g → IsLive k → AreStates k count prefix_of (IsNext k count prefix_of) → IsSpreadOver g k up phi own count prefix_of host_of set → KeepsKernelLookaheads g k up phi }
{}

/// What is found from markers on, with the host's kernels, are all kernels.
pub fn found_law()
    ensures { (g k : GrammarView) (up : Renaming) (phi : ℕ → ℕ) (own count : ℕ) (prefix_of host_of : ℕ → List Symbol) → IsBeside g k up phi → IsLive k → AreFound g k up phi own count prefix_of host_of → (prefix : List Symbol) → IsViablePrefix k prefix → HasNumberOf g k up phi count prefix_of prefix }
{}

/// Where the lookahead rule holds, sets that are the lookaheads are spread so: the premises of `over_law` hold exactly where what they give does.
pub fn met_law()
    ensures { (g k : GrammarView) (up : Renaming) (phi : ℕ → ℕ) (own count : ℕ) (prefix_of host_of : ℕ → List Symbol) (set : ℕ → Item → ℕ → Bool) → IsBeside g k up phi → IsKeptBeside g k up phi → IsLive k → AreHostFirst g k up phi own count prefix_of host_of → ((s : ℕ) → s < count → (i : Item) (t : ℕ) → IsTrue (set s i t) ↔ IsLookahead k (prefix_of s) i t) → IsSpreadOver g k up phi own count prefix_of host_of set }
{}

/// The lookaheads are what is known at the host's kernels and what spreads from markers on; and the lookahead rule holds exactly where nothing
/// spreads back to a kernel of the host that isn't known there.
pub fn spreads_law()
    ensures exact { (g k : GrammarView) (up : Renaming) (phi : ℕ → ℕ) (own count : ℕ) (prefix_of host_of : ℕ → List Symbol) → IsBeside g k up phi → IsLive g → IsLive k → AreStates k count prefix_of (IsNext k count prefix_of) → AreHostFirst g k up phi own count prefix_of host_of → (s : ℕ) → s < count → (i : Item) (t : ℕ) → IsLookahead k (prefix_of s) i t ↔ (((s < own) × IsKnown g k up phi (host_of s) i t) ⊎ Spreads g k up phi own count prefix_of host_of s i t) }
    ensures rule { (g k : GrammarView) (up : Renaming) (phi : ℕ → ℕ) (own count : ℕ) (prefix_of host_of : ℕ → List Symbol) → IsBeside g k up phi → IsLive g → IsLive k → AreStates k count prefix_of (IsNext k count prefix_of) → AreHostFirst g k up phi own count prefix_of host_of → StaysKnown g k up phi own count prefix_of host_of → KeepsKernelLookaheads g k up phi }
    ensures only { (g k : GrammarView) (up : Renaming) (phi : ℕ → ℕ) (own count : ℕ) (prefix_of host_of : ℕ → List Symbol) → IsBeside g k up phi → IsLive g → IsLive k → AreStates k count prefix_of (IsNext k count prefix_of) → AreHostFirst g k up phi own count prefix_of host_of → IsKeptBeside g k up phi → StaysKnown g k up phi own count prefix_of host_of }
{}

/// Where the lookahead rule holds, a host that has no clash has none at its kernels with the extension, if each marker that shares a text with
/// something scanned beside it is ordered against that by a preference.
pub fn scanner_law()
    ensures { (g k : GrammarView) (up : Renaming) (phi : ℕ → ℕ) (l n : LexiconView) → IsKeptBeside g k up phi → ExtendsLexicon l n up phi → AreMarkersTold l n up phi → HasNoClashAt g l → (prefix other : List Symbol) → IsHostKernel g k up prefix other → IsViablePrefix g other → (left right : ℕ) (text : List ℕ) → ¬ IsClashAt k n prefix left right text }
{}

/// After a marker or a hole the lookaheads are those before it at all prefixes together: so what a marker brings from all kernels of the host
/// is what the host has after the hole.
pub fn crossing_law()
    ensures { (w : World) (part : Part) → IsMarked w → (prefix : List Symbol) (m h : ℕ) → w.mark m ≡ on h → HasItemIn w part prefix (initial_item (w.production_of m)) → (t : ℕ) → IsLookaheadIn w part (prefix ++ Terminal m ∷ []) (advance (initial_item (w.production_of m))) t ↔ ((other : List Symbol) × IsLookaheadIn w part other (initial_item (w.production_of m)) t) }
{}

/// The same for sets at the new numbers alone: markers bring what the host has, and what comes back to a kernel of the host must be known there.
pub fn tested_law()
    ensures host { (g k : GrammarView) (up : Renaming) (phi : ℕ → ℕ) (own count : ℕ) (prefix_of host_of : ℕ → List Symbol) (set : ℕ → Item → ℕ → Bool) → IsBeside g k up phi → IsLive g → IsLive k → AreStates k count prefix_of (IsNext k count prefix_of) → AreHostFirst g k up phi own count prefix_of host_of → IsTested g k up phi own count prefix_of host_of set → (s : ℕ) → s < own → (i : Item) (t : ℕ) → IsLookahead k (prefix_of s) i t ↔ IsKnown g k up phi (host_of s) i t }
    ensures new { (g k : GrammarView) (up : Renaming) (phi : ℕ → ℕ) (own count : ℕ) (prefix_of host_of : ℕ → List Symbol) (set : ℕ → Item → ℕ → Bool) → IsBeside g k up phi → IsLive g → IsLive k → AreStates k count prefix_of (IsNext k count prefix_of) → AreHostFirst g k up phi own count prefix_of host_of → IsTested g k up phi own count prefix_of host_of set → (s : ℕ) → own ≤ s → s < count → (i : Item) (t : ℕ) → IsLookahead k (prefix_of s) i t ↔ IsTrue (set s i t) }
    ensures rule { (g k : GrammarView) (up : Renaming) (phi : ℕ → ℕ) (own count : ℕ) (prefix_of host_of : ℕ → List Symbol) (set : ℕ → Item → ℕ → Bool) → IsBeside g k up phi → IsLive g → IsLive k → AreStates k count prefix_of (IsNext k count prefix_of) → AreHostFirst g k up phi own count prefix_of host_of → IsTested g k up phi own count prefix_of host_of set → KeepsKernelLookaheads g k up phi }
{}
