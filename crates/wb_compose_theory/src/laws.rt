//! Laws of the definitions: what each says is proved, and there is nothing to run.

ghost use Rattle.std.specs.Prelude.{◌+◌, ◌≤◌, ℕ, List};
ghost use Rattle.wb_base.specs.Grammar.{GrammarView};
ghost use Rattle.wb_compose_theory.specs.Composable.{IsComposableExtensionIn, IsFitForParsingIn};
ghost use Rattle.wb_compose_theory.specs.Composed.{Composition, IsComposition};
ghost use Rattle.wb_compose_theory.specs.Derives.{AreProductiveIn};
ghost use Rattle.wb_compose_theory.specs.Example.{example};
ghost use Rattle.wb_compose_theory.specs.Homes.{AreComposableApart};
ghost use Rattle.wb_compose_theory.specs.Laws.{AreTogether, HasHostLookaheads, HasOneHome, HasPartLookaheads};
ghost use Rattle.wb_compose_theory.specs.NumberLaws.{AreTogetherIn, HasHostKernels, HasNamesOnce};
ghost use Rattle.wb_compose_theory.specs.Laws.{HasTwins, HasValidTwins, IsDeterministicUnion};
ghost use Rattle.wb_compose_theory.specs.NumberLaws.{IsDeterministicComposition, IsSameBut, IsSpreadOnce};
ghost use Rattle.wb_compose_theory.specs.Laws.{KeepsHostTerminals};
ghost use Rattle.wb_compose_theory.specs.NumberLaws.{KeepsHostTerminalsOf};
ghost use Rattle.wb_compose_theory.specs.Marks.{IsMarked};
ghost use Rattle.wb_compose_theory.specs.Numbered.{IsComposable, KeepsKernelLookaheads, KeepsLookaheads};
ghost use Rattle.wb_compose_theory.specs.Renamings.{Renaming};
ghost use Rattle.wb_compose_theory.specs.Seams.{AreNumberings, IsNumbering};
ghost use Rattle.wb_compose_theory.specs.Worlds.{World, Part, plus, alone, both};

/// The union of a host and extensions that are certified apart is reduced, and has no unit cycle, no hidden left recursion and no conflict.
pub fn tables_law()
    ensures { (w : World) (n : ℕ) → IsMarked w → AreComposableApart w n → IsDeterministicUnion w n }
{}

/// At each prefix of the host the valid terminals of the union are, besides markers, those of the host.
pub fn expected_law()
    ensures { (w : World) (n : ℕ) → IsMarked w → AreComposableApart w n → KeepsHostTerminals w n }
{}

/// The lookaheads of the union are, up to markers, those of the certified grammars that have the kernel.
pub fn lookaheads_law()
    ensures { (w : World) (n : ℕ) → IsMarked w → AreComposableApart w n → HasPartLookaheads w n }
{}

/// Where the kernel is one of the host with holes, they are those of that grammar; where it has an item of an extension, only the grammar
/// with that extension has the kernel.
pub fn cases_law()
    ensures of_host { (w : World) (n : ℕ) → IsMarked w → AreComposableApart w n → HasHostLookaheads w n }
    ensures of_extension { (w : World) (n : ℕ) → IsMarked w → HasOneHome w n }
{}

/// What is valid with a marker or a hole is valid with each other one of the part on the same nonterminal; and where the one is valid, the
/// other is, whether it can be shifted there or is a lookahead.
pub fn twins_law()
    ensures items { (w : World) (part : Part) → IsMarked w → HasTwins w part }
    ensures terminals { (w : World) (part : Part) → IsMarked w → HasValidTwins w part }
{}

/// Two terminals that are valid at a prefix of the union are valid together, up to markers, in a certified grammar with the kernel or in an
/// envelope.
pub fn lexical_law()
    ensures { (w : World) (n : ℕ) → IsMarked w → AreComposableApart w n → AreTogether w n }
{}

/// The premises can be met: a small host and two extensions meet them.
pub fn example_law()
    ensures { IsMarked example × AreComposableApart example 2 }
{}

/// Valid items, kernels, lookaheads and valid terminals don't depend on the numbers of symbols and productions.
pub fn renaming_law()
    ensures { (g : GrammarView) (w : World) (part : Part) (r : Renaming) → IsNumbering g w part r → IsSameBut g w part r }
{}

/// Each prefix of a host with holes has the same kernel with an extension; so the lookahead rule by kernels is the lookahead rule.
pub fn kernels_law()
    ensures same { (g k : GrammarView) (up : Renaming) (phi_of : ℕ → ℕ) (w : World) (e : ℕ) (r s : Renaming) → AreNumberings g k up phi_of w e r s → IsMarked w → AreProductiveIn w plus → AreProductiveIn w (both e) → HasHostKernels g k up }
    ensures lookaheads { (g k : GrammarView) (up : Renaming) (phi_of : ℕ → ℕ) (w : World) (e : ℕ) (r s : Renaming) → AreNumberings g k up phi_of w e r s → IsMarked w → AreProductiveIn w plus → AreProductiveIn w (both e) → KeepsKernelLookaheads g k up phi_of → KeepsLookaheads g k up phi_of }
{}

/// An extension that is certified in numbers is certified in the world.
pub fn seam_law()
    ensures { (g k : GrammarView) (up : Renaming) (phi_of : ℕ → ℕ) (w : World) (e : ℕ) (r s : Renaming) → AreNumberings g k up phi_of w e r s → IsMarked w → IsComposable g k up phi_of → IsFitForParsingIn w (alone e) (both e) → IsComposableExtensionIn w e }
{}

/// What is certified in numbers is certified in the world, and the union is reduced, and has no unit cycle, no hidden left recursion and no
/// conflict, in its own numbers.
pub fn composed_law()
    ensures certified { (w : World) (n : ℕ) (c : Composition) → IsComposition w n c → AreComposableApart w n }
    ensures deterministic { (w : World) (n : ℕ) (c : Composition) → IsComposition w n c → IsDeterministicComposition c }
{}

/// In numbers: at a prefix of the host the valid terminals of the union are, besides markers, those of the host; and two terminals that are
/// valid together in the union are so, up to markers, in one of the certified grammars or in an envelope.
pub fn terminals_law()
    ensures host { (w : World) (n : ℕ) (c : Composition) → IsComposition w n c → KeepsHostTerminalsOf w c }
    ensures together { (w : World) (n : ℕ) (c : Composition) → IsComposition w n c → AreTogetherIn w n c }
{}

/// Numbers in blocks, one after another, have different names; so do those of a host with one extension among those of the host with all.
pub fn blocks_law()
    ensures names { (k : ℕ) (sizes : List ℕ) → HasNamesOnce k sizes }
    ensures spread { (own before size total : ℕ) → before + size ≤ total → IsSpreadOnce own before size total }
{}
