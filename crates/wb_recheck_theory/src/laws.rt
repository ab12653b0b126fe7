//! Laws of certificates: what each says is proved, and there is nothing to run.

ghost use Rattle.std.specs.Prelude.{◌≡◌, ℕ, suc, ◌<◌, [], ◌++◌, ◌∷◌, ◌↔◌, List, Some, Contains, length, slice_get};
ghost use Rattle.wb_base.specs.declared.symbol.Symbol.{Symbol};
ghost use Rattle.wb_base.specs.Grammar.{GrammarView};
ghost use Rattle.wb_grammar_theory.specs.declared.item.Item.{Item};
ghost use Rattle.wb_grammar_theory.specs.Shape.{IsLive};
ghost use Rattle.wb_grammar_theory.specs.Items.{HasItem, IsKernelItem, start_item};
ghost use Rattle.wb_grammar_theory.specs.Closure.{InClosure, MovesTo};
ghost use Rattle.wb_grammar_theory.specs.Lookaheads.{IsLookahead};
ghost use Rattle.wb_grammar_theory.specs.States.{AreStates, IsNext};
ghost use Rattle.wb_recheck_theory.specs.declared.line.Line.{Line};
ghost use Rattle.wb_recheck_theory.specs.declared.entry.Entry.{Entry};
ghost use Rattle.wb_recheck_theory.specs.Lines.{kernel_count, IsItemAt, IsKernelItemAt, AreGoodLines, AreMovesListed, prefix_at};
ghost use Rattle.wb_recheck_theory.specs.Entries.{AreFollowersListed, IsGoodEntry, IsListed};
ghost use Rattle.wb_recheck_theory.specs.Certificates.{IsCertificate};
ghost use Rattle.wb_recheck_theory.specs.KernelLists.{AreKernelsAndMoves, AreListsOfLines, AreMovesOfLines, IsFoundAt, IsKernelOf};
ghost use Rattle.wb_recheck_theory.specs.Examples.{one, one_lines, one_entries, one_entries_with, one_last, dead, dead_lines, dead_entries};

/// Kernel 0 has the start item alone, the kernel of a line is the move that the line names, and the items at a kernel are its closure.
pub fn items_law()
    ensures first { (g : GrammarView) (lines : List Line) (item : Item) → IsKernelItemAt g lines 0 item ↔ (item ≡ start_item g) }
    ensures moved { (g : GrammarView) (lines : List Line) (n : ℕ) (line : Line) → slice_get lines n ≡ Some line → (item : Item) → IsKernelItemAt g lines (suc n) item ↔ MovesTo g (IsKernelItemAt g lines line.from) line.symbol item }
    ensures closure { (g : GrammarView) (lines : List Line) (k : ℕ) (item : Item) → IsItemAt g lines k item ↔ InClosure g (IsKernelItemAt g lines k) item }
{}

/// In a live grammar good lines that list each move are the kernels of its prefixes, each once; so the lists of their items are exactly
/// these kernels, and the moves between them exactly the moves. Each line is one of these moves, from an earlier kernel.
pub fn lines_law()
    ensures states { (g : GrammarView) → IsLive g → (lines : List Line) → AreGoodLines g lines → AreMovesListed g lines → AreStates g (kernel_count lines) (prefix_at lines) (IsNext g (kernel_count lines) (prefix_at lines)) }
    ensures lists { (g : GrammarView) → IsLive g → (lines : List Line) → AreGoodLines g lines → AreMovesListed g lines → (kernels : List (List Item)) (moves : List (ℕ × Symbol × ℕ)) → AreListsOfLines g lines kernels moves → AreKernelsAndMoves g kernels moves }
    ensures moves { (g : GrammarView) (lines : List Line) → AreGoodLines g lines → (kernels : List (List Item)) (moves : List (ℕ × Symbol × ℕ)) → AreListsOfLines g lines kernels moves → AreMovesOfLines moves lines }
{}

/// In a live grammar a certificate lists exactly the kernels of its prefixes, each once, with their items, and exactly their lookaheads.
pub fn certificate_law()
    ensures kernels { (g : GrammarView) → IsLive g → (lines : List Line) (entries : List Entry) → IsCertificate g lines entries → AreStates g (kernel_count lines) (prefix_at lines) (IsNext g (kernel_count lines) (prefix_at lines)) }
    ensures items { (g : GrammarView) → IsLive g → (lines : List Line) (entries : List Entry) → IsCertificate g lines entries → (k : ℕ) → k < kernel_count lines → (item : Item) → IsKernelItemAt g lines k item ↔ IsKernelItem g (prefix_at lines k) item }
    ensures entries { (g : GrammarView) → IsLive g → (lines : List Line) (entries : List Entry) → IsCertificate g lines entries → (k : ℕ) (item : Item) (t : ℕ) → IsListed entries k item t ↔ ((k < kernel_count lines) × IsLookahead g (prefix_at lines k) item t) }
{}

/// The grammar `S -> x` is live and has a certificate. Without its last entry what follows from the second isn't listed, and with another
/// origin the last isn't good.
pub fn one_law()
    ensures live { IsLive one }
    ensures certificate { IsCertificate one one_lines one_entries }
    ensures missing { ¬ AreFollowersListed one one_lines (one_entries_with []) 0 (record { production = 0; dot = 0 }) 1 }
    ensures origin { ¬ IsGoodEntry one one_lines (one_entries_with (one_last 0 ∷ [])) 3 (one_last 0) }
{}

/// In a grammar that isn't live a certificate may list a kernel of no prefix.
///
/// In `S -> C B`, `C -> c`, where B has no production, c moves from kernel 0 to `C -> c .`, which is valid for no prefix.
pub fn dead_law()
    ensures certificate { IsCertificate dead dead_lines dead_entries }
    ensures listed { IsKernelItemAt dead dead_lines 1 (record { production = 1; dot = 1 }) }
    ensures never { (prefix : List Symbol) → ¬ HasItem dead prefix (record { production = 1; dot = 1 }) }
    ensures not_live { ¬ IsLive dead }
{}

/// Where the kernels of a live grammar's prefixes are listed, each once, with exactly the moves between them, each is found along the moves
/// from the first. By whatever prefixes they are found, the kernels are those of these prefixes, and the moves are where symbols lead.
///
/// Where each kernel after the first has a line that is a move to it from an earlier one, the lines lead to such prefixes.
pub fn kernel_lists_law()
    ensures found { (g : GrammarView) → IsLive g → (kernels : List (List Item)) (moves : List (ℕ × Symbol × ℕ)) → AreKernelsAndMoves g kernels moves → (s : ℕ) → s < length kernels → (prefix : List Symbol) × IsFoundAt moves prefix s }
    ensures exact { (g : GrammarView) → IsLive g → (kernels : List (List Item)) (moves : List (ℕ × Symbol × ℕ)) → AreKernelsAndMoves g kernels moves → (prefix : List Symbol) (s : ℕ) → IsFoundAt moves prefix s → IsKernelOf g kernels s prefix }
    ensures states { (g : GrammarView) → IsLive g → (kernels : List (List Item)) (moves : List (ℕ × Symbol × ℕ)) → AreKernelsAndMoves g kernels moves → (prefix_of : ℕ → List Symbol) → ((s : ℕ) → s < length kernels → IsFoundAt moves (prefix_of s) s) → AreStates g (length kernels) prefix_of (λ s x next. Contains moves (s, x, next)) }
    ensures lines { (moves : List (ℕ × Symbol × ℕ)) (lines : List Line) → AreMovesOfLines moves lines → (k : ℕ) → k < kernel_count lines → IsFoundAt moves (prefix_at lines k) k }
{}
