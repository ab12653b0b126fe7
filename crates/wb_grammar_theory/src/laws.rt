//! Laws of the definitions: what each says is proved, and there is nothing to run.

ghost use Rattle.std.specs.Prelude.{◌≡◌, ℕ, ◌++◌, ◌∷◌, [], ◌↔◌, ◌⊎◌, ◌<◌, List, Contains};
ghost use Rattle.wb_base.specs.declared.symbol.Symbol.{Symbol};
ghost use Rattle.wb_base.specs.declared.symbol.Symbol.TheVariants.{Nonterminal};
ghost use Rattle.wb_base.specs.Grammar.{GrammarView, IsGrammar};
ghost use Rattle.wb_grammar_theory.specs.declared.item.Item.{Item};
ghost use Rattle.wb_grammar_theory.specs.Productions.{top_of, end_of};
ghost use Rattle.wb_grammar_theory.specs.Derives.{Derives, IsFirst, Steps, DerivesInSteps, IsText};
ghost use Rattle.wb_grammar_theory.specs.Trees.{Forest, Leaf, leaves, text_of, IsTree, LeftContext, DerivationTree, end_leaf, leaves_of};
ghost use Rattle.wb_grammar_theory.specs.Cycles.{DerivesItself, IsUnitProduction, IsHiddenLeftRecursive, IsUnitCycle, IsHiddenCycle};
ghost use Rattle.wb_grammar_theory.specs.Walks.{Walk, HiddenWalk};
ghost use Rattle.wb_grammar_theory.specs.Shape.{IsReduced, IsLive};
ghost use Rattle.wb_grammar_theory.specs.Items.{IsKernelItem, HasItem, IsViablePrefix, SameKernel};
ghost use Rattle.wb_grammar_theory.specs.Closure.{InClosure, MovesTo};
ghost use Rattle.wb_grammar_theory.specs.Lookaheads.{IsLookahead, CanShift, CanReduce, IsValidTerminal, HasConflict};
ghost use Rattle.wb_grammar_theory.specs.States.{AreStates, IsNext, Flows};

/// Derivations are those by single steps, each of which replaces one nonterminal.
pub fn steps_law()
    ensures { (g : GrammarView) (w v : List Symbol) → Derives g w v ↔ Steps g w v }
{}

/// What begins what a joined list derives begins what its first part derives, or that part derives nothing and it begins what the rest
/// derives.
pub fn first_law()
    ensures { (g : GrammarView) (u v : List Symbol) (t : ℕ) → IsFirst g (u ++ v) t ↔ (IsFirst g u t ⊎ (Derives g u [] × IsFirst g v t)) }
{}

/// A nonterminal derives exactly the texts of its trees.
pub fn trees_law()
    ensures tree { (g : GrammarView) (a : ℕ) (tree : Forest) → IsTree g a tree → Derives g (Nonterminal a ∷ []) (text_of (leaves [] tree)) }
    ensures derived { (g : GrammarView) (a : ℕ) (v : List Symbol) → Derives g (Nonterminal a ∷ []) v → IsText v → (tree : Forest) × IsTree g a tree × (text_of (leaves [] tree) ≡ v) }
{}

/// The leaves of a tree are exactly those that a path from its root leads to, each with the symbols left of that path.
pub fn contexts_law()
    ensures { (tree : Forest) (x : Leaf) → LeftContext tree x ↔ Contains (leaves [] tree) x }
{}

/// What a viable prefix begins with is a viable prefix.
pub fn prefix_law()
    ensures { (g : GrammarView) (front rest : List Symbol) → IsViablePrefix g (front ++ rest) → IsViablePrefix g front }
{}

/// A nonterminal derives itself exactly where single steps, at least one, lead from it back to it.
pub fn unit_steps_law()
    ensures { (g : GrammarView) (a : ℕ) → DerivesItself g a ↔ DerivesInSteps g (Nonterminal a ∷ []) (Nonterminal a ∷ []) }
{}

/// A nonterminal derives itself exactly where productions lead from it back to it, with all beside them empty.
pub fn unit_walk_law()
    ensures { (g : GrammarView) (a : ℕ) → DerivesItself g a ↔ Walk (IsUnitProduction g) a a }
{}

/// A nonterminal derives itself exactly where it is in a unit cycle.
pub fn unit_cycle_law()
    ensures { (g : GrammarView) (a : ℕ) → DerivesItself g a ↔ ((list : List ℕ) × IsUnitCycle g list × Contains list a) }
{}

/// A nonterminal is hidden left recursive exactly where left corners lead from it back to it, one of them hidden.
pub fn hidden_left_recursion_law()
    ensures { (g : GrammarView) (a : ℕ) → IsHiddenLeftRecursive g a ↔ HiddenWalk g a a }
{}

/// A nonterminal is hidden left recursive exactly where it is in a cycle of left corners that shows it.
pub fn hidden_cycle_law()
    ensures { (g : GrammarView) (a : ℕ) → IsHiddenLeftRecursive g a ↔ ((list : List ℕ) × IsHiddenCycle g list × Contains list a) }
{}

/// A reduced grammar is live: some terminal begins whatever is after a dot.
pub fn live_law()
    ensures { (g : GrammarView) → IsGrammar g → IsReduced g → IsLive g }
{}

/// Each leaf of a derivation tree can be shifted at its left context, and `S' -> S` can be reduced before the end at the start alone; so
/// each leaf's terminal, the end too, is valid at its context.
pub fn shift_law()
    ensures leaf { (g : GrammarView) (tree : Forest) → DerivationTree g tree → (x : Leaf) → Contains (leaves [] tree) x → CanShift g x.context x.terminal }
    ensures end { (g : GrammarView) → CanReduce g (end_leaf g).context (top_of g) (end_leaf g).terminal }
    ensures valid { (g : GrammarView) (tree : Forest) → DerivationTree g tree → (x : Leaf) → Contains (leaves_of g tree) x → IsValidTerminal g x.context x.terminal }
{}

/// The end alone is a lookahead of an item of `S' -> S`.
pub fn end_law()
    ensures { (g : GrammarView) (prefix : List Symbol) (item : Item) (t : ℕ) → item.production ≡ top_of g → IsLookahead g prefix item t → t ≡ end_of g }
{}

/// In a live grammar the items of a prefix are the closure of its kernel.
pub fn closure_law()
    ensures { (g : GrammarView) → IsLive g → (prefix : List Symbol) (item : Item) → HasItem g prefix item ↔ InClosure g (IsKernelItem g prefix) item }
{}

/// In a live grammar the kernel after one more symbol is that of the moves over the symbol.
///
/// In one that isn't live an item may move over a symbol from the closure of a kernel although no list of symbols has it.
pub fn moves_law()
    ensures { (g : GrammarView) → IsLive g → (prefix : List Symbol) (x : Symbol) (moved : Item) → IsKernelItem g (prefix ++ x ∷ []) moved ↔ MovesTo g (IsKernelItem g prefix) x moved }
{}

/// In a live grammar prefixes with the same kernel have the same valid terminals and the same conflicts.
pub fn valid_law()
    ensures valid { (g : GrammarView) → IsLive g → (prefix other : List Symbol) → SameKernel g prefix other → (t : ℕ) → IsValidTerminal g prefix t ↔ IsValidTerminal g other t }
    ensures conflict { (g : GrammarView) → IsLive g → (prefix other : List Symbol) → SameKernel g prefix other → (t : ℕ) → HasConflict g prefix t ↔ HasConflict g other t }
{}

/// In a live grammar what flows between the numbered kernels of its prefixes, each of which has one number, are the lookaheads.
pub fn flows_law()
    ensures { (g : GrammarView) → IsLive g → (count : ℕ) (prefix_of : ℕ → List Symbol) → AreStates g count prefix_of (IsNext g count prefix_of) → (s : ℕ) → s < count → (item : Item) (t : ℕ) → Flows g (IsNext g count prefix_of) s item t ↔ IsLookahead g (prefix_of s) item t }
{}
