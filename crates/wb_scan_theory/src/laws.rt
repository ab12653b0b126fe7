//! Laws of the definitions: what each says is proved, and there is nothing to run.

ghost use Rattle.std.specs.Prelude.{◌≡◌, ◌≤◌, ◌↔◌, [], ℕ, List, length};
ghost use Rattle.wb_base.specs.declared.symbol.Symbol.{Symbol};
ghost use Rattle.wb_base.specs.Grammar.{GrammarView, IsGrammar};
ghost use Rattle.wb_grammar_theory.specs.Trees.{Forest, symbols, IsDerived, leaves, DerivationTree};
ghost use Rattle.wb_grammar_theory.specs.Items.{IsViablePrefix, SameKernel};
ghost use Rattle.wb_grammar_theory.specs.Lookaheads.{HasNoConflict};
ghost use Rattle.wb_grammar_theory.specs.Shape.{IsReduced};
ghost use Rattle.wb_items.specs.Kernels.{KernelsView, AreKernels};
ghost use Rattle.wb_lookahead.specs.Contents.{TablesView};
ghost use Rattle.wb_values.specs.Tree.{Tree};
ghost use Rattle.wb_values.specs.Signature.{Signature};
ghost use Rattle.wb_values.specs.Fits.{FitsTree};
ghost use Rattle.wb_scan_theory.specs.declared.stop_kind.StopKind.{StopKind};
ghost use Rattle.wb_scan_theory.specs.Languages.{LanguageView};
ghost use Rattle.wb_scan_theory.specs.Winners.{IsConsideredForm};
ghost use Rattle.wb_scan_theory.specs.Tokens.{Next, NextToken};
ghost use Rattle.wb_scan_theory.specs.Texts.{ParsesTo, StopsAt, HasAnswer};
ghost use Rattle.wb_scan_theory.specs.Facts.{IsLanguage, IsWritten, IsDeterministic, AreDecided, AreOrderedForms, HasOneWinner};
ghost use Rattle.wb_scan_theory.specs.Parts.{AreTablesOf, IsPrefixOf};
ghost use Rattle.wb_scan_theory.specs.Shown.{AgreesWith, Shows};
ghost use Rattle.wb_scan_theory.specs.Words.{words_of};
ghost use Rattle.wb_scan_theory.specs.Bounds.{IsSized, HasNoCycle, nodes, count, limit};

/// A text has at most one tree, at most one stop, and not both.
pub fn one_answer_law()
    ensures one_tree { (l : LanguageView) → IsLanguage l → (text : List ℕ) (tree other : Forest) → ParsesTo l text tree → ParsesTo l text other → tree ≡ other }
    ensures one_stop { (l : LanguageView) → IsLanguage l → (text : List ℕ) (place other : ℕ) (kind also : StopKind) → StopsAt l text place kind → StopsAt l text other also → (place ≡ other) × (kind ≡ also) }
    ensures not_both { (l : LanguageView) → IsLanguage l → (text : List ℕ) (tree : Forest) (place : ℕ) (kind : StopKind) → ParsesTo l text tree → ¬ StopsAt l text place kind }
{}

/// A text has a tree or a stop, in a language whose grammar has tables.
pub fn some_answer_law()
    ensures { (l : LanguageView) (tables : TablesView) → IsLanguage l → AreTablesOf l.grammar tables → (text : List ℕ) → HasAnswer l text }
{}

/// At a prefix and a place at most one thing is next. At a viable prefix, in a language whose grammar has tables, something is next at each
/// place of the text, its end among them.
pub fn next_law()
    ensures one { (l : LanguageView) → IsLanguage l → (text : List ℕ) (prefix : List Symbol) (at : ℕ) (next other : Next) → NextToken l text prefix at next → NextToken l text prefix at other → next ≡ other }
    ensures some { (l : LanguageView) (tables : TablesView) → IsLanguage l → AreTablesOf l.grammar tables → (text : List ℕ) (prefix : List Symbol) → IsViablePrefix l.grammar prefix → (at : ℕ) → at ≤ length text → (next : Next) × NextToken l text prefix at next }
{}

/// One form wins where of any two that match one piece one beats the other, and neither two nor three do so in a cycle.
pub fn winner_law()
    ensures { (l : LanguageView) (tables : TablesView) → IsWritten l → AreTablesOf l.grammar tables → AreDecided l → HasOneWinner l }
{}

/// Bare forms are decided where preferences form no cycle and order all that match one text.
pub fn bare_law()
    ensures { (l : LanguageView) → IsWritten l → AreOrderedForms l → AreDecided l }
{}

/// All prefixes of a state have one kernel, so that the same is considered at each of them, and each viable prefix is one of a state.
pub fn state_law()
    ensures kernel { (g : GrammarView) (tables : TablesView) (state : ℕ) (prefix other : List Symbol) → IsGrammar g → IsPrefixOf g tables state prefix → IsPrefixOf g tables state other → SameKernel g prefix other }
    ensures considered { (l : LanguageView) (tables : TablesView) (state : ℕ) (prefix other : List Symbol) → IsGrammar l.grammar → IsPrefixOf l.grammar tables state prefix → IsPrefixOf l.grammar tables state other → (place : ℕ) → IsConsideredForm l prefix place ↔ IsConsideredForm l other place }
    ensures every { (g : GrammarView) (tables : TablesView) → AreTablesOf g tables → (prefix : List Symbol) → IsViablePrefix g prefix → (state : ℕ) × IsPrefixOf g tables state prefix }
{}

/// A grammar without conflict gives each list of terminals with their texts at most one derivation tree.
pub fn unambiguous_law()
    ensures { (g : GrammarView) → HasNoConflict g → (tree other : Forest) → DerivationTree g tree → DerivationTree g other → words_of (leaves [] tree) ≡ words_of (leaves [] other) → tree ≡ other }
{}

/// A stack of trees whose symbols are a viable prefix has no more nodes than the limit of its leaves. Each reduction adds a node to it and
/// no leaf, so the reductions between two shifts end.
pub fn reductions_law()
    ensures { (g : GrammarView) (many wide : ℕ) → IsSized g many wide → HasNoCycle g → (stack : Forest) (m : ℕ) → IsDerived g stack → IsViablePrefix g (symbols stack) → count stack ≤ m → nodes stack ≤ limit many wide m }
{}

/// A derivation tree fits signatures that agree with its grammar.
pub fn fits_law()
    ensures { (signatures : List Signature) (g : GrammarView) → AgreesWith signatures g → (tree : Forest) → DerivationTree g tree → (value : Tree) → Shows value tree → FitsTree signatures value g.start }
{}

/// A reduced grammar has kernels: that there are none can't be.
pub fn kernels_law()
    ensures { (g : GrammarView) → IsGrammar g → IsReduced g → ¬ ¬ ((kernels : KernelsView) × AreKernels kernels × (kernels.grammar ≡ g)) }
{}

/// A reduced grammar without conflict has tables: that there are none can't be.
pub fn tables_law()
    ensures { (g : GrammarView) → IsGrammar g → IsReduced g → HasNoConflict g → ¬ ¬ ((tables : TablesView) × AreTablesOf g tables) }
{}

/// A text of a language has a tree or a stop, and something is next at each viable prefix and place: that there is nothing can't be. Where
/// forms are decided, one wins.
pub fn answer_law()
    ensures answer { (l : LanguageView) → IsLanguage l → (text : List ℕ) → ¬ ¬ HasAnswer l text }
    ensures next { (l : LanguageView) → IsLanguage l → (text : List ℕ) (prefix : List Symbol) → IsViablePrefix l.grammar prefix → (at : ℕ) → at ≤ length text → ¬ ¬ ((next : Next) × NextToken l text prefix at next) }
    ensures winner { (l : LanguageView) → IsDeterministic l.grammar → IsWritten l → AreDecided l → ¬ ¬ HasOneWinner l }
{}
