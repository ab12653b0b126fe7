//! Laws of the definitions: what each says is proved, and there is nothing to run.

ghost use Rattle.std.specs.Prelude.{◌≡◌, List, ◌↔◌, ℕ, Contains, length, map, slice_get};
ghost use Rattle.wb_base.specs.Different.{Differ};
ghost use Rattle.wb_base.specs.Grammar.{GrammarView};
ghost use Rattle.wb_determinism_contexts.specs.Considered.{LexiconView};
ghost use Rattle.wb_grammar_theory.specs.Trees.{DerivationTree, Forest};
ghost use Rattle.wb_scan_theory.specs.Facts.{IsLanguage};
ghost use Rattle.wb_scan_theory.specs.Languages.{LanguageView};
ghost use Rattle.wb_scan_theory.specs.Shown.{Shows};
ghost use Rattle.wb_compose_theory_order.specs.Answers.{renamed_forest};
ghost use Rattle.wb_compose_theory_order.specs.Languages.{IsNumberedOn, IsSameLanguage, Renumbering, IsSameBy};
ghost use Rattle.wb_compose_theory_order.specs.Laws.{HasSameAnswers, HasSameNames};
ghost use Rattle.wb_compose_theory_order.specs.Names.{HasNamesInTurn, in_turn};
ghost use Rattle.wb_compose_theory_order.specs.Orders.{IsReordering, number_to, reordered};
ghost use Rattle.wb_compose_theory_order.specs.Unions.{AreInTwoOrders, names_to};
ghost use Rattle.wb_terms.specs.Printed.{printed_tree};
ghost use Rattle.wb_compose_theory.specs.Renamings.{Renaming};
ghost use Rattle.wb_compose_theory_grammar.specs.Certificates.{AreCertified};
ghost use Rattle.wb_compose_theory_grammar.specs.Pieces.{Piece};
ghost use Rattle.wb_compose_theory_language.specs.Apart.{AreWrittenApart};
ghost use Rattle.wb_compose_theory_language.specs.Forms.{IsWithdrawn};
ghost use Rattle.wb_compose_theory_language.specs.Written.{WrittenPiece, pieces_of};
ghost use Rattle.wb_values.specs.Signature.{Signature};
ghost use Rattle.wb_values.specs.Tree.{Tree};

/// In two numberings of one language a text has the same tree, the same stop at the same place, or neither.
pub fn answers_law()
    ensures { (r : Renumbering) (s : Renumbering) (l : LanguageView) (m : LanguageView) → IsSameLanguage r s l m → HasSameAnswers r.names l m }
{}

/// A language on which texts are parsed is one in other numbers too, where layout is numbered on after the terminals there.
pub fn language_law()
    ensures { (r : Renumbering) (s : Renumbering) (l : LanguageView) (m : LanguageView) → IsSameLanguage r s l m → IsNumberedOn m → IsLanguage l → IsLanguage m }
{}

/// A tree and the same in other numbers are printed alike, where productions have the same names.
pub fn printed_law()
    ensures { (r : Renaming) (g : GrammarView) (signatures others : List Signature) → HasSameNames r g signatures others → (tree : Forest) → DerivationTree g tree → (value other : Tree) → Shows value tree → Shows other (renamed_forest r tree) → printed_tree others other ≡ printed_tree signatures value }
{}

/// The languages of a host with the same extensions in two orders are one, in other numbers: a text has the same tree in both, the same
/// stop at the same place, or neither. The same markers are withdrawn.
pub fn order_law()
    ensures same { (host : GrammarView) (extensible : List ℕ) (own : LexiconView) (written others : List WrittenPiece) (to from : ℕ → ℕ) (l m : LanguageView) → AreInTwoOrders host extensible own written others to from l m → IsSameBy (names_to host extensible written others to) (names_to host extensible others written from) l m }
    ensures answers { (host : GrammarView) (extensible : List ℕ) (own : LexiconView) (written others : List WrittenPiece) (to from : ℕ → ℕ) (l m : LanguageView) → AreInTwoOrders host extensible own written others to from l m → HasSameAnswers (names_to host extensible written others to) l m }
    ensures language { (host : GrammarView) (extensible : List ℕ) (own : LexiconView) (written others : List WrittenPiece) (to from : ℕ → ℕ) (l m : LanguageView) → AreInTwoOrders host extensible own written others to from l m → IsLanguage l ↔ IsLanguage m }
    ensures withdrawn { (host : GrammarView) (extensible : List ℕ) (own : LexiconView) (written others : List WrittenPiece) (to from : ℕ → ℕ) (l m : LanguageView) → AreInTwoOrders host extensible own written others to from l m → (number : ℕ) → IsWithdrawn host extensible own written number ↔ IsWithdrawn host extensible own others ((names_to host extensible written others to).terminal number) }
{}

/// Extensions that are certified, or written apart, are so in any order.
pub fn certified_law()
    ensures certified { (host : GrammarView) (extensible : List ℕ) (written others : List WrittenPiece) (to from : ℕ → ℕ) → IsReordering to from written others → AreCertified host extensible (pieces_of written) → AreCertified host extensible (pieces_of others) }
    ensures apart { (host : GrammarView) (extensible : List ℕ) (own : LexiconView) (written others : List WrittenPiece) (to from : ℕ → ℕ) → IsReordering to from written others → AreWrittenApart host extensible own written → AreWrittenApart host extensible own others }
{}

/// Two lists of the same extensions, each once, are one in two orders.
pub fn reordering_law()
    ensures { (written others : List WrittenPiece) → Differ written → Differ others → ((x : WrittenPiece) → Contains written x ↔ Contains others x) → (to from : ℕ → ℕ) × IsReordering to from written others }
{}

/// What the host has and then each extension in turn, as names of terminals, is the same in both orders at numbers of one another; so
/// productions have the same names.
pub fn names_law()
    ensures rows { (own : List (List ℕ)) (blocks others : List (List (List ℕ))) (to from : ℕ → ℕ) → IsReordering to from blocks others → (number : ℕ) → slice_get (in_turn own others) (number_to (length own) (map length blocks) (map length others) to number) ≡ slice_get (in_turn own blocks) number }
    ensures productions { (host : GrammarView) (extensible : List ℕ) (pieces others : List Piece) (own : List (List ℕ)) (blocks other_blocks : List (List (List ℕ))) (signatures other_signatures : List Signature) (to from : ℕ → ℕ) → HasNamesInTurn host extensible pieces own blocks signatures → HasNamesInTurn host extensible others own other_blocks other_signatures → IsReordering to from blocks other_blocks → (g : GrammarView) → HasSameNames (reordered host extensible pieces others to) g signatures other_signatures }
{}
