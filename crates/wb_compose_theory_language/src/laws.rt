//! Laws of the definitions: what each says is proved, and there is nothing to run.

ghost use Rattle.std.specs.Prelude.{◌<◌, [], ℕ, List, All};
ghost use Rattle.wb_automata.specs.Automata.{IsMatch};
ghost use Rattle.wb_base.specs.Grammar.{GrammarView};
ghost use Rattle.wb_base.specs.Identifiers.{IsName};
ghost use Rattle.wb_determinism_contexts.specs.Considered.{LexiconView};
ghost use Rattle.wb_scan_theory.specs.Facts.{AreDecided, IsLanguage, IsWritten};
ghost use Rattle.wb_scan_theory.specs.Languages.{LanguageView};
ghost use Rattle.wb_scan_theory.specs.Texts.{HasAnswer};
ghost use Rattle.wb_compose_theory_grammar.specs.Certificates.{AreCertified};
ghost use Rattle.wb_compose_theory_language.specs.Apart.{AreWrittenApart};
ghost use Rattle.wb_compose_theory_language.specs.Languages.{AreWithdrawn, IsUnitedLanguage};
ghost use Rattle.wb_compose_theory_language.specs.Spelled.{AreSpelled};
ghost use Rattle.wb_compose_theory_language.specs.Written.{WrittenPiece, pieces_of};

/// In the language of the union of a host and extensions that are certified apart, of any two forms that are considered at one prefix and
/// match one text one beats the other, and neither two nor three forms beat each other in a cycle.
pub fn decided_law()
    ensures { (host : GrammarView) (extensible : List ℕ) (own : LexiconView) (written : List WrittenPiece) (l : LanguageView) → AreCertified host extensible (pieces_of written) → AreWrittenApart host extensible own written → IsUnitedLanguage host extensible own written l → AreDecided l }
{}

/// Each form of that language has its expression, which matches only texts that begin with the form's prefix; where none matches the empty
/// text, this is all that scanning asks of them.
pub fn written_law()
    ensures { (host : GrammarView) (extensible : List ℕ) (own : LexiconView) (written : List WrittenPiece) (l : LanguageView) → AreCertified host extensible (pieces_of written) → AreWrittenApart host extensible own written → IsUnitedLanguage host extensible own written l → ((place : ℕ) → ¬ IsMatch l.expressions place []) → IsWritten l }
{}

/// A host and extensions that are certified apart, in bytes and without a terminal that matches the empty text, have a language on which
/// texts are parsed: that they have none can't be.
pub fn language_law()
    ensures { (host : GrammarView) (extensible : List ℕ) (own : LexiconView) (written : List WrittenPiece) → AreCertified host extensible (pieces_of written) → AreWrittenApart host extensible own written → AreSpelled own written → ¬ ¬ ((l : LanguageView) × IsUnitedLanguage host extensible own written l × IsLanguage l) }
{}

/// In that language every text has a tree or a stop: that it has neither can't be.
pub fn text_law()
    ensures { (host : GrammarView) (extensible : List ℕ) (own : LexiconView) (written : List WrittenPiece) → AreCertified host extensible (pieces_of written) → AreWrittenApart host extensible own written → AreSpelled own written → (text : List ℕ) → ¬ ¬ ((l : LanguageView) × IsUnitedLanguage host extensible own written l × IsLanguage l × HasAnswer l text) }
{}

/// A name is in bytes.
pub fn name_law()
    ensures { (name : List ℕ) → IsName name → All (λ b. b < 256) name }
{}

/// Its markers without a bare form are a list: that they are none can't be.
pub fn withdrawn_law()
    ensures { (host : GrammarView) (extensible : List ℕ) (own : LexiconView) (written : List WrittenPiece) → AreCertified host extensible (pieces_of written) → AreWrittenApart host extensible own written → ¬ ¬ ((withdrawn : List ℕ) × AreWithdrawn host extensible own written withdrawn) }
{}
