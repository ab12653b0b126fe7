//! Laws of the definitions: what each says is proved, and there is nothing to run.

ghost use Rattle.std.specs.Prelude.{◌≡◌, ◌↔◌, ℕ, List, [], ◌∷◌, Some, map};
ghost use Rattle.wb_base.specs.Different.{Differ};
ghost use Rattle.wb_base.specs.Grammar.{GrammarView};
ghost use Rattle.wb_certify.specs.DeterminismImages.{stands_for};
ghost use Rattle.wb_certify.specs.Lexicons.{lexicon_of};
ghost use Rattle.wb_certify.specs.determinism_refusal.DeterminismRefusal.{DeterminismRefusal as Refusal};
ghost use Rattle.wb_operations.specs.Operations.{OperationSignature};
ghost use Rattle.wb_scan_theory.specs.Languages.{LanguageView};
ghost use Rattle.wb_syntax_resolved.specs.declared.resolved.ResolvedParts.{ResolvedParts};
ghost use Rattle.wb_compose_theory_grammar.specs.Certificates.{AreCertified, IsCertifiedPiece};
ghost use Rattle.wb_compose_theory_grammar.specs.Laws.{HasSameKernels, HasTogether, IsUnited, KeepsHost};
ghost use Rattle.wb_compose_theory_grammar.specs.Pieces.{ArePieces};
ghost use Rattle.wb_compose_theory_language.specs.Apart.{AreWrittenApart};
ghost use Rattle.wb_compose_theory_language.specs.Written.{pieces_of};
ghost use Rattle.wb_certify.specs.Kept.{AreCertifiedBoth};
ghost use Rattle.wb_certify.specs.Refusals.{IsNotDeterministic};
ghost use Rattle.wb_certify.specs.Hosts.{CertifiedView, IsCertified};
ghost use Rattle.wb_compose.specs.Bridged.{AreBridged, AreResolvedBoth, IsRuleRefusal};
ghost use Rattle.wb_compose.specs.Composed.{IsComposed};
ghost use Rattle.wb_compose.specs.Existence.{AnswersText, IsLanguageFor};
ghost use Rattle.wb_compose.specs.HostLanguage.{host_language};
ghost use Rattle.wb_compose.specs.Images.{IsImage};
ghost use Rattle.wb_certify.specs.Pieces.{piece_in};
ghost use Rattle.wb_compose.specs.Joined.{AreCertifiedApart, Extended, pieces_in};
ghost use Rattle.wb_certify.specs.KeptNumbers.{HasTestedNumbers, KeepsNumbers};
ghost use Rattle.wb_compose.specs.Rules.{HasRuleAtPrefixes};
ghost use Rattle.wb_compose.specs.Written.{name_in, written_in};

/// A certified extension keeps the rules on bridges with its host, and so does one that is refused by the lookahead rule, for a lookahead
/// that it adds at a kernel of its host, or by the envelope rule. The laws that follow are of all of these.
pub fn bridged_law()
    ensures certified { (host r : ResolvedParts) (h g : GrammarView) (operations : List OperationSignature) → AreCertifiedBoth host r h g operations → AreBridged host r h g operations }
    ensures refused { (host r : ResolvedParts) (h g : GrammarView) (operations : List OperationSignature) (refusal : Refusal) → AreResolvedBoth host r h g operations → IsRuleRefusal refusal → IsNotDeterministic host r operations refusal → AreBridged host r h g operations }
{}

/// With an extension what is of the grammar of a certified host keeps its numbers, and what is added is the extension's own: no abstract
/// nonterminal of the host becomes one of the grammar. So the numbers by which lookaheads and envelopes are tested are those of the same
/// terminals, holes and productions.
pub fn numbers_law()
    ensures names { (host r : ResolvedParts) (h g : GrammarView) (operations : List OperationSignature) → AreBridged host r h g operations → KeepsNumbers host r h g }
    ensures tested { (host r : ResolvedParts) (h g : GrammarView) (operations : List OperationSignature) → AreBridged host r h g operations → HasTestedNumbers host r h g }
{}

/// With an extension the nonterminals of a certified host that are extensible keep their numbers.
pub fn extensible_law()
    ensures { (host r : ResolvedParts) (h g : GrammarView) (operations : List OperationSignature) → AreBridged host r h g operations → r.extensible ≡ host.extensible }
{}

/// What a terminal stands for, where lookaheads are compared with the host's, is the hole of the nonterminal on which it begins a
/// production, where it is a marker, and else itself.
pub fn image_law()
    ensures { (host r : ResolvedParts) (h g : GrammarView) (operations : List OperationSignature) → AreBridged host r h g operations → (t image : ℕ) → (stands_for r g t ≡ image) ↔ IsImage r g t image }
{}

/// An extension is a piece of a union: its grammar extends its host's, in numbers, and its markers are as they should be.
pub fn piece_law()
    ensures { (host r : ResolvedParts) (h g : GrammarView) (operations : List OperationSignature) → AreBridged host r h g operations → ArePieces h host.extensible (piece_in r g ∷ []) }
{}

/// Each prefix of a certified host has the same kernel with an extension, in numbers. So the lookahead rule at kernels is the lookahead rule
/// at prefixes, and a lookahead that the extension adds at a kernel of the host is one that it adds at a prefix of the host.
pub fn kernels_law()
    ensures same { (host r : ResolvedParts) (h g : GrammarView) (operations : List OperationSignature) → AreBridged host r h g operations → HasSameKernels h host.extensible (piece_in r g) }
    ensures rule { (host r : ResolvedParts) (h g : GrammarView) (operations : List OperationSignature) → AreBridged host r h g operations → HasRuleAtPrefixes host r h g }
{}

/// A certified extension is certified as a piece of a union: in numbers it meets the lookahead rule and the envelope rule.
pub fn certified_piece_law()
    ensures { (host r : ResolvedParts) (h g : GrammarView) (operations : List OperationSignature) → AreCertifiedBoth host r h g operations → IsCertifiedPiece h host.extensible (piece_in r g) }
{}

/// A certified host and extensions that are certified, each with the host alone, are what unions ask for.
pub fn certified_law()
    ensures { (host : ResolvedParts) (h : GrammarView) (operations : List OperationSignature) (extensions : List Extended) → AreCertifiedApart host h operations extensions → AreCertified h host.extensible (pieces_in extensions) }
{}

/// So their union is reduced, and has no unit cycle, no hidden left recursion and no conflict.
pub fn united_law()
    ensures { (host : ResolvedParts) (h : GrammarView) (operations : List OperationSignature) (extensions : List Extended) → AreCertifiedApart host h operations extensions → IsUnited h host.extensible (pieces_in extensions) }
{}

/// At each prefix of the host the valid terminals of their union are, besides markers, those of the host.
pub fn host_law()
    ensures { (host : ResolvedParts) (h : GrammarView) (operations : List OperationSignature) (extensions : List Extended) → AreCertifiedApart host h operations extensions → KeepsHost h host.extensible (pieces_in extensions) }
{}

/// Two terminals that are valid together in their union, no markers, or one a marker and the other of its extension, are so in one of the
/// certified grammars or in an envelope, and those of two extensions that are no markers never are.
pub fn together_law()
    ensures { (host : ResolvedParts) (h : GrammarView) (operations : List OperationSignature) (extensions : List Extended) → AreCertifiedApart host h operations extensions → HasTogether h host.extensible (pieces_in extensions) }
{}

/// A certified host and extensions that are certified with it alone, and have different names, are what the laws on forms ask for: they are
/// certified, and written so that no two terminals or layouts clash.
pub fn written_law()
    ensures certified { (host : ResolvedParts) (h : GrammarView) (operations : List OperationSignature) (extensions : List Extended) → AreCertifiedApart host h operations extensions → AreCertified h host.extensible (pieces_of (written_in h extensions)) }
    ensures apart { (host : ResolvedParts) (h : GrammarView) (operations : List OperationSignature) (extensions : List Extended) → AreCertifiedApart host h operations extensions → Differ (map (λ (e : Extended). name_in e.resolved) extensions) → AreWrittenApart h host.extensible (lexicon_of host h) (written_in h extensions) }
{}

/// A certified host and extensions that are certified with it alone, and have different names, have a language, in which each text has a
/// tree or a stop: that there is none can't be.
pub fn existence_law()
    ensures language { (host : ResolvedParts) (h : GrammarView) (operations : List OperationSignature) (extensions : List Extended) → AreCertifiedApart host h operations extensions → Differ (map (λ (e : Extended). name_in e.resolved) extensions) → ¬ ¬ ((l : LanguageView) × IsLanguageFor host h extensions l) }
    ensures text { (host : ResolvedParts) (h : GrammarView) (operations : List OperationSignature) (extensions : List Extended) → AreCertifiedApart host h operations extensions → Differ (map (λ (e : Extended). name_in e.resolved) extensions) → (text : List ℕ) → ¬ ¬ ((l : LanguageView) × AnswersText host h extensions text l) }
{}

/// The language of a certified host by itself, whose terminals are written as they are, is composed of the host and no extensions.
pub fn host_language_law()
    ensures { (host : CertifiedView) (g : GrammarView) → IsCertified host → host.resolved.grammar ≡ Some g → IsComposed host [] (host_language host.resolved g) [] }
{}
