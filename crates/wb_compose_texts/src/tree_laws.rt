//! Laws of the definitions: what each says is proved, and there is nothing to run.

ghost use Rattle.std.specs.Prelude.{◌≡◌, ◌↔◌, ℕ, List, [], Some};
ghost use Rattle.wb_base.specs.Grammar.{GrammarView};
ghost use Rattle.wb_compose.specs.Hosts.{CertifiedView, IsCertified};
ghost use Rattle.wb_certify_shown.specs.Names.{grammar_terminals};
ghost use Rattle.wb_compose.specs.Composed.{IsComposed};
ghost use Rattle.wb_compose.specs.HostLanguage.{host_language};
ghost use Rattle.wb_scan_theory.specs.Languages.{LanguageView};
ghost use Rattle.wb_scan_theory.specs.Shown.{AgreesWith};
ghost use Rattle.wb_operations.specs.Operations.{OperationSignature};
ghost use Rattle.wb_reading.specs.Orders.{IsReordering};
ghost use Rattle.wb_syntax_resolved.specs.declared.resolved.ResolvedParts.{ResolvedParts};
ghost use Rattle.wb_compose_texts.specs.Answers.{HasSameAnswer, IsUnitedTextAnswer};
ghost use Rattle.wb_compose_texts.specs.HostTexts.{HaveSameTexts, IsHostTextAnswer};
ghost use Rattle.wb_compose_texts.specs.Names.{terminals_of};
ghost use Rattle.wb_compose_texts.specs.Signatures.{signatures_of};
ghost use Rattle.wb_compose_texts.specs.Unions.{Union, united_of};
ghost use Rattle.wb_compose_texts.specs.Withdrawn.{HasOneWithdrawn};
ghost use Rattle.wb_compose_texts.specs.declared.text_answer.TextAnswer.{TextAnswer};

/// A text has one answer at most in the language of a host with extensions.
pub fn one_answer_law()
    ensures { (host : ResolvedParts) (operations : List OperationSignature) (extensions : List ResolvedParts) → HasSameAnswer host operations extensions extensions }
{}

/// The order of the extensions doesn't matter for it: a text has the same printed tree, or the same stop with the same name.
pub fn order_law()
    ensures { (host : ResolvedParts) (operations : List OperationSignature) (extensions others : List ResolvedParts) (to from : ℕ → ℕ) → IsReordering to from extensions others → HasSameAnswer host operations extensions others }
{}

/// The markers without a bare form have one list of names at most.
pub fn withdrawn_law()
    ensures { (host : ResolvedParts) (operations : List OperationSignature) (extensions : List ResolvedParts) → HasOneWithdrawn host operations extensions }
{}

/// The signatures of a union are those of its productions: each has the left side of its production, and the kinds of what is on the right.
pub fn signatures_law()
    ensures { (host : ResolvedParts) (operations : List OperationSignature) (extensions : List ResolvedParts) (u : Union host operations extensions) → AgreesWith (signatures_of host extensions) (united_of host operations extensions u) }
{}

/// What is composed of a certified host and no extensions is its own language: a text has the same trees in both and the same stops, and
/// terminals have the same names; so it has the same answer in the host's own language, whose terminals are written as they are.
pub fn host_law()
    ensures texts { (host : CertifiedView) (g : GrammarView) (l : LanguageView) (withdrawn : List ℕ) → host.resolved.grammar ≡ Some g → IsComposed host [] l withdrawn → HaveSameTexts (host_language host.resolved g) l }
    ensures names { (host : ResolvedParts) → terminals_of host [] ≡ grammar_terminals host }
    ensures answers { (host : CertifiedView) (g : GrammarView) → IsCertified host → host.resolved.grammar ≡ Some g → (text : List ℕ) (answer : TextAnswer) → IsHostTextAnswer host.resolved g text answer ↔ IsUnitedTextAnswer host.resolved host.operations [] text answer }
{}
