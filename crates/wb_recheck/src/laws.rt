//! Laws of the definitions: what they say is proved, and there is nothing to run.

ghost use Rattle.std.specs.Prelude.{◌≡◌, List, ℕ};
ghost use Rattle.wb_base.specs.Grammar.{GrammarView};
ghost use Rattle.wb_operations.specs.Operations.{OperationSignature};
ghost use Rattle.wb_syntax_resolved.specs.declared.resolved.ResolvedParts.{ResolvedParts};
ghost use Rattle.wb_recheck_text.specs.declared.certificate.Head.{Head};
ghost use Rattle.wb_recheck.specs.CertificateTexts.{IsCertificateText, IsExtensionCertificate, IsHostCertificate};
ghost use Rattle.wb_recheck.specs.OneAnswer.{HasOneExtensionAnswer, HasOneExtensionSort, HasOneHostAnswer, HasOneHostSort};

use wb_certify::one_answer_law;
use wb_recheck_text::laws::text_law;

/// What is certified, and of which a text is a certificate, has no refusal but out of memory. So `recheck_resolved` and `recheck_beside`
/// answer that it is, or are out of memory. Refusals of one value are of one sort: by rules of kinds, by other rules, or of the text.
pub fn one_recheck_answer_law()
    ensures host { (r : ResolvedParts) (operations : List OperationSignature) (text : List ℕ) → HasOneHostAnswer r operations text }
    ensures extension { (host r : ResolvedParts) (operations : List OperationSignature) (text : List ℕ) → HasOneExtensionAnswer host r operations text }
    ensures host_sort { (r : ResolvedParts) (operations : List OperationSignature) (text : List ℕ) → HasOneHostSort r operations text }
    ensures extension_sort { (host r : ResolvedParts) (operations : List OperationSignature) (text : List ℕ) → HasOneExtensionSort host r operations text }
{
    text_law();
    one_answer_law();
}

/// A grammar has one certificate with a head, a host has one, and an extension with its host has one.
pub fn one_text_law()
    ensures grammar { (g : GrammarView) (head : Head) (text other : List ℕ) → IsCertificateText g head text → IsCertificateText g head other → text ≡ other }
    ensures host { (r : ResolvedParts) (text other : List ℕ) → IsHostCertificate r text → IsHostCertificate r other → text ≡ other }
    ensures extension { (r : ResolvedParts) (text other : List ℕ) → IsExtensionCertificate r text → IsExtensionCertificate r other → text ≡ other }
{}
