//! Why is a file refused?

ghost use Rattle.std.specs.Prelude.{◌≡◌, ◌++◌, OnOk};
ghost use Rattle.wb_report.specs.Reasons.{refusal_text};

use crate::attribute_reason::push_attribute_reason;
use crate::certificate_reason::push_certificate_reason;
use crate::edits_reason::push_edits_reason;
use crate::extension_reason::push_extension_reason;
use crate::grammar_reason::push_grammar_reason;
use crate::spec_reason::{push_spec_reason, push_term_reason};
use crate::{
    AttributeReason, CertificateReason, EditsReason, ExtensionReason, GrammarReason, SpecReason,
    TermReason,
};
use std::alloc::AllocError;

/// Why a file is refused, by what its rule speaks of.
#[derive(Drop)]
pub enum Refusal {
    /// What is written, names and kinds.
    Specification(SpecReason),
    /// Grammars and scanners.
    Grammar(GrammarReason),
    /// What extensions add to their host.
    Extension(ExtensionReason),
    /// Attributes.
    Attributes(AttributeReason),
    /// Terms.
    Term(TermReason),
    /// Certificates.
    Certificate(CertificateReason),
    /// Lists of edits.
    Edits(EditsReason),
}

// Appends why a file is refused.
pub(crate) fn push_refusal(out: &mut Vec<u8>, refusal: &Refusal) -> Result<(), AllocError>
    ensures { OnOk result (out.new.items ≡ out.old.items ++ refusal_text refusal.now) }
{
    match refusal {
        Refusal::Specification(reason) => push_spec_reason(out, reason),
        Refusal::Grammar(reason) => push_grammar_reason(out, reason),
        Refusal::Extension(reason) => push_extension_reason(out, reason),
        Refusal::Attributes(reason) => push_attribute_reason(out, reason),
        Refusal::Term(reason) => push_term_reason(out, reason),
        Refusal::Certificate(reason) => push_certificate_reason(out, reason),
        Refusal::Edits(reason) => push_edits_reason(out, reason),
    }
}
