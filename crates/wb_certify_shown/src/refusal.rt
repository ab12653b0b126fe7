//! Which rule of certification does a report show, by names?

ghost use Rattle.std.specs.Prelude.{◌≡◌, IfOk};
ghost use Rattle.wb_certify_shown.specs.Extensions as extensions;
ghost use Rattle.wb_certify_shown.specs.Shows as spec;

use crate::attributes::attribute_rule;
use crate::extension::extension_rule;
use crate::grammar::grammar_rule;
use crate::specification::{name_rule, type_rule};
use std::alloc::{AllocError, Global};
use wb_certify_host::{CertifyRefusal, DeterminismRefusal};
use wb_report::{GrammarReason, Refusal, SpecReason};
use wb_syntax_resolved::Resolved;

/// Why a resolved host isn't certified, by names; none for out of memory, and for rules on what extensions add.
pub fn shown_refusal(
    alloc: Global,
    resolved: &Resolved,
    refusal: &CertifyRefusal,
) -> Result<Option<Refusal>, AllocError>
    ensures { IfOk result (λ shown. shown ≡ spec.refusal_shown resolved.now refusal.now) }
{
    match refusal {
        CertifyRefusal::Names(refusal) => Ok(of_spec(name_rule(refusal)?)),
        CertifyRefusal::Types(refusal) => Ok(of_spec(type_rule(refusal)?)),
        CertifyRefusal::NoStart => Ok(Some(Refusal::Grammar(GrammarReason::NoStart))),
        CertifyRefusal::Determinism(refusal) => grammar_rule(alloc, resolved, refusal),
        CertifyRefusal::Attributes(refusal) => attribute_rule(alloc, resolved, refusal),
        CertifyRefusal::NoMemory(_) => Ok(None),
    }
}

/// Why an extension isn't certified with its host, by names, where the numbers are those of host and extension; none for out of memory.
pub fn shown_extension_refusal(
    alloc: Global,
    resolved: &Resolved,
    refusal: &CertifyRefusal,
) -> Result<Option<Refusal>, AllocError>
    ensures { IfOk result (λ shown. shown ≡ extensions.extension_refusal_shown resolved.now refusal.now) }
{
    match refusal {
        CertifyRefusal::Determinism(refusal) => determinism_rule(alloc, resolved, refusal),
        _ => shown_refusal(alloc, resolved, refusal),
    }
}

// Why an extension isn't deterministic with its host.
fn determinism_rule(
    alloc: Global,
    resolved: &Resolved,
    refusal: &DeterminismRefusal,
) -> Result<Option<Refusal>, AllocError>
    ensures { IfOk result (λ shown. shown ≡ extensions.determinism_shown resolved.now refusal.now) }
{
    match grammar_rule(alloc, resolved, refusal)? {
        Some(shown) => Ok(Some(shown)),
        None => extension_rule(alloc, resolved, refusal),
    }
}

/// A rule of what is written, of names or of kinds as a refusal.
pub fn of_spec(reason: Option<SpecReason>) -> Option<Refusal>
    ensures { result ≡ spec.of_spec reason }
{
    match reason {
        Some(reason) => Some(Refusal::Specification(reason)),
        None => None,
    }
}
