//! Is a resolved host with an extension certified, beside the certified host? Each test after names, in the order in which refusals are
//! reported.

ghost use Rattle.std.specs.Prelude.{◌≡◌, IfErr, IfOk};
ghost use Rattle.wb_syntax_resolved.specs.declared.resolved.ResolvedParts.{ResolvedParts as View};
ghost use Rattle.wb_types.specs.Rules.{KindsOk};
ghost use Rattle.wb_certify_host.specs.Refusals.{start_of};
ghost use Rattle.wb_certify.specs.Extensions.{IsCertifiedBeside};
ghost use Rattle.wb_certify.specs.Kept.{Extends};
ghost use Rattle.wb_certify.specs.Refusals.{IsBesideRefusal};
ghost use Rattle.wb_certify.specs.Tests.{AttributesOk, IsAttributesReason};
ghost use Rattle.wb_certify.specs.Inner.Tests.{IsLaterRefusal, IsMade, IsMadeCertified};

use crate::CertifiedExtension;
use crate::attributes::test_attributes;
use crate::determinism::determinism_beside;
use std::alloc::{AllocError, Global};
use wb_certify_host::{CertifiedHost, CertifyRefusal, DeterminismRefusal};
use wb_flow::AttributeRefusal;
use wb_operations::{Meaning, OperationSignatures, OperationTable};
use wb_syntax_resolved::Resolved;
use wb_types::{TypeRefusal, check_types};

/// A resolved host with an extension as an extension that is certified with the host over a table of operations, or the first rule that
/// fails.
///
/// The table is one with which the host was certified. Rules of names don't come, since they hold, nor that there is no start, since the
/// host has one. Others go by code: kinds, then bridges, preferences, markers, grammars and scanners, what the extension may add to the
/// host, and attributes at last. No clause bounds the time.
pub fn certify_beside<M: Meaning>(
    alloc: Global,
    host: &CertifiedHost,
    resolved: &Resolved,
    operations: &OperationTable<M>,
) -> Result<CertifiedExtension, CertifyRefusal>
    requires operations { operations.now.signatures ≡ host.now.operations }
    requires extends { Extends host.now.resolved resolved.now }
    ensures host { IfOk result (λ extension. extension.host ≡ host.now.resolved) }
    ensures resolved { IfOk result (λ extension. extension.resolved ≡ resolved.now) }
    ensures operations { IfOk result (λ extension. extension.operations ≡ host.now.operations) }
    ensures certified { IfOk result (λ extension. IsCertifiedBeside host.now.resolved resolved.now host.now.operations) }
    ensures refused { IfErr result (IsBesideRefusal host.now.resolved resolved.now host.now.operations) }
{
    test_beside(alloc, host, resolved, operations)?;
    match copies_of(host, resolved) {
        Ok((base, copied, signatures)) => Ok(CertifiedExtension {
            host: base,
            resolved: copied,
            operations: signatures,
        }),
        Err(error) => Err(CertifyRefusal::NoMemory(error)),
    }
}

// Copies of the host by numbers, of the host with the extension, and of the signatures of operations.
fn copies_of(
    host: &CertifiedHost,
    resolved: &Resolved,
) -> Result<(Resolved, Resolved, OperationSignatures), AllocError>
    ensures host { IfOk result (λ made. made.0 ≡ host.now.resolved) }
    ensures resolved { IfOk result (λ made. made.1 ≡ resolved.now) }
    ensures operations { IfOk result (λ made. made.2 ≡ host.now.operations) }
{
    let base = host.resolved().copy()?;
    let copied = match resolved.copy() {
        Ok(copied) => copied,
        Err(error) => {
            drop(base);
            return Err(error);
        }
    };
    match host.operations().copy() {
        Ok(signatures) => Ok((base, copied, signatures)),
        Err(error) => {
            drop(base);
            drop(copied);
            Err(error)
        }
    }
}

// Whether the extension is certified.
fn test_beside<M: Meaning>(
    alloc: Global,
    host: &CertifiedHost,
    resolved: &Resolved,
    operations: &OperationTable<M>,
) -> Result<(), CertifyRefusal>
    requires { Extends host.now.resolved resolved.now }
    ensures ok { IfOk result (λ done. IsMadeCertified host.now resolved.now operations.now.signatures) }
    ensures refused { IfErr result (IsBesideRefusal host.now.resolved resolved.now operations.now.signatures) }
{
    check_kinds(alloc, resolved, operations)?;
    check_determinism(alloc, host, resolved)?;
    match check_attributes(alloc, resolved) {
        Ok(()) => Ok(()),
        Err(refusal) => Err(refusal),
    }
}

// Whether each expression is of its kind.
fn check_kinds<M: Meaning>(
    alloc: Global,
    resolved: &Resolved,
    operations: &OperationTable<M>,
) -> Result<(), CertifyRefusal>
    ensures ok { IfOk result (λ done. KindsOk resolved.now.attributes operations.now.signatures) }
    ensures refused { IfErr result (λ refusal. (host : View) → IsBesideRefusal host resolved.now operations.now.signatures refusal) }
{
    match check_types(alloc, resolved, operations) {
        Ok(()) => Ok(()),
        Err(TypeRefusal::NoMemory(error)) => Err(CertifyRefusal::NoMemory(error)),
        Err(refusal) => Err(CertifyRefusal::Types(refusal)),
    }
}

// Whether the extension is deterministic beside the host.
fn check_determinism(
    alloc: Global,
    host: &CertifiedHost,
    resolved: &Resolved,
) -> Result<(), CertifyRefusal>
    requires { Extends host.now.resolved resolved.now }
    ensures ok { IfOk result (λ done. IsMade host.now resolved.now) }
    ensures refused { IfErr result (IsLaterRefusal host.now.resolved resolved.now) }
{
    // The specification is resolved.
    resolved.parts();
    match determinism_beside(alloc, host.parts(), resolved) {
        Ok(()) => Ok(()),
        Err(DeterminismRefusal::NoMemory(..)) => Err(CertifyRefusal::NoMemory(AllocError)),
        Err(refusal) => Err(CertifyRefusal::Determinism(refusal)),
    }
}

/// Whether attributes are well defined as those of a host with an extension, or the first rule of attributes that fails.
pub fn check_attributes(alloc: Global, resolved: &Resolved) -> Result<(), CertifyRefusal>
    ensures ok { IfOk result (λ done. AttributesOk resolved.now.attributes (start_of resolved.now)) }
    ensures refused { IfErr result (IsAttributesReason resolved.now) }
{
    match test_attributes(alloc, resolved) {
        Ok(()) => Ok(()),
        Err(AttributeRefusal::NoMemory(error)) => Err(CertifyRefusal::NoMemory(error)),
        Err(refusal) => Err(CertifyRefusal::Attributes(refusal)),
    }
}
