//! Is a resolved host certified? Each test after names, in the order in which refusals are reported.

ghost use Rattle.std.specs.Prelude.{◌≡◌, IfErr, IfOk, None};
ghost use Rattle.wb_flow.specs.Refusals.{FlowsOk};
ghost use Rattle.wb_types.specs.Rules.{KindsOk};
ghost use Rattle.wb_certify_host.specs.Hosts.{IsCertified, IsCertifiedValue, IsOfText};
ghost use Rattle.wb_certify_host.specs.Refusals.{IsAttributeRefusal, IsValueRefusal, start_of};
ghost use Rattle.wb_certify_host.specs.Tests.{AreComplete, IsAttributesRefusal, IsGrammarRefusal, IsKindRefusal};
ghost use Rattle.wb_certify_host.specs.Inner.Tests.{IsFound};

use crate::{CertifiedHost, CertifyRefusal};
use std::alloc::{AllocError, Global};
use wb_base::Sequence;
use wb_complete::check_complete;
use wb_determinism_host::{DeterminismRefusal, HostParts, host_determinism, pairs_of};
use wb_flow::{AttributeRefusal, check_flow};
use wb_lexical::preference_cycle;
use wb_operations::{Meaning, OperationTable};
use wb_syntax_resolved::Resolved;
use wb_types::{TypeRefusal, check_types};

/// A resolved host as a certified one over a table of operations, or the first rule that fails.
///
/// It is the value of a text, and has no extension: an extension is certified with its host by other rules. Rules of names don't come,
/// since they hold. Others go by rule, each on the whole host: kinds, then preferences, a start, the grammar and the scanner, and
/// attributes at last. No clause bounds the time.
pub fn certify_resolved<M: Meaning>(
    alloc: Global,
    resolved: &Resolved,
    operations: &OperationTable<M>,
) -> Result<CertifiedHost, CertifyRefusal>
    requires { IsOfText resolved.now }
    ensures resolved { IfOk result (λ host. host.resolved ≡ resolved.now) }
    ensures operations { IfOk result (λ host. host.operations ≡ operations.now.signatures) }
    ensures certified { IfOk result (λ host. IsCertifiedValue resolved.now operations.now.signatures) }
    ensures refused { IfErr result (IsValueRefusal resolved.now operations.now.signatures) }
{
    let copied = resolved.copy()?;
    let signatures = match operations.signatures().copy() {
        Ok(signatures) => signatures,
        Err(error) => {
            copied.release();
            return Err(CertifyRefusal::NoMemory(error));
        }
    };
    match certified_parts(alloc, resolved, operations) {
        Ok(parts) => Ok(CertifiedHost {
            resolved: copied,
            parts,
            operations: signatures,
        }),
        Err(refusal) => {
            copied.release();
            signatures.release();
            Err(refusal)
        }
    }
}

// What is made of a resolved host that is certified.
fn certified_parts<M: Meaning>(
    alloc: Global,
    resolved: &Resolved,
    operations: &OperationTable<M>,
) -> Result<HostParts, CertifyRefusal>
    requires { IsOfText resolved.now }
    ensures certified { IfOk result (λ parts. IsCertified (record { resolved = resolved.now; parts = parts; operations = operations.now.signatures })) }
    ensures refused { IfErr result (IsValueRefusal resolved.now operations.now.signatures) }
{
    check_kinds(alloc, resolved, operations)?;
    let parts = determinism_of(alloc, resolved)?;
    match check_attributes(alloc, resolved) {
        Ok(()) => Ok(parts),
        Err(refusal) => {
            parts.release();
            Err(refusal)
        }
    }
}

/// Whether each expression is of its kind over a table of operations, or the first rule of kinds that fails.
pub fn check_kinds<M: Meaning>(
    alloc: Global,
    resolved: &Resolved,
    operations: &OperationTable<M>,
) -> Result<(), CertifyRefusal>
    ensures ok { IfOk result (λ done. KindsOk resolved.now.attributes operations.now.signatures) }
    ensures refused { IfErr result (IsKindRefusal resolved.now operations.now.signatures) }
{
    match check_types(alloc, resolved, operations) {
        Ok(()) => Ok(()),
        Err(TypeRefusal::NoMemory(error)) => Err(CertifyRefusal::NoMemory(error)),
        Err(refusal) => Err(CertifyRefusal::Types(refusal)),
    }
}

// What is made of a deterministic host.
fn determinism_of(alloc: Global, resolved: &Resolved) -> Result<HostParts, CertifyRefusal>
    ensures ok { IfOk result (IsFound resolved.now) }
    ensures refused { IfErr result (IsGrammarRefusal resolved.now) }
{
    if resolved.parts().grammar.is_none() {
        return Err(without_start(alloc, resolved));
    }
    match host_determinism(alloc, resolved) {
        Ok(parts) => Ok(parts),
        Err(DeterminismRefusal::NoMemory(..)) => Err(CertifyRefusal::NoMemory(AllocError)),
        Err(refusal) => Err(CertifyRefusal::Determinism(refusal)),
    }
}

/// Why a host without a start isn't certified, if each expression is of its kind: preferences have a cycle, or it is for the start.
pub fn without_start(alloc: Global, resolved: &Resolved) -> CertifyRefusal
    requires { resolved.now.grammar ≡ None }
    ensures { IsGrammarRefusal resolved.now result }
{
    let parts = resolved.parts();
    let pairs = match pairs_of(alloc, parts.preferences.as_slice()) {
        Ok(pairs) => pairs,
        Err(error) => return CertifyRefusal::NoMemory(error),
    };
    let found = preference_cycle(alloc, parts.terminals.len(), &pairs);
    drop(pairs);
    match found {
        Ok(Some(cycle)) => CertifyRefusal::Determinism(DeterminismRefusal::PreferenceCycle(
            Sequence::from_vec(cycle),
        )),
        Ok(None) => CertifyRefusal::NoStart,
        Err(error) => CertifyRefusal::NoMemory(error),
    }
}

/// Whether the attributes of a host are complete and keep to their flow types, or the first rule of attributes that fails.
pub fn check_attributes(alloc: Global, resolved: &Resolved) -> Result<(), CertifyRefusal>
    ensures ok { IfOk result (λ done. AreComplete resolved.now × FlowsOk resolved.now.attributes) }
    ensures refused { IfErr result (IsAttributesRefusal resolved.now) }
{
    match attribute_refusal(alloc, resolved) {
        Ok(()) => Ok(()),
        Err(AttributeRefusal::NoMemory(error)) => Err(CertifyRefusal::NoMemory(error)),
        Err(refusal) => Err(CertifyRefusal::Attributes(refusal)),
    }
}

// The rule of attributes that fails first.
fn attribute_refusal(alloc: Global, resolved: &Resolved) -> Result<(), AttributeRefusal>
    ensures ok { IfOk result (λ done. AreComplete resolved.now × FlowsOk resolved.now.attributes) }
    ensures refused { IfErr result (λ refusal. IsAttributeRefusal resolved.now (start_of resolved.now) refusal) }
{
    let parts = resolved.parts();
    check_complete(alloc, &parts.attributes, start(resolved), None)?;
    check_flow(alloc, &parts.attributes)
}

/// The start of a resolved specification, where it has one.
pub fn start(resolved: &Resolved) -> Option<usize>
    ensures { result ≡ start_of resolved.now }
{
    match &resolved.parts().grammar {
        Some(grammar) => Some(grammar.start()),
        None => None,
    }
}
