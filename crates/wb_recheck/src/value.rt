//! Is a resolved host certified, by the text of a certificate? Each test after names, in the order in which refusals are reported.

ghost use Rattle.std.specs.Prelude.{◌≡◌, ℕ, List, IfErr, IfOk, IfSome, IsSome};
ghost use Rattle.wb_items.specs.LookaheadSets.{AreLookaheads};
ghost use Rattle.wb_types.specs.Rules.{KindsOk};
ghost use Rattle.wb_certify.specs.DeterministicHosts.{AreHostParts, IsDeterministicHost};
ghost use Rattle.wb_certify.specs.Judged.{AreFactsOfHost};
ghost use Rattle.wb_certify.specs.Hosts.{IsCertified, IsCertifiedValue, IsOfText};
ghost use Rattle.wb_recheck.specs.Certificates.{IsCertificateOfHost, IsFaultOfHost};
ghost use Rattle.wb_recheck.specs.HostRefusals.{IsValueRecheckRefusal};
ghost use Rattle.wb_recheck.specs.Inner.Handed.{IsKindFault};
ghost use Rattle.wb_recheck.specs.Inner.Hosts.{IsFound, IsLaterRefusal};

use crate::handed::{of_certify, of_determinism, of_fault};
use crate::{RecheckRefusal, RecheckedHost};
use std::alloc::Global;
use wb_base::Grammar;
use wb_certify::hosts::{check_attributes, check_kinds, without_start};
use wb_certify::{HostFacts, HostParts, host_facts, judge_host};
use wb_grammar::Facts;
use wb_operations::{Meaning, OperationTable};
use wb_recheck_entries::{CertificateFault, Looked, Owner, lookaheads_by_text};
use wb_syntax_resolved::Resolved;

/// A resolved host as a certified one over a table of operations, where the text is a certificate of it, or the first that fails: a rule
/// before the conflict, then the text, then a rule from the conflict on.
///
/// It is the value of a text, and has no extension. Rules of names don't come, since they hold. No clause bounds the time.
pub fn recheck_resolved<M: Meaning>(
    alloc: Global,
    resolved: &Resolved,
    certificate: &[u8],
    operations: &OperationTable<M>,
) -> Result<RecheckedHost, RecheckRefusal>
    requires { IsOfText resolved.now }
    ensures resolved { IfOk result (λ host. host.resolved ≡ resolved.now) }
    ensures operations { IfOk result (λ host. host.operations ≡ operations.now.signatures) }
    ensures certified { IfOk result (λ host. IsCertifiedValue resolved.now operations.now.signatures) }
    ensures certificate { IfOk result (λ host. IsCertificateOfHost resolved.now certificate.now) }
    ensures refused { IfErr result (IsValueRecheckRefusal resolved.now operations.now.signatures certificate.now) }
{
    let copied = resolved.copy()?;
    let signatures = match operations.signatures().copy() {
        Ok(signatures) => signatures,
        Err(error) => {
            copied.release();
            return Err(RecheckRefusal::NoMemory(error));
        }
    };
    match rechecked_parts(alloc, resolved, certificate, operations) {
        Ok(parts) => Ok(RecheckedHost {
            resolved: copied,
            parts,
            operations: signatures,
        }),
        Err(refusal) => {
            copied.release();
            signatures.release();
            Err(refusal)
        }
    }
}

// What is made of a resolved host that is certified.
fn rechecked_parts<M: Meaning>(
    alloc: Global,
    resolved: &Resolved,
    certificate: &[u8],
    operations: &OperationTable<M>,
) -> Result<HostParts, RecheckRefusal>
    requires { IsOfText resolved.now }
    ensures certified { IfOk result (λ parts. IsCertified (record { resolved = resolved.now; parts = parts; operations = operations.now.signatures })) }
    ensures certificate { IfOk result (λ parts. IsCertificateOfHost resolved.now certificate.now) }
    ensures refused { IfErr result (IsValueRecheckRefusal resolved.now operations.now.signatures certificate.now) }
{
    test_kinds(alloc, resolved, operations)?;
    let parts = parts_by_text(alloc, resolved, certificate)?;
    match check_attributes(alloc, resolved) {
        Ok(()) => Ok(parts),
        Err(refusal) => {
            parts.release();
            Err(of_certify(refusal))
        }
    }
}

// Whether each expression is of its kind.
pub(crate) fn test_kinds<M: Meaning>(
    alloc: Global,
    resolved: &Resolved,
    operations: &OperationTable<M>,
) -> Result<(), RecheckRefusal>
    ensures ok { IfOk result (λ done. KindsOk resolved.now.attributes operations.now.signatures) }
    ensures refused { IfErr result (IsKindFault resolved.now operations.now.signatures) }
{
    match check_kinds(alloc, resolved, operations) {
        Ok(()) => Ok(()),
        Err(refusal) => Err(of_certify(refusal)),
    }
}

// What is made of a deterministic host, where the text is its certificate.
fn parts_by_text(
    alloc: Global,
    resolved: &Resolved,
    certificate: &[u8],
) -> Result<HostParts, RecheckRefusal>
    ensures ok { IfOk result (IsFound resolved.now certificate.now) }
    ensures refused { IfErr result (IsLaterRefusal resolved.now certificate.now) }
{
    if resolved.parts().grammar.is_none() {
        return Err(of_certify(without_start(alloc, resolved)));
    }
    match host_facts(alloc, resolved) {
        Ok(HostFacts { grammar, facts }) => {
            let answer = parts_with(alloc, resolved, certificate, grammar, &facts);
            drop(facts);
            answer
        }
        Err(refusal) => Err(of_determinism(refusal)),
    }
}

// Like `parts_by_text`, where the rules before the conflict hold, this is the grammar with holes, and these are its facts.
fn parts_with(
    alloc: Global,
    resolved: &Resolved,
    certificate: &[u8],
    grammar: Grammar,
    facts: &Facts,
) -> Result<HostParts, RecheckRefusal>
    requires grammar { IsSome resolved.now.grammar }
    requires facts { IfSome resolved.now.grammar (λ g. AreFactsOfHost resolved.now g grammar facts.now) }
    ensures ok { IfOk result (λ parts. IfSome resolved.now.grammar (λ g. IsDeterministicHost resolved.now g × AreHostParts resolved.now g parts)) }
    ensures certificate { IfOk result (λ parts. IsCertificateOfHost resolved.now certificate.now) }
    ensures refused { IfErr result (IsLaterRefusal resolved.now certificate.now) }
{
    match looked_by(alloc, resolved, certificate, &grammar, facts) {
        Ok(looked) => judged(alloc, resolved, grammar, facts, looked),
        Err(fault) => {
            drop(grammar);
            Err(of_fault(fault))
        }
    }
}

// What is made of the host, where it is deterministic with these kernels and lookaheads.
fn judged(
    alloc: Global,
    resolved: &Resolved,
    grammar: Grammar,
    facts: &Facts,
    looked: Looked,
) -> Result<HostParts, RecheckRefusal>
    requires grammar { IsSome resolved.now.grammar }
    requires facts { IfSome resolved.now.grammar (λ g. AreFactsOfHost resolved.now g grammar facts.now) }
    requires kernels { looked.kernels.grammar ≡ grammar }
    requires lookaheads { AreLookaheads looked.kernels looked.lookaheads }
    ensures ok { IfOk result (λ parts. IfSome resolved.now.grammar (λ g. IsDeterministicHost resolved.now g × AreHostParts resolved.now g parts)) }
    ensures refused { (text : List ℕ) → IsCertificateOfHost resolved.now text → IfErr result (IsLaterRefusal resolved.now text) }
{
    let Looked {
        kernels,
        lookaheads,
    } = looked;
    match judge_host(alloc, resolved, grammar, facts, kernels, lookaheads) {
        Ok(parts) => Ok(parts),
        Err(refusal) => Err(of_determinism(refusal)),
    }
}

// The kernels of the grammar with holes, and the lookaheads that the text lists, where it is a certificate of the host.
fn looked_by(
    alloc: Global,
    resolved: &Resolved,
    certificate: &[u8],
    grammar: &Grammar,
    facts: &Facts,
) -> Result<Looked, CertificateFault>
    requires grammar { IsSome resolved.now.grammar }
    requires facts { IfSome resolved.now.grammar (λ g. AreFactsOfHost resolved.now g grammar.now facts.now) }
    ensures kernels { IfOk result (λ looked. looked.kernels.grammar ≡ grammar.now) }
    ensures lookaheads { IfOk result (λ looked. AreLookaheads looked.kernels looked.lookaheads) }
    ensures certificate { IfOk result (λ looked. IsCertificateOfHost resolved.now certificate.now) }
    ensures refused { IfErr result (IsFaultOfHost resolved.now certificate.now) }
{
    let name = resolved.parts().host.as_slice();
    lookaheads_by_text(alloc, certificate, &Owner::Host(name), grammar, facts)
}
