//! Is a resolved host with an extension certified beside the certified host, by the text of a certificate? Each test after names, in the
//! order in which refusals are reported.
//!
//! The host with the extension is tested as a whole, also where what the extension adds would tell.

ghost use Rattle.std.specs.Prelude.{◌≡◌, ℕ, List, IfErr, IfOk, IfSome, IsSome, length};
ghost use Rattle.wb_items.specs.LookaheadSets.{AreLookaheads};
ghost use Rattle.wb_certify.specs.Judged.{AreFactsOfHost};
ghost use Rattle.wb_certify.specs.Extensions.{IsCertifiedBeside, IsOneExtension};
ghost use Rattle.wb_certify.specs.Beside.{AreClearBeside};
ghost use Rattle.wb_certify.specs.Kept.{Extends};
ghost use Rattle.wb_certify.specs.Tests.{KeepMarkers};
ghost use Rattle.wb_recheck.specs.Certificates.{IsCertificateOfExtension, IsFaultOfExtension};
ghost use Rattle.wb_recheck.specs.ExtensionRefusals.{IsBesideRecheckRefusal};
ghost use Rattle.wb_recheck.specs.Inner.Extensions.{IsBeside, IsFaultBeside, IsFoundBeside, IsLaterBeside};

use crate::handed::{of_certify, of_determinism, of_fault};
use crate::value::test_kinds;
use crate::{RecheckRefusal, RecheckedHost};
use std::alloc::Global;
use wb_base::Grammar;
use wb_certify::{HostFacts, HostParts, check_attributes, host_facts, judge_extension, test_marks};
use wb_grammar::Facts;
use wb_operations::{Meaning, OperationTable};
use wb_recheck_entries::{CertificateFault, Looked, Owner, lookaheads_by_text};
use wb_syntax_resolved::Resolved;

/// Whether a resolved host with an extension is certified beside the host over a table of operations, where the text is a certificate of the
/// extension, or the first that fails: a rule before the conflict, then the text, then a rule from the conflict on.
///
/// The table is one with which the host was certified. Rules of names don't come, since they hold. No clause bounds the time.
pub fn recheck_beside<M: Meaning>(
    alloc: Global,
    host: &RecheckedHost,
    resolved: &Resolved,
    certificate: &[u8],
    operations: &OperationTable<M>,
) -> Result<(), RecheckRefusal>
    requires operations { operations.now.signatures ≡ host.now.operations }
    requires extends { Extends host.now.resolved resolved.now }
    ensures certified { IfOk result (λ done. IsCertifiedBeside host.now.resolved resolved.now host.now.operations) }
    ensures certificate { IfOk result (λ done. IsCertificateOfExtension resolved.now certificate.now) }
    ensures refused { IfErr result (IsBesideRecheckRefusal host.now.resolved resolved.now host.now.operations certificate.now) }
{
    test_kinds(alloc, resolved, operations)?;
    test_grammar(alloc, host, resolved, certificate)?;
    match check_attributes(alloc, resolved) {
        Ok(()) => Ok(()),
        Err(refusal) => Err(of_certify(refusal)),
    }
}

// Whether the extension is deterministic beside the host, and the text is a certificate of it.
fn test_grammar(
    alloc: Global,
    host: &RecheckedHost,
    resolved: &Resolved,
    certificate: &[u8],
) -> Result<(), RecheckRefusal>
    requires { Extends host.now.resolved resolved.now }
    ensures ok { IfOk result (λ done. IsFoundBeside host.now resolved.now certificate.now) }
    ensures refused { IfErr result (IsLaterBeside host.now.resolved resolved.now certificate.now) }
{
    match test_marked(alloc, host.parts(), resolved, certificate) {
        Ok(()) => Ok(()),
        Err(refusal) => Err(refusal),
    }
}

// Like `test_grammar`, beside these parts of a host: markers first.
fn test_marked(
    alloc: Global,
    host: &HostParts,
    resolved: &Resolved,
    certificate: &[u8],
) -> Result<(), RecheckRefusal>
    requires { IsBeside resolved.now host.now }
    ensures ok { IfOk result (λ done. AreClearBeside resolved.now host.now.grammar) }
    ensures certificate { IfOk result (λ done. IsCertificateOfExtension resolved.now certificate.now) }
    ensures refused { IfErr result (IsFaultBeside resolved.now host.now.grammar certificate.now) }
{
    match test_marks(alloc, resolved) {
        Ok(()) => test_facts(alloc, host, resolved, certificate),
        Err(refusal) => Err(of_determinism(refusal)),
    }
}

// Like `test_marked`, where markers keep their rules: the rules before the conflict.
fn test_facts(
    alloc: Global,
    host: &HostParts,
    resolved: &Resolved,
    certificate: &[u8],
) -> Result<(), RecheckRefusal>
    requires beside { IsBeside resolved.now host.now }
    requires markers { KeepMarkers resolved.now }
    ensures ok { IfOk result (λ done. AreClearBeside resolved.now host.now.grammar) }
    ensures certificate { IfOk result (λ done. IsCertificateOfExtension resolved.now certificate.now) }
    ensures refused { IfErr result (IsFaultBeside resolved.now host.now.grammar certificate.now) }
{
    match host_facts(alloc, resolved) {
        Ok(HostFacts { grammar, facts }) => {
            let answer = test_by_text(alloc, host, resolved, certificate, grammar, &facts);
            drop(facts);
            answer
        }
        Err(refusal) => Err(of_determinism(refusal)),
    }
}

// Like `test_facts`, where these rules hold, this is the grammar with holes, and these are its facts.
fn test_by_text(
    alloc: Global,
    host: &HostParts,
    resolved: &Resolved,
    certificate: &[u8],
    grammar: Grammar,
    facts: &Facts,
) -> Result<(), RecheckRefusal>
    requires beside { IsBeside resolved.now host.now }
    requires markers { KeepMarkers resolved.now }
    requires facts { IfSome resolved.now.grammar (λ g. AreFactsOfHost resolved.now g grammar facts.now) }
    ensures ok { IfOk result (λ done. AreClearBeside resolved.now host.now.grammar) }
    ensures certificate { IfOk result (λ done. IsCertificateOfExtension resolved.now certificate.now) }
    ensures refused { IfErr result (IsFaultBeside resolved.now host.now.grammar certificate.now) }
{
    match looked_by(alloc, resolved, certificate, &grammar, facts) {
        Ok(looked) => test_judged(alloc, host, resolved, grammar, facts, looked),
        Err(fault) => {
            drop(grammar);
            Err(of_fault(fault))
        }
    }
}

// Whether the extension is deterministic beside the host with these kernels and lookaheads.
fn test_judged(
    alloc: Global,
    host: &HostParts,
    resolved: &Resolved,
    grammar: Grammar,
    facts: &Facts,
    looked: Looked,
) -> Result<(), RecheckRefusal>
    requires beside { IsBeside resolved.now host.now }
    requires markers { KeepMarkers resolved.now }
    requires facts { IfSome resolved.now.grammar (λ g. AreFactsOfHost resolved.now g grammar facts.now) }
    requires kernels { looked.kernels.grammar ≡ grammar }
    requires lookaheads { AreLookaheads looked.kernels looked.lookaheads }
    ensures ok { IfOk result (λ done. AreClearBeside resolved.now host.now.grammar) }
    ensures refused { (text : List ℕ) → IsCertificateOfExtension resolved.now text → IfErr result (IsFaultBeside resolved.now host.now.grammar text) }
{
    let Looked {
        kernels,
        lookaheads,
    } = looked;
    match judge_extension(alloc, host, resolved, grammar, facts, kernels, lookaheads) {
        Ok(parts) => {
            drop(parts);
            Ok(())
        }
        Err(refusal) => Err(of_determinism(refusal)),
    }
}

// The kernels of the grammar with holes, and the lookaheads that the text lists, where it is a certificate of the extension.
fn looked_by(
    alloc: Global,
    resolved: &Resolved,
    certificate: &[u8],
    grammar: &Grammar,
    facts: &Facts,
) -> Result<Looked, CertificateFault>
    requires one { length resolved.now.attributes.extensions ≡ 1 }
    requires grammar { IsSome resolved.now.grammar }
    requires markers { KeepMarkers resolved.now }
    requires facts { IfSome resolved.now.grammar (λ g. AreFactsOfHost resolved.now g grammar.now facts.now) }
    ensures kernels { IfOk result (λ looked. looked.kernels.grammar ≡ grammar.now) }
    ensures lookaheads { IfOk result (λ looked. AreLookaheads looked.kernels looked.lookaheads) }
    ensures certificate { IfOk result (λ looked. IsCertificateOfExtension resolved.now certificate.now) }
    ensures refused { IfErr result (IsFaultOfExtension resolved.now certificate.now) }
{
    let host = resolved.parts().host.as_slice();
    let name = name_of(resolved);
    lookaheads_by_text(
        alloc,
        certificate,
        &Owner::Extension(name, host),
        grammar,
        facts,
    )
}

// The name of the one extension.
fn name_of(resolved: &Resolved) -> &[u8]
    requires { length resolved.now.attributes.extensions ≡ 1 }
    ensures { IsOneExtension resolved.now result.now }
{
    resolved.parts().attributes.parts().extensions.as_slice()[0].as_slice()
}
