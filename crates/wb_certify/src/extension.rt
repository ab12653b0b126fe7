//! Is a specification an extension that is certified with its host?
//!
//! Names first, then what the numbered value of host and extension has to meet.

ghost use Rattle.std.specs.Prelude.{◌≡◌, [], IfErr, IfOk};
ghost use Rattle.wb_certify_host.specs.Resolving.{ResolvesExtension};
ghost use Rattle.wb_certify.specs.Extensions.{IsCertifiedExtension};
ghost use Rattle.wb_certify.specs.Refusals.{IsExtensionCertifyRefusal};

use crate::CertifiedExtension;
use crate::value::certify_beside;
use std::alloc::Global;
use wb_certify_host::{CertifiedHost, CertifyRefusal, resolve_extension};
use wb_names_theory::NameRefusal;
use wb_operations::{Meaning, OperationTable};
use wb_syntax::Spec;

/// A specification as an extension that is certified with its host over a table of operations, or the first rule that fails.
///
/// The table is one with which the host was certified. Rules go by code: those of names, of kinds, of bridges, preferences and markers, of
/// grammars and scanners, of what the extension may add to the host, of attributes; each on host and extension together. No other extension
/// is looked at. That there is no start never comes, since the host has one. No clause bounds the time.
pub fn certify_extension<M: Meaning>(
    alloc: Global,
    host: &CertifiedHost,
    spec: &Spec,
    operations: &OperationTable<M>,
) -> Result<CertifiedExtension, CertifyRefusal>
    requires { operations.now.signatures ≡ host.now.operations }
    ensures host { IfOk result (λ extension. extension.host ≡ host.now.resolved) }
    ensures operations { IfOk result (λ extension. extension.operations ≡ host.now.operations) }
    ensures names { IfOk result (λ extension. ResolvesExtension host.now.resolved spec.now extension.resolved) }
    ensures certified { IfOk result (λ extension. IsCertifiedExtension host.now.resolved spec.now host.now.operations) }
    ensures refused { IfErr result (IsExtensionCertifyRefusal host.now.resolved spec.now host.now.operations) }
{
    match resolve_extension(alloc, host.resolved(), spec) {
        Ok(resolved) => {
            // Some text is the specification.
            spec.items();
            let answer = certify_beside(alloc, host, &resolved, operations);
            resolved.release();
            answer
        }
        Err(NameRefusal::NoMemory(error)) => Err(CertifyRefusal::NoMemory(error)),
        Err(refusal) => Err(CertifyRefusal::Names(refusal)),
    }
}
