//! Is a specification a certified host?
//!
//! Names first, then what the numbered value has to meet.

ghost use Rattle.std.specs.Prelude.{◌≡◌, IfErr, IfOk};
ghost use Rattle.wb_names.specs.Resolving.{ResolvesHost};
ghost use Rattle.wb_certify_host.specs.Hosts.{IsCertifiedHost};
ghost use Rattle.wb_certify_host.specs.Refusals.{IsHostCertifyRefusal};

use crate::value::certify_resolved;
use crate::{CertifiedHost, CertifyRefusal};
use std::alloc::Global;
use wb_names::resolve_host;
use wb_names_theory::NameRefusal;
use wb_operations::{Meaning, OperationTable};
use wb_syntax::Spec;

/// A specification as a certified host over a table of operations, or the first rule that fails.
///
/// Rules go by code: those of names, of kinds, of grammars and scanners, of attributes; each on the whole specification. No clause bounds
/// the time.
pub fn certify_host<M: Meaning>(
    alloc: Global,
    spec: &Spec,
    operations: &OperationTable<M>,
) -> Result<CertifiedHost, CertifyRefusal>
    ensures names { IfOk result (λ host. ResolvesHost spec.now host.resolved) }
    ensures operations { IfOk result (λ host. host.operations ≡ operations.now.signatures) }
    ensures certified { IfOk result (λ host. IsCertifiedHost spec.now operations.now.signatures) }
    ensures refused { IfErr result (IsHostCertifyRefusal spec.now operations.now.signatures) }
{
    match resolve_host(alloc, spec) {
        Ok(resolved) => {
            // Some text is the specification.
            spec.items();
            let answer = certify_resolved(alloc, &resolved, operations);
            resolved.release();
            answer
        }
        Err(NameRefusal::NoMemory(error)) => Err(CertifyRefusal::NoMemory(error)),
        Err(refusal) => Err(CertifyRefusal::Names(refusal)),
    }
}
