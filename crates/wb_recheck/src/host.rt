//! Is a specification a certified host, by the text of a certificate?
//!
//! Names first, then what the numbered value has to meet.

ghost use Rattle.std.specs.Prelude.{◌≡◌, IfErr, IfOk};
ghost use Rattle.wb_certify.specs.Resolving.{ResolvesHost};
ghost use Rattle.wb_certify.specs.Hosts.{IsCertifiedHost};
ghost use Rattle.wb_recheck.specs.Certificates.{IsCertificateOfHost};
ghost use Rattle.wb_recheck.specs.HostRefusals.{IsHostRecheckRefusal};

use crate::value::recheck_resolved;
use crate::{RecheckRefusal, RecheckedHost};
use std::alloc::Global;
use wb_certify::{CertifyRefusal, resolve_host};
use wb_names_theory::NameRefusal;
use wb_operations::{Meaning, OperationTable};
use wb_syntax::Spec;

/// A specification as a certified host over a table of operations, where the text is a certificate of it, or the first that fails: a rule
/// before the conflict, then the text, then a rule from the conflict on.
///
/// The text may come from anywhere. `certify_host` says of such a specification that it is certified, with the same value by numbers, or
/// it is out of memory. Kernels are found, and lookaheads are those of the text. No clause bounds the time.
pub fn recheck_host<M: Meaning>(
    alloc: Global,
    spec: &Spec,
    certificate: &[u8],
    operations: &OperationTable<M>,
) -> Result<RecheckedHost, RecheckRefusal>
    ensures names { IfOk result (λ host. ResolvesHost spec.now host.resolved) }
    ensures operations { IfOk result (λ host. host.operations ≡ operations.now.signatures) }
    ensures certified { IfOk result (λ host. IsCertifiedHost spec.now operations.now.signatures) }
    ensures certificate { IfOk result (λ host. IsCertificateOfHost host.resolved certificate.now) }
    ensures refused { IfErr result (IsHostRecheckRefusal spec.now operations.now.signatures certificate.now) }
{
    match resolve_host(alloc, spec) {
        Ok(resolved) => {
            // Some text is the specification.
            spec.items();
            let answer = recheck_resolved(alloc, &resolved, certificate, operations);
            resolved.release();
            answer
        }
        Err(NameRefusal::NoMemory(error)) => Err(RecheckRefusal::NoMemory(error)),
        Err(refusal) => Err(RecheckRefusal::Certify(CertifyRefusal::Names(refusal))),
    }
}
