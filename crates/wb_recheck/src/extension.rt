//! Is a specification an extension that is certified with its host, by the text of a certificate?
//!
//! Names first, then what the numbered value of host and extension has to meet.

ghost use Rattle.std.specs.Prelude.{◌≡◌, IfErr, IfOk};
ghost use Rattle.wb_certify.specs.Extensions.{IsCertifiedExtension};
ghost use Rattle.wb_recheck.specs.Certificates.{HasExtensionCertificate};
ghost use Rattle.wb_recheck.specs.ExtensionRefusals.{IsExtensionRecheckRefusal};

use crate::beside::recheck_beside;
use crate::{RecheckRefusal, RecheckedHost};
use std::alloc::Global;
use wb_certify::{CertifyRefusal, resolve_extension};
use wb_names_theory::NameRefusal;
use wb_operations::{Meaning, OperationTable};
use wb_syntax::Spec;

/// Whether a specification is an extension that is certified with its host over a table of operations, where the text is a certificate of
/// it, or the first that fails: a rule before the conflict, then the text, then a rule from the conflict on.
///
/// The table is one with which the host was certified, and the text may come from anywhere. `certify_extension` says of such a
/// specification that it is certified, or it is out of memory. Kernels are found, and lookaheads are those of the text. No clause bounds
/// the time.
pub fn recheck_extension<M: Meaning>(
    alloc: Global,
    host: &RecheckedHost,
    spec: &Spec,
    certificate: &[u8],
    operations: &OperationTable<M>,
) -> Result<(), RecheckRefusal>
    requires { operations.now.signatures ≡ host.now.operations }
    ensures certified { IfOk result (λ done. IsCertifiedExtension host.now.resolved spec.now host.now.operations) }
    ensures certificate { IfOk result (λ done. HasExtensionCertificate host.now.resolved spec.now certificate.now) }
    ensures refused { IfErr result (IsExtensionRecheckRefusal host.now.resolved spec.now host.now.operations certificate.now) }
{
    match resolve_extension(alloc, host.resolved(), spec) {
        Ok(resolved) => {
            // Some text is the specification.
            spec.items();
            let answer = recheck_beside(alloc, host, &resolved, certificate, operations);
            resolved.release();
            answer
        }
        Err(NameRefusal::NoMemory(error)) => Err(RecheckRefusal::NoMemory(error)),
        Err(refusal) => Err(RecheckRefusal::Certify(CertifyRefusal::Names(refusal))),
    }
}
