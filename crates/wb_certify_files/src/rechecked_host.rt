//! Reads the contents of a file as a host that is certified by the text of a certificate.
//!
//! They are read, names get their numbers, and the value that they stand for is certified by the text; each refusal is handed on as a
//! report shows it.

ghost use Rattle.std.specs.Prelude.{◌≡◌, IfErr, IfOk, List, ℕ};
ghost use Rattle.wb_recheck.specs.Hosts.{IsOfText};
ghost use Rattle.wb_certify_files.specs.HostContents.{StandsFor};
ghost use Rattle.wb_certify_files.specs.RecheckedHosts.{IsRecheckedHost, IsRefusedHost};
ghost use Rattle.wb_certify_files.specs.Inner.RecheckShown.{of_host};

use crate::recheck_shown::{Owner, shown_value};
use crate::{ContentsRefusal, FileRefusal, HostRefusal, resolved_host_of};
use std::alloc::Global;
use wb_operations::{Meaning, OperationTable};
use wb_recheck::{RecheckedHost, recheck_resolved};
use wb_syntax_resolved::Resolved;

/// The contents of a file as a host that is certified over a table of operations by the text of a certificate, or why they aren't one.
///
/// Both may come from anywhere. Which of several examples of a refusal is shown is left open. No clause bounds the time.
pub fn rechecked_host_of<M: Meaning>(
    alloc: Global,
    contents: &[u8],
    certificate: &[u8],
    operations: &OperationTable<M>,
) -> Result<RecheckedHost, ContentsRefusal>
    ensures host { IfOk result (λ host. IsRecheckedHost operations.now.signatures contents.now certificate.now host.resolved) }
    ensures operations { IfOk result (λ host. host.operations ≡ operations.now.signatures) }
    ensures refused { IfErr result (IsRefusedHost operations.now.signatures contents.now certificate.now) }
{
    match resolved_host_of(alloc, contents) {
        Ok(resolved) => {
            let answer = rechecked(alloc, &resolved, certificate, operations);
            resolved.release();
            answer
        }
        Err(refusal) => Err(ContentsRefusal::File(unresolved(refusal))),
    }
}

// The host that a value is, certified by the text.
fn rechecked<M: Meaning>(
    alloc: Global,
    resolved: &Resolved,
    certificate: &[u8],
    operations: &OperationTable<M>,
) -> Result<RecheckedHost, ContentsRefusal>
    requires { IsOfText resolved.now }
    ensures host { (contents : List ℕ) → StandsFor contents resolved.now → IfOk result (λ host. IsRecheckedHost operations.now.signatures contents certificate.now host.resolved) }
    ensures operations { IfOk result (λ host. host.operations ≡ operations.now.signatures) }
    ensures refused { (contents : List ℕ) → StandsFor contents resolved.now → IfErr result (IsRefusedHost operations.now.signatures contents certificate.now) }
{
    match recheck_resolved(alloc, resolved, certificate, operations) {
        Ok(host) => Ok(host),
        Err(refusal) => Err(shown_value(alloc, Owner::Host, resolved, refusal)),
    }
}

// What is shown of contents that stand for no value.
fn unresolved(refusal: HostRefusal) -> FileRefusal
    ensures { result ≡ of_host refusal }
{
    match refusal {
        HostRefusal::Specification(shown) => FileRefusal::Specification(shown),
        HostRefusal::Certification(shown) => FileRefusal::Certification(shown),
        HostRefusal::NoMemory(error) => FileRefusal::NoMemory(error),
    }
}
