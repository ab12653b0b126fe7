//! Which host is in a file: one that is certified, or one whose attributes are well defined?
//!
//! What such hosts are, and why contents aren't one, is found by `wb_certify_files`.

ghost use Rattle.std.specs.Prelude.{◌≡◌, IfOk, IfErr, Ok};
ghost use Rattle.std.specs.Result.{IsErrAnd};
ghost use Rattle.wb_certify_files.specs.Hosts.{IsCertifiedValue};
ghost use Rattle.wb_certify_files.specs.WellDefinedHosts.{HasWellDefinedAttributes};
ghost use Rattle.wb_certify_files.specs.HostContents.{IsHostText, IsHostRefusal};
ghost use Rattle.wb_certify_files.specs.WellDefined.{IsWellDefinedText, IsWellDefinedTextRefusal};
ghost use Rattle.wb_program_files.specs.Contents.{ReadIs};
ghost use Rattle.wb_program_files.specs.HostChecks.{IsHostFile, RefusesHost};
ghost use Rattle.wb_program_files.specs.Inner.Hosts.{IsWellDefinedFile, RefusedHost};
ghost use Rattle.wb_program_files.specs.Stopped.{outside, Stopped, GoesOn};

use crate::answer::{Answer, reported};
use crate::files::{Contents, ReadFailure, named_contents};
use crate::status::Status;
use std::alloc::{AllocError, Global};
use wb_base::Bytes;
use wb_certify_files::{CertifiedHost, HostRefusal, host_of, well_defined_host_of};
use wb_operations::{Meaning, OperationTable};
use wb_report::{Outcome, Refusal, SpecReason};
use wb_syntax_resolved::Resolved;
use wb_world::Shelf;

/// The certified host of a file, or the answer where the file isn't one.
pub fn read_host<S: Shelf, M: Meaning>(
    alloc: Global,
    shelf: &mut S,
    file: &str,
    operations: &OperationTable<M>,
) -> Result<Result<CertifiedHost, Answer>, ReadFailure>
    ensures ok { IfOk result (λ read. IfOk read (λ host. IsHostFile operations.now.signatures (S.files shelf.old) file.now host.resolved)) }
    ensures operations { IfOk result (λ read. IfOk read (λ host. host.operations ≡ operations.now.signatures)) }
    ensures refused { IfOk result (λ read. IfErr read (λ answer. RefusesHost (IsHostRefusal operations.now.signatures) (S.files shelf.old) file.now answer.status answer.report.items)) }
    ensures stopped { IfErr result (Stopped (outside (S.files shelf.old) (S.absences shelf.old) (S.faults shelf.old))
        (outside (S.files shelf.new) (S.absences shelf.new) (S.faults shelf.new)) (λ P. P file.now)) }
    ensures goes_on { GoesOn (outside (S.files shelf.old) (S.absences shelf.old) (S.faults shelf.old))
        (outside (S.files shelf.new) (S.absences shelf.new) (S.faults shelf.new)) }
{
    let (word, contents) = named_contents(alloc, shelf, file)?;
    let host = host_in(alloc, contents, operations);
    Ok(answered(alloc, word, host)?)
}

// The host of a file, whose attributes are well defined, or the answer where the file isn't one.
pub(crate) fn read_well_defined<S: Shelf, M: Meaning>(
    alloc: Global,
    shelf: &mut S,
    file: &str,
    operations: &OperationTable<M>,
) -> Result<Result<Resolved, Answer>, ReadFailure>
    ensures ok { IfOk result (λ read. IfOk read (IsWellDefinedFile operations.now.signatures (S.files shelf.old) file.now)) }
    ensures refused { IfOk result (λ read. IfErr read (λ answer. RefusesHost (IsWellDefinedTextRefusal operations.now.signatures) (S.files shelf.old) file.now answer.status answer.report.items)) }
    ensures stopped { IfErr result (Stopped (outside (S.files shelf.old) (S.absences shelf.old) (S.faults shelf.old))
        (outside (S.files shelf.new) (S.absences shelf.new) (S.faults shelf.new)) (λ P. P file.now)) }
    ensures goes_on { GoesOn (outside (S.files shelf.old) (S.absences shelf.old) (S.faults shelf.old))
        (outside (S.files shelf.new) (S.absences shelf.new) (S.faults shelf.new)) }
{
    let (word, contents) = named_contents(alloc, shelf, file)?;
    let host = well_defined_in(alloc, contents, operations);
    Ok(answered(alloc, word, host)?)
}

// The certified host that was read.
fn host_in<M: Meaning>(
    alloc: Global,
    contents: Contents,
    operations: &OperationTable<M>,
) -> Result<CertifiedHost, HostRefusal>
    ensures certified { IfOk result (λ host. IsCertifiedValue host.resolved operations.now.signatures) }
    ensures operations { IfOk result (λ host. host.operations ≡ operations.now.signatures) }
    ensures ok { IfOk result (λ host. ReadIs contents (λ bytes. IsHostText operations.now.signatures bytes host.resolved)) }
    ensures refused { IfErr result (λ refusal. ReadIs contents (λ bytes. IsHostRefusal operations.now.signatures bytes refusal)) }
{
    match contents {
        Contents::Whole(bytes) => host_of(alloc, &bytes, operations),
        Contents::TooLong => Err(HostRefusal::Specification(Refusal::Specification(
            SpecReason::TooLong,
        ))),
    }
}

// The host that was read, whose attributes are well defined.
fn well_defined_in<M: Meaning>(
    alloc: Global,
    contents: Contents,
    operations: &OperationTable<M>,
) -> Result<Resolved, HostRefusal>
    ensures well_defined { IfOk result (λ host. HasWellDefinedAttributes host operations.now.signatures) }
    ensures ok { IfOk result (λ host. ReadIs contents (λ bytes. IsWellDefinedText operations.now.signatures bytes host)) }
    ensures refused { IfErr result (λ refusal. ReadIs contents (λ bytes. IsWellDefinedTextRefusal operations.now.signatures bytes refusal)) }
{
    match contents {
        Contents::Whole(bytes) => well_defined_host_of(alloc, &bytes, operations),
        Contents::TooLong => Err(HostRefusal::Specification(Refusal::Specification(
            SpecReason::TooLong,
        ))),
    }
}

// The host that was read, or the answer for a file that is no such host.
fn answered<T>(
    alloc: Global,
    file: Bytes,
    read: Result<T, HostRefusal>,
) -> Result<Result<T, Answer>, AllocError>
    ensures ok { IfOk result (λ made. IfOk made (λ host. read ≡ Ok host)) }
    ensures refused { IfOk result (λ made. IfErr made (λ answer. IsErrAnd read (λ refusal. RefusedHost file refusal answer.status answer.report.items))) }
{
    match read {
        Ok(host) => {
            drop(file);
            Ok(Ok(host))
        }
        Err(refusal) => Ok(Err(refused_host(alloc, file, refusal)?)),
    }
}

// The answer for a file that is no such host.
fn refused_host(alloc: Global, file: Bytes, refusal: HostRefusal) -> Result<Answer, AllocError>
    ensures { IfOk result (λ answer. RefusedHost file refusal answer.status answer.report.items) }
{
    match refusal {
        HostRefusal::Specification(refusal) => reported(
            alloc,
            Status::SpecRefused,
            Outcome::Refused { file, refusal },
        ),
        HostRefusal::Certification(refusal) => reported(
            alloc,
            Status::NotCertified,
            Outcome::Refused { file, refusal },
        ),
        HostRefusal::NoMemory(error) => Err(error),
    }
}
