//! What does `certify HOST EXT..` answer, and which certified extension of a host is in a file?
//!
//! The host comes first, by the checks in `hosts`, and then each extension in order. What a certified extension is, and why contents aren't
//! one, is found by `wb_certify_files`.

ghost use Rattle.std.specs.Prelude.{◌≡◌, ◌++◌, IfOk, IfErr, OnOk, List, ℕ, [], ◌∷◌, map};
ghost use Rattle.wb_certify_files.specs.Extensions.{IsOneExtension};
ghost use Rattle.wb_certify_files.specs.ExtensionContents.{IsExtensionText, IsExtensionRefusal};
ghost use Rattle.wb_certify_files.specs.HostContents.{IsHostText};
ghost use Rattle.wb_report.specs.Lines.{report_of};
ghost use Rattle.wb_program_words.specs.Asked.{texts};
ghost use Rattle.wb_program_files.specs.Contents.{ReadIs};
ghost use Rattle.wb_program_files.specs.Files.{KnownFile};
ghost use Rattle.wb_program_files.specs.Stops.{certified_extension, StopsAt};
ghost use Rattle.wb_program_files.specs.Stopped.{outside};
ghost use Rattle.wb_program_files.specs.Makes.{Answers, Makes};
ghost use Rattle.wb_program_files.specs.Commands.Certify.{CertifyReport, CertifyStops, ExtensionsReport};
ghost use Rattle.wb_program_files.specs.Inner.Extensions.{IsFound};

use crate::answer::{Answer, reported};
use crate::extensions::{MOST_EXTENSIONS, refused_extension};
use crate::files::{Contents, ReadFailure, named_contents};
use crate::hosts::read_host;
use crate::status::Status;
use std::alloc::{AllocError, Global};
use wb_base::{Bytes, Sequence};
use wb_certify_files::{CertifiedExtension, CertifiedHost, FileRefusal, extension_of};
use wb_operations::{Meaning, OperationTable};
use wb_report::{Done, Outcome, Refusal, SpecReason};
use wb_world::Shelf;

/// The answer to `certify HOST EXT..`.
pub fn answer_certify<S: Shelf, M: Meaning>(
    alloc: Global,
    shelf: &mut S,
    host: &str,
    extensions: &[String],
    operations: &OperationTable<M>,
) -> Result<Answer, ReadFailure>
    ensures { Answers (outside (S.files shelf.old) (S.absences shelf.old) (S.faults shelf.old)) (outside (S.files shelf.new) (S.absences shelf.new) (S.faults shelf.new))
        result (CertifyReport operations.now.signatures (S.files shelf.old) host.now (texts extensions.now))
        (CertifyStops operations.now.signatures (S.files shelf.old) host.now (texts extensions.now)) }
{
    if extensions.len() > MOST_EXTENSIONS {
        return Ok(reported(alloc, Status::TooManyExtensions, Outcome::TooManyExtensions)?);
    }
    match read_host(alloc, shelf, host, operations)? {
        Ok(certified) => {
            let answer = answer_extensions(alloc, shelf, &certified, extensions, operations);
            certified.release();
            answer
        }
        Err(answer) => Ok(answer),
    }
}

// The answer for the files of extensions, in their order.
fn answer_extensions<S: Shelf, M: Meaning>(
    alloc: Global,
    shelf: &mut S,
    host: &CertifiedHost,
    files: &[String],
    operations: &OperationTable<M>,
) -> Result<Answer, ReadFailure>
    requires { host.now.operations ≡ operations.now.signatures }
    ensures { Answers (outside (S.files shelf.old) (S.absences shelf.old) (S.faults shelf.old)) (outside (S.files shelf.new) (S.absences shelf.new) (S.faults shelf.new))
        result (ExtensionsReport operations.now.signatures (S.files shelf.old) host.now.resolved (texts files.now) [])
        (λ P. (file : List ℕ) → KnownFile (S.files shelf.old) file (λ contents. IsHostText operations.now.signatures contents host.now.resolved)
        → StopsAt operations.now.signatures (S.files shelf.old) P (map (certified_extension file) (texts files.now))) }
{
    let mut names = Vec::new(alloc);
    let mut at = 0;
    'files: while at < files.len() {
        match name_of(alloc, shelf, host, files[at].as_str(), operations)? {
            Ok(name) => push_name(&mut names, name)?,
            Err(answer) => return Ok(answer),
        }
        at += 1;
    }
    Ok(all_certified(alloc, host, names)?)
}

// Appends a name.
fn push_name(names: &mut Vec<Bytes>, name: Bytes) -> Result<(), AllocError>
    ensures { OnOk result (names.new.items ≡ names.old.items ++ name ∷ []) }
{
    names.push(name)?;
    Ok(())
}

// The name of the certified extension of a file, or the answer for a file that isn't one.
fn name_of<S: Shelf, M: Meaning>(
    alloc: Global,
    shelf: &mut S,
    host: &CertifiedHost,
    file: &str,
    operations: &OperationTable<M>,
) -> Result<Result<Bytes, Answer>, ReadFailure>
    requires { host.now.operations ≡ operations.now.signatures }
    ensures { Makes (outside (S.files shelf.old) (S.absences shelf.old) (S.faults shelf.old)) (outside (S.files shelf.new) (S.absences shelf.new) (S.faults shelf.new))
        result (IsFound operations.now.signatures (S.files shelf.old) host.now.resolved file.now)
        (λ P. P file.now) }
{
    let (word, contents) = named_contents(alloc, shelf, file)?;
    match extension_in(alloc, host, contents, operations) {
        Ok(extension) => {
            drop(word);
            Ok(Ok(extension_name(alloc, extension)?))
        }
        Err(refusal) => Ok(Err(refused_extension(alloc, word, refusal)?)),
    }
}

// The certified extension that was read.
fn extension_in<M: Meaning>(
    alloc: Global,
    host: &CertifiedHost,
    contents: Contents,
    operations: &OperationTable<M>,
) -> Result<CertifiedExtension, FileRefusal>
    requires { host.now.operations ≡ operations.now.signatures }
    ensures ok { IfOk result (λ extension. ReadIs contents (λ bytes. IsExtensionText host.now.resolved operations.now.signatures bytes extension.resolved)) }
    ensures refused { IfErr result (λ refusal. ReadIs contents (λ bytes. IsExtensionRefusal host.now.resolved operations.now.signatures bytes refusal)) }
{
    match contents {
        Contents::Whole(bytes) => extension_of(alloc, host, &bytes, operations),
        Contents::TooLong => Err(FileRefusal::Specification(Refusal::Specification(
            SpecReason::TooLong,
        ))),
    }
}

// The name of a certified extension.
fn extension_name(alloc: Global, extension: CertifiedExtension) -> Result<Bytes, AllocError>
    ensures { IfOk result (IsOneExtension extension.resolved) }
{
    let name = Bytes::from_slice(alloc, extension.name());
    extension.release();
    name
}

// The answer for a host and extensions of these names that are certified.
fn all_certified(
    alloc: Global,
    host: &CertifiedHost,
    names: Vec<Bytes>,
) -> Result<Answer, AllocError>
    ensures status { IfOk result (λ answer. answer.status ≡ Status.Done) }
    ensures report { IfOk result (λ answer. answer.report.items ≡ report_of (Outcome.Done (Done.Certified host.now.resolved.host names.items))) }
{
    match Bytes::from_slice(alloc, host.name()) {
        Ok(host) => {
            let extensions = Sequence::from_vec(names);
            reported(
                alloc,
                Status::Done,
                Outcome::Done(Done::Certified { host, extensions }),
            )
        }
        Err(error) => {
            drop(names);
            Err(error)
        }
    }
}
