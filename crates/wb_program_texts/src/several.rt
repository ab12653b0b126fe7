//! Reads certified extensions of a host from files, no two of one name.
//!
//! A file is read by what is written and by its first line, then its name is compared with those before it, and then it is certified.

ghost use Rattle.std.specs.Prelude.{◌≡◌, ◌↔◌, ◌++◌, ◌∷◌, IfOk, IfErr, OnOk, IsTrue, Contains, ℕ, List, []};
ghost use Rattle.wb_program_files.specs.Specifications.{IsSpecFor};
ghost use Rattle.wb_compose_texts.specs.Unions.{all_resolved};
ghost use Rattle.wb_program_words.specs.Asked.{texts};
ghost use Rattle.wb_program_texts.specs.SeveralStops.{StopsEach};
ghost use Rattle.wb_program_texts.specs.SeveralChecks.{AreEach, IsNext, IsNextText, RefusesEach, RefusesNext, names_of};
ghost use Rattle.wb_program_files.specs.Contents.{ReadIs};
ghost use Rattle.wb_program_texts.specs.Composable.{AreApart};
ghost use Rattle.wb_program_texts.specs.Inner.Several.{IsApartFrom, IsDuplicateOf, IsNextRefusal, IsNextSpec, IsNextSpecRefusal, RefusedNext};
ghost use Rattle.wb_program_files.specs.Stopped.{outside, Stopped, GoesOn};

use std::alloc::{AllocError, Global};
use wb_base::Bytes;
use wb_operations::{Meaning, OperationTable};
use wb_program_files::{
    Answer, CertifiedExtension, CertifiedHost, Contents, FileRefusal, ReadFailure, Status,
    extension_of_spec, extension_spec, named_contents, refused_extension, reported,
};
use wb_report::{Outcome, Refusal, SpecReason};
use wb_syntax::Spec;
use wb_world::Shelf;

// Why a file is refused as an extension after others.
#[derive(Drop)]
pub(crate) enum NextRefusal {
    // By what is written, or by the first line.
    Header(FileRefusal),
    // One before it has this name.
    Duplicate(Bytes),
    // By a rule that is left.
    Later(FileRefusal),
}

// Adds the extensions of files to a list without any, in their order, or finds the answer where one is refused.
pub(crate) fn read_into<S: Shelf, M: Meaning>(
    alloc: Global,
    shelf: &mut S,
    host: &CertifiedHost,
    files: &[String],
    extensions: &mut Vec<CertifiedExtension>,
    operations: &OperationTable<M>,
) -> Result<Result<(), Answer>, ReadFailure>
    requires operations { host.now.operations ≡ operations.now.signatures }
    requires none { extensions.old.items ≡ [] }
    ensures apart { IfOk result (λ read. IfOk read (λ done. AreApart host.now extensions.new.items)) }
    ensures ok { IfOk result (λ read. IfOk read (λ done. AreEach operations.now.signatures (S.files shelf.old) host.now.resolved (texts files.now) [] (all_resolved extensions.new.items))) }
    ensures refused { IfOk result (λ read. IfErr read (λ answer. RefusesEach operations.now.signatures (S.files shelf.old) host.now.resolved (texts files.now) [] answer.status answer.report.items)) }
    ensures stopped { IfErr result (Stopped (outside (S.files shelf.old) (S.absences shelf.old) (S.faults shelf.old))
        (outside (S.files shelf.new) (S.absences shelf.new) (S.faults shelf.new))
        (λ P. StopsEach operations.now.signatures (S.files shelf.old) host.now.resolved P (texts files.now) [])) }
    ensures goes_on { GoesOn (outside (S.files shelf.old) (S.absences shelf.old) (S.faults shelf.old))
        (outside (S.files shelf.new) (S.absences shelf.new) (S.faults shelf.new)) }
{
    let mut at = 0;
    'files: while at < files.len() {
        match next_extension(
            alloc,
            shelf,
            host,
            extensions,
            files[at].as_str(),
            operations,
        )? {
            Ok(extension) => add(extensions, extension)?,
            Err(answer) => return Ok(Err(answer)),
        }
        at += 1;
    }
    Ok(Ok(()))
}

// Adds an extension after the others.
fn add(
    extensions: &mut Vec<CertifiedExtension>,
    extension: CertifiedExtension,
) -> Result<(), AllocError>
    ensures { OnOk result (extensions.new.items ≡ extensions.old.items ++ extension ∷ []) }
{
    match extensions.reserve(1) {
        Ok(()) => {
            extensions.push_reserved(extension);
            Ok(())
        }
        Err(error) => {
            extension.release();
            Err(error)
        }
    }
}

// The extension of a file after others, or the answer where it is refused.
fn next_extension<S: Shelf, M: Meaning>(
    alloc: Global,
    shelf: &mut S,
    host: &CertifiedHost,
    before: &[CertifiedExtension],
    file: &str,
    operations: &OperationTable<M>,
) -> Result<Result<CertifiedExtension, Answer>, ReadFailure>
    requires { host.now.operations ≡ operations.now.signatures }
    ensures apart { IfOk result (λ read. IfOk read (IsApartFrom host.now before.now)) }
    ensures ok { IfOk result (λ read. IfOk read (λ extension. IsNext operations.now.signatures (S.files shelf.old) host.now.resolved (all_resolved before.now) file.now extension.resolved)) }
    ensures refused { IfOk result (λ read. IfErr read (λ answer. RefusesNext operations.now.signatures (S.files shelf.old) host.now.resolved (all_resolved before.now) file.now answer.status answer.report.items)) }
    ensures stopped { IfErr result (Stopped (outside (S.files shelf.old) (S.absences shelf.old) (S.faults shelf.old))
        (outside (S.files shelf.new) (S.absences shelf.new) (S.faults shelf.new)) (λ P. P file.now)) }
    ensures goes_on { GoesOn (outside (S.files shelf.old) (S.absences shelf.old) (S.faults shelf.old))
        (outside (S.files shelf.new) (S.absences shelf.new) (S.faults shelf.new)) }
{
    let (word, contents) = named_contents(alloc, shelf, file)?;
    match next_in(alloc, host, before, contents, operations) {
        Ok(extension) => {
            drop(word);
            Ok(Ok(extension))
        }
        Err(refusal) => Ok(Err(refused_next(alloc, word, refusal)?)),
    }
}

// The extension that was read, after others.
fn next_in<M: Meaning>(
    alloc: Global,
    host: &CertifiedHost,
    before: &[CertifiedExtension],
    contents: Contents,
    operations: &OperationTable<M>,
) -> Result<CertifiedExtension, NextRefusal>
    requires { host.now.operations ≡ operations.now.signatures }
    ensures apart { IfOk result (IsApartFrom host.now before.now) }
    ensures ok { IfOk result (λ extension. ReadIs contents (λ bytes. IsNextText operations.now.signatures host.now.resolved (all_resolved before.now) bytes extension.resolved)) }
    ensures refused { IfErr result (λ refusal. ReadIs contents (λ bytes. IsNextRefusal operations.now.signatures host.now.resolved (all_resolved before.now) bytes refusal)) }
{
    match contents {
        Contents::Whole(bytes) => next_of(alloc, host, before, &bytes, operations),
        Contents::TooLong => Err(NextRefusal::Header(FileRefusal::Specification(
            Refusal::Specification(SpecReason::TooLong),
        ))),
    }
}

// The extension that the contents of a file are, after others.
fn next_of<M: Meaning>(
    alloc: Global,
    host: &CertifiedHost,
    before: &[CertifiedExtension],
    contents: &[u8],
    operations: &OperationTable<M>,
) -> Result<CertifiedExtension, NextRefusal>
    requires { host.now.operations ≡ operations.now.signatures }
    ensures apart { IfOk result (IsApartFrom host.now before.now) }
    ensures ok { IfOk result (λ extension. IsNextText operations.now.signatures host.now.resolved (all_resolved before.now) contents.now extension.resolved) }
    ensures refused { IfErr result (λ refusal. IsNextRefusal operations.now.signatures host.now.resolved (all_resolved before.now) contents.now refusal) }
{
    match extension_spec(alloc, host, contents) {
        Ok(spec) => {
            let answer = next_with(alloc, host, before, &spec, operations);
            spec.release();
            answer
        }
        Err(refusal) => Err(NextRefusal::Header(refusal)),
    }
}

// The extension that a specification is, after others.
fn next_with<M: Meaning>(
    alloc: Global,
    host: &CertifiedHost,
    before: &[CertifiedExtension],
    spec: &Spec,
    operations: &OperationTable<M>,
) -> Result<CertifiedExtension, NextRefusal>
    requires { host.now.operations ≡ operations.now.signatures }
    ensures apart { (contents : List ℕ) → IsSpecFor host.now.resolved contents spec.now → IfOk result (IsApartFrom host.now before.now) }
    ensures ok { IfOk result (λ extension. IsNextSpec operations.now.signatures host.now.resolved (all_resolved before.now) spec.now extension.resolved) }
    ensures refused { IfErr result (IsNextSpecRefusal operations.now.signatures host.now.resolved (all_resolved before.now) spec.now) }
{
    if has_name(before, spec.name()) {
        return Err(duplicate(alloc, spec.name()));
    }
    match extension_of_spec(alloc, host, spec, operations) {
        Ok(extension) => Ok(extension),
        Err(refusal) => Err(NextRefusal::Later(refusal)),
    }
}

// Whether one of these extensions has the name.
fn has_name(extensions: &[CertifiedExtension], name: &[u8]) -> bool
    ensures { IsTrue result ↔ Contains (names_of (all_resolved extensions.now)) name.now }
{
    let mut at = 0;
    'extensions: while at < extensions.len() {
        if extensions[at].name() == name {
            return true;
        }
        at += 1;
    }
    false
}

// The refusal of an extension that has the name of another.
fn duplicate(alloc: Global, name: &[u8]) -> NextRefusal
    ensures { IsDuplicateOf name.now result }
{
    match Bytes::from_slice(alloc, name) {
        Ok(name) => NextRefusal::Duplicate(name),
        Err(error) => NextRefusal::Header(FileRefusal::NoMemory(error)),
    }
}

// The answer for a file that is refused as an extension after others.
fn refused_next(alloc: Global, file: Bytes, refusal: NextRefusal) -> Result<Answer, AllocError>
    ensures { IfOk result (λ answer. RefusedNext file refusal answer.status answer.report.items) }
{
    match refusal {
        NextRefusal::Header(refusal) => refused_extension(alloc, file, refusal),
        NextRefusal::Duplicate(name) => reported(
            alloc,
            Status::DuplicateExtension,
            Outcome::DuplicateExtension(name),
        ),
        NextRefusal::Later(refusal) => refused_extension(alloc, file, refusal),
    }
}
