//! What does `recheck HOST CERT [EXT CERT]` answer?
//!
//! The host comes first with its certificate, and then the extension with its. Files are read in `pairs`, and what is certified by the
//! text of a certificate is found by `wb_certify_files`.

ghost use Rattle.std.specs.Prelude.{◌≡◌, ◌⊎◌, IfErr, IfOk, List, None, Option, Some, ℕ};
ghost use Rattle.wb_program_words.specs.Asked.{texts};
ghost use Rattle.wb_certify_files.specs.RecheckedExtensions.{IsRecheckedNamed, IsRefusedExtension};
ghost use Rattle.wb_certify_files.specs.RecheckedHosts.{IsRecheckedHost, IsRefusedHost};
ghost use Rattle.wb_program_files.specs.Commands.Recheck.{ExtensionReport, RecheckReport, RecheckedLines, extension_reads, rechecked_reads};
ghost use Rattle.wb_program_files.specs.Contents.{ReadIs};
ghost use Rattle.wb_program_files.specs.Makes.{Answers, Makes};
ghost use Rattle.wb_program_files.specs.Inner.Pairs.{IsFound, IsFoundHost, IsMade, IsMadeHost};
ghost use Rattle.wb_program_files.specs.Stopped.{outside};
ghost use Rattle.wb_program_files.specs.Stops.{StopsAt};

use crate::answer::{Answer, reported};
use crate::files::{Contents, ReadFailure};
use crate::pairs::{Pair, certified_or_answer, read_pair};
use crate::status::Status;
use std::alloc::{AllocError, Global};
use wb_base::Bytes;
use wb_certify_files::{
    ContentsRefusal, FileRefusal, RecheckedHost, rechecked_extension_of, rechecked_host_of,
};
use wb_operations::{Meaning, OperationTable};
use wb_report::{Done, Outcome, Refusal, SpecReason};
use wb_world::Shelf;

/// The answer to `recheck HOST CERT [EXT CERT]`.
pub fn answer_recheck<S: Shelf, M: Meaning>(
    alloc: Global,
    shelf: &mut S,
    host: &str,
    certificate: &str,
    extension: &[String],
    operations: &OperationTable<M>,
) -> Result<Answer, ReadFailure>
    ensures { Answers (outside (S.files shelf.old) (S.absences shelf.old) (S.faults shelf.old)) (outside (S.files shelf.new) (S.absences shelf.new) (S.faults shelf.new))
        result (RecheckReport operations.now.signatures (S.files shelf.old) host.now certificate.now (texts extension.now))
        (λ P. StopsAt operations.now.signatures (S.files shelf.old) P (rechecked_reads host.now certificate.now (texts extension.now))) }
{
    match read_rechecked(alloc, shelf, host, certificate, operations)? {
        Ok(rechecked) => {
            let answer = answer_rest(alloc, shelf, &rechecked, extension, operations);
            rechecked.release();
            answer
        }
        Err(answer) => Ok(answer),
    }
}

// The host of a file that is certified by its certificate, or the answer where it isn't.
fn read_rechecked<S: Shelf, M: Meaning>(
    alloc: Global,
    shelf: &mut S,
    file: &str,
    certificate: &str,
    operations: &OperationTable<M>,
) -> Result<Result<RecheckedHost, Answer>, ReadFailure>
    ensures { Makes (outside (S.files shelf.old) (S.absences shelf.old) (S.faults shelf.old)) (outside (S.files shelf.new) (S.absences shelf.new) (S.faults shelf.new))
        result (IsFoundHost operations.now.signatures (S.files shelf.old) file.now certificate.now) (λ P. P file.now ⊎ P certificate.now) }
{
    match read_pair(alloc, shelf, file, certificate)? {
        Ok(pair) => Ok(host_or_answer(alloc, pair, file, certificate, operations)?),
        Err(answer) => Ok(Err(answer)),
    }
}

// The host that was read, certified by the text that was read, or the answer where it isn't.
fn host_or_answer<M: Meaning>(
    alloc: Global,
    pair: Pair,
    file: &str,
    certificate: &str,
    operations: &OperationTable<M>,
) -> Result<Result<RecheckedHost, Answer>, AllocError>
    ensures { IfOk result (IsMadeHost operations.now.signatures pair file.now certificate.now) }
{
    let Pair { contents, text } = pair;
    let found = host_in(alloc, contents, &text, operations);
    drop(text);
    certified_or_answer(alloc, found, file, certificate)
}

// The host that was read, certified by a text.
fn host_in<M: Meaning>(
    alloc: Global,
    contents: Contents,
    text: &[u8],
    operations: &OperationTable<M>,
) -> Result<RecheckedHost, ContentsRefusal>
    ensures operations { IfOk result (λ host. host.operations ≡ operations.now.signatures) }
    ensures ok { IfOk result (λ host. ReadIs contents (λ bytes. IsRecheckedHost operations.now.signatures bytes text.now host.resolved)) }
    ensures refused { IfErr result (λ refusal. ReadIs contents (λ bytes. IsRefusedHost operations.now.signatures bytes text.now refusal)) }
{
    match contents {
        Contents::Whole(bytes) => rechecked_host_of(alloc, &bytes, text, operations),
        Contents::TooLong => Err(too_long()),
    }
}

// The refusal of a file that is too long.
fn too_long() -> ContentsRefusal
    ensures { result ≡ ContentsRefusal.File (FileRefusal.Specification (Refusal.Specification SpecReason.TooLong)) }
{
    ContentsRefusal::File(FileRefusal::Specification(Refusal::Specification(SpecReason::TooLong)))
}

// The answer after the host: for the extension and its certificate, where there is one.
fn answer_rest<S: Shelf, M: Meaning>(
    alloc: Global,
    shelf: &mut S,
    host: &RecheckedHost,
    extension: &[String],
    operations: &OperationTable<M>,
) -> Result<Answer, ReadFailure>
    requires { host.now.operations ≡ operations.now.signatures }
    ensures { Answers (outside (S.files shelf.old) (S.absences shelf.old) (S.faults shelf.old)) (outside (S.files shelf.new) (S.absences shelf.new) (S.faults shelf.new))
        result (ExtensionReport operations.now.signatures (S.files shelf.old) host.now.resolved (texts extension.now))
        (λ P. StopsAt operations.now.signatures (S.files shelf.old) P (extension_reads (texts extension.now))) }
{
    if extension.len() < 2 {
        return Ok(rechecked_answer(alloc, host, None)?);
    }
    let file = extension[0].as_str();
    let certificate = extension[1].as_str();
    match read_name(alloc, shelf, host, file, certificate, operations)? {
        Ok(name) => Ok(rechecked_answer(alloc, host, Some(name))?),
        Err(answer) => Ok(answer),
    }
}

// The name of the extension of a file that is certified with its host by its certificate, or the answer where it isn't.
fn read_name<S: Shelf, M: Meaning>(
    alloc: Global,
    shelf: &mut S,
    host: &RecheckedHost,
    file: &str,
    certificate: &str,
    operations: &OperationTable<M>,
) -> Result<Result<Bytes, Answer>, ReadFailure>
    requires { host.now.operations ≡ operations.now.signatures }
    ensures { Makes (outside (S.files shelf.old) (S.absences shelf.old) (S.faults shelf.old)) (outside (S.files shelf.new) (S.absences shelf.new) (S.faults shelf.new))
        result (IsFound (IsRecheckedNamed host.now.resolved operations.now.signatures) (IsRefusedExtension host.now.resolved operations.now.signatures)
        (S.files shelf.old) file.now certificate.now) (λ P. P file.now ⊎ P certificate.now) }
{
    match read_pair(alloc, shelf, file, certificate)? {
        Ok(pair) => Ok(name_or_answer(alloc, host, pair, file, certificate, operations)?),
        Err(answer) => Ok(Err(answer)),
    }
}

// The name of the extension that was read, certified by the text that was read, or the answer where it isn't.
fn name_or_answer<M: Meaning>(
    alloc: Global,
    host: &RecheckedHost,
    pair: Pair,
    file: &str,
    certificate: &str,
    operations: &OperationTable<M>,
) -> Result<Result<Bytes, Answer>, AllocError>
    requires { host.now.operations ≡ operations.now.signatures }
    ensures { IfOk result (IsMade (IsRecheckedNamed host.now.resolved operations.now.signatures) (IsRefusedExtension host.now.resolved operations.now.signatures)
        pair file.now certificate.now) }
{
    let Pair { contents, text } = pair;
    let found = name_in(alloc, host, contents, &text, operations);
    drop(text);
    certified_or_answer(alloc, found, file, certificate)
}

// The name of the extension that was read, certified with its host by a text.
fn name_in<M: Meaning>(
    alloc: Global,
    host: &RecheckedHost,
    contents: Contents,
    text: &[u8],
    operations: &OperationTable<M>,
) -> Result<Bytes, ContentsRefusal>
    requires { host.now.operations ≡ operations.now.signatures }
    ensures ok { IfOk result (λ name. ReadIs contents (λ bytes. IsRecheckedNamed host.now.resolved operations.now.signatures bytes text.now name)) }
    ensures refused { IfErr result (λ refusal. ReadIs contents (λ bytes. IsRefusedExtension host.now.resolved operations.now.signatures bytes text.now refusal)) }
{
    match contents {
        Contents::Whole(bytes) => rechecked_extension_of(alloc, host, &bytes, text, operations),
        Contents::TooLong => Err(too_long()),
    }
}

// The answer for a host that is certified by its certificate, and for the extension of this name.
fn rechecked_answer(
    alloc: Global,
    host: &RecheckedHost,
    extension: Option<Bytes>,
) -> Result<Answer, AllocError>
    ensures { IfOk result (λ answer. RecheckedLines host.now.resolved.host extension answer.status answer.report.items) }
{
    match Bytes::from_slice(alloc, host.name()) {
        Ok(host) => reported(
            alloc,
            Status::Done,
            Outcome::Done(Done::Rechecked { host, extension }),
        ),
        Err(error) => {
            drop(extension);
            Err(error)
        }
    }
}
