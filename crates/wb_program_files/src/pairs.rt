//! Reads a file and its certificate, and answers where one of them is refused.
//!
//! Both are read before either is tested. What is certified by the text of a certificate is found by `wb_certify_files`.

ghost use Rattle.std.specs.Prelude.{◌≡◌, ◌⊎◌, IfErr, IfOk, Ok};
ghost use Rattle.std.specs.Result.{IsErrAnd};
ghost use Rattle.wb_program_files.specs.CertificateChecks.{RefusedCertificate, RefusedPair};
ghost use Rattle.wb_program_files.specs.ExtensionChecks.{RefusedExtension};
ghost use Rattle.wb_program_files.specs.Makes.{Makes};
ghost use Rattle.wb_program_files.specs.Inner.Pairs.{IsPaired, IsReadPair};
ghost use Rattle.wb_program_files.specs.Stopped.{outside};

use crate::answer::{Answer, reported};
use crate::extensions::refused_extension;
use crate::files::{Contents, ReadFailure, read_file};
use crate::status::Status;
use std::alloc::{AllocError, Global};
use wb_base::{Bytes, FILE_LIMIT};
use wb_certify_files::{ContentsRefusal, FileRefusal};
use wb_report::{CertificateReason, Outcome, Refusal};
use wb_world::Shelf;

/// The most bytes of a certificate, of one that is read as of one that is printed.
pub const MOST_BYTES: usize = 16_777_216;

// What is read of a file, and the text of its certificate.
#[derive(Drop)]
pub(crate) struct Pair {
    pub contents: Contents,
    pub text: Vec<u8>,
}

// What is read of a file and of its certificate, or the answer where the certificate is too long.
pub(crate) fn read_pair<S: Shelf>(
    alloc: Global,
    shelf: &mut S,
    file: &str,
    certificate: &str,
) -> Result<Result<Pair, Answer>, ReadFailure>
    ensures { Makes (outside (S.files shelf.old) (S.absences shelf.old) (S.faults shelf.old)) (outside (S.files shelf.new) (S.absences shelf.new) (S.faults shelf.new))
        result (IsReadPair (S.files shelf.old) file.now certificate.now) (λ P. P file.now ⊎ P certificate.now) }
{
    let contents = read_file(alloc, shelf, file, FILE_LIMIT)?;
    match read_file(alloc, shelf, certificate, MOST_BYTES) {
        Ok(text) => Ok(paired(alloc, contents, text, certificate)?),
        Err(failure) => {
            drop(contents);
            Err(failure)
        }
    }
}

// What was read of a file with what was read of its certificate, or the answer where that is too long.
fn paired(
    alloc: Global,
    contents: Contents,
    text: Contents,
    certificate: &str,
) -> Result<Result<Pair, Answer>, AllocError>
    ensures { IfOk result (IsPaired contents text certificate.now) }
{
    match text {
        Contents::Whole(text) => Ok(Ok(Pair { contents, text })),
        Contents::TooLong => {
            drop(contents);
            Ok(Err(refused_certificate(alloc, certificate, CertificateReason::TooLong)?))
        }
    }
}

// What is certified by the text of a certificate, or the answer for the file and the certificate where it isn't.
pub(crate) fn certified_or_answer<T>(
    alloc: Global,
    found: Result<T, ContentsRefusal>,
    file: &str,
    certificate: &str,
) -> Result<Result<T, Answer>, AllocError>
    ensures ok { IfOk result (λ made. IfOk made (λ x. found ≡ Ok x)) }
    ensures refused { IfOk result (λ made. IfErr made (λ answer. IsErrAnd found (λ refusal. RefusedPair file.now certificate.now refusal answer.status answer.report.items))) }
{
    match found {
        Ok(x) => Ok(Ok(x)),
        Err(refusal) => Ok(Err(refused_pair(alloc, file, certificate, refusal)?)),
    }
}

// The answer for a file with a certificate of which one is refused.
fn refused_pair(
    alloc: Global,
    file: &str,
    certificate: &str,
    refusal: ContentsRefusal,
) -> Result<Answer, AllocError>
    ensures { IfOk result (λ answer. RefusedPair file.now certificate.now refusal answer.status answer.report.items) }
{
    match refusal {
        ContentsRefusal::File(refusal) => refused_file(alloc, file, refusal),
        ContentsRefusal::Certificate(reason) => refused_certificate(alloc, certificate, reason),
    }
}

// The answer for a file that is refused.
fn refused_file(alloc: Global, file: &str, refusal: FileRefusal) -> Result<Answer, AllocError>
    ensures { IfOk result (λ answer. RefusedExtension file.now refusal answer.status answer.report.items) }
{
    match Bytes::from_slice(alloc, file.as_bytes()) {
        Ok(word) => refused_extension(alloc, word, refusal),
        Err(error) => {
            drop(refusal);
            Err(error)
        }
    }
}

// The answer for a certificate that is refused.
fn refused_certificate(
    alloc: Global,
    file: &str,
    reason: CertificateReason,
) -> Result<Answer, AllocError>
    ensures { IfOk result (λ answer. RefusedCertificate file.now reason answer.status answer.report.items) }
{
    let file = Bytes::from_slice(alloc, file.as_bytes())?;
    let refusal = Refusal::Certificate(reason);
    reported(
        alloc,
        Status::CertificateRefused,
        Outcome::Refused { file, refusal },
    )
}
