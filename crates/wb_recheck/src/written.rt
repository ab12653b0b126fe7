//! Which certificate has a certified host or extension? That of its grammar with holes, with its names.

ghost use Rattle.std.specs.Prelude.{◌<◌, ◌≤◌, ℕ, IfOk, List, MatchOption, length};
ghost use Rattle.wb_recheck.specs.CertificateTexts.{IsExtensionCertificate, IsHostCertificate};
ghost use Rattle.wb_recheck.specs.Inner.Fit.{IsFitWithHoles, IsHeadOf, IsTextOfHoles};
ghost use Rattle.wb_recheck_text.specs.Faults.{AreNames};

use crate::text::text_within;
use std::alloc::{AllocError, Global};
use wb_base::Bytes;
use wb_certify::{CertifiedExtension, CertifiedHost};
use wb_marking_holes::with_holes;
use wb_recheck_text::Head;
use wb_syntax_resolved::Resolved;

/// The certificate of a certified host: the kernels and lookaheads of its grammar with holes.
///
/// Kernels are numbered as they are first reached, and entries are listed so. The only error is out of memory.
pub fn write_host(alloc: Global, host: &CertifiedHost) -> Result<Bytes, AllocError>
    ensures { IfOk result (IsHostCertificate host.now.resolved) }
{
    match host_certificate(alloc, host, usize::MAX) {
        Ok(Some(text)) => Ok(text),
        Ok(None) => Err(AllocError),
        Err(error) => Err(error),
    }
}

/// The certificate of a certified extension with its host, likewise.
pub fn write_extension(alloc: Global, extension: &CertifiedExtension) -> Result<Bytes, AllocError>
    ensures { IfOk result (IsExtensionCertificate extension.now.resolved) }
{
    match extension_certificate(alloc, extension, usize::MAX) {
        Ok(Some(text)) => Ok(text),
        Ok(None) => Err(AllocError),
        Err(error) => Err(error),
    }
}

/// The certificate of a certified host, or none where it has more bytes than the limit.
///
/// Entries are made no further than the limit allows, so memory goes with the limit where the certificate is larger.
pub fn host_certificate(
    alloc: Global,
    host: &CertifiedHost,
    limit: usize,
) -> Result<Option<Bytes>, AllocError>
    ensures { IfOk result (λ made. MatchOption made ((text : List ℕ) → IsHostCertificate host.now.resolved text → limit < length text) (λ text. IsHostCertificate host.now.resolved text × (length text ≤ limit))) }
{
    let resolved = host.resolved();
    let name = resolved.parts().host.copy()?;
    certificate_of(alloc, resolved, Head::Host(name), limit)
}

/// The certificate of a certified extension with its host, or none where it has more bytes than the limit.
pub fn extension_certificate(
    alloc: Global,
    extension: &CertifiedExtension,
    limit: usize,
) -> Result<Option<Bytes>, AllocError>
    ensures { IfOk result (λ made. MatchOption made ((text : List ℕ) → IsExtensionCertificate extension.now.resolved text → limit < length text) (λ text. IsExtensionCertificate extension.now.resolved text × (length text ≤ limit))) }
{
    let head = extension_head(alloc, extension)?;
    certificate_of(alloc, extension.resolved(), head, limit)
}

// The names of an extension and its host.
fn extension_head(alloc: Global, extension: &CertifiedExtension) -> Result<Head, AllocError>
    ensures { IfOk result (IsHeadOf extension.now.resolved) }
{
    let host = extension.resolved().parts().host.copy()?;
    match Bytes::from_slice(alloc, extension.name()) {
        Ok(name) => Ok(Head::Extension(name, host)),
        Err(error) => {
            drop(host);
            Err(error)
        }
    }
}

// The certificate of a grammar with holes, with this head, or none where it has more bytes than the limit.
fn certificate_of(
    alloc: Global,
    resolved: &Resolved,
    head: Head,
    limit: usize,
) -> Result<Option<Bytes>, AllocError>
    requires fit { IsFitWithHoles resolved.now }
    requires names { AreNames head }
    ensures { IfOk result (IsTextOfHoles resolved.now head limit) }
{
    match with_holes(alloc, resolved) {
        Ok(grammar) => {
            let text = text_within(alloc, &grammar, head, limit);
            drop(grammar);
            text
        }
        Err(error) => {
            drop(head);
            Err(error)
        }
    }
}
