//! Is a file an extension of a host, by what is written in it and by its first line?
//!
//! Between this and all else of an extension comes what is asked of several: that their names differ.

ghost use Rattle.std.specs.Prelude.{◌≡◌, IfErr, IfOk, List, ℕ};
ghost use Rattle.wb_reader.specs.OneAnswer.{IsNoMemory};
ghost use Rattle.wb_reader.specs.Refusals.{HasCause, IsAcceptedText};
ghost use Rattle.wb_syntax_resolved.specs.declared.resolved.ResolvedParts.{ResolvedParts};
ghost use Rattle.wb_syntax.specs.SpecText.{SpecView};
ghost use Rattle.wb_syntax.specs.declared.header.Header.TheVariants as header;
ghost use Rattle.wb_certify_files.specs.Specifications.{IsHeaderRefusal, IsSpecFor};

use crate::FileRefusal;
use std::alloc::Global;
use wb_base::Bytes;
use wb_certify_shown::{of_spec, written_rule};
use wb_reader::{SpecRefusal, read_spec};
use wb_recheck::CertifiedHost;
use wb_report::{Refusal, SpecReason};
use wb_syntax::{Header, Spec};
use wb_syntax_resolved::Resolved;

/// The contents of a file as the specification of an extension of a certified host, or why they aren't one.
///
/// What is written is tested, and that the file is an extension and names this host. Its names aren't looked at.
pub fn extension_spec(
    alloc: Global,
    host: &CertifiedHost,
    contents: &[u8],
) -> Result<Spec, FileRefusal>
    ensures spec { IfOk result (IsSpecFor host.now.resolved contents.now) }
    ensures refused { IfErr result (IsHeaderRefusal host.now.resolved contents.now) }
{
    extension_spec_of(alloc, host.resolved(), contents)
}

/// Like [`extension_spec`], of a host by numbers.
pub fn extension_spec_of(
    alloc: Global,
    host: &Resolved,
    contents: &[u8],
) -> Result<Spec, FileRefusal>
    ensures spec { IfOk result (IsSpecFor host.now contents.now) }
    ensures refused { IfErr result (IsHeaderRefusal host.now contents.now) }
{
    let spec = spec_of(alloc, contents)?;
    match check_header(alloc, host, &spec) {
        Ok(()) => Ok(spec),
        Err(refusal) => {
            spec.release();
            Err(refusal)
        }
    }
}

// Whether a specification is an extension of this host.
fn check_header(alloc: Global, host: &Resolved, spec: &Spec) -> Result<(), FileRefusal>
    ensures ok { IfOk result (λ done. spec.now.header ≡ header.Extension host.now.host) }
    ensures refused { IfErr result (λ refusal. (contents : List ℕ) → IsAcceptedText contents spec.now → IsHeaderRefusal host.now contents refusal) }
{
    match spec.header() {
        Header::Host => Err(no_extension(alloc, spec)),
        Header::Extension { host: other } => {
            if other.as_slice() == host.parts().host.as_slice() {
                return Ok(());
            }
            match Bytes::from_slice(alloc, other.as_slice()) {
                Ok(name) => Err(FileRefusal::WrongHost(name)),
                Err(error) => Err(FileRefusal::NoMemory(error)),
            }
        }
    }
}

// What is shown of a specification that is a host.
fn no_extension(alloc: Global, spec: &Spec) -> FileRefusal
    requires { spec.now.header ≡ header.Host }
    ensures { (host : ResolvedParts) (contents : List ℕ) → IsAcceptedText contents spec.now → IsHeaderRefusal host contents result }
{
    match Bytes::from_slice(alloc, spec.name()) {
        Ok(name) => FileRefusal::Specification(Refusal::Specification(SpecReason::WrongKind(name))),
        Err(error) => FileRefusal::NoMemory(error),
    }
}

// The specification that contents are.
fn spec_of(alloc: Global, contents: &[u8]) -> Result<Spec, FileRefusal>
    ensures ok { IfOk result (IsAcceptedText contents.now) }
    ensures refused { (host : ResolvedParts) → IfErr result (IsHeaderRefusal host contents.now) }
{
    match read_spec(alloc, contents) {
        Ok(spec) => Ok(spec),
        Err(SpecRefusal::NoMemory(error)) => Err(FileRefusal::NoMemory(error)),
        Err(refusal) => Err(bad_text(refusal)),
    }
}

// What is shown of contents that aren't a specification.
fn bad_text(refusal: SpecRefusal) -> FileRefusal
    requires { ¬ IsNoMemory refusal }
    ensures { (host : ResolvedParts) (contents : List ℕ) → HasCause contents refusal → IsHeaderRefusal host contents result }
{
    let rule = written_rule(&refusal);
    refusal.release();
    match rule {
        Ok(reason) => match of_spec(reason) {
            Some(shown) => FileRefusal::Specification(shown),
            None => unreachable!(),
        },
        Err(error) => FileRefusal::NoMemory(error),
    }
}
