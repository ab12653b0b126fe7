//! Which numbered value do files stand for?

ghost use Rattle.std.specs.Prelude.{IfOk, IfSome, [], ◌≡◌};
ghost use Rattle.wb_explain_attributes.specs.Values.{IsExtensionValue, IsHostValue, IsValueBeside, IsValueOf};
ghost use Rattle.wb_reader.specs.Refusals.{IsAcceptedText};
ghost use Rattle.wb_names.specs.Resolving.{ResolvesExtension, ResolvesHost};

use std::alloc::{AllocError, Global};
use wb_explain_places::Source;
use wb_names::{resolve_extension, resolve_host};
use wb_names_theory::NameRefusal;
use wb_reader::{SpecRefusal, read_spec};
use wb_syntax::Spec;
use wb_syntax_resolved::Resolved;

// The value of a file, with its host's where it is an extension; none where something that is written or a name is wrong.
pub(crate) fn value_of(alloc: Global, source: &Source<'_>) -> Result<Option<Resolved>, AllocError>
    ensures { IfOk result (λ value. IfSome value (IsValueOf source.now)) }
{
    match source.host {
        Some(host) => beside(alloc, host, source.contents),
        None => host_value(alloc, source.contents),
    }
}

// That of an extension, with its host's.
fn beside(alloc: Global, host: &[u8], contents: &[u8]) -> Result<Option<Resolved>, AllocError>
    ensures { IfOk result (λ value. IfSome value (IsValueBeside host.now contents.now)) }
{
    let found = host_value(alloc, host)?;
    match found {
        Some(base) => {
            let answer = extension_value(alloc, &base, contents);
            base.release();
            answer
        }
        None => Ok(None),
    }
}

// That of an extension beside a host's.
fn extension_value(
    alloc: Global,
    base: &Resolved,
    contents: &[u8],
) -> Result<Option<Resolved>, AllocError>
    requires { base.now.attributes.extensions ≡ [] }
    ensures { IfOk result (λ value. IfSome value (IsExtensionValue base.now contents.now)) }
{
    let read = spec_of(alloc, contents)?;
    match read {
        Some(spec) => {
            let answer = extension_named(alloc, base, &spec);
            spec.release();
            answer
        }
        None => Ok(None),
    }
}

// That of a host.
fn host_value(alloc: Global, contents: &[u8]) -> Result<Option<Resolved>, AllocError>
    ensures { IfOk result (λ value. IfSome value (IsHostValue contents.now)) }
{
    let read = spec_of(alloc, contents)?;
    match read {
        Some(spec) => {
            let answer = host_named(alloc, &spec);
            spec.release();
            answer
        }
        None => Ok(None),
    }
}

// The specification that contents are.
fn spec_of(alloc: Global, contents: &[u8]) -> Result<Option<Spec>, AllocError>
    ensures { IfOk result (λ spec. IfSome spec (IsAcceptedText contents.now)) }
{
    match read_spec(alloc, contents) {
        Ok(spec) => Ok(Some(spec)),
        Err(SpecRefusal::NoMemory(error)) => Err(error),
        Err(refusal) => {
            refusal.release();
            Ok(None)
        }
    }
}

// The value of a specification of a host.
fn host_named(alloc: Global, spec: &Spec) -> Result<Option<Resolved>, AllocError>
    ensures { IfOk result (λ value. IfSome value (ResolvesHost spec.now)) }
{
    match resolve_host(alloc, spec) {
        Ok(resolved) => Ok(Some(resolved)),
        Err(NameRefusal::NoMemory(error)) => Err(error),
        Err(refusal) => {
            refusal.release();
            Ok(None)
        }
    }
}

// The value of a specification of an extension.
fn extension_named(
    alloc: Global,
    base: &Resolved,
    spec: &Spec,
) -> Result<Option<Resolved>, AllocError>
    requires { base.now.attributes.extensions ≡ [] }
    ensures { IfOk result (λ value. IfSome value (ResolvesExtension base.now spec.now)) }
{
    match resolve_extension(alloc, base, spec) {
        Ok(resolved) => Ok(Some(resolved)),
        Err(NameRefusal::NoMemory(error)) => Err(error),
        Err(refusal) => {
            refusal.release();
            Ok(None)
        }
    }
}
