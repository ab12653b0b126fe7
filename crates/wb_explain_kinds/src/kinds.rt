//! What is said of contents that are refused for a kind, or for a number of arguments?

ghost use Rattle.std.specs.Prelude.{◌≡◌, [], List, None, OnOk, Some, option_map, ℕ};
ghost use Rattle.wb_certify_files.specs.HostContents.{StandsFor};
ghost use Rattle.wb_certify_files.specs.Specifications.{IsSpecFor};
ghost use Rattle.wb_explain_kinds.specs.Said.{SaysOf};

use std::alloc::{AllocError, Global};
use wb_certify_files::{
    FileRefusal, HostRefusal, extension_spec_of, resolved_extension_of, resolved_host_of,
};
use wb_explain_mismatches::push_mismatch;
use wb_explain_places::Source;
use wb_operations::{Meaning, OperationTable};
use wb_syntax::Spec;
use wb_syntax_resolved::Resolved;

/// Appends which part of an expression is of another kind than is wanted, or which call has another number of arguments than it takes, where
/// a specification is refused for that: Y1 and Y2.
///
/// Nothing is appended where it isn't refused so. Of several parts the first is shown whose own parts are right. The only error is out of
/// memory. No clause bounds the time; it is about that of reading the files and of numbering their names.
pub fn push_kinds<M: Meaning>(
    alloc: Global,
    out: &mut Vec<u8>,
    source: &Source<'_>,
    operations: &OperationTable<M>,
) -> Result<(), AllocError>
    ensures { OnOk result (SaysOf operations.now.signatures (option_map (λ host. host.now) source.now.host) source.now.contents.now out.old.items out.new.items) }
{
    match source.host {
        Some(host) => push_beside(alloc, out, source, host, operations),
        None => push_host(alloc, out, source, operations),
    }
}

// Appends what is said of a host.
fn push_host<M: Meaning>(
    alloc: Global,
    out: &mut Vec<u8>,
    source: &Source<'_>,
    operations: &OperationTable<M>,
) -> Result<(), AllocError>
    ensures { OnOk result (SaysOf operations.now.signatures None source.now.contents.now out.old.items out.new.items) }
{
    match resolved_host_of(alloc, source.contents) {
        Ok(resolved) => {
            let answer = push_mismatch(alloc, out, source, &resolved, operations);
            resolved.release();
            answer
        }
        Err(refusal) => host_memory(refusal),
    }
}

// Appends what is said of an extension of a host with these contents.
fn push_beside<M: Meaning>(
    alloc: Global,
    out: &mut Vec<u8>,
    source: &Source<'_>,
    host: &[u8],
    operations: &OperationTable<M>,
) -> Result<(), AllocError>
    ensures { OnOk result (SaysOf operations.now.signatures (Some host.now) source.now.contents.now out.old.items out.new.items) }
{
    match resolved_host_of(alloc, host) {
        Ok(resolved) => {
            let answer = push_extension(alloc, out, source, &resolved, operations);
            resolved.release();
            answer
        }
        Err(refusal) => host_memory(refusal),
    }
}

// Appends what is said of an extension of this host.
fn push_extension<M: Meaning>(
    alloc: Global,
    out: &mut Vec<u8>,
    source: &Source<'_>,
    host: &Resolved,
    operations: &OperationTable<M>,
) -> Result<(), AllocError>
    requires { host.now.attributes.extensions ≡ [] }
    ensures { (contents : List ℕ) → StandsFor contents host.now → OnOk result (SaysOf operations.now.signatures (Some contents) source.now.contents.now out.old.items out.new.items) }
{
    match extension_spec_of(alloc, host, source.contents) {
        Ok(spec) => {
            let answer = push_spec(alloc, out, source, host, &spec, operations);
            spec.release();
            answer
        }
        Err(refusal) => file_memory(refusal),
    }
}

// Appends what is said of an extension of this host, whose specification this is.
fn push_spec<M: Meaning>(
    alloc: Global,
    out: &mut Vec<u8>,
    source: &Source<'_>,
    host: &Resolved,
    spec: &Spec,
    operations: &OperationTable<M>,
) -> Result<(), AllocError>
    requires { host.now.attributes.extensions ≡ [] }
    ensures { (contents own : List ℕ) → StandsFor contents host.now → IsSpecFor host.now own spec.now → OnOk result (SaysOf operations.now.signatures (Some contents) own out.old.items out.new.items) }
{
    match resolved_extension_of(alloc, host, spec) {
        Ok(resolved) => {
            let answer = push_mismatch(alloc, out, source, &resolved, operations);
            resolved.release();
            answer
        }
        Err(refusal) => file_memory(refusal),
    }
}

// Out of memory, where a host is refused for that.
fn host_memory(refusal: HostRefusal) -> Result<(), AllocError> {
    match refusal {
        HostRefusal::NoMemory(error) => Err(error),
        _ => Ok(()),
    }
}

// Out of memory, where an extension is.
fn file_memory(refusal: FileRefusal) -> Result<(), AllocError> {
    match refusal {
        FileRefusal::NoMemory(error) => Err(error),
        _ => Ok(()),
    }
}
