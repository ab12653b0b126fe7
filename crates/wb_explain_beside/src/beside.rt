//! What is said of contents of an extension, beside those of its host?

ghost use Rattle.std.specs.Prelude.{◌≡◌, [], IfSome, IsNone, List, OnOk, ℕ};
ghost use Rattle.wb_certify_files.specs.HostContents.{StandsFor};
ghost use Rattle.wb_certify_files.specs.Specifications.{IsSpecFor};
ghost use Rattle.wb_explain_beside.specs.Inner.Grammars.{Says};
ghost use Rattle.wb_explain_beside.specs.Said.{SaysOf};

use crate::shown::push_told;
use crate::told::Told;
use std::alloc::{AllocError, Global};
use wb_certify_files::{
    FileRefusal, HostRefusal, extension_spec_of, resolved_extension_of, resolved_host_of,
};
use wb_explain_places::Source;
use wb_syntax::Spec;
use wb_syntax_resolved::Resolved;

/// Appends, for up to five places of an extension's own productions, that something comes there right after a nonterminal of the host after
/// which the host never has it, what the host has after it, and what mends that: E5 and E6.
///
/// That the symbol stands there is promised. That the host never has it there is tested and not proved: what the host has after a
/// nonterminal is counted over its grammar, without extensions. Nothing is appended of a host, or where no such place is found. The only
/// error is out of memory.
pub fn push_beside(alloc: Global, out: &mut Vec<u8>, source: &Source<'_>) -> Result<(), AllocError>
    ensures host { IsNone source.now.host → OnOk result (out.new.items ≡ out.old.items) }
    ensures extension { IfSome source.now.host (λ host. OnOk result (SaysOf host.now source.now.contents.now out.old.items out.new.items)) }
{
    match source.host {
        Some(host) => push_of_host(alloc, out, source, host),
        None => Ok(()),
    }
}

// Appends what is said of an extension of a host with these contents.
fn push_of_host(
    alloc: Global,
    out: &mut Vec<u8>,
    source: &Source<'_>,
    host: &[u8],
) -> Result<(), AllocError>
    ensures { OnOk result (SaysOf host.now source.now.contents.now out.old.items out.new.items) }
{
    match resolved_host_of(alloc, host) {
        Ok(resolved) => {
            let answer = push_extension(alloc, out, source, &resolved);
            resolved.release();
            answer
        }
        Err(HostRefusal::NoMemory(error)) => Err(error),
        Err(refusal) => {
            drop(refusal);
            Ok(())
        }
    }
}

// Appends what is said of an extension of this host.
fn push_extension(
    alloc: Global,
    out: &mut Vec<u8>,
    source: &Source<'_>,
    host: &Resolved,
) -> Result<(), AllocError>
    requires { host.now.attributes.extensions ≡ [] }
    ensures { (contents : List ℕ) → StandsFor contents host.now → OnOk result (SaysOf contents source.now.contents.now out.old.items out.new.items) }
{
    match extension_spec_of(alloc, host, source.contents) {
        Ok(spec) => {
            let answer = push_spec(alloc, out, source, host, &spec);
            spec.release();
            answer
        }
        Err(FileRefusal::NoMemory(error)) => Err(error),
        Err(refusal) => {
            drop(refusal);
            Ok(())
        }
    }
}

// Appends what is said of an extension of this host, whose specification this is.
fn push_spec(
    alloc: Global,
    out: &mut Vec<u8>,
    source: &Source<'_>,
    host: &Resolved,
    spec: &Spec,
) -> Result<(), AllocError>
    requires { host.now.attributes.extensions ≡ [] }
    ensures { (contents own : List ℕ) → StandsFor contents host.now → IsSpecFor host.now own spec.now → OnOk result (SaysOf contents own out.old.items out.new.items) }
{
    match resolved_extension_of(alloc, host, spec) {
        Ok(resolved) => {
            let answer = push_numbered(alloc, out, source, host, &resolved);
            resolved.release();
            answer
        }
        Err(FileRefusal::NoMemory(error)) => Err(error),
        Err(refusal) => {
            drop(refusal);
            Ok(())
        }
    }
}

// Appends what is said of both by numbers.
fn push_numbered(
    alloc: Global,
    out: &mut Vec<u8>,
    source: &Source<'_>,
    host: &Resolved,
    resolved: &Resolved,
) -> Result<(), AllocError>
    ensures { OnOk result (Says host.now resolved.now out.old.items out.new.items) }
{
    match (&host.parts().grammar, &resolved.parts().grammar) {
        (Some(first), Some(grammar)) => push_told(
            alloc,
            out,
            &Told {
                source,
                resolved,
                host: first,
                grammar,
            },
        ),
        _ => Ok(()),
    }
}
