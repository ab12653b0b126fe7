//! Reads the contents of a file as an extension that is certified with its host by the text of a certificate.
//!
//! They are read, names get their numbers beside the host, and the value that they stand for is certified by the text; each refusal is
//! handed on as a report shows it.

ghost use Rattle.std.specs.Prelude.{◌≡◌, IfErr, IfOk, List, length, ℕ};
ghost use Rattle.wb_recheck.specs.Extensions.{IsOneExtension};
ghost use Rattle.wb_recheck.specs.Kept.{Extends};
ghost use Rattle.wb_certify_files.specs.ExtensionContents.{StandsFor};
ghost use Rattle.wb_reader.specs.Refusals.{IsAcceptedText};
ghost use Rattle.wb_certify_files.specs.RecheckedExtensions.{IsRecheckedNamed, IsRefusedExtension};
ghost use Rattle.wb_certify_files.specs.Inner.RecheckShown.{IsCopyOrMemory};

use crate::recheck_shown::{Owner, shown_value};
use crate::{ContentsRefusal, FileRefusal, extension_spec_of, resolved_extension_of};
use std::alloc::Global;
use wb_base::Bytes;
use wb_operations::{Meaning, OperationTable};
use wb_recheck::{RecheckedHost, recheck_beside};
use wb_syntax::Spec;
use wb_syntax_resolved::Resolved;

/// The name of the extension that the contents of a file are, where it is certified with its host over a table of operations by the text
/// of a certificate, or why it isn't.
///
/// The table is one with which the host was certified; contents and text may come from anywhere. Which of several examples of a refusal is
/// shown is left open. No clause bounds the time.
pub fn rechecked_extension_of<M: Meaning>(
    alloc: Global,
    host: &RecheckedHost,
    contents: &[u8],
    certificate: &[u8],
    operations: &OperationTable<M>,
) -> Result<Bytes, ContentsRefusal>
    requires { operations.now.signatures ≡ host.now.operations }
    ensures extension { IfOk result (IsRecheckedNamed host.now.resolved host.now.operations contents.now certificate.now) }
    ensures refused { IfErr result (IsRefusedExtension host.now.resolved host.now.operations contents.now certificate.now) }
{
    match extension_spec_of(alloc, host.resolved(), contents) {
        Ok(spec) => {
            let answer = rechecked_spec(alloc, host, &spec, certificate, operations);
            spec.release();
            answer
        }
        Err(refusal) => Err(ContentsRefusal::File(refusal)),
    }
}

// The name of the extension that a specification is, certified by the text.
fn rechecked_spec<M: Meaning>(
    alloc: Global,
    host: &RecheckedHost,
    spec: &Spec,
    certificate: &[u8],
    operations: &OperationTable<M>,
) -> Result<Bytes, ContentsRefusal>
    requires { operations.now.signatures ≡ host.now.operations }
    ensures extension { (contents : List ℕ) → IsAcceptedText contents spec.now → IfOk result (IsRecheckedNamed host.now.resolved host.now.operations contents certificate.now) }
    ensures refused { (contents : List ℕ) → IsAcceptedText contents spec.now → IfErr result (IsRefusedExtension host.now.resolved host.now.operations contents certificate.now) }
{
    match resolved_extension_of(alloc, host.resolved(), spec) {
        Ok(resolved) => {
            // Some text is the specification.
            spec.items();
            let answer = rechecked(alloc, host, &resolved, certificate, operations);
            resolved.release();
            answer
        }
        Err(refusal) => Err(ContentsRefusal::File(refusal)),
    }
}

// The name of the extension that a value is, certified by the text.
fn rechecked<M: Meaning>(
    alloc: Global,
    host: &RecheckedHost,
    resolved: &Resolved,
    certificate: &[u8],
    operations: &OperationTable<M>,
) -> Result<Bytes, ContentsRefusal>
    requires operations { operations.now.signatures ≡ host.now.operations }
    requires extends { Extends host.now.resolved resolved.now }
    ensures extension { (contents : List ℕ) → StandsFor host.now.resolved contents resolved.now → IfOk result (IsRecheckedNamed host.now.resolved host.now.operations contents certificate.now) }
    ensures refused { (contents : List ℕ) → StandsFor host.now.resolved contents resolved.now → IfErr result (IsRefusedExtension host.now.resolved host.now.operations contents certificate.now) }
{
    match recheck_beside(alloc, host, resolved, certificate, operations) {
        Ok(()) => copied(alloc, name_of(resolved)),
        Err(refusal) => Err(shown_value(alloc, Owner::Extension, resolved, refusal)),
    }
}

// The name of the one extension.
fn name_of(resolved: &Resolved) -> &[u8]
    requires { length resolved.now.attributes.extensions ≡ 1 }
    ensures { IsOneExtension resolved.now result.now }
{
    resolved.parts().attributes.parts().extensions.as_slice()[0].as_slice()
}

// A copy of a name.
fn copied(alloc: Global, name: &[u8]) -> Result<Bytes, ContentsRefusal>
    ensures { IsCopyOrMemory name.now result }
{
    match Bytes::from_slice(alloc, name) {
        Ok(name) => Ok(name),
        Err(error) => Err(ContentsRefusal::File(FileRefusal::NoMemory(error))),
    }
}
