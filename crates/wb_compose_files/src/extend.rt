//! Which extension are contents, after others?
//!
//! They are read by what is written and by the first line, then the name is compared with those before, and then they are certified.

ghost use Rattle.std.specs.Prelude.{◌≡◌, ◌↔◌, IfErr, IfOk, IsTrue, Contains, List, ℕ};
ghost use Rattle.wb_certify_files.specs.Specifications.{IsSpecFor};
ghost use Rattle.wb_compose_texts.specs.Unions.{all_resolved};
ghost use Rattle.wb_compose_files.specs.Extensions.{IsNextRefusal, IsNextText, names_of};
ghost use Rattle.wb_compose_files.specs.Inner.Next.{IsApartFrom, IsDuplicateOf, IsNextSpec, IsNextSpecRefusal};

use crate::NextRefusal;
use std::alloc::Global;
use wb_base::Bytes;
use wb_certify_files::{
    CertifiedExtension, CertifiedHost, FileRefusal, extension_of_spec, extension_spec,
};
use wb_operations::{Meaning, OperationTable};
use wb_syntax::Spec;

// The extension that the contents of a file are, after others.
pub(crate) fn next_of<M: Meaning>(
    alloc: Global,
    host: &CertifiedHost,
    before: &[CertifiedExtension],
    contents: &[u8],
    operations: &OperationTable<M>,
) -> Result<CertifiedExtension, NextRefusal>
    requires { host.now.operations ≡ operations.now.signatures }
    ensures apart { IfOk result (IsApartFrom host.now before.now) }
    ensures ok { IfOk result (λ extension. IsNextText operations.now.signatures host.now.resolved (all_resolved before.now) contents.now extension.resolved) }
    ensures refused { IfErr result (λ refusal. IsNextRefusal operations.now.signatures host.now.resolved (all_resolved before.now) contents.now refusal) }
{
    match extension_spec(alloc, host, contents) {
        Ok(spec) => {
            let answer = next_with(alloc, host, before, &spec, operations);
            spec.release();
            answer
        }
        Err(refusal) => Err(NextRefusal::Header(refusal)),
    }
}

// The extension that a specification is, after others.
fn next_with<M: Meaning>(
    alloc: Global,
    host: &CertifiedHost,
    before: &[CertifiedExtension],
    spec: &Spec,
    operations: &OperationTable<M>,
) -> Result<CertifiedExtension, NextRefusal>
    requires { host.now.operations ≡ operations.now.signatures }
    ensures apart { (contents : List ℕ) → IsSpecFor host.now.resolved contents spec.now → IfOk result (IsApartFrom host.now before.now) }
    ensures ok { IfOk result (λ extension. IsNextSpec operations.now.signatures host.now.resolved (all_resolved before.now) spec.now extension.resolved) }
    ensures refused { IfErr result (IsNextSpecRefusal operations.now.signatures host.now.resolved (all_resolved before.now) spec.now) }
{
    if has_name(before, spec.name()) {
        return Err(duplicate(alloc, spec.name()));
    }
    match extension_of_spec(alloc, host, spec, operations) {
        Ok(extension) => Ok(extension),
        Err(refusal) => Err(NextRefusal::Later(refusal)),
    }
}

// Whether one of these extensions has the name.
fn has_name(extensions: &[CertifiedExtension], name: &[u8]) -> bool
    ensures { IsTrue result ↔ Contains (names_of (all_resolved extensions.now)) name.now }
{
    let mut at = 0;
    'extensions: while at < extensions.len() {
        if extensions[at].name() == name {
            return true;
        }
        at += 1;
    }
    false
}

// The refusal of an extension that has the name of another.
fn duplicate(alloc: Global, name: &[u8]) -> NextRefusal
    ensures { IsDuplicateOf name.now result }
{
    match Bytes::from_slice(alloc, name) {
        Ok(name) => NextRefusal::Duplicate(name),
        Err(error) => NextRefusal::Header(FileRefusal::NoMemory(error)),
    }
}
