//! Reads the contents of a file as a certified extension of a host.
//!
//! They are read, names get their numbers beside the host, and the value that they stand for is certified with it; each refusal is handed
//! on as a report shows it.

ghost use Rattle.std.specs.Prelude.{◌≡◌, ◌≢◌, IfErr, IfOk, List, [], None};
ghost use Rattle.wb_recheck.specs.Kept.{Extends};
ghost use Rattle.wb_recheck.specs.BesideRefusals.{IsBesideRefusal};
ghost use Rattle.wb_recheck.specs.CertifyRefusals.{IsNameMemory};
ghost use Rattle.wb_recheck.specs.Resolving.{IsExtensionNameRefusal};
ghost use Rattle.wb_operations.specs.Operations.{OperationSignature};
ghost use Rattle.wb_syntax_resolved.specs.declared.resolved.ResolvedParts.{ResolvedParts};
ghost use Rattle.wb_certify_shown.specs.Extensions.{extension_refusal_shown};
ghost use Rattle.wb_syntax.specs.SpecText.{SpecView};
ghost use Rattle.wb_certify_files.specs.ExtensionContents.{IsExtensionRefusal, IsExtensionText};
ghost use Rattle.wb_certify_files.specs.Specifications.{IsExtensionSpec, IsSpecRefusal};
ghost use Rattle.wb_certify_files.specs.Numbered.{IsNumbered, IsOfNames};
ghost use Rattle.wb_certify_files.specs.Inner.RefusedExtensions.{IsOtherHost, IsSort};

use crate::FileRefusal;
use crate::header::extension_spec;
use std::alloc::{AllocError, Global};
use wb_certify_shown::{name_rule, of_spec, shown_extension_refusal};
use wb_names_theory::NameRefusal;
use wb_operations::{Meaning, OperationTable};
use wb_recheck::{
    CertifiedExtension, CertifiedHost, CertifyRefusal, certify_beside, resolve_extension,
};
use wb_report::Refusal;
use wb_syntax::Spec;
use wb_syntax_resolved::Resolved;

/// The contents of a file as a certified extension of a certified host, or why they aren't one.
///
/// The table of operations is one with which the host was certified. No other extension is looked at. Which of several examples of a
/// refusal is shown is left open. No clause bounds the time.
pub fn extension_of<M: Meaning>(
    alloc: Global,
    host: &CertifiedHost,
    contents: &[u8],
    operations: &OperationTable<M>,
) -> Result<CertifiedExtension, FileRefusal>
    requires { operations.now.signatures ≡ host.now.operations }
    ensures host { IfOk result (λ extension. extension.host ≡ host.now.resolved) }
    ensures extension { IfOk result (λ extension. IsExtensionText host.now.resolved host.now.operations contents.now extension.resolved) }
    ensures operations { IfOk result (λ extension. extension.operations ≡ host.now.operations) }
    ensures refused { IfErr result (IsExtensionRefusal host.now.resolved host.now.operations contents.now) }
{
    let spec = extension_spec(alloc, host, contents)?;
    let answer = extension_of_spec(alloc, host, &spec, operations);
    spec.release();
    answer
}

/// A specification as a certified extension of a certified host, or why it isn't one.
///
/// What is said of the specification is said of any contents that are it. All else is as in [`extension_of`].
pub fn extension_of_spec<M: Meaning>(
    alloc: Global,
    host: &CertifiedHost,
    spec: &Spec,
    operations: &OperationTable<M>,
) -> Result<CertifiedExtension, FileRefusal>
    requires { operations.now.signatures ≡ host.now.operations }
    ensures host { IfOk result (λ extension. extension.host ≡ host.now.resolved) }
    ensures extension { IfOk result (λ extension. IsExtensionSpec host.now.resolved host.now.operations spec.now extension.resolved) }
    ensures operations { IfOk result (λ extension. extension.operations ≡ host.now.operations) }
    ensures refused { IfErr result (IsSpecRefusal host.now.resolved host.now.operations spec.now) }
{
    let resolved = resolved_extension_of(alloc, host.resolved(), spec)?;
    // Some text is the specification.
    spec.items();
    let answer = certified(alloc, host, &resolved, operations);
    resolved.release();
    answer
}

/// The host with an extension by numbers, where a specification is that of the extension, or why it is none: a name is wrong, or the
/// extension is for another host.
pub fn resolved_extension_of(
    alloc: Global,
    host: &Resolved,
    spec: &Spec,
) -> Result<Resolved, FileRefusal>
    requires { host.now.attributes.extensions ≡ [] }
    ensures ok { IfOk result (IsNumbered host.now spec.now) }
    ensures refused { IfErr result (λ refusal. (operations : List OperationSignature) → IsSpecRefusal host.now operations spec.now refusal) }
    ensures names { IfErr result IsOfNames }
{
    match resolve_extension(alloc, host, spec) {
        Ok(resolved) => Ok(resolved),
        Err(NameRefusal::NoMemory(error)) => Err(FileRefusal::NoMemory(error)),
        Err(NameRefusal::WrongHost(name)) => Err(FileRefusal::WrongHost(name)),
        Err(refusal) => Err(bad_names(refusal)),
    }
}

// The certified extension that a value is.
fn certified<M: Meaning>(
    alloc: Global,
    host: &CertifiedHost,
    resolved: &Resolved,
    operations: &OperationTable<M>,
) -> Result<CertifiedExtension, FileRefusal>
    requires operations { operations.now.signatures ≡ host.now.operations }
    requires extends { Extends host.now.resolved resolved.now }
    ensures host { IfOk result (λ extension. extension.host ≡ host.now.resolved) }
    ensures extension { (spec : SpecView) → IsNumbered host.now.resolved spec resolved.now → IfOk result (λ extension. IsExtensionSpec host.now.resolved host.now.operations spec extension.resolved) }
    ensures operations { IfOk result (λ extension. extension.operations ≡ host.now.operations) }
    ensures refused { (spec : SpecView) → IsNumbered host.now.resolved spec resolved.now → IfErr result (IsSpecRefusal host.now.resolved host.now.operations spec) }
{
    match certify_beside(alloc, host, resolved, operations) {
        Ok(extension) => Ok(extension),
        Err(CertifyRefusal::NoMemory(..)) => Err(FileRefusal::NoMemory(AllocError)),
        Err(refusal) => {
            let shown = bad_value(alloc, resolved, &refusal);
            refusal.release();
            Err(shown)
        }
    }
}

// What is shown of a specification whose names aren't right.
fn bad_names(refusal: NameRefusal) -> FileRefusal
    requires host { ¬ IsOtherHost refusal }
    requires memory { ¬ IsNameMemory refusal }
    ensures shown { (host : ResolvedParts) (operations : List OperationSignature) (spec : SpecView) → IsExtensionNameRefusal host spec refusal → IsSpecRefusal host operations spec result }
    ensures names { IsOfNames result }
{
    let rule = name_rule(&refusal);
    refusal.release();
    match rule {
        Ok(reason) => match of_spec(reason) {
            Some(shown) => FileRefusal::Specification(shown),
            None => unreachable!(),
        },
        Err(error) => FileRefusal::NoMemory(error),
    }
}

// What is shown of a host with an extension that isn't certified.
fn bad_value(alloc: Global, resolved: &Resolved, refusal: &CertifyRefusal) -> FileRefusal
    requires { extension_refusal_shown resolved.now refusal.now ≢ None }
    ensures { (host : ResolvedParts) (operations : List OperationSignature) (spec : SpecView) → IsNumbered host spec resolved.now → IsBesideRefusal host resolved.now operations refusal.now → IsSpecRefusal host operations spec result }
{
    match shown_extension_refusal(alloc, resolved, refusal) {
        Ok(Some(shown)) => of_sort(refusal, shown),
        Ok(None) => unreachable!(),
        Err(error) => FileRefusal::NoMemory(error),
    }
}

// A refusal of the sort that the rule is of.
fn of_sort(refusal: &CertifyRefusal, shown: Refusal) -> FileRefusal
    ensures { IsSort refusal.now shown result }
{
    match refusal {
        CertifyRefusal::Types(_) => FileRefusal::Specification(shown),
        _ => FileRefusal::Certification(shown),
    }
}
