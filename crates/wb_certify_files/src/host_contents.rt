//! Reads the contents of a file as a certified host.
//!
//! They are read, names get their numbers, and the value that they stand for is certified; each refusal is handed on as a report shows it.

ghost use Rattle.std.specs.Prelude.{◌≡◌, ◌≢◌, IfErr, IfOk, List, None, ℕ};
ghost use Rattle.wb_recheck.specs.Hosts.{IsOfText};
ghost use Rattle.wb_recheck.specs.CertifyRefusals.{IsNameMemory};
ghost use Rattle.wb_recheck.specs.Resolving.{IsHostNameRefusal};
ghost use Rattle.wb_reader.specs.OneAnswer.{IsNoMemory};
ghost use Rattle.wb_reader.specs.Refusals.{HasCause, IsAcceptedText};
ghost use Rattle.wb_certify_shown.specs.Shows.{refusal_shown};
ghost use Rattle.wb_certify_files.specs.HostContents.{IsHostRefusal, IsHostText, StandsFor};
ghost use Rattle.wb_certify_files.specs.Inner.RefusedHosts.{IsShownAs, IsSort};
ghost use Rattle.wb_certify_files.specs.Unresolved.{IsUnresolved};

use crate::HostRefusal;
use std::alloc::{AllocError, Global};
use wb_certify_shown::{name_rule, of_spec, shown_refusal, written_rule};
use wb_names_theory::NameRefusal;
use wb_operations::{Meaning, OperationTable};
use wb_reader::{SpecRefusal, read_spec};
use wb_recheck::{CertifiedHost, CertifyRefusal, certify_resolved, resolve_host};
use wb_report::Refusal;
use wb_syntax::Spec;
use wb_syntax_resolved::Resolved;

/// The contents of a file as a certified host over a table of operations, or why they aren't one.
///
/// Which of several examples of a refusal is shown is left open. No clause bounds the time.
pub fn host_of<M: Meaning>(
    alloc: Global,
    contents: &[u8],
    operations: &OperationTable<M>,
) -> Result<CertifiedHost, HostRefusal>
    ensures host { IfOk result (λ host. IsHostText operations.now.signatures contents.now host.resolved) }
    ensures operations { IfOk result (λ host. host.operations ≡ operations.now.signatures) }
    ensures refused { IfErr result (IsHostRefusal operations.now.signatures contents.now) }
{
    let resolved = resolved_host_of(alloc, contents)?;
    let answer = certified(alloc, &resolved, operations);
    resolved.release();
    answer
}

// The certified host that a value is.
fn certified<M: Meaning>(
    alloc: Global,
    resolved: &Resolved,
    operations: &OperationTable<M>,
) -> Result<CertifiedHost, HostRefusal>
    requires { IsOfText resolved.now }
    ensures host { (contents : List ℕ) → StandsFor contents resolved.now → IfOk result (λ host. IsHostText operations.now.signatures contents host.resolved) }
    ensures operations { IfOk result (λ host. host.operations ≡ operations.now.signatures) }
    ensures refused { (contents : List ℕ) → StandsFor contents resolved.now → IfErr result (IsHostRefusal operations.now.signatures contents) }
{
    match certify_resolved(alloc, resolved, operations) {
        Ok(host) => Ok(host),
        Err(CertifyRefusal::NoMemory(..)) => Err(HostRefusal::NoMemory(AllocError)),
        Err(refusal) => {
            let shown = bad_value(alloc, resolved, &refusal);
            refusal.release();
            Err(shown)
        }
    }
}

/// The host by numbers that the contents of a file stand for, or why they stand for none: what is written or a name is wrong.
pub fn resolved_host_of(alloc: Global, contents: &[u8]) -> Result<Resolved, HostRefusal>
    ensures ok { IfOk result (StandsFor contents.now) }
    ensures refused { IfErr result (IsUnresolved contents.now) }
{
    let spec = spec_of(alloc, contents)?;
    let answer = resolved_of(alloc, &spec);
    spec.release();
    answer
}

// The numbered value of a specification.
fn resolved_of(alloc: Global, spec: &Spec) -> Result<Resolved, HostRefusal>
    ensures ok { (contents : List ℕ) → IsAcceptedText contents spec.now → IfOk result (StandsFor contents) }
    ensures refused { (contents : List ℕ) → IsAcceptedText contents spec.now → IfErr result (IsUnresolved contents) }
{
    match resolve_host(alloc, spec) {
        Ok(resolved) => Ok(resolved),
        Err(NameRefusal::NoMemory(error)) => Err(HostRefusal::NoMemory(error)),
        Err(refusal) => Err(bad_names(spec, refusal)),
    }
}

// The specification that contents are.
fn spec_of(alloc: Global, contents: &[u8]) -> Result<Spec, HostRefusal>
    ensures ok { IfOk result (IsAcceptedText contents.now) }
    ensures refused { IfErr result (IsUnresolved contents.now) }
{
    match read_spec(alloc, contents) {
        Ok(spec) => Ok(spec),
        Err(SpecRefusal::NoMemory(error)) => Err(HostRefusal::NoMemory(error)),
        Err(refusal) => Err(bad_text(refusal)),
    }
}

// What is shown of contents that aren't a specification.
fn bad_text(refusal: SpecRefusal) -> HostRefusal
    requires { ¬ IsNoMemory refusal }
    ensures { (contents : List ℕ) → HasCause contents refusal → IsUnresolved contents result }
{
    let rule = written_rule(&refusal);
    refusal.release();
    match rule {
        Ok(reason) => match of_spec(reason) {
            Some(shown) => HostRefusal::Specification(shown),
            None => unreachable!(),
        },
        Err(error) => HostRefusal::NoMemory(error),
    }
}

// What is shown of a specification whose names aren't right.
fn bad_names(spec: &Spec, refusal: NameRefusal) -> HostRefusal
    requires names { IsHostNameRefusal spec.now refusal }
    requires memory { ¬ IsNameMemory refusal }
    ensures { (contents : List ℕ) → IsAcceptedText contents spec.now → IsUnresolved contents result }
{
    let rule = name_rule(&refusal);
    refusal.release();
    match rule {
        Ok(reason) => match of_spec(reason) {
            Some(shown) => HostRefusal::Specification(shown),
            None => unreachable!(),
        },
        Err(error) => HostRefusal::NoMemory(error),
    }
}

// What is shown of a value for this reason.
pub(crate) fn bad_value(alloc: Global, resolved: &Resolved, refusal: &CertifyRefusal) -> HostRefusal
    requires { refusal_shown resolved.now refusal.now ≢ None }
    ensures { IsShownAs resolved.now refusal.now result }
{
    match shown_refusal(alloc, resolved, refusal) {
        Ok(Some(shown)) => of_sort(refusal, shown),
        Ok(None) => unreachable!(),
        Err(error) => HostRefusal::NoMemory(error),
    }
}

// A refusal of the sort that the rule is of.
fn of_sort(refusal: &CertifyRefusal, shown: Refusal) -> HostRefusal
    ensures { IsSort refusal.now shown result }
{
    match refusal {
        CertifyRefusal::Types(_) => HostRefusal::Specification(shown),
        _ => HostRefusal::Certification(shown),
    }
}
