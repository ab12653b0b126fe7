//! Reads the contents of a file as a host whose attributes are well defined. Nothing is asked of its grammar.

ghost use Rattle.std.specs.Prelude.{◌≡◌, [], IfErr, IfOk, List, ℕ};
ghost use Rattle.wb_recheck.specs.WellDefinedHosts.{HasWellDefinedAttributes};
ghost use Rattle.wb_certify_files.specs.HostContents.{StandsFor};
ghost use Rattle.wb_certify_files.specs.WellDefined.{IsWellDefinedText, IsWellDefinedTextRefusal};

use crate::HostRefusal;
use crate::host_contents::{bad_value, resolved_host_of};
use std::alloc::{AllocError, Global};
use wb_operations::{Meaning, OperationTable};
use wb_recheck::{CertifyRefusal, check_well_defined};
use wb_syntax_resolved::Resolved;

/// The contents of a file as a host with well-defined attributes over a table of operations, or why they aren't one.
///
/// It may have no start, and nothing is asked of its grammar. Which of several examples of a refusal is shown is left open. No clause
/// bounds the time.
pub fn well_defined_host_of<M: Meaning>(
    alloc: Global,
    contents: &[u8],
    operations: &OperationTable<M>,
) -> Result<Resolved, HostRefusal>
    ensures host { IfOk result (IsWellDefinedText operations.now.signatures contents.now) }
    ensures refused { IfErr result (IsWellDefinedTextRefusal operations.now.signatures contents.now) }
{
    let resolved = resolved_host_of(alloc, contents)?;
    match check_attributes(alloc, &resolved, operations) {
        Ok(()) => Ok(resolved),
        Err(refusal) => {
            resolved.release();
            Err(refusal)
        }
    }
}

// Whether the attributes of a value are well defined.
fn check_attributes<M: Meaning>(
    alloc: Global,
    resolved: &Resolved,
    operations: &OperationTable<M>,
) -> Result<(), HostRefusal>
    requires { resolved.now.attributes.extensions ≡ [] }
    ensures ok { IfOk result (λ done. HasWellDefinedAttributes resolved.now operations.now.signatures) }
    ensures refused { (contents : List ℕ) → StandsFor contents resolved.now → IfErr result (IsWellDefinedTextRefusal operations.now.signatures contents) }
{
    match check_well_defined(alloc, resolved, operations) {
        Ok(()) => Ok(()),
        Err(CertifyRefusal::NoMemory(..)) => Err(HostRefusal::NoMemory(AllocError)),
        Err(refusal) => {
            let shown = bad_value(alloc, resolved, &refusal);
            refusal.release();
            Err(shown)
        }
    }
}
