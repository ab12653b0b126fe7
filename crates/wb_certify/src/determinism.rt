//! Is an extension deterministic beside its host, and do its markers keep their rules?
//!
//! What the extension adds is tested first. Where that doesn't tell, the host with the extension is tested as a whole, which finds the
//! first rule that fails.

ghost use Rattle.std.specs.Prelude.{IfErr, IfOk, IfSome, IsSome};
ghost use Rattle.wb_determinism_beside.specs.DeterministicExtensions.{IsDeterministicExtension, IsHostBeside};
ghost use Rattle.wb_determinism_beside.specs.ExtensionDeterminism.{IsExtensionRefusal};
ghost use Rattle.wb_certify.specs.Inner.Tests.{IsOfHost, IsReasonBeside};
ghost use Rattle.wb_certify.specs.Beside.{AreClearBeside};

use crate::marks::test_marks;
use std::alloc::Global;
use wb_certify_host::{DeterminismRefusal, HostParts};
use wb_determinism_beside::{extension_determinism, is_deterministic_beside};
use wb_syntax_resolved::Resolved;

// Whether markers keep their rules, and the extension is deterministic. Markers are tested first.
pub(crate) fn determinism_beside(
    alloc: Global,
    host: &HostParts,
    resolved: &Resolved,
) -> Result<(), DeterminismRefusal>
    requires grammar { IsSome resolved.now.grammar }
    requires host { IfSome resolved.now.grammar (λ g. IsHostBeside resolved.now g host.now) }
    requires of_host { IsOfHost resolved.now host.now }
    ensures ok { IfOk result (λ done. AreClearBeside resolved.now host.now.grammar) }
    ensures refused { IfErr result (IsReasonBeside resolved.now host.now.grammar) }
{
    test_marks(alloc, resolved)?;
    let seen = is_deterministic_beside(alloc, host, resolved)?;
    if seen {
        return Ok(());
    }
    test_whole(alloc, host, resolved)
}

// Whether the extension is deterministic, by the host with the extension as a whole.
fn test_whole(
    alloc: Global,
    host: &HostParts,
    resolved: &Resolved,
) -> Result<(), DeterminismRefusal>
    requires grammar { IsSome resolved.now.grammar }
    requires host { IfSome resolved.now.grammar (λ g. IsHostBeside resolved.now g host.now) }
    ensures ok { IfOk result (λ done. IfSome resolved.now.grammar (λ g. IsDeterministicExtension resolved.now g host.now.grammar)) }
    ensures refused { IfErr result (λ refusal. IfSome resolved.now.grammar (λ g. IsExtensionRefusal resolved.now g host.now.grammar refusal)) }
{
    match extension_determinism(alloc, host, resolved) {
        Ok(parts) => {
            drop(parts);
            Ok(())
        }
        Err(refusal) => Err(refusal),
    }
}
