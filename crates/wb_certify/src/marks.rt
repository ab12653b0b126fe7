//! Do markers keep their rules, and do preferences form no cycle?
//!
//! Each test in the order in which refusals are shown: bridges, preferences, and then clashes of markers.

ghost use Rattle.std.specs.Prelude.{◌≡◌, IfErr, IfOk, IsSome};
ghost use Rattle.wb_certify_host.specs.DeterministicHosts.{AreAcyclic};
ghost use Rattle.wb_certify_host.specs.DeterminismRefusals.{IsBeforeConflict};
ghost use Rattle.wb_certify.specs.Tests.{IsMarkReason, KeepMarkers};
ghost use Rattle.wb_certify.specs.Inner.Tests.{HaveBridges};

use std::alloc::Global;
use wb_base::Sequence;
use wb_certify_host::{DeterminismRefusal, pairs_of};
use wb_lexical::preference_cycle;
use wb_marking::{MarkRefusal, check_bridges, check_clashes};
use wb_syntax_resolved::Resolved;

/// Whether markers keep their rules, and preferences form no cycle, or the first of these rules that fails: those on bridges, on
/// preferences, on clashes of markers. The specification is that of a host with an extension.
pub fn test_marks(alloc: Global, resolved: &Resolved) -> Result<(), DeterminismRefusal>
    requires { IsSome resolved.now.grammar }
    ensures ok { IfOk result (λ done. KeepMarkers resolved.now) }
    ensures acyclic { IfOk result (λ done. AreAcyclic resolved.now) }
    ensures refused { IfErr result (IsMarkReason resolved.now) }
    ensures early { IfErr result IsBeforeConflict }
{
    test_bridges(alloc, resolved)?;
    test_preferences(alloc, resolved)?;
    test_clashes(alloc, resolved)
}

// Whether the rules on bridges hold.
fn test_bridges(alloc: Global, resolved: &Resolved) -> Result<(), DeterminismRefusal>
    requires { IsSome resolved.now.grammar }
    ensures ok { IfOk result (λ done. HaveBridges resolved.now) }
    ensures refused { IfErr result (IsMarkReason resolved.now) }
    ensures early { IfErr result IsBeforeConflict }
{
    match check_bridges(alloc, resolved) {
        Ok(()) => Ok(()),
        Err(MarkRefusal::NoMemory(error)) => Err(DeterminismRefusal::NoMemory(error)),
        Err(refusal) => Err(DeterminismRefusal::Markers(refusal)),
    }
}

// Whether preferences form no cycle.
fn test_preferences(alloc: Global, resolved: &Resolved) -> Result<(), DeterminismRefusal>
    requires { HaveBridges resolved.now }
    ensures ok { IfOk result (λ done. AreAcyclic resolved.now) }
    ensures refused { IfErr result (IsMarkReason resolved.now) }
    ensures early { IfErr result IsBeforeConflict }
{
    let parts = resolved.parts();
    let pairs = pairs_of(alloc, parts.preferences.as_slice())?;
    let found = preference_cycle(alloc, parts.terminals.len(), &pairs);
    drop(pairs);
    match found {
        Ok(Some(cycle)) => Err(DeterminismRefusal::PreferenceCycle(Sequence::from_vec(cycle))),
        Ok(None) => Ok(()),
        Err(error) => Err(DeterminismRefusal::NoMemory(error)),
    }
}

// Whether no marker clashes.
fn test_clashes(alloc: Global, resolved: &Resolved) -> Result<(), DeterminismRefusal>
    requires bridges { HaveBridges resolved.now }
    requires acyclic { AreAcyclic resolved.now }
    ensures ok { IfOk result (λ done. KeepMarkers resolved.now) }
    ensures refused { IfErr result (IsMarkReason resolved.now) }
    ensures early { IfErr result IsBeforeConflict }
{
    match check_clashes(alloc, resolved) {
        Ok(()) => Ok(()),
        Err(MarkRefusal::NoMemory(error)) => Err(DeterminismRefusal::NoMemory(error)),
        Err(refusal) => Err(DeterminismRefusal::Markers(refusal)),
    }
}
