//! Do the markers of an extension keep all their rules?

ghost use Rattle.std.specs.Prelude.{IfErr, IfOk, IfSome, IsSome};
ghost use Rattle.wb_marking.specs.Bridges.{AreBridges};
ghost use Rattle.wb_marking.specs.Clashes.{HasNoMarkerClash};
ghost use Rattle.wb_marking.specs.Refusals.{IsMarkRefusal};

use crate::{MarkRefusal, check_bridges, check_clashes};
use std::alloc::Global;
use wb_syntax_resolved::Resolved;

/// What `check_bridges` and then `check_clashes` ask.
///
/// Whoever has a rule to test between the two, as that preferences form no cycle, calls them one after the other.
pub fn check_marks(alloc: Global, resolved: &Resolved) -> Result<(), MarkRefusal>
    requires { IsSome resolved.now.grammar }
    ensures bridges { IfOk result (λ done. IfSome resolved.now.grammar (AreBridges resolved.now)) }
    ensures clashes { IfOk result (λ done. HasNoMarkerClash resolved.now) }
    ensures refused { IfErr result (λ refusal. IfSome resolved.now.grammar (λ g. IsMarkRefusal resolved.now g refusal)) }
{
    check_bridges(alloc, resolved)?;
    check_clashes(alloc, resolved)
}
