//! Which terminals does a marker have to be told apart from, and which of them are ordered against it?

ghost use Rattle.std.specs.Prelude.{◌≡◌, ◌≢◌, ◌<◌, ◌↔◌, ◌⊎◌, ℕ, All, IfOk, IsTrue, length};
ghost use Rattle.wb_marking.specs.Clashes.{IsRival};
ghost use Rattle.wb_marking.specs.Inner.Compared.{AreCompared, AreOrderedWith, IsPreferenceBelow, Orders};
ghost use Rattle.wb_marking.specs.Markers.{IsMarker};
ghost use Rattle.wb_termset.specs.Sets.{IsMember};

use crate::scope::is_marker;
use std::alloc::{AllocError, Global};
use wb_syntax_resolved::{Preference, ResolvedParts, Terminal, TerminalKind};
use wb_termset::TermSet;

// Whether a marker has to be told apart from the other; of two markers the lesser from the greater.
pub(crate) fn are_compared(parts: &ResolvedParts, marker: usize, other: usize) -> bool
    requires marker { IsMarker parts.now marker }
    requires other { other < length parts.now.terminals }
    ensures { IsTrue result ↔ AreCompared parts.now marker other }
{
    let terminals = parts.terminals.as_slice();
    is_before(parts, marker, other) && is_rival(&terminals[marker], &terminals[other])
}

// Whether they differ, and the marker is the lesser of two.
fn is_before(parts: &ResolvedParts, marker: usize, other: usize) -> bool
    ensures { IsTrue result ↔ ((marker ≢ other) × (IsMarker parts.now other → marker < other)) }
{
    marker < other || marker != other && !is_marker(parts, other)
}

// Whether the other is the host's, or layout or a marker of the same owner.
fn is_rival(marker: &Terminal, other: &Terminal) -> bool
    ensures { IsTrue result ↔ IsRival marker.now other.now }
{
    other.owner == 0 || other.owner == marker.owner && !matches!(other.kind, TerminalKind::Plain)
}

// The terminals that a preference orders against a marker.
pub(crate) fn ordered_with(
    alloc: Global,
    parts: &ResolvedParts,
    marker: usize,
) -> Result<TermSet, AllocError>
    requires { All (IsPreferenceBelow (length parts.now.terminals)) parts.now.preferences }
    ensures { IfOk result (AreOrderedWith parts.now marker) }
{
    let mut ordered = TermSet::new(alloc, parts.terminals.len())?;
    'preferences: for preference in parts.preferences.as_slice() {
        add(&mut ordered, preference, marker);
    }
    Ok(ordered)
}

// Adds the terminal that a preference orders against a marker.
fn add(ordered: &mut TermSet, preference: &Preference, marker: usize)
    requires { IsPreferenceBelow (length ordered.old) preference.now }
    ensures len { length ordered.new ≡ length ordered.old }
    ensures each { (other : ℕ) → IsMember ordered.new other ↔ (IsMember ordered.old other ⊎ Orders preference.now marker other) }
{
    if preference.first == marker {
        ordered.insert(preference.second);
    }
    if preference.second == marker {
        ordered.insert(preference.first);
    }
}
