//! Which terminals of a union are markers?
//!
//! A flag for each terminal comes first, in the order of the union's terminals, and then the set.

ghost use Rattle.std.specs.Prelude.{◌≡◌, ◌++◌, ◌↔◌, ℕ, false, IfOk, OnOk, drop, map, replicate, slice_get};
ghost use Rattle.wb_termset.specs.Sets.{IsMember};
ghost use Rattle.wb_compose.specs.DeterminismImages.{is_marker_row};
ghost use Rattle.wb_compose.specs.DeterminismImages as image;
ghost use Rattle.wb_reading.specs.OrderedNames.{all_of};
ghost use Rattle.wb_compose_texts.specs.Unions.{all_resolved};
ghost use Rattle.wb_compose_texts.specs.UnionMarkers.{AreUnionMarkers, added_markers, grammar_markers};
ghost use Rattle.wb_compose_texts.specs.UnionMarkers as union;

use std::alloc::{AllocError, Global};
use wb_base::push;
use wb_certify_shown::terminals_in;
use wb_compose::{CertifiedExtension, CertifiedHost};
use wb_syntax_resolved::{Resolved, Terminal, TerminalKind};
use wb_termset::TermSet;

// The markers of the union of a host and extensions, by number.
pub(crate) fn union_markers(
    alloc: Global,
    host: &CertifiedHost,
    extensions: &[CertifiedExtension],
) -> Result<TermSet, AllocError>
    ensures { IfOk result (AreUnionMarkers host.now.resolved (all_resolved extensions.now)) }
{
    let flags = flags_of(alloc, host.resolved(), extensions)?;
    let markers = set_of(alloc, &flags);
    drop(flags);
    markers
}

// Of each terminal of the union, whether it is a marker.
fn flags_of(
    alloc: Global,
    host: &Resolved,
    extensions: &[CertifiedExtension],
) -> Result<Vec<bool>, AllocError>
    ensures { IfOk result (λ flags. flags.items ≡ union.union_markers host.now (all_resolved extensions.now)) }
{
    let mut flags = no_flags(alloc, terminals_in(&host.parts().grammar))?;
    add_extensions(&mut flags, host, extensions)?;
    Ok(flags)
}

// So many flags that aren't set. In a function of its own, so that no proof computes them.
fn no_flags(alloc: Global, count: usize) -> Result<Vec<bool>, AllocError>
    ensures { IfOk result (λ flags. flags.items ≡ replicate count false) }
{
    vec![in alloc; false; count]
}

// Adds those of the terminals that each extension adds.
fn add_extensions(
    flags: &mut Vec<bool>,
    host: &Resolved,
    extensions: &[CertifiedExtension],
) -> Result<(), AllocError>
    ensures { OnOk result (flags.new.items ≡ flags.old.items ++ all_of (map (added_markers host.now) (all_resolved extensions.now))) }
{
    let own = terminals_in(&host.parts().grammar);
    'extensions: for extension in extensions {
        add_flags(flags, extension.resolved(), own)?;
    }
    Ok(())
}

// Adds those of the terminals of a grammar from this number on.
fn add_flags(flags: &mut Vec<bool>, resolved: &Resolved, from: usize) -> Result<(), AllocError>
    ensures { OnOk result (flags.new.items ≡ flags.old.items ++ drop from (grammar_markers resolved.now)) }
{
    let parts = resolved.parts();
    let count = terminals_in(&parts.grammar);
    let terminals = parts.terminals.as_slice();
    'terminals: for terminal in from..count {
        let flag = is_marker(terminals, terminal);
        push(flags, flag)?;
    }
    Ok(())
}

// Whether a terminal is a marker.
fn is_marker(terminals: &[Terminal], number: usize) -> bool
    ensures { result ≡ is_marker_row (slice_get terminals.now number) }
{
    if number >= terminals.len() {
        return false;
    }
    is_marking(terminals[number].kind)
}

// Whether the kind is that of markers.
fn is_marking(kind: TerminalKind) -> bool
    ensures { result ≡ image.is_marking kind }
{
    match kind {
        TerminalKind::Plain => false,
        TerminalKind::Ignore => false,
        TerminalKind::Marking => true,
    }
}

// The set of the numbers whose flags are set.
fn set_of(alloc: Global, flags: &[bool]) -> Result<TermSet, AllocError>
    ensures { IfOk result (λ set. (t : ℕ) → IsMember set t ↔ IsMember flags.now t) }
{
    let mut set = TermSet::new(alloc, flags.len())?;
    'flags: for number in 0..flags.len() {
        if flags[number] {
            set.insert(number);
        }
    }
    Ok(set)
}
