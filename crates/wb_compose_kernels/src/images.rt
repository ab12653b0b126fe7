//! Which terminals of the union become of those of a set? Itself each that is no hole, and for a hole its markers.

ghost use Rattle.std.specs.Prelude.{◌≡◌, ◌<◌, ◌+◌, ◌↔◌, ℕ, IfOk, OnOk, Some, Contains, length, slice_get};
ghost use Rattle.wb_termset.specs.Sets.{IsMember};
ghost use Rattle.wb_compose_kernels.specs.declared.markers.Marker.{Marker};
ghost use Rattle.wb_compose_kernels.specs.Inner.Images.{AddsMembers, BecomesBy, IsImage};

use crate::blocks::{Block, hole_of, number_in_union};
use crate::markers::Marker;
use std::alloc::{AllocError, Global};
use wb_base::Symbol;
use wb_termset::TermSet;

// What becomes of the terminals of a set, below the count.
pub(crate) fn image_of(
    alloc: Global,
    block: Block,
    markers: &[Marker],
    set: &TermSet,
    count: usize,
) -> Result<TermSet, AllocError>
    ensures len { IfOk result (λ made. length made ≡ count) }
    ensures each { IfOk result (λ made. (t : ℕ) → IsMember made t ↔ IsImage block markers.now count set.now t) }
{
    let mut made = TermSet::new(alloc, count)?;
    add_images(block, markers, set, &mut made)?;
    Ok(made)
}

// Adds what becomes of the terminals of a set.
fn add_images(
    block: Block,
    markers: &[Marker],
    set: &TermSet,
    made: &mut TermSet,
) -> Result<(), AllocError>
    ensures { OnOk result (AddsMembers (λ t. (own : ℕ) × IsMember set.now own × BecomesBy block markers.now own t) made.old made.new) }
{
    let mut from = 0;
    'members: while let Some(own) = set.next_member(from) {
        add_image(block, markers, own, made)?;
        from = own + 1;
    }
    Ok(())
}

// Adds what becomes of a terminal.
fn add_image(
    block: Block,
    markers: &[Marker],
    own: usize,
    made: &mut TermSet,
) -> Result<(), AllocError>
    ensures { OnOk result (AddsMembers (BecomesBy block markers.now own) made.old made.new) }
{
    if let Some(hole) = hole_of(block, Symbol::Terminal(own)) {
        add_markers(markers, hole, made);
        return Ok(());
    }
    let terminal = number_in_union(block, own)?;
    put(made, terminal);
    Ok(())
}

// Adds the markers that stand for a hole.
fn add_markers(markers: &[Marker], hole: usize, made: &mut TermSet)
    ensures { AddsMembers (λ t. (marker : Marker) × Contains markers.now marker × (marker.hole ≡ hole) × (t ≡ marker.terminal)) made.old made.new }
{
    'markers: for place in 0..markers.len() {
        add_marker_at(markers, place, hole, made);
    }
}

// Adds the marker at a place, where it stands for the hole.
fn add_marker_at(markers: &[Marker], place: usize, hole: usize, made: &mut TermSet)
    requires { place < length markers.now }
    ensures { AddsMembers (λ t. (marker : Marker) × (slice_get markers.now place ≡ Some marker) × (marker.hole ≡ hole) × (t ≡ marker.terminal)) made.old made.new }
{
    let marker = marker_in(markers, place);
    if marker.hole != hole {
        return;
    }
    put(made, marker.terminal);
}

// The marker at a place.
fn marker_in(markers: &[Marker], place: usize) -> Marker
    requires { place < length markers.now }
    ensures { slice_get markers.now place ≡ Some result }
{
    markers[place]
}

// Adds a terminal, where the set has room for it.
fn put(made: &mut TermSet, terminal: usize)
    ensures { AddsMembers (λ t. t ≡ terminal) made.old made.new }
{
    if terminal >= made.count() {
        return;
    }
    made.insert(terminal);
}
