//! Which markers have all extensions, and for which hole does each stand?

ghost use Rattle.std.specs.Prelude.{◌≡◌, [], IfOk, OnOk, Contains, length};
ghost use Rattle.wb_determinism_kernels.specs.declared.starts.Start.{Start};
ghost use Rattle.wb_compose_kernels.specs.Inner.Images.{AreMarkersUpTo, IsMarkerOf};
ghost use Rattle.wb_compose_kernels.specs.Inner.Moves.{Adds};

use crate::Splice;
use crate::blocks::{Block, Blocks, number_in_union};
use crate::lists::blocks_at;
use crate::marks::start_at;
use crate::numbers::part_at;
use std::alloc::{AllocError, Global};
use wb_base::push;
use wb_determinism_kernels::Start;

// A hole, in the host's numbers, and a marker that stands for it, in the union's.
#[derive(Clone, Copy, Drop)]
pub(crate) struct Marker {
    pub(crate) hole: usize,
    pub(crate) terminal: usize,
}

// The markers of all extensions.
pub(crate) fn markers_of(
    alloc: Global,
    splice: &Splice,
    blocks: &[Blocks],
) -> Result<Vec<Marker>, AllocError>
    requires { length blocks.now ≡ length splice.now.parts.now }
    ensures { IfOk result (λ markers. AreMarkersUpTo splice.now blocks.now (length splice.now.parts.now) markers.items) }
{
    let mut markers = no_markers(alloc);
    'parts: for part in 0..splice.parts.len() {
        add_markers(
            part_at(splice, part).new.starts(),
            blocks_at(blocks, part),
            &mut markers,
        )?;
    }
    Ok(markers)
}

// No marker.
fn no_markers(alloc: Global) -> Vec<Marker>
    ensures { result.items ≡ [] }
{
    Vec::new(alloc)
}

// Adds the markers at which new kernels start.
fn add_markers(
    starts: &[Start],
    blocks: Blocks,
    markers: &mut Vec<Marker>,
) -> Result<(), AllocError>
    ensures { OnOk result (Adds (λ marker. (start : Start) × Contains starts.now start × IsMarkerOf blocks.terminals start marker) markers.old.items markers.new.items) }
{
    'starts: for place in 0..starts.len() {
        let start = start_at(starts, place);
        let marker = marker_of(start, blocks.terminals)?;
        push(markers, marker)?;
    }
    Ok(())
}

// The marker of a start.
fn marker_of(start: Start, block: Block) -> Result<Marker, AllocError>
    ensures { IfOk result (IsMarkerOf block start) }
{
    let terminal = number_in_union(block, start.marker)?;
    Ok(Marker {
        hole: start.hole,
        terminal,
    })
}
