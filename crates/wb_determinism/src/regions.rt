//! Is a kernel of a host with an extension one of the host?
//!
//! Each is looked up among the host's kernels, by binary search.

ghost use Rattle.std.specs.Prelude.{◌≡◌, ◌<◌, IfOk, MatchOption};
ghost use Rattle.wb_items.specs.Kernels.{AreKernels, count_of};
ghost use Rattle.wb_determinism.specs.Regions.{AreRegions, IsRegion};
ghost use Rattle.wb_determinism.specs.Inner.Moved.{AreMoved, HasForeign};
ghost use Rattle.wb_determinism.specs.Inner.Numbers.{AreInTurn};

use crate::numbers::{Numbers, item_down};
use std::alloc::{AllocError, Global};
use wb_base::{Sequence, push};
use wb_items::{Item, Kernels};

/// What a kernel of a host with an extension is.
#[derive(Clone, Copy)]
pub enum Region {
    /// The kernel of this number of the host.
    Host(usize),
    /// It has an item of the extension.
    Extension,
    /// It has the host's items alone, and is no kernel of the host.
    NewHost,
}

// The region of each kernel.
pub(crate) fn regions_of(
    alloc: Global,
    host: &Kernels,
    both: &Kernels,
    numbers: &Numbers,
) -> Result<Sequence<Region>, AllocError>
    requires { AreInTurn numbers.now }
    ensures { IfOk result (AreRegions host.now both.now numbers.now (count_of both.now)) }
{
    let mut regions = Vec::new(alloc);
    'kernels: for state in 0..both.count() {
        let region = region_of(alloc, host, both, numbers, state)?;
        push(&mut regions, region)?;
    }
    Ok(Sequence::from_vec(regions))
}

// The region of one kernel.
fn region_of(
    alloc: Global,
    host: &Kernels,
    both: &Kernels,
    numbers: &Numbers,
    state: usize,
) -> Result<Region, AllocError>
    requires both { AreKernels both.now }
    requires numbers { AreInTurn numbers.now }
    requires state { state < count_of both.now }
    ensures { IfOk result (IsRegion host.now both.now numbers.now state) }
{
    let Some(moved) = moved_items(alloc, numbers, both.kernel(state))? else {
        return Ok(Region::Extension);
    };
    match host.find(moved.as_slice()) {
        Some(other) => Ok(Region::Host(other)),
        None => Ok(Region::NewHost),
    }
}

// The items in the host's numbers, where all are the host's.
pub(crate) fn moved_items(
    alloc: Global,
    numbers: &Numbers,
    items: &[Item],
) -> Result<Option<Sequence<Item>>, AllocError>
    requires { AreInTurn numbers.now }
    ensures { IfOk result (λ found. MatchOption found (HasForeign numbers.now items.now) (AreMoved numbers.now items.now)) }
{
    let mut moved = Vec::new(alloc);
    'items: for &item in items {
        let Some(own) = item_down(numbers, item) else {
            return Ok(None);
        };
        push(&mut moved, own)?;
    }
    Ok(Some(Sequence::from_vec(moved)))
}
