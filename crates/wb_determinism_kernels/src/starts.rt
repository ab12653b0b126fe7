//! At which kernels do new ones begin? At those after markers, one for each marker, whatever the host's size.

ghost use Rattle.std.specs.Prelude.{◌≡◌, ◌+◌, ◌<◌, IfOk, OnOk, length};
ghost use Rattle.wb_determinism_kernels.specs.Given.{IsGiven};
ghost use Rattle.wb_determinism_kernels.specs.Numbers.{phi_by, up_by};
ghost use Rattle.wb_determinism_kernels.specs.Inner.Growing.{AreFoundSoFar};
ghost use Rattle.wb_determinism_kernels.specs.Inner.Starting.{AreStarted};

use crate::before_hole::before_hole;
use crate::beside::{Beside, hole_of};
use crate::index::{Index, Step};
use crate::markers::after_marker;
use crate::numbering::number_of;
use std::alloc::{AllocError, Global};
use wb_base::{Symbol, push};

/// A marker, the hole for which it stands, a kernel of the host with the initial item of a production that the hole begins, that production,
/// and the number of the kernel after the marker.
#[derive(Clone, Copy, Drop)]
pub struct Start {
    pub marker: usize,
    pub hole: usize,
    pub before: usize,
    pub production: usize,
    pub number: usize,
}

// The kernels after markers.
pub(crate) fn starts_of(
    alloc: Global,
    beside: &Beside,
    found: &mut Index,
) -> Result<Vec<Start>, AllocError>
    requires given { IsGiven beside.now.host.now beside.now.grammar.now beside.now.numbers.now beside.now.images.now }
    requires own { beside.now.host.now.grammar ≡ beside.now.own.now }
    requires so_far { AreFoundSoFar beside.now.host.now beside.now.grammar.now (up_by beside.now.numbers.now) found.old }
    ensures { IfOk result (λ starts. AreStarted beside.now.host.now beside.now.grammar.now beside.now.numbers.now beside.now.images.now found.new starts.items (length beside.now.images.now)) }
{
    let mut starts = Vec::new(alloc);
    'markers: for marker in 0..beside.images.len() {
        add_start(alloc, beside, marker, found, &mut starts)?;
    }
    Ok(starts)
}

// Adds that after one terminal, where it is a marker and its hole is somewhere.
fn add_start(
    alloc: Global,
    beside: &Beside,
    marker: usize,
    found: &mut Index,
    starts: &mut Vec<Start>,
) -> Result<(), AllocError>
    requires given { IsGiven beside.now.host.now beside.now.grammar.now beside.now.numbers.now beside.now.images.now }
    requires own { beside.now.host.now.grammar ≡ beside.now.own.now }
    requires before { AreStarted beside.now.host.now beside.now.grammar.now beside.now.numbers.now beside.now.images.now found.old starts.old.items marker }
    ensures { OnOk result (AreStarted beside.now.host.now beside.now.grammar.now beside.now.numbers.now beside.now.images.now found.new starts.new.items (marker + 1)) }
{
    let Some(hole) = hole_of(beside, marker) else {
        return Ok(());
    };
    let Some(before) = before_hole(beside.host, beside.own, hole) else {
        return Ok(());
    };
    let kernel = after_marker(alloc, beside.grammar, marker)?;
    if kernel.is_empty() {
        return Ok(());
    }
    let step = Step {
        from: before.state,
        symbol: Symbol::Terminal(marker),
    };
    let number = number_of(alloc, beside, step, kernel.as_slice(), found)?;
    push(
        starts,
        Start {
            marker,
            hole,
            before: before.state,
            production: before.production,
            number,
        },
    )?;
    Ok(())
}
