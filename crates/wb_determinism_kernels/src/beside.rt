//! What is given of a host and of the host with an extension?

ghost use Rattle.std.specs.Prelude.{◌≡◌, ◌≢◌, MatchOption};
ghost use Rattle.wb_determinism_kernels.specs.Numbers.{phi_by, up_by};

use crate::numbers::{Numbers, is_up};
use wb_base::Grammar;
use wb_items::Kernels;

/// The grammar of a host with holes and its kernels; the grammar of the host with an extension and holes; the numbers of both; and for
/// each terminal of the second, and the end of a text, the host's terminal that it stands for: a marker for a hole, and a host's for itself.
#[derive(Clone, Copy)]
pub struct Beside<'a> {
    pub host: &'a Kernels,
    pub own: &'a Grammar,
    pub grammar: &'a Grammar,
    pub numbers: &'a Numbers,
    pub images: &'a [Option<usize>],
}

// The hole that a marker stands for, where the terminal is a marker.
pub(crate) fn hole_of(beside: &Beside, terminal: usize) -> Option<usize>
    ensures { MatchOption result (phi_by beside.now.numbers.now beside.now.images.now terminal ≡ terminal) (λ hole. (phi_by beside.now.numbers.now beside.now.images.now terminal ≢ terminal) × ((up_by beside.now.numbers.now).terminal hole ≡ phi_by beside.now.numbers.now beside.now.images.now terminal)) }
{
    if terminal >= beside.images.len() {
        return None;
    }
    let Some(hole) = beside.images[terminal] else {
        return None;
    };
    if is_up(beside.numbers.terminals, hole, terminal) {
        None
    } else {
        Some(hole)
    }
}
