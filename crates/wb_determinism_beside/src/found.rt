//! What was found of a host with an extension?

use wb_determinism_kernels::{Beside, NewKernels};
use wb_determinism_lookaheads::NewLookaheads;

// A host and the host with an extension, the new kernels, and their lookaheads.
#[derive(Clone, Copy)]
pub(crate) struct Found<'a> {
    pub(crate) beside: &'a Beside<'a>,
    pub(crate) new: &'a NewKernels,
    pub(crate) sets: &'a NewLookaheads,
}
