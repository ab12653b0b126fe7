//! What is kept of a deterministic host?

use wb_base::Grammar;
use wb_items::{Kernels, Lookaheads};

/// The host's grammar with holes, and the kernels and lookaheads by which extensions are compared with it.
#[derive(Drop)]
pub struct HostParts {
    /// The grammar with holes.
    pub grammar: Grammar,
    /// The kernels of its prefixes.
    pub kernels: Kernels,
    /// The lookaheads of their items.
    pub lookaheads: Lookaheads,
}

impl HostParts {
    /// Lets go of the parts. A crate that calls this proves no drop of what it holds.
    pub fn release(self) {}
}
