//! What is kept of a deterministic extension?

use crate::Region;
use wb_base::{Grammar, Sequence};
use wb_items::{Kernels, Lookaheads};

/// The grammar of the host with the extension, with holes, its kernels and lookaheads, and what the kernels are to the host.
pub struct ExtensionParts {
    /// The grammar with holes.
    pub grammar: Grammar,
    /// The kernels of its prefixes.
    pub kernels: Kernels,
    /// The lookaheads of their items.
    pub lookaheads: Lookaheads,
    /// What each kernel is to the host.
    pub regions: Sequence<Region>,
}

impl ExtensionParts {
    /// Lets go of the parts. A crate that calls this proves no drop of what it holds.
    pub fn release(self) {}
}

impl Drop for ExtensionParts {
    fn drop(self) {
        let ExtensionParts {
            grammar,
            kernels,
            lookaheads,
            regions,
        } = self;
        drop(grammar);
        drop(kernels);
        drop(lookaheads);
        drop(regions);
    }
}
