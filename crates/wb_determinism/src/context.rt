//! What is compared: a host, and the host with an extension.

use crate::host_index::States;
use crate::numbers::Numbers;
use wb_base::Grammar;
use wb_items::{Item, Kernels, Lookaheads};

// The kernels and lookaheads of both grammars, with holes; their numbers; and for each terminal of the extended host, and the end of a
// text, the host's terminal that it stands for: a marker for a hole, and a host's for itself. The index has the host's kernels.
#[derive(Drop)]
pub(crate) struct Context<'a> {
    pub(crate) grammar: &'a Grammar,
    pub(crate) host: &'a Kernels,
    pub(crate) host_lookaheads: &'a Lookaheads,
    pub(crate) both: &'a Kernels,
    pub(crate) both_lookaheads: &'a Lookaheads,
    pub(crate) numbers: &'a Numbers,
    pub(crate) images: &'a [Option<usize>],
    pub(crate) index: &'a [States],
}

// A terminal that is a lookahead of an item, and mustn't be.
#[derive(Clone, Copy, Drop)]
pub(crate) struct ItemFault {
    pub(crate) item: Item,
    pub(crate) terminal: usize,
}
