//! What stays while lookaheads spread and are tested?

use crate::rests::Rest;
use wb_base::Sequence;
use wb_determinism_kernels::{Beside, NewKernels};
use wb_items::{Item, Lookaheads, Numbers};

// A host and the host with an extension, the productions of each nonterminal, what rests of right sides begin with, the host's lookaheads,
// the new kernels, and the items that have a set at each.
#[derive(Clone, Copy)]
pub(crate) struct Context<'a> {
    pub(crate) beside: &'a Beside<'a>,
    pub(crate) rules: &'a [Numbers],
    pub(crate) rests: &'a [Sequence<Rest>],
    pub(crate) known: &'a Lookaheads,
    pub(crate) new: &'a NewKernels,
    pub(crate) slots: &'a [Sequence<Item>],
}
