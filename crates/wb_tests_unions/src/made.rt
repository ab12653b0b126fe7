//! What is made of a grammar for a parser?

use wb_base::Grammar;
use wb_items::{Kernels, Lookaheads};
use wb_lookahead::Tables;

// A grammar with its kernels, their lookaheads, and what a parser does at each of them.
#[derive(Clone, Copy)]
pub(crate) struct Made<'a> {
    pub(crate) grammar: &'a Grammar,
    pub(crate) kernels: &'a Kernels,
    pub(crate) lookaheads: &'a Lookaheads,
    pub(crate) tables: &'a Tables,
}
