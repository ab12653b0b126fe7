//! What stays while lookaheads are found?

use wb_base::Grammar;
use wb_grammar::Facts;
use wb_items::{Kernels, Numbers};

// A grammar with what is known of it, its kernels, where the numbers of each kernel's items begin, and from where on productions derive the
// empty text.
#[derive(Clone, Copy)]
pub(crate) struct Context<'a> {
    pub(crate) grammar: &'a Grammar,
    pub(crate) facts: &'a Facts,
    pub(crate) kernels: &'a Kernels,
    pub(crate) productions: &'a [Numbers],
    pub(crate) bases: &'a [usize],
    pub(crate) tails: &'a [usize],
}
