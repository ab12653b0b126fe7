//! What stays while entries are written?

use crate::lines::NumberedLines;
use wb_base::Grammar;
use wb_grammar::Facts;
use wb_items::{Kernels, Numbers};

// A grammar with what is known of it, the productions of each nonterminal, its kernels, and the lines that stand for them.
#[derive(Clone, Copy)]
pub(crate) struct Context<'a> {
    pub(crate) grammar: &'a Grammar,
    pub(crate) facts: &'a Facts,
    pub(crate) rules: &'a [Numbers],
    pub(crate) kernels: &'a Kernels,
    pub(crate) numbered: &'a NumberedLines,
}
