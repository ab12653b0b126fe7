//! With what are the entries of a certificate compared?

use wb_base::Grammar;
use wb_grammar::Facts;
use wb_items::Kernels;
use wb_recheck_lines::LineStates;
use wb_recheck_theory::Line;

/// What is known of a grammar, and the good lines of a certificate with the kernels for which they stand.
#[derive(Clone, Copy)]
pub struct Reference<'a> {
    pub grammar: &'a Grammar,
    pub facts: &'a Facts,
    pub kernels: &'a Kernels,
    pub lines: &'a [Line],
    pub found: &'a LineStates,
}
