//! What is lent of a host and of extensions that are certified with it alone?

use wb_base::Grammar;
use wb_determinism_kernels::{Beside, NewKernels};
use wb_items::Kernels;

/// What an extension adds to its host: the new kernels that were found beside the host.
#[derive(Clone, Copy)]
pub struct Part<'a> {
    pub beside: &'a Beside<'a>,
    pub new: &'a NewKernels,
}

/// The grammar of a host, how many nonterminals of it are extensible, the kernels of the host with a hole for each of these, what each
/// extension adds, and the grammar of the union.
#[derive(Clone, Copy)]
pub struct Splice<'a> {
    pub host: &'a Grammar,
    pub holes: usize,
    pub kernels: &'a Kernels,
    pub parts: &'a [Part<'a>],
    pub union: &'a Grammar,
}
