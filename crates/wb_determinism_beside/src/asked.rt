//! What is asked, and what is known before new kernels are looked for?

use wb_base::Grammar;
use wb_determinism_host::HostParts;
use wb_grammar::Facts;
use wb_syntax_resolved::Resolved;

// A host's parts, the specification of the host with an extension, and its grammar.
#[derive(Clone, Copy)]
pub(crate) struct Asked<'a> {
    pub(crate) host: &'a HostParts,
    pub(crate) resolved: &'a Resolved,
    pub(crate) grammar: &'a Grammar,
}

// Besides, that grammar with holes, and its facts.
#[derive(Clone, Copy)]
pub(crate) struct Fit<'a> {
    pub(crate) asked: &'a Asked<'a>,
    pub(crate) holes: &'a Grammar,
    pub(crate) facts: &'a Facts,
}
