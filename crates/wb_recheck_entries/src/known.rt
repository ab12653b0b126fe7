//! What is looked up, and what is known to be listed?

ghost use Rattle.std.specs.Prelude.{◌≡◌, []};

use crate::{EntryKeys, Reference};
use std::alloc::Global;
use wb_items::Numbers;

// What entries are compared with, the productions of each nonterminal, and the keys of all entries.
#[derive(Clone, Copy)]
pub(crate) struct Listing<'a> {
    pub(crate) reference: &'a Reference<'a>,
    pub(crate) productions: &'a [Numbers],
    pub(crate) keys: &'a EntryKeys,
}

// What was looked up and found: for a kernel, a nonterminal and a terminal all productions, and for a kernel and an item all terminals
// that begin what is behind the nonterminal after its dot.
#[derive(Drop)]
pub(crate) struct Known {
    pub(crate) opened: EntryKeys,
    pub(crate) rests: EntryKeys,
}

impl Known {
    // Nothing.
    pub(crate) fn new(alloc: Global) -> Known
        ensures opened { result.opened ≡ [] }
        ensures rests { result.rests ≡ [] }
    {
        Known {
            opened: EntryKeys::new(alloc),
            rests: EntryKeys::new(alloc),
        }
    }
}
