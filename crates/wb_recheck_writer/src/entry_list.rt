//! Which entries have been written, and is a lookahead among them?
//!
//! A table of hashes finds an entry by its kernel, item and terminal, so that all are listed in time linear in what is asked.

ghost use Rattle.std.specs.Prelude.{◌≡◌, ◌<◌, [], OnOk, Some, length, slice_get};
ghost use Rattle.wb_recheck_writer.specs.Inner.Reached.{Adds};

use indexmap::IndexSet;
use std::alloc::{AllocError, Global};
use std::marker::Model;
use wb_recheck_theory::Entry;

// Entries of different lookaheads, with the kernel, the production, the dot and the terminal of each.
#[derive(Drop)]
pub(crate) struct EntryList {
    keys: IndexSet<(usize, usize, usize, usize)>,
    entries: Vec<Entry>,
}

impl Model for EntryList {
    ghost use Rattle.std.specs.Prelude.{◌≡◌, List, map};
    ghost use Rattle.wb_recheck_theory.specs.declared.entry.Entry.{Entry};
    ghost use Rattle.wb_recheck_writer.specs.Inner.Reached.{key_of};

    ghost Value = { List Entry };

    ghost view = { λ e. e.entries.items };

    ghost invariant = { λ e. e.keys.keys ≡ map key_of e.entries.items };
}

impl EntryList {
    // No entry.
    pub(crate) fn new(alloc: Global) -> EntryList
        ensures { result ≡ [] }
    {
        EntryList {
            keys: IndexSet::new(alloc),
            entries: Vec::new(alloc),
        }
    }

    // How many entries there are.
    pub(crate) fn len(&self) -> usize
        ensures { result ≡ length self.now }
    {
        self.entries.len()
    }

    // The entry at a place.
    pub(crate) fn at(&self, place: usize) -> Entry
        requires { place < length self.now }
        ensures { slice_get self.now place ≡ Some result }
    {
        self.entries[place]
    }

    // Puts an entry at the end, unless one has its kernel, item and terminal.
    pub(crate) fn add(&mut self, entry: Entry) -> Result<(), AllocError>
        ensures { OnOk result (Adds self.old entry self.new) }
    {
        let item = entry.item;
        let key = (entry.kernel, item.production, item.dot, entry.terminal);
        self.entries.reserve(1)?;
        let (_place, new) = self.keys.insert_full(key)?;
        if new {
            self.entries.push_reserved(entry);
        }
        Ok(())
    }

    // The entries as a list.
    pub(crate) fn into_vec(self) -> Vec<Entry>
        ensures { result.items ≡ self }
    {
        let EntryList { keys, entries } = self;
        drop(keys);
        entries
    }
}
