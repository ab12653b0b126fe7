//! Entries by their kernel, item and terminal, found by hashing.

ghost use Rattle.std.specs.Prelude.{◌≡◌, ◌↔◌, [], Contains, IfOk, IsTrue, MatchBool};
ghost use Rattle.wb_recheck_entries.specs.Inner.Inserted.{IsInserted};

use indexmap::IndexSet;
use std::alloc::{AllocError, Global};
use std::marker::Model;

/// The keys of entries, each once: a kernel and a production, and a dot and a terminal.
pub struct EntryKeys {
    keys: IndexSet<((usize, usize), (usize, usize))>,
}

impl Model for EntryKeys {
    ghost use Rattle.std.specs.Prelude.{List};
    ghost use Rattle.wb_recheck_entries.specs.Keys.{Key};

    ghost Value = { List Key };

    ghost view = { λ keys. keys.keys.keys };
}

impl EntryKeys {
    // No key.
    pub(crate) fn new(alloc: Global) -> EntryKeys
        ensures { result ≡ [] }
    {
        EntryKeys {
            keys: IndexSet::new(alloc),
        }
    }

    // No key, with room for so many.
    pub(crate) fn with_capacity(alloc: Global, count: usize) -> Result<EntryKeys, AllocError>
        ensures { IfOk result (λ keys. keys ≡ []) }
    {
        Ok(EntryKeys {
            keys: IndexSet::with_capacity(alloc, count)?,
        })
    }

    // Puts a key after the others where it is new, and answers whether it is.
    pub(crate) fn insert(
        &mut self,
        key: ((usize, usize), (usize, usize)),
    ) -> Result<bool, AllocError>
        ensures { IfOk result (IsInserted self.old key self.new) }
    {
        let (_, new) = self.keys.insert_full(key)?;
        Ok(new)
    }

    // Whether the key is there.
    pub(crate) fn has(&self, key: ((usize, usize), (usize, usize))) -> bool
        ensures { IsTrue result ↔ Contains self.now key }
    {
        self.keys.contains(&key)
    }

    // Whether the key isn't there.
    pub(crate) fn lacks(&self, key: ((usize, usize), (usize, usize))) -> bool
        ensures { MatchBool result (¬ Contains self.now key) (Contains self.now key) }
    {
        !self.has(key)
    }
}

impl Drop for EntryKeys {
    fn drop(self) {
        let EntryKeys { keys } = self;
        drop(keys);
    }
}
