//! Numbers that were met, each once, in the order in which they were.

ghost use Rattle.std.specs.Prelude.{◌≡◌, ◌↔◌, [], Contains, IfOk, IsTrue};
ghost use Rattle.wb_automata.specs.Inner.Pairs.{IsInserted};

use indexmap::IndexSet;
use std::alloc::{AllocError, Global};
use std::marker::Model;

// The numbers.
pub(crate) struct Met {
    numbers: IndexSet<usize>,
}

impl Model for Met {
    ghost use Rattle.std.specs.Prelude.{List, ℕ};

    ghost Value = { List ℕ };

    ghost view = { λ met. met.numbers.keys };
}

impl Met {
    pub(crate) fn new(alloc: Global) -> Met
        ensures { result ≡ [] }
    {
        Met {
            numbers: IndexSet::new(alloc),
        }
    }

    // Puts a number after the others, and answers whether it is new.
    pub(crate) fn insert(&mut self, number: usize) -> Result<bool, AllocError>
        ensures { IfOk result (IsInserted self.old number self.new) }
    {
        let (_, new) = self.numbers.insert_full(number)?;
        Ok(new)
    }

    // Whether the number was met.
    pub(crate) fn has(&self, number: usize) -> bool
        ensures { IsTrue result ↔ Contains self.now number }
    {
        self.numbers.contains(&number)
    }
}

impl Drop for Met {
    fn drop(self) {
        let Met { numbers } = self;
        drop(numbers);
    }
}
