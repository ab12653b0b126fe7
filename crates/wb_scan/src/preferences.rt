//! Is one terminal preferred to another? It is asked of any two forms that one state of the automaton accepts.
//!
//! Pairs are found by hashing, so that no state goes through all of them.

ghost use Rattle.std.specs.Prelude.{◌≡◌, ◌↔◌, Contains, IsTrue};
ghost use Rattle.wb_scan.specs.Inner.Preferred.{AreIndexed};

use std::alloc::Global;
use std::collections::HashSet;
use std::marker::Model;
use wb_lexical::prefers;

// Pairs of terminals, of which the first is preferred to the second.
pub(crate) struct Preferences {
    pairs: Vec<(usize, usize)>,
    // The same pairs, or none where memory ran out.
    index: HashSet<(usize, usize)>,
}

impl Model for Preferences {
    ghost use Rattle.std.specs.Prelude.{List, ℕ};
    ghost use Rattle.wb_scan.specs.Inner.Preferred.{AreIndexed};

    ghost Value = { List (ℕ × ℕ) };

    ghost view = { λ p. p.pairs.items };

    ghost invariant = { λ p. AreIndexed p.pairs.items p.index.keys };
}

impl Preferences {
    pub(crate) fn new(pairs: Vec<(usize, usize)>) -> Preferences
        ensures { result ≡ pairs.items }
    {
        let index = index_of(*pairs.allocator(), &pairs);
        Preferences { pairs, index }
    }

    // Whether the first terminal is preferred to the second.
    pub(crate) fn prefers(&self, winner: usize, loser: usize) -> bool
        ensures { IsTrue result ↔ Contains self.now (winner, loser) }
    {
        if self.index.is_empty() {
            return prefers(&self.pairs, winner, loser);
        }
        self.index.contains(&(winner, loser))
    }
}

impl Drop for Preferences {
    fn drop(self) {
        let Preferences { pairs, index } = self;
        drop(pairs);
        drop(index);
    }
}

// These pairs, or none where memory runs out.
fn index_of(alloc: Global, pairs: &[(usize, usize)]) -> HashSet<(usize, usize)>
    ensures { AreIndexed pairs.now result.keys }
{
    let mut index = HashSet::new(alloc);
    'pairs: for pair in pairs {
        match index.insert(*pair) {
            Ok(_) => {}
            Err(_) => return HashSet::new(alloc),
        }
    }
    index
}
