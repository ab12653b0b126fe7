//! A list of numbers for each place, one after the other in one vector.

ghost use Rattle.std.specs.Prelude.{◌≡◌, ◌<◌, ◌++◌, ◌∷◌, [], IfOk, length};
ghost use Rattle.wb_automata_positions.specs.Rows.{row};
ghost use Rattle.wb_automata.specs.Inner.FlatRows.{start_at};

use std::alloc::{AllocError, Global};
use std::marker::Model;

// Some numbers for each place.
#[derive(Drop)]
pub(crate) struct FlatRows {
    numbers: Vec<usize>,
    // Where each row ends, which is where the next one begins.
    ends: Vec<usize>,
}

impl Model for FlatRows {
    ghost use Rattle.std.specs.Prelude.{List, ℕ, length};
    ghost use Rattle.wb_automata.specs.Rows.{rows_between};
    ghost use Rattle.wb_automata.specs.Inner.FlatRows.{AreEnds};

    ghost Value = { List (List ℕ) };

    ghost view = { λ r. rows_between r.numbers.items 0 r.ends.items };

    ghost invariant = { λ r. AreEnds (length r.numbers.items) 0 r.ends.items };
}

impl FlatRows {
    pub(crate) fn new(alloc: Global) -> FlatRows
        ensures { result ≡ [] }
    {
        FlatRows {
            numbers: Vec::new(alloc),
            ends: Vec::new(alloc),
        }
    }

    // The numbers of a place.
    pub(crate) fn row(&self, a: usize) -> &[usize]
        requires { a < length self.now }
        ensures { result.now ≡ row self.now a }
    {
        &self.numbers[start_at(&self.ends, a)..self.ends[a]]
    }

    // Puts a row after the others.
    pub(crate) fn push(&mut self, numbers: &[usize]) -> Result<(), AllocError>
        ensures { IfOk result (λ _. self.new ≡ self.old ++ numbers.now ∷ []) }
    {
        self.ends.reserve(1)?;
        self.numbers.extend_from_slice(numbers)?;
        self.ends.push_reserved(self.numbers.len());
        Ok(())
    }
}

// Where a row begins.
fn start_at(ends: &[usize], a: usize) -> usize
    requires { a < length ends.now }
    ensures { result ≡ start_at 0 ends.now a }
{
    if a == 0 {
        return 0;
    }
    ends[a - 1]
}
