//! Which set has each item of a kernel? The numbers of the sets, place by place.

ghost use Rattle.std.specs.Prelude.{◌≡◌, ◌<◌, ◌++◌, ◌∷◌, [], IfOk, OnOk, Some, length, replicate, slice_get, slice_set};

use std::alloc::{AllocError, Global};
use std::marker::Model;
use wb_base::push;

// Numbers of sets.
#[derive(Drop)]
pub(crate) struct SetNumbers {
    numbers: Vec<usize>,
}

impl Model for SetNumbers {
    ghost use Rattle.std.specs.Prelude.{List, ℕ};

    ghost Value = { List ℕ };

    ghost view = { λ n. n.numbers.items };
}

impl SetNumbers {
    // No number, with room for so many.
    pub(crate) fn with_capacity(alloc: Global, count: usize) -> Result<SetNumbers, AllocError>
        ensures { IfOk result (λ numbers. numbers ≡ []) }
    {
        Ok(SetNumbers {
            numbers: Vec::with_capacity(alloc, count)?,
        })
    }

    // The number 0, so many times.
    pub(crate) fn zeros(alloc: Global, count: usize) -> Result<SetNumbers, AllocError>
        ensures { IfOk result (λ numbers. numbers ≡ replicate count 0) }
    {
        let numbers = vec![in alloc; 0; count]?;
        Ok(SetNumbers { numbers })
    }

    // Puts a number after the others.
    pub(crate) fn push(&mut self, number: usize) -> Result<(), AllocError>
        ensures { OnOk result (self.new ≡ self.old ++ number ∷ []) }
    {
        push(&mut self.numbers, number)
    }

    // The number at a place.
    pub(crate) fn at(&self, place: usize) -> usize
        requires { place < length self.now }
        ensures { slice_get self.now place ≡ Some result }
    {
        self.numbers[place]
    }

    // Puts a number at a place.
    pub(crate) fn put(&mut self, place: usize, number: usize)
        requires { place < length self.old }
        ensures { self.new ≡ slice_set self.old place number }
    {
        self.numbers[place] = number;
    }
}
