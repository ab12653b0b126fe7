//! How are values kept in order, until all are taken at once?
//!
//! A builder hands its list on without memory and goes on with an empty one. Values that are taken one by one are in `stack`.

ghost use Rattle.std.specs.Prelude.{◌≡◌, ◌++◌, ◌∷◌, [], OnErr, OnOk, length};

use crate::Sequence;
use std::alloc::{AllocError, Global};
use std::marker::Model;
use std::mem::replace;

/// Values in order.
pub struct List<T> {
    items: Vec<T>,
}

impl<T> Model for List<T> {
    ghost use Rattle.std.specs.Prelude.{List as Values};

    ghost Value = { Values T };

    ghost view = { λ l. l.items.items };
}

impl<T: Drop> List<T> {
    /// No values.
    pub fn new(alloc: Global) -> List<T>
        ensures { result ≡ [] }
    {
        List {
            items: Vec::new(alloc),
        }
    }

    /// One value more, which is last. If memory runs out, the values are as before.
    pub fn push(&mut self, value: T) -> Result<(), AllocError>
        ensures ok { OnOk result (self.new ≡ self.old ++ value ∷ []) }
        ensures err { OnErr result (self.new ≡ self.old) }
    {
        self.items.push(value)?;
        Ok(())
    }

    /// How many values there are.
    pub fn len(&self) -> usize
        ensures { result ≡ length self.now }
    {
        self.items.len()
    }

    /// The values, which are no longer here.
    pub fn take(&mut self) -> Sequence<T>
        ensures all { result ≡ self.old }
        ensures none { self.new ≡ [] }
    {
        let alloc = *self.items.allocator();
        Sequence::from_vec(replace(&mut self.items, Vec::new(alloc)))
    }

    /// The values.
    pub fn into_sequence(self) -> Sequence<T>
        ensures { result ≡ self }
    {
        let List { items } = self;
        Sequence::from_vec(items)
    }
}

impl<T: Drop> Drop for List<T> {
    fn drop(self) {
        let List { items } = self;
        drop(items);
    }
}
