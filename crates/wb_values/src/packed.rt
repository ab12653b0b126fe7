//! How is a long list of values kept in 8 bytes a value?
//!
//! A value that doesn't fit into its cell lies in a list beside the cells, in their order, so that both are cut off at their ends.

ghost use Rattle.std.specs.Prelude.{◌≡◌, ◌≢◌, ◌<◌, ◌≤◌, ◌-◌, ℕ, List, [], ◌∷◌, ◌++◌, Some, length, take, drop, IfOk, IfSome, IfNone, OnErr, OnOk, slice_get};
ghost use Rattle.wb_values.specs.declared.value.TreeId.{TreeId};
ghost use Rattle.wb_values.specs.declared.value.Value.TheVariants.{Text, Tree as Stored};
ghost use Rattle.wb_values.specs.Packed.{value_of};
ghost use Rattle.wb_values.specs.Inner.Small.{IsSmall};

use crate::cell::{Cell, cell_of, cell_of_place, cell_of_text, cell_of_tree, place_of};
use crate::{TreeId, Value};
use std::alloc::{AllocError, Global};
use std::marker::Model;
use wb_base::Bytes;

/// A list of values, most of which take 8 bytes: trees with a number below 2^32, numbers of 32 bits, truth values, and texts of at most 6
/// bytes. Each other value takes 40.
pub struct PackedValues {
    cells: Vec<Cell>,
    large: Vec<Value>,
}

impl Model for PackedValues {
    ghost use Rattle.std.specs.Prelude.{List, length};
    ghost use Rattle.wb_values.specs.declared.value.Value.{Value as Item};
    ghost use Rattle.wb_values.specs.Packed.{values_of, ArePacked};

    ghost Value = { List Item };

    ghost view = { λ s. values_of s.cells.items s.large.items };

    ghost invariant = { λ s. ArePacked 0 s.cells.items (length s.large.items) };
}

impl PackedValues {
    /// No values.
    pub fn new(alloc: Global) -> PackedValues
        ensures { result ≡ [] }
    {
        PackedValues {
            cells: Vec::new(alloc),
            large: Vec::new(alloc),
        }
    }

    /// How many values there are.
    pub fn len(&self) -> usize
        ensures { result ≡ length self.now }
    {
        self.cells.len()
    }

    /// Adds a value after the others. If memory runs out, the value is dropped and the others stay.
    pub fn push(&mut self, value: Value) -> Result<(), AllocError>
        ensures ok { OnOk result (self.new ≡ self.old ++ value ∷ []) }
        ensures err { OnErr result (self.new ≡ self.old) }
    {
        match cell_of(&value) {
            Some(cell) => self.push_cell(cell),
            None => self.push_large(value),
        }
    }

    /// Adds a tree after the others. If memory runs out, the others stay.
    #[inline]
    pub fn push_tree(&mut self, tree: TreeId) -> Result<(), AllocError>
        ensures ok { OnOk result (self.new ≡ self.old ++ Stored tree ∷ []) }
        ensures err { OnErr result (self.new ≡ self.old) }
    {
        match cell_of_tree(tree) {
            Some(cell) => self.push_cell(cell),
            None => self.push_large(Value::Tree(tree)),
        }
    }

    /// Adds a text after the others. If memory runs out, the others stay.
    pub fn push_text(&mut self, text: &[u8]) -> Result<(), AllocError>
        ensures ok { OnOk result (self.new ≡ self.old ++ Text text.now ∷ []) }
        ensures err { OnErr result (self.new ≡ self.old) }
    {
        match cell_of_text(text) {
            Some(cell) => self.push_cell(cell),
            None => {
                let alloc = *self.cells.allocator();
                let bytes = Bytes::from_slice(alloc, text)?;
                self.push_large(Value::Text(bytes))
            }
        }
    }

    /// The value at a place, copied in constant time. A short text or a number takes no memory, and the only error is that a text has too
    /// many copies to be counted.
    pub fn get(&self, place: usize) -> Result<Value, AllocError>
        requires { place < length self.now }
        ensures { IfOk result (λ made. slice_get self.now place ≡ Some made) }
    {
        match self.cells[place] {
            Cell::Tree(number) => Ok(Value::Tree(TreeId(number as usize))),
            Cell::Int(number) => Ok(Value::Int(number as i64)),
            Cell::Bool(truth) => Ok(Value::Bool(truth)),
            Cell::Text(count, bytes) => {
                let alloc = *self.cells.allocator();
                Ok(Value::Text(Bytes::from_slice(alloc, &bytes[..count as usize])?))
            }
            Cell::Large(high, low) => self.large[place_of(high, low)].copy(),
        }
    }

    /// The tree at a place, if the value there is one.
    #[inline]
    pub fn tree(&self, place: usize) -> Option<TreeId>
        requires { place < length self.now }
        ensures some { IfSome result (λ tree. slice_get self.now place ≡ Some (Stored tree)) }
        ensures none { IfNone result ((tree : TreeId) → slice_get self.now place ≢ Some (Stored tree)) }
    {
        match self.cells[place] {
            Cell::Tree(number) => Some(TreeId(number as usize)),
            Cell::Large(high, low) => match self.large[place_of(high, low)] {
                Value::Tree(tree) => Some(tree),
                _ => None,
            },
            _ => None,
        }
    }

    /// The tree that is the last value, if it is one.
    pub fn last_tree(&self) -> Option<TreeId>
        ensures some { IfSome result (λ tree. slice_get self.now (length self.now - 1) ≡ Some (Stored tree)) }
        ensures none { IfNone result ((tree : TreeId) → slice_get self.now (length self.now - 1) ≢ Some (Stored tree)) }
    {
        let len = self.len();
        if len == 0 {
            return None;
        }
        self.tree(len - 1)
    }

    /// The text at a place, if the value there is one.
    #[inline]
    pub fn text(&self, place: usize) -> Option<&[u8]>
        requires { place < length self.now }
        ensures some { IfSome result (λ text. slice_get self.now place ≡ Some (Text text.now)) }
        ensures none { IfNone result ((text : List ℕ) → slice_get self.now place ≢ Some (Text text)) }
    {
        match &self.cells[place] {
            Cell::Text(count, bytes) => Some(first_bytes(bytes, *count as usize)),
            Cell::Large(high, low) => match &self.large[place_of(*high, *low)] {
                Value::Text(text) => Some(text.as_slice()),
                _ => None,
            },
            _ => None,
        }
    }

    /// Keeps the first values, so many of them, and drops the others.
    pub fn truncate(&mut self, len: usize)
        requires { len ≤ length self.old }
        ensures { self.new ≡ take len self.old }
    {
        'values: while self.len() > len {
            self.drop_last();
        }
    }

    // Makes room for so many more values in cells. Where there is no memory for so much, there is no more room than before.
    pub(crate) fn make_room(&mut self, more: usize)
        ensures { self.new ≡ self.old }
    {
        let _cells = self.cells.reserve_exact(more);
    }

    // Puts a tree in the place of the values from a place on.
    #[inline]
    pub(crate) fn put_tree(&mut self, place: usize, tree: TreeId)
        requires place { place < length self.old }
        requires tree { tree.0 < 4294967296 }
        ensures { self.new ≡ take place self.old ++ Stored tree ∷ [] }
    {
        if self.len() - place == 1 {
            return self.put_last(tree);
        }
        self.truncate(place + 1);
        self.put_last(tree);
    }

    // Puts a tree in the place of the last value.
    #[inline]
    fn put_last(&mut self, tree: TreeId)
        requires some { 1 ≤ length self.old }
        requires tree { tree.0 < 4294967296 }
        ensures { self.new ≡ take (length self.old - 1) self.old ++ Stored tree ∷ [] }
    {
        match self.cells.take_last() {
            Cell::Large(_, _) => {
                self.large.truncate(self.large.len() - 1);
                self.cells.push_reserved(Cell::Tree(tree.0 as u32));
            }
            _ => self.cells.push_reserved(Cell::Tree(tree.0 as u32)),
        }
    }

    // Adds a copy of the value at a place of other values.
    #[inline]
    pub(crate) fn push_copy(
        &mut self,
        values: &PackedValues,
        place: usize,
    ) -> Result<(), AllocError>
        requires { place < length values.now }
        ensures ok { OnOk result (self.new ≡ self.old ++ take 1 (drop place values.now)) }
        ensures err { OnErr result (self.new ≡ self.old) }
    {
        match values.cells[place] {
            Cell::Large(high, low) => self.push_large(values.large[place_of(high, low)].copy()?),
            cell => self.push_cell(cell),
        }
    }

    // Adds the value that a cell holds.
    #[inline]
    fn push_cell(&mut self, cell: Cell) -> Result<(), AllocError>
        requires { IsSmall cell }
        ensures ok { OnOk result (self.new ≡ self.old ++ value_of [] cell ∷ []) }
        ensures err { OnErr result (self.new ≡ self.old) }
    {
        self.cells.reserve(1)?;
        self.cells.push_reserved(cell);
        Ok(())
    }

    // Adds a value to the large ones.
    fn push_large(&mut self, value: Value) -> Result<(), AllocError>
        ensures ok { OnOk result (self.new ≡ self.old ++ value ∷ []) }
        ensures err { OnErr result (self.new ≡ self.old) }
    {
        let Some(cell) = cell_of_place(self.large.len()) else {
            return Err(AllocError);
        };
        self.cells.reserve(1)?;
        self.large.reserve(1)?;
        self.cells.push_reserved(cell);
        self.large.push_reserved(value);
        Ok(())
    }

    // Drops the last value.
    fn drop_last(&mut self)
        requires { 1 ≤ length self.old }
        ensures { self.new ≡ take (length self.old - 1) self.old }
    {
        if let Cell::Large(_, _) = self.cells.take_last() {
            self.large.truncate(self.large.len() - 1);
        }
    }
}

// The first of some bytes.
#[inline]
fn first_bytes(bytes: &[u8], count: usize) -> &[u8]
    requires { count ≤ length bytes.now }
    ensures { result.now ≡ take count bytes.now }
{
    &bytes[..count]
}

impl Drop for PackedValues {
    fn drop(self) {
        let PackedValues { cells, large } = self;
        drop(cells);
        drop(large);
    }
}
