//! Which items write on the production of a name?
//!
//! Its own item does, and each aspect. All are found in one pass over the items.

ghost use Rattle.std.specs.Prelude.{◌≡◌, ◌∷◌, [], IfOk, OnOk, length};
ghost use Rattle.wb_names_theory.specs.Declarations.{Items};
ghost use Rattle.wb_names_numbers_theory.specs.Files.{block_of};
ghost use Rattle.wb_names_symbols.specs.Writers.{IsWrittenAt, AreWriters};
ghost use Rattle.wb_names_symbols.specs.Inner.Writers.{AddsPlace, AddsBlock};

use std::alloc::{AllocError, Global};
use wb_base::{Added, Names, push};
use wb_syntax::{Item, ItemForm, Pattern};

/// Names of productions on which items write, and for each the places of these items.
pub struct Writers {
    pub names: Names,
    pub places: Vec<Vec<usize>>,
}

impl Writers {
    /// The places of the items that write on the production of this name, in order.
    pub fn places_of(&self, name: &[u8]) -> &[usize]
        requires { length self.now.places.items ≡ length self.now.names }
        ensures { (items : Items) → AreWriters items items self.now → IsWrittenAt items items name.now result.now }
    {
        match self.names.find(name) {
            Some(number) => &self.places[number],
            None => &[],
        }
    }
}

impl Drop for Writers {
    fn drop(self) {
        let Writers { names, places } = self;
        drop(names);
        drop(places);
    }
}

/// Adds the places of those of these items that write on productions to none.
pub fn add_items(
    alloc: Global,
    items: &[Item<Pattern>],
    made: &mut Writers,
) -> Result<(), AllocError>
    requires { AreWriters items.now [] made.old }
    ensures { OnOk result (AreWriters items.now items.now made.new) }
{
    'items: for place in 0..items.len() {
        add_item(alloc, &items[place], place, made)?;
    }
    Ok(())
}

// Adds the place of an item, where it writes on a production.
fn add_item(
    alloc: Global,
    item: &Item<Pattern>,
    place: usize,
    made: &mut Writers,
) -> Result<(), AllocError>
    requires { length made.old.places.items ≡ length made.old.names }
    ensures { OnOk result (AddsBlock (block_of item.now.form) place made.old made.new) }
{
    match &item.form {
        ItemForm::Production { production, .. } => {
            add_place(alloc, production.name.as_slice(), place, made)
        }
        ItemForm::Aspect { name, .. } => add_place(alloc, name.as_slice(), place, made),
        _ => Ok(()),
    }
}

// Adds the place of an item that writes on the production of this name.
fn add_place(alloc: Global, name: &[u8], place: usize, made: &mut Writers) -> Result<(), AllocError>
    requires { length made.old.places.items ≡ length made.old.names }
    ensures { OnOk result (AddsPlace name.now place made.old made.new) }
{
    match made.names.add(name)? {
        Added::New(_) => push(&mut made.places, list_of_one(alloc, place)?),
        Added::Present(number) => push(&mut made.places[number], place),
    }
}

// The list of one place.
fn list_of_one(alloc: Global, place: usize) -> Result<Vec<usize>, AllocError>
    ensures { IfOk result (λ made. made.items ≡ place ∷ []) }
{
    let mut made = Vec::new(alloc);
    push(&mut made, place)?;
    Ok(made)
}
