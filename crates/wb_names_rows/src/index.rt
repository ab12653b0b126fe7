//! At which place of a list of texts is a text?
//!
//! Each different text is kept once in a table of hashes, so a text is found in about constant time. Places count from 0 on.

ghost use Rattle.std.specs.Prelude.{◌≡◌, ◌++◌, ◌∷◌, [], ℕ, List, Some, Contains, IfSome, IfNone, OnOk, OnErr, length, slice_get};
ghost use Rattle.wb_names_rows.specs.Index.{IsIndex};

use std::alloc::{AllocError, Global};
use std::marker::Model;
use wb_base::{Added, Bytes, Names};

/// Texts by their places, some perhaps at several.
pub struct Index {
    texts: Vec<Bytes>,
    names: Names,
    numbers: Vec<usize>,
}

impl Model for Index {
    ghost use Rattle.std.specs.Prelude.{List, ℕ};
    ghost use Rattle.wb_names_rows.specs.Index.{IsIndex};

    ghost Value = { List (List ℕ) };

    ghost view = { λ i. i.texts.items };

    ghost invariant = { λ i. IsIndex i.names i.numbers.items i.texts.items };
}

impl Index {
    /// No texts.
    pub fn new(alloc: Global) -> Index
        ensures { result ≡ [] }
    {
        Index {
            texts: Vec::new(alloc),
            names: Names::new(alloc),
            numbers: Vec::new(alloc),
        }
    }

    /// Adds a text after the others.
    pub fn add(&mut self, text: Bytes) -> Result<(), AllocError>
        ensures { OnOk result (self.new ≡ self.old ++ text ∷ []) }
    {
        let place = self.texts.len();
        self.texts.reserve(1)?;
        place_text(&mut self.names, &mut self.numbers, place, text.as_slice())?;
        self.texts.push_reserved(text);
        Ok(())
    }

    /// A place of a text, where it is there. Takes about constant time.
    pub fn find(&self, text: &[u8]) -> Option<usize>
        ensures found { IfSome result (λ number. slice_get self.now number ≡ Some text.now) }
        ensures none { IfNone result (¬ Contains self.now text.now) }
    {
        match self.names.find(text) {
            Some(number) => Some(self.numbers[number]),
            None => None,
        }
    }

    /// Lets go of the texts. A crate that calls this proves no drop of what they hold.
    pub fn release(self) {
        drop(self)
    }
}

impl Drop for Index {
    fn drop(self) {
        let Index {
            texts,
            names,
            numbers,
        } = self;
        drop(texts);
        drop(names);
        drop(numbers);
    }
}

// Keeps the place of a text, where the text is new.
fn place_text(
    names: &mut Names,
    numbers: &mut Vec<usize>,
    place: usize,
    text: &[u8],
) -> Result<(), AllocError>
    ensures index { OnOk result ((texts : List (List ℕ)) → IsIndex names.old numbers.old.items texts → length texts ≡ place → IsIndex names.new numbers.new.items (texts ++ text.now ∷ [])) }
    ensures err { OnErr result (names.new ≡ names.old) }
    ensures err_numbers { OnErr result (numbers.new.items ≡ numbers.old.items) }
{
    numbers.reserve(1)?;
    match names.add(text)? {
        Added::New(_) => {
            numbers.push_reserved(place);
            Ok(())
        }
        Added::Present(_) => Ok(()),
    }
}
