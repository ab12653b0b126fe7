//! How are the signatures of productions kept, so that a printed name is found in about constant time?
//!
//! Names are kept once each, with the first production of each. Which trees fit signatures is in `specs/Fits`.

ghost use Rattle.std.specs.Prelude.{◌≡◌, ◌↔◌, ℕ, List, ◌<◌, [], ◌∷◌, ◌++◌, length, IsTrue, IfOk, IfSome, IfNone, OnErr, OnOk, Some, slice_get};
ghost use Rattle.wb_values.specs.Signature.{Signature, IsFirst, HasNone};
ghost use Rattle.wb_values.specs.NameIndex.{IsIndex};

use std::alloc::{AllocError, Global};
use std::marker::Model;
use wb_base::{Added, Kind, Names};

#[derive(Drop)]
struct Entry {
    name: usize,
    left: usize,
    children: Vec<Kind>,
}

/// The signatures of productions: the printed name, the left nonterminal and the kinds of the children of each.
///
/// Productions are numbered from 0 in the order in which they were added, and several may have one name.
pub struct Signatures {
    alloc: Global,
    names: Names,
    firsts: Vec<usize>,
    entries: Vec<Entry>,
}

impl Model for Signatures {
    ghost use Rattle.std.specs.Prelude.{List, length};
    ghost use Rattle.wb_values.specs.Signature.{Signature};
    ghost use Rattle.wb_values.specs.Signatures.{signatures_of, name_numbers};
    ghost use Rattle.wb_values.specs.NameIndex.{IsIndex};

    ghost Value = { List Signature };

    ghost view = { λ s. signatures_of s.names s.entries.items };

    ghost invariant = { λ s. IsIndex (length s.names) s.firsts.items (name_numbers s.entries.items) };
}

impl Signatures {
    /// No signatures.
    pub fn new(alloc: Global) -> Signatures
        ensures { result ≡ [] }
    {
        Signatures {
            alloc,
            names: Names::new(alloc),
            firsts: Vec::new(alloc),
            entries: Vec::new(alloc),
        }
    }

    /// Adds the signature of a production after the others, and answers its number.
    pub fn add(&mut self, name: &[u8], left: usize, children: &[Kind]) -> Result<usize, AllocError>
        ensures number { IfOk result (λ number. number ≡ length self.old) }
        ensures ok { OnOk result (self.new ≡ self.old ++ record { name = name.now; left = left; children = children.now } ∷ []) }
        ensures err { OnErr result (self.new ≡ self.old) }
    {
        let number = self.entries.len();
        let children = Vec::from_slice(self.alloc, children)?;
        self.entries.reserve(1)?;
        let name = number_name(&mut self.names, &mut self.firsts, number, name)?;
        self.entries.push_reserved(Entry {
            name,
            left,
            children,
        });
        Ok(number)
    }

    /// How many productions there are.
    pub fn len(&self) -> usize
        ensures { result ≡ length self.now }
    {
        self.entries.len()
    }

    /// Whether there is no production.
    pub fn is_empty(&self) -> bool
        ensures { IsTrue result ↔ (self.now ≡ []) }
    {
        self.entries.is_empty()
    }

    /// The printed name of a production.
    pub fn name(&self, production: usize) -> &[u8]
        requires { production < length self.now }
        ensures { IfSome (slice_get self.now production) (λ s. result.now ≡ s.name) }
    {
        let entry = &self.entries[production];
        self.names.name(entry.name)
    }

    /// The nonterminal on the left of a production.
    pub fn left(&self, production: usize) -> usize
        requires { production < length self.now }
        ensures { IfSome (slice_get self.now production) (λ s. result ≡ s.left) }
    {
        self.entries[production].left
    }

    /// The kinds of the children of a production, from left to right.
    pub fn children(&self, production: usize) -> &[Kind]
        requires { production < length self.now }
        ensures { IfSome (slice_get self.now production) (λ s. result.now ≡ s.children) }
    {
        self.entries[production].children.as_slice()
    }

    /// The first production of a printed name. Takes about constant time.
    pub fn find(&self, name: &[u8]) -> Option<usize>
        ensures found { IfSome result (IsFirst self.now name.now) }
        ensures none { IfNone result (HasNone self.now name.now) }
    {
        let number = self.names.find(name)?;
        prove!(number < self.names.len());
        Some(self.firsts[number])
    }

    /// Equal signatures.
    pub fn copy(&self) -> Result<Signatures, AllocError>
        ensures { IfOk result (λ made. made ≡ self.now) }
    {
        let mut made = Signatures::new(self.alloc);
        for production in 0..self.len() {
            made.add(
                self.name(production),
                self.left(production),
                self.children(production),
            )?;
        }
        Ok(made)
    }
}

impl Drop for Signatures {
    fn drop(self) {
        let Signatures {
            alloc: _,
            names,
            firsts,
            entries,
        } = self;
        drop(names);
        drop(firsts);
        drop(entries);
    }
}

// The number of a name, for the production of this number: a name that is new gets a number, and the production is its first.
fn number_name(
    names: &mut Names,
    firsts: &mut Vec<usize>,
    production: usize,
    name: &[u8],
) -> Result<usize, AllocError>
    ensures named { IfOk result (λ number. slice_get names.new number ≡ Some name.now) }
    ensures kept { OnOk result ((k : ℕ) (text : List ℕ) → slice_get names.old k ≡ Some text → slice_get names.new k ≡ Some text) }
    ensures index { IfOk result (λ number. (used : List ℕ) → IsIndex (length names.old) firsts.old.items used → length used ≡ production → IsIndex (length names.new) firsts.new.items (used ++ number ∷ [])) }
    ensures err { OnErr result (names.new ≡ names.old) }
    ensures err_firsts { OnErr result (firsts.new.items ≡ firsts.old.items) }
{
    firsts.reserve(1)?;
    match names.add(name)? {
        Added::New(number) => {
            firsts.push_reserved(production);
            Ok(number)
        }
        Added::Present(number) => Ok(number),
    }
}
