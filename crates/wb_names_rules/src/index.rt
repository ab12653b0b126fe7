//! What is declared under a name, and where in the list of declarations?
//!
//! The list is kept with its table, so that each question is one look-up. The table is made in `table`.

ghost use Rattle.std.specs.Prelude.{◌≡◌, ◌∷◌, ◌++◌, Some, IfOk, IfErr, IfSome, IfNone, OnOk, ℕ, List, length, slice_get};
ghost use Rattle.wb_names_theory.specs.declared.declaration.Declaration.{Declaration as Declared};
ghost use Rattle.wb_names_theory.specs.declared.declaration.Declaration.TheVariants as d;
ghost use Rattle.wb_names_theory.specs.declared.declaration.Labelled.{Labelled};
ghost use Rattle.wb_names_theory.specs.declared.declaration.Sort.{Sort};
ghost use Rattle.wb_names_theory.specs.declared.declaration.Sort.TheVariants as sort;
ghost use Rattle.wb_syntax_resolved.specs.declared.attributes.Direction.{Direction};
ghost use Rattle.wb_names_theory.specs.Meaning as meaning;
ghost use Rattle.wb_names_rules.specs.Index.{CountOnce};
ghost use Rattle.wb_names_rules.specs.Inner.Indexed as spec;
ghost use Rattle.wb_names_rules.specs.Keys.{marked};

use crate::keys::{ATTRIBUTE, FORWARD, LABEL, LEFT, OCCURRENCE, SYMBOL, key, pair_key};
use crate::table::{Pass, Table, table_of};
use std::alloc::{AllocError, Global};
use std::marker::Model;
use wb_names_theory::{Declaration, NameRefusal};

/// What is declared, in one list, with a table by which each name is found. Where no name rule fails, nothing is declared twice there.
pub struct NameIndex {
    declarations: Vec<Declaration>,
    table: Table,
}

impl Model for NameIndex {
    ghost use Rattle.std.specs.Prelude.{List, length};
    ghost use Rattle.wb_names_theory.specs.declared.declaration.Declaration.{Declaration as Declared};
    ghost use Rattle.wb_names_rules.specs.declared.table.Pass.TheVariants.{Others};
    ghost use Rattle.wb_names_rules.specs.Indexed.{IsIndexed};

    ghost Value = { List Declared };

    ghost view = { λ x. x.declarations.items };

    ghost invariant = { λ x. IsIndexed x.declarations.items x.table.keys x.table.places.items Others (length x.declarations.items) };
}

impl NameIndex {
    // The index of declarations, where none that counts is there twice.
    pub(crate) fn new(
        alloc: Global,
        declarations: Vec<Declaration>,
    ) -> Result<NameIndex, NameRefusal>
        ensures ok { IfOk result (λ index. index ≡ declarations.items) }
        ensures once { OnOk result (CountOnce declarations.items) }
        ensures refused { IfErr result (spec.IsDuplicate declarations.items) }
    {
        let table = table_of(alloc, &declarations)?;
        Ok(NameIndex {
            declarations,
            table,
        })
    }

    /// Lets go of the index. A crate that calls this proves no drop of what it holds.
    pub fn release(self) {
        drop(self)
    }

    /// The declarations: those of the base, then those of the items in the order of the text.
    pub fn declarations(&self) -> &[Declaration]
        ensures all { result.now ≡ self.now }
        ensures once { CountOnce self.now }
    {
        &self.declarations
    }

    // The place of the declaration with a key.
    fn place(&self, key: &[u8]) -> Option<usize>
        ensures found { spec.IsFound self.now key.now result }
        ensures once { CountOnce self.now }
    {
        self.table.place(key)
    }

    // The place of the declaration with the key of one text.
    fn text_place(&self, alloc: Global, tag: u8, text: &[u8]) -> Result<Option<usize>, AllocError>
        ensures found { IfOk result (spec.IsFound self.now (tag ∷ text.now)) }
        ensures once { OnOk result (CountOnce self.now) }
    {
        let key = key(alloc, tag, text)?;
        Ok(self.place(&key))
    }

    // The place of the declaration with the key of two texts.
    fn pair_place(
        &self,
        alloc: Global,
        tag: u8,
        first: &[u8],
        second: &[u8],
    ) -> Result<Option<usize>, AllocError>
        ensures found { IfOk result (spec.IsFound self.now (tag ∷ (marked first.now ++ second.now))) }
        ensures once { OnOk result (CountOnce self.now) }
    {
        let key = pair_key(alloc, tag, first, second)?;
        Ok(self.place(&key))
    }

    /// The place of the terminal, layout, marker, nonterminal or production of a name, from 0 on.
    pub fn symbol(&self, alloc: Global, name: &[u8]) -> Result<Option<usize>, AllocError>
        ensures found { IfOk result (λ found. IfSome found (λ place. (is : Sort) × (slice_get self.now place ≡ Some (d.Symbol name.now is)))) }
        ensures none { IfOk result (λ found. IfNone found ((is : Sort) → ¬ meaning.IsSymbol self.now name.now is)) }
        ensures once { OnOk result (CountOnce self.now) }
    {
        self.text_place(alloc, SYMBOL, name)
    }

    /// The place of the attribute of a name.
    pub fn attribute(&self, alloc: Global, name: &[u8]) -> Result<Option<usize>, AllocError>
        ensures found { IfOk result (λ found. IfSome found (λ place. (direction : Direction) × (slice_get self.now place ≡ Some (d.Attribute name.now direction)))) }
        ensures none { IfOk result (λ found. IfNone found ((direction : Direction) → ¬ meaning.IsAttribute self.now name.now direction)) }
        ensures once { OnOk result (CountOnce self.now) }
    {
        self.text_place(alloc, ATTRIBUTE, name)
    }

    /// The place of the label of a production.
    pub fn label(
        &self,
        alloc: Global,
        production: &[u8],
        label: &[u8],
    ) -> Result<Option<usize>, AllocError>
        requires { meaning.IsSymbol self.now production.now sort.Production }
        ensures found { IfOk result (λ found. IfSome found (λ place. (is : Labelled) × (slice_get self.now place ≡ Some (d.Label production.now label.now is)))) }
        ensures none { IfOk result (λ found. IfNone found ((is : Labelled) → ¬ meaning.HasLabel self.now production.now label.now is)) }
        ensures once { OnOk result (CountOnce self.now) }
    {
        self.pair_place(alloc, LABEL, production, label)
    }

    // The place of the left side of a production.
    pub(crate) fn left(&self, alloc: Global, production: &[u8]) -> Result<Option<usize>, AllocError>
        ensures found { IfOk result (λ found. IfSome found (λ place. (nonterminal : List ℕ) × (slice_get self.now place ≡ Some (d.Left production.now nonterminal)))) }
        ensures none { IfOk result (λ found. IfNone found ((nonterminal : List ℕ) → ¬ meaning.HasLeft self.now production.now nonterminal)) }
    {
        self.text_place(alloc, LEFT, production)
    }

    // The place at which an attribute occurs on a nonterminal.
    pub(crate) fn occurrence(
        &self,
        alloc: Global,
        attribute: &[u8],
        nonterminal: &[u8],
    ) -> Result<Option<usize>, AllocError>
        ensures found { IfOk result (λ found. IfSome found (λ place. slice_get self.now place ≡ Some (d.Occurrence attribute.now nonterminal.now))) }
        ensures none { IfOk result (λ found. IfNone found (¬ meaning.Occurs self.now attribute.now nonterminal.now)) }
        ensures once { OnOk result (CountOnce self.now) }
    {
        self.pair_place(alloc, OCCURRENCE, attribute, nonterminal)
    }

    // The place at which a production forwards.
    pub(crate) fn forward(
        &self,
        alloc: Global,
        production: &[u8],
    ) -> Result<Option<usize>, AllocError>
        ensures found { IfOk result (λ found. IfSome found (λ place. slice_get self.now place ≡ Some (d.Forward production.now))) }
        ensures none { IfOk result (λ found. IfNone found (¬ meaning.Forwards self.now production.now)) }
    {
        self.text_place(alloc, FORWARD, production)
    }
}

impl Drop for NameIndex {
    fn drop(self) {
        let NameIndex {
            declarations,
            table,
        } = self;
        drop(declarations);
        drop(table);
    }
}
