//! Is anything declared twice, and where is the declaration of a key?
//!
//! A table of hashes keeps the key of each declaration, with its place in the list. What is asked of it is in `index`.

ghost use Rattle.std.specs.Prelude.{◌≡◌, ◌+◌, ◌<◌, ◌↔◌, ◌++◌, ◌∷◌, [], ℕ, Some, length, IfOk, IfErr, IfSome, IfNone, IsTrue, OnOk, Contains, slice_get, false};
ghost use Rattle.wb_names_theory.specs.Duplicate.{Counts, shown_name as shown};
ghost use Rattle.wb_names_theory.specs.Meaning.{IsSymbol};
ghost use Rattle.wb_names_theory.specs.declared.declaration.Sort.TheVariants as sort;
ghost use Rattle.wb_names_rules.specs.declared.table.Pass.TheVariants.{Symbols, Others};
ghost use Rattle.wb_names_rules.specs.Indexed as indexed;
ghost use Rattle.wb_names_rules.specs.Inner.Indexed as spec;
ghost use Rattle.wb_names_rules.specs.Keys as keys;

use crate::keys::{SYMBOL, key, key_of};
use std::alloc::{AllocError, Global};
use wb_base::{Added, Bytes, Names, push};
use wb_names_theory::{Declaration, NameRefusal, Sort};

// Keys, each once, and the place of the declaration of each.
#[derive(Drop)]
pub(crate) struct Table {
    pub(crate) keys: Names,
    pub(crate) places: Vec<usize>,
}

// Which declarations are added: those of symbols, and then all others, since labels count on declared productions alone.
#[derive(Clone, Copy)]
pub(crate) enum Pass {
    Symbols,
    Others,
}

impl Table {
    // The place that was kept for a key.
    pub(crate) fn place(&self, key: &[u8]) -> Option<usize>
        requires { length self.now.places.items ≡ length self.now.keys }
        ensures found { IfSome result (λ place. indexed.IsKept self.now.keys self.now.places.items key.now place) }
        ensures none { IfNone result (¬ Contains self.now.keys key.now) }
    {
        let number = self.keys.find(key)?;
        Some(self.places[number])
    }

    // Keeps a place for a key where it isn't there yet, and answers the place that was kept before.
    fn add(&mut self, key: &[u8], place: usize) -> Result<Option<usize>, AllocError>
        requires { length self.old.places.items ≡ length self.old.keys }
        ensures present { IfOk result (λ before. IfSome before (λ p. indexed.IsKept self.old.keys self.old.places.items key.now p × (self.new.keys ≡ self.old.keys) × (self.new.places.items ≡ self.old.places.items))) }
        ensures new { IfOk result (λ before. IfNone before ((¬ Contains self.old.keys key.now) × (self.new.keys ≡ self.old.keys ++ key.now ∷ []) × (self.new.places.items ≡ self.old.places.items ++ place ∷ []))) }
    {
        match self.keys.add(key)? {
            Added::New(_) => {
                push(&mut self.places, place)?;
                Ok(None)
            }
            Added::Present(number) => Ok(Some(self.places[number])),
        }
    }

    // Like `add`, with the key of a declaration.
    fn add_key(
        &mut self,
        alloc: Global,
        declaration: &Declaration,
        place: usize,
    ) -> Result<Option<usize>, AllocError>
        requires { length self.old.places.items ≡ length self.old.keys }
        ensures present { IfOk result (λ before. IfSome before (λ p. indexed.IsKept self.old.keys self.old.places.items (keys.key_of declaration.now) p × (self.new.keys ≡ self.old.keys) × (self.new.places.items ≡ self.old.places.items))) }
        ensures new { IfOk result (λ before. IfNone before ((¬ Contains self.old.keys (keys.key_of declaration.now)) × (self.new.keys ≡ self.old.keys ++ keys.key_of declaration.now ∷ []) × (self.new.places.items ≡ self.old.places.items ++ place ∷ []))) }
    {
        let key = key_of(alloc, declaration)?;
        self.add(&key, place)
    }
}

// The table of declarations, where nothing is declared twice.
pub(crate) fn table_of(alloc: Global, declarations: &[Declaration]) -> Result<Table, NameRefusal>
    ensures ok { IfOk result (λ table. indexed.IsIndexed declarations.now table.keys table.places.items Others (length declarations.now)) }
    ensures refused { IfErr result (spec.IsDuplicate declarations.now) }
{
    let mut table = Table {
        keys: Names::new(alloc),
        places: Vec::new(alloc),
    };
    add_passes(alloc, declarations, &mut table)?;
    Ok(table)
}

// Adds all declarations to a table of none, those of symbols first.
fn add_passes(
    alloc: Global,
    declarations: &[Declaration],
    table: &mut Table,
) -> Result<(), NameRefusal>
    requires { indexed.IsIndexed declarations.now table.old.keys table.old.places.items Symbols 0 }
    ensures ok { OnOk result (indexed.IsIndexed declarations.now table.new.keys table.new.places.items Others (length declarations.now)) }
    ensures refused { IfErr result (spec.IsDuplicate declarations.now) }
{
    add_pass(alloc, declarations, Pass::Symbols, table)?;
    add_pass(alloc, declarations, Pass::Others, table)
}

// Adds the declarations of a pass.
fn add_pass(
    alloc: Global,
    declarations: &[Declaration],
    pass: Pass,
    table: &mut Table,
) -> Result<(), NameRefusal>
    requires { indexed.IsIndexed declarations.now table.old.keys table.old.places.items pass 0 }
    ensures ok { OnOk result (indexed.IsIndexed declarations.now table.new.keys table.new.places.items pass (length declarations.now)) }
    ensures refused { IfErr result (spec.IsDuplicate declarations.now) }
{
    'places: for place in 0..declarations.len() {
        add_at(alloc, declarations, pass, place, table)?;
    }
    Ok(())
}

// Adds the declaration at a place, where the pass is over it and it counts.
fn add_at(
    alloc: Global,
    declarations: &[Declaration],
    pass: Pass,
    place: usize,
    table: &mut Table,
) -> Result<(), NameRefusal>
    requires within { place < length declarations.now }
    requires indexed { indexed.IsIndexed declarations.now table.old.keys table.old.places.items pass place }
    ensures ok { OnOk result (indexed.IsIndexed declarations.now table.new.keys table.new.places.items pass (place + 1)) }
    ensures refused { IfErr result (spec.IsDuplicate declarations.now) }
{
    let declaration = &declarations[place];
    if !is_in(pass, declaration) {
        return Ok(());
    }
    if !counts(alloc, declarations, declaration, table)? {
        return Ok(());
    }
    match table.add_key(alloc, declaration, place)? {
        None => Ok(()),
        Some(_) => Err(duplicate(declaration)),
    }
}

// Whether a pass is over a declaration.
fn is_in(pass: Pass, declaration: &Declaration) -> bool
    ensures { IsTrue result ↔ spec.IsIn pass declaration.now }
{
    match pass {
        Pass::Symbols => is_symbol(declaration),
        Pass::Others => !is_symbol(declaration),
    }
}

// Whether it is that of a symbol.
fn is_symbol(declaration: &Declaration) -> bool
    ensures { result ≡ indexed.is_symbol declaration.now }
{
    match declaration {
        Declaration::Symbol { .. } => true,
        _ => false,
    }
}

// Whether a declaration counts.
fn counts(
    alloc: Global,
    declarations: &[Declaration],
    declaration: &Declaration,
    table: &Table,
) -> Result<bool, AllocError>
    requires { indexed.is_symbol declaration.now ≡ false → spec.KnowsSymbols declarations.now table.now.keys table.now.places.items }
    ensures { IfOk result (λ counts. IsTrue counts ↔ Counts declarations.now declaration.now) }
{
    match declaration {
        Declaration::Label { production, .. } => {
            is_production(alloc, declarations, production.as_slice(), table)
        }
        _ => Ok(true),
    }
}

// Whether a name is declared as a production.
fn is_production(
    alloc: Global,
    declarations: &[Declaration],
    name: &[u8],
    table: &Table,
) -> Result<bool, AllocError>
    requires { spec.KnowsSymbols declarations.now table.now.keys table.now.places.items }
    ensures { IfOk result (λ is. IsTrue is ↔ IsSymbol declarations.now name.now sort.Production) }
{
    let key = key(alloc, SYMBOL, name)?;
    match table.place(&key) {
        None => Ok(false),
        Some(place) => Ok(is_production_at(declarations, place)),
    }
}

// Whether the declaration at a place is a production's.
fn is_production_at(declarations: &[Declaration], place: usize) -> bool
    ensures { IsTrue result ↔ spec.IsProductionAt declarations.now place }
{
    if place >= declarations.len() {
        return false;
    }
    match &declarations[place] {
        Declaration::Symbol { sort, .. } => match sort {
            Sort::Production => true,
            _ => false,
        },
        _ => false,
    }
}

// That a declaration is there already.
fn duplicate(declaration: &Declaration) -> NameRefusal
    ensures { spec.IsRefusedAs declaration.now result }
{
    match shown_name(declaration).copy() {
        Ok(name) => NameRefusal::Duplicate(name),
        Err(error) => NameRefusal::NoMemory(error),
    }
}

// The name by which a second declaration is shown.
fn shown_name(declaration: &Declaration) -> &Bytes
    ensures { result.now ≡ shown declaration.now }
{
    match declaration {
        Declaration::Symbol { name, .. } => name,
        Declaration::Attribute { name, .. } => name,
        Declaration::Occurrence { attribute, .. } => attribute,
        Declaration::Left { production, .. } => production,
        Declaration::Label { label, .. } => label,
        Declaration::Equation { attribute, .. } => attribute,
        Declaration::Forward(production) => production,
        Declaration::Start(name) => name,
        Declaration::Extensible(name) => name,
        Declaration::Closed(name) => name,
        Declaration::ForwardNeeds(name) => name,
        Declaration::Preference { first, .. } => first,
    }
}
