//! Which attributes occur on a nonterminal?
//!
//! Occurrences are listed in any order, and each production asks for those on a few nonterminals; so their numbers are kept by nonterminal.

ghost use Rattle.std.specs.Prelude.{◌≡◌, ◌⊎◌, ◌↔◌, ◌<◌, ℕ, Some, Contains, IfOk, OnOk, IsTrue, [], length, slice_get, slice_index_or};
ghost use Rattle.wb_flow_theory.specs.Occurrences.{Goes, Needs, ForwardNeeds};
ghost use Rattle.wb_flow.specs.Occurrences.{IsNumberOn, IsIndexOf};
ghost use Rattle.wb_syntax_resolved.specs.declared.attributes.Direction.TheVariants.{Synthesized, Inherited};
ghost use Rattle.wb_syntax_resolved.specs.Attribution.{IsAttribution};

use indexmap::IndexSet;
use std::alloc::{AllocError, Global};
use std::marker::Model;
use wb_base::push;
use wb_syntax_resolved::{AttributionParts, Direction, Occurrence};

/// The numbers of occurrences by the nonterminal that they are on.
pub struct OccurrenceIndex {
    rows: Vec<Vec<usize>>,
    // The attribute and the nonterminal of each occurrence, in the order of their numbers. A place that is found here is tested where it is
    // used.
    keys: IndexSet<(usize, usize)>,
}

impl Model for OccurrenceIndex {
    ghost use Rattle.std.specs.Prelude.{List, ℕ, map};

    ghost Value = { List (List ℕ) };

    ghost view = { λ index. map (λ row. row.items) index.rows.items };
}

impl OccurrenceIndex {
    /// The index of these occurrences.
    pub fn new(alloc: Global, attributes: &AttributionParts) -> Result<OccurrenceIndex, AllocError>
        requires { IsAttribution attributes.now }
        ensures { IfOk result (IsIndexOf attributes.now.occurrences) }
    {
        let mut index = rows_of(alloc, attributes)?;
        index.add_keys(attributes.occurrences.as_slice())?;
        Ok(index)
    }

    /// The numbers of the occurrences on a nonterminal, in any order.
    pub fn on(&self, nonterminal: usize) -> &[usize]
        ensures { result.now ≡ slice_index_or self.now nonterminal [] }
    {
        if nonterminal < self.rows.len() {
            &self.rows[nonterminal]
        } else {
            &[]
        }
    }

    // Adds the number of an occurrence on a nonterminal.
    fn add(&mut self, nonterminal: usize, number: usize) -> Result<(), AllocError>
        requires { nonterminal < length self.old }
        ensures len { length self.new ≡ length self.old }
        ensures ok { OnOk result ((m k : ℕ) → Contains (slice_index_or self.new m []) k ↔ (Contains (slice_index_or self.old m []) k ⊎ ((m ≡ nonterminal) × (k ≡ number)))) }
    {
        push(&mut self.rows[nonterminal], number)
    }

    // Adds what finds the numbers of these occurrences.
    fn add_keys(&mut self, occurrences: &[Occurrence]) -> Result<(), AllocError>
        ensures { OnOk result (self.new ≡ self.old) }
    {
        'occurrences: for occurrence in occurrences {
            self.keys
                .insert_full((occurrence.attribute, occurrence.nonterminal))?;
        }
        Ok(())
    }

    // What is likely the number of the occurrence of an attribute on a nonterminal.
    fn likely(&self, attribute: usize, nonterminal: usize) -> Option<usize> {
        self.keys.get_index_of(&(attribute, nonterminal))
    }
}

impl Drop for OccurrenceIndex {
    fn drop(self) {
        let OccurrenceIndex { rows, keys } = self;
        drop(rows);
        drop(keys);
    }
}

// The index of these occurrences without what finds their numbers.
fn rows_of(alloc: Global, attributes: &AttributionParts) -> Result<OccurrenceIndex, AllocError>
    requires { IsAttribution attributes.now }
    ensures { IfOk result (IsIndexOf attributes.now.occurrences) }
{
    let mut index = empty_index(alloc, attributes.nonterminals.len())?;
    let occurrences = attributes.occurrences.as_slice();
    'occurrences: for number in 0..occurrences.len() {
        index.add(occurrences[number].nonterminal, number)?;
    }
    Ok(index)
}

// An index of no occurrences, with so many rows.
fn empty_index(alloc: Global, count: usize) -> Result<OccurrenceIndex, AllocError>
    ensures { IfOk result (λ index. (length index ≡ count) × ((m k : ℕ) → ¬ Contains (slice_index_or index m []) k)) }
{
    let mut rows = Vec::new(alloc);
    'rows: for _ in 0..count {
        push(&mut rows, Vec::new(alloc))?;
    }
    Ok(OccurrenceIndex {
        rows,
        keys: IndexSet::new(alloc),
    })
}

/// An attribution with the index of its occurrences.
#[derive(Clone, Copy)]
pub struct Scope<'a> {
    /// The attribution.
    pub attributes: &'a AttributionParts,
    /// The index of its occurrences.
    pub index: &'a OccurrenceIndex,
}

impl<'a> Scope<'a> {
    /// The occurrence of a number.
    pub fn occurrence(&self, number: usize) -> &'a Occurrence
        requires { number < length self.now.attributes.now.occurrences }
        ensures { slice_get self.now.attributes.now.occurrences number ≡ Some result.now }
    {
        &self.attributes.occurrences.as_slice()[number]
    }

    /// Whether the values of an attribute go up.
    pub fn is_synthesized(&self, attribute: usize) -> bool
        ensures { IsTrue result ↔ Goes self.now.attributes.now Synthesized attribute }
    {
        let attributes = self.attributes.attributes.as_slice();
        attribute < attributes.len()
            && matches!(attributes[attribute].direction, Direction::Synthesized)
    }

    /// Whether the values of an attribute go down.
    pub fn is_inherited(&self, attribute: usize) -> bool
        ensures { IsTrue result ↔ Goes self.now.attributes.now Inherited attribute }
    {
        let attributes = self.attributes.attributes.as_slice();
        attribute < attributes.len()
            && matches!(attributes[attribute].direction, Direction::Inherited)
    }

    /// The flow type of an attribute on a nonterminal, and nothing where it doesn't occur there. Takes time linear in the occurrences on
    /// the nonterminal where it doesn't, and constant time where it does; no clause bounds it.
    pub fn needs(&self, attribute: usize, nonterminal: usize) -> &'a [usize]
        requires attribution { IsAttribution self.now.attributes.now }
        requires index { IsIndexOf self.now.attributes.now.occurrences self.now.index.now }
        ensures { (i : ℕ) → Contains result.now i ↔ Needs self.now.attributes.now attribute nonterminal i }
    {
        let Some(number) = self.index.likely(attribute, nonterminal) else {
            return self.listed_needs(attribute, nonterminal);
        };
        if number >= self.attributes.occurrences.len() {
            return self.listed_needs(attribute, nonterminal);
        }
        let occurrence = self.occurrence(number);
        if !is_of(occurrence, attribute, nonterminal) {
            return self.listed_needs(attribute, nonterminal);
        }
        occurrence.needs.as_slice()
    }

    // Like `needs`, by all occurrences on the nonterminal.
    fn listed_needs(&self, attribute: usize, nonterminal: usize) -> &'a [usize]
        requires attribution { IsAttribution self.now.attributes.now }
        requires index { IsIndexOf self.now.attributes.now.occurrences self.now.index.now }
        ensures { (i : ℕ) → Contains result.now i ↔ Needs self.now.attributes.now attribute nonterminal i }
    {
        'occurrences: for &number in self.index.on(nonterminal) {
            let occurrence = self.occurrence(number);
            if occurrence.attribute == attribute {
                return occurrence.needs.as_slice();
            }
        }
        &[]
    }

    /// The flow type of the forward of a nonterminal.
    pub fn forward_needs(&self, nonterminal: usize) -> &'a [usize]
        ensures { (i : ℕ) → Contains result.now i ↔ ForwardNeeds self.now.attributes.now nonterminal i }
    {
        let nonterminals = self.attributes.nonterminals.as_slice();
        if nonterminal < nonterminals.len() {
            nonterminals[nonterminal].forward_needs.as_slice()
        } else {
            &[]
        }
    }
}

// Whether an occurrence is that of an attribute on a nonterminal.
fn is_of(occurrence: &Occurrence, attribute: usize, nonterminal: usize) -> bool
    ensures { IsTrue result ↔ ((occurrence.now.attribute ≡ attribute) × (occurrence.now.nonterminal ≡ nonterminal)) }
{
    occurrence.attribute == attribute && occurrence.nonterminal == nonterminal
}
