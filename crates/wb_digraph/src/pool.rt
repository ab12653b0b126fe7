//! Which sets are there? Each has a number and never changes. A union that was found shortly before is found again by the numbers of its
//! parts, and a set that is equal to one that was found shortly before has the number of that.
//!
//! Nothing is promised of which are remembered.

ghost use Rattle.std.specs.Prelude.{◌≡◌, ◌<◌, ◌∷◌, [], All, IfOk, IfSome, IsTrue, OnOk, false, length, replicate, slice_index_or};
ghost use Rattle.wb_digraph.specs.declared.pool.Union.{Union};
ghost use Rattle.wb_digraph.specs.Inner.Pools.{AreNumbers, Extends, HasMembersOf, HaveWidth, IsUnionOf, set_at};

use std::alloc::{AllocError, Global};
use std::marker::Model;
use wb_base::push;
use wb_termset::TermSet;

// How many unions are remembered, and how many sets.
const REMEMBERED: usize = 4093;

// The numbers of some sets, and that of their union.
#[derive(Drop)]
pub(crate) struct Union {
    parts: Vec<usize>,
    whole: usize,
}

// Sets of numbers below one count, with what is remembered of them. Contracts see the list of the sets.
pub(crate) struct Pool {
    sets: Vec<TermSet>,
    unions: Vec<Union>,
    alike: Vec<usize>,
}

impl Model for Pool {
    ghost use Rattle.std.specs.Prelude.{List, Bool};
    ghost use Rattle.wb_digraph.specs.Inner.Pools.{IsPool};

    ghost Value = { List (List Bool) };

    ghost view = { λ p. p.sets.items };

    ghost invariant = { λ p. IsPool p.sets.items p.unions.items };
}

impl Pool {
    // The empty set of numbers below the count, which has the number 0.
    pub(crate) fn new(alloc: Global, count: usize) -> Result<Pool, AllocError>
        ensures { IfOk result (λ pool. pool ≡ replicate count false ∷ []) }
    {
        let mut sets = Vec::new(alloc);
        push(&mut sets, TermSet::new(alloc, count)?)?;
        let unions = no_unions(alloc)?;
        let alike = vec![in alloc; 0; REMEMBERED]?;
        Ok(Pool {
            sets,
            unions,
            alike,
        })
    }

    // The set of a number.
    pub(crate) fn get(&self, number: usize) -> &TermSet
        requires { number < length self.now }
        ensures { result.now ≡ set_at self.now number }
    {
        &self.sets[number]
    }

    // The sets.
    pub(crate) fn into_sets(self) -> Vec<TermSet>
        ensures sets { result.items ≡ self }
        ensures widths { HaveWidth (length (set_at self 0)) self }
    {
        let Pool {
            sets,
            unions,
            alike,
        } = self;
        drop(unions);
        drop(alike);
        sets
    }

    // The number of a set, which is remembered at a place that the choice says.
    pub(crate) fn number_for(&mut self, choice: usize, set: TermSet) -> Result<usize, AllocError>
        requires { length set ≡ length (set_at self.old 0) }
        ensures extends { OnOk result (Extends self.old self.new) }
        ensures below { IfOk result (λ number. number < length self.new) }
        ensures is { IfOk result (λ number. set_at self.new number ≡ set) }
    {
        let place = choice % REMEMBERED;
        if place >= self.alike.len() {
            return self.add(set);
        }
        let number = self.alike[place];
        if self.is_at(number, &set) {
            drop(set);
            return Ok(number);
        }
        self.alike[place] = self.sets.len();
        self.add(set)
    }

    // Whether the set has this number.
    fn is_at(&self, number: usize, set: &TermSet) -> bool
        requires { length set.now ≡ length (set_at self.now 0) }
        ensures { IsTrue result → (number < length self.now) × (set_at self.now number ≡ set.now) }
    {
        if number >= self.sets.len() {
            return false;
        }
        self.sets[number].equals(set)
    }

    // Adds a set.
    fn add(&mut self, set: TermSet) -> Result<usize, AllocError>
        requires { length set ≡ length (set_at self.old 0) }
        ensures extends { OnOk result (Extends self.old self.new) }
        ensures below { IfOk result (λ number. number < length self.new) }
        ensures is { IfOk result (λ number. set_at self.new number ≡ set) }
    {
        let number = self.sets.len();
        push(&mut self.sets, set)?;
        Ok(number)
    }

    // The number of the union of sets.
    pub(crate) fn union_of(&mut self, alloc: Global, parts: &[usize]) -> Result<usize, AllocError>
        requires { AreNumbers self.old parts.now }
        ensures extends { OnOk result (Extends self.old self.new) }
        ensures union { IfOk result (λ whole. IsUnionOf self.new parts.now whole) }
    {
        if parts.len() == 1 {
            return Ok(parts[0]);
        }
        let place = place_for(parts);
        if let Some(whole) = self.known(place, parts) {
            return Ok(whole);
        }
        let set = self.united(parts)?;
        let whole = self.number_for(self.choice_for(parts), set)?;
        self.remember(alloc, place, parts, whole)?;
        Ok(whole)
    }

    // The number of a union, if it is remembered.
    fn known(&self, place: usize, parts: &[usize]) -> Option<usize>
        ensures { IfSome result (λ whole. IsUnionOf self.now parts.now whole) }
    {
        if place >= self.unions.len() {
            return None;
        }
        if !are_same(&self.unions[place].parts, parts) {
            return None;
        }
        Some(self.unions[place].whole)
    }

    // The union of sets.
    fn united(&self, parts: &[usize]) -> Result<TermSet, AllocError>
        requires { AreNumbers self.now parts.now }
        ensures width { IfOk result (λ set. length set ≡ length (set_at self.now 0)) }
        ensures members { IfOk result (HasMembersOf self.now parts.now) }
    {
        let mut set = self.sets[0].copy()?;
        'parts: for &part in parts {
            set.union_with(&self.sets[part]);
        }
        Ok(set)
    }

    // A place that depends on the least members of sets.
    fn choice_for(&self, parts: &[usize]) -> usize
        requires { AreNumbers self.now parts.now }
    {
        let mut choice = 0usize;
        'parts: for &part in parts {
            choice = choice
                .wrapping_mul(31)
                .wrapping_add(first(&self.sets[part]));
        }
        choice
    }

    // Remembers a union at a place.
    fn remember(
        &mut self,
        alloc: Global,
        place: usize,
        parts: &[usize],
        whole: usize,
    ) -> Result<(), AllocError>
        requires { IsUnionOf self.old parts.now whole }
        ensures { OnOk result (self.new ≡ self.old) }
    {
        if place >= self.unions.len() {
            return Ok(());
        }
        let union = union_with(alloc, parts, whole)?;
        self.unions[place] = union;
        Ok(())
    }
}

impl Drop for Pool {
    fn drop(self) {
        let Pool {
            sets,
            unions,
            alike,
        } = self;
        drop(sets);
        drop(unions);
        drop(alike);
    }
}

// As many unions of no sets as are remembered.
fn no_unions(alloc: Global) -> Result<Vec<Union>, AllocError>
    ensures { IfOk result (λ unions. All (λ (union : Union). (union.parts.items ≡ []) × (union.whole ≡ 0)) unions.items) }
{
    let mut unions = Vec::with_capacity(alloc, REMEMBERED)?;
    'unions: for _union in 0..REMEMBERED {
        push(
            &mut unions,
            Union {
                parts: Vec::new(alloc),
                whole: 0,
            },
        )?;
    }
    Ok(unions)
}

// A union with these numbers.
fn union_with(alloc: Global, parts: &[usize], whole: usize) -> Result<Union, AllocError>
    ensures parts { IfOk result (λ union. union.parts.items ≡ parts.now) }
    ensures whole { IfOk result (λ union. union.whole ≡ whole) }
{
    let mut copy = Vec::new(alloc);
    copy.extend_from_slice(parts)?;
    Ok(Union { parts: copy, whole })
}

// The place at which a union is remembered.
fn place_for(parts: &[usize]) -> usize {
    let mut place = 0usize;
    'parts: for &part in parts {
        place = place.wrapping_mul(1_000_003).wrapping_add(part);
    }
    place % REMEMBERED
}

// Whether the numbers are the same.
fn are_same(one: &[usize], other: &[usize]) -> bool
    ensures { IsTrue result → one.now ≡ other.now }
{
    one == other
}

// The least member, or the count where there is none.
pub(crate) fn first(set: &TermSet) -> usize {
    match set.next_member(0) {
        Some(member) => member,
        None => set.count(),
    }
}
