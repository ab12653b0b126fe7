//! States as sets of positions, each set once, and from where each was found.
//!
//! A map from sets to numbers makes it fast. Where bytes lead is in `transition`.

ghost use Rattle.std.specs.Prelude.{◌≡◌, ◌<◌, [], Contains, IfOk, IfSome, IsNone, Some, length, slice_get};
ghost use Rattle.wb_base.specs.Different.{Differ};
ghost use Rattle.wb_automata.specs.Automata.{Path};
ghost use Rattle.wb_automata.specs.Inner.Found.{IsPlaced, IsTo};
ghost use Rattle.wb_automata.specs.Paths.{path_by, paths_of};

use crate::predecessor::Predecessor;
use indexmap::IndexSet;
use std::alloc::{AllocError, Global};
use std::marker::Model;
use wb_base::push;

// The states that were found, and from where.
#[derive(Drop)]
pub(crate) struct States {
    alloc: Global,
    sets: IndexSet<Vec<usize>>,
    predecessors: Vec<Predecessor>,
}

impl Model for States {
    ghost use Rattle.std.specs.Prelude.{map};
    ghost use Rattle.wb_base.specs.Different.{Differ};
    ghost use Rattle.wb_automata.specs.Inner.Found.{Found};
    ghost use Rattle.wb_automata.specs.Paths.{paths_of};

    ghost Value = { Found };

    ghost view = { λ s. record { sets = map (λ set. set.items) s.sets.keys; paths = paths_of s.predecessors.items } };

    ghost invariant = { λ s. Differ (map (λ set. set.items) s.sets.keys) };
}

impl States {
    pub(crate) fn new(alloc: Global) -> States
        ensures sets { result.sets ≡ [] }
        ensures paths { result.paths ≡ [] }
    {
        States {
            alloc,
            sets: IndexSet::new(alloc),
            predecessors: Vec::new(alloc),
        }
    }

    pub(crate) fn len(&self) -> usize
        ensures count { result ≡ length self.now.sets }
        ensures different { Differ self.now.sets }
    {
        self.sets.len()
    }

    // The places of a state.
    pub(crate) fn at(&self, i: usize) -> &[usize]
        requires { i < length self.now.sets }
        ensures { slice_get self.now.sets i ≡ Some result.now }
    {
        self.sets.get_index(i).unwrap()
    }

    // The number of a state, which is added if it is new.
    pub(crate) fn place_of(
        &mut self,
        places: &[usize],
        predecessor: Predecessor,
    ) -> Result<usize, AllocError>
        ensures { IfOk result (λ i. IsPlaced self.old places.now (path_by self.old.paths predecessor) self.new i) }
    {
        if let Some(state) = self.find(places) {
            return Ok(state);
        }
        self.add(places, predecessor)
    }

    // The number of the state with these places.
    fn find(&self, places: &[usize]) -> Option<usize>
        ensures some { IfSome result (λ i. slice_get self.now.sets i ≡ Some places.now) }
        ensures none { IsNone result → ¬ Contains self.now.sets places.now }
    {
        self.sets.get_index_of(places)
    }

    // Adds a state with these places, which no other has.
    fn add(&mut self, places: &[usize], predecessor: Predecessor) -> Result<usize, AllocError>
        requires { ¬ Contains self.old.sets places.now }
        ensures { IfOk result (λ i. IsPlaced self.old places.now (path_by self.old.paths predecessor) self.new i) }
    {
        let state = self.sets.len();
        let set = Vec::from_slice(self.alloc, places)?;
        push(&mut self.predecessors, predecessor)?;
        self.sets.insert_full(set)?;
        Ok(state)
    }

    // The state with these places, which is added if it is new, and None where there are none.
    pub(crate) fn move_to(
        &mut self,
        places: &[usize],
        predecessor: Predecessor,
    ) -> Result<Option<usize>, AllocError>
        ensures { IfOk result (IsTo self.old places.now (path_by self.old.paths predecessor) self.new) }
    {
        if places.len() == 0 {
            return Ok(None);
        }
        let state = self.place_of(places, predecessor)?;
        Ok(Some(state))
    }

    // The set from whose start the state was found.
    pub(crate) fn set_of(&self, i: usize) -> usize
        requires { i < length self.now.paths }
        ensures { (path : Path) → slice_get self.now.paths i ≡ Some path → result ≡ path.set }
    {
        self.predecessors[i].set
    }

    // Where each state was found from.
    pub(crate) fn into_predecessors(self) -> Vec<Predecessor>
        ensures { paths_of result.items ≡ self.paths }
    {
        self.predecessors
    }
}
