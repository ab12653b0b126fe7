//! Which kernels do the lines of a certificate stand for, and is each line good?

ghost use Rattle.std.specs.Prelude.{◌≡◌, ◌<◌, ◌≤◌, ◌++◌, ◌∷◌, [], ℕ, List, IfOk, IfErr, OnOk, MatchOption, Some, Contains, length, slice_get};
ghost use Rattle.wb_items.specs.Kernels.{AreKernels, count_of, prefix_of};
ghost use Rattle.wb_recheck_theory.specs.declared.line.Line.{Line};
ghost use Rattle.wb_recheck_theory.specs.Lines.{AreGoodLines, IsGoodLine};
ghost use Rattle.wb_recheck_lines.specs.Faults.{IsLineRefusal};
ghost use Rattle.wb_recheck_lines.specs.Inner.Walks.{AreStatesUpTo, IsNextLine};
ghost use Rattle.wb_recheck_lines.specs.States.{AreStatesOf, HasPlace};

use crate::LineRefusal;
use std::alloc::{AllocError, Global};
use std::marker::Model;
use wb_base::push;
use wb_items::Kernels;
use wb_recheck_theory::Line;

/// The kernels for which the lines of a certificate stand, by their numbers in `Kernels`, in the order of the lines.
pub struct LineStates {
    states: Vec<usize>,
    places: Vec<Option<usize>>,
}

impl Model for LineStates {
    ghost use Rattle.std.specs.Prelude.{length};
    ghost use Rattle.wb_recheck_lines.specs.States.{ArePlaces, StatesView};

    ghost Value = { StatesView };

    ghost view = { λ s. record { states = s.states.items; count = length s.places.items } };

    ghost invariant = { λ s. ArePlaces s.states.items s.places.items };
}

impl LineStates {
    /// The first kernel alone, of so many.
    pub fn new(alloc: Global, count: usize) -> Result<LineStates, AllocError>
        requires { 0 < count }
        ensures { IfOk result (λ made. made ≡ record { states = 0 ∷ []; count = count }) }
    {
        let mut places = vec![in alloc; None; count]?;
        places[0] = Some(0);
        let mut states = Vec::new(alloc);
        push(&mut states, 0)?;
        Ok(LineStates { states, places })
    }

    /// How many kernels there are: one more than lines.
    pub fn len(&self) -> usize
        ensures { result ≡ length self.now.states }
    {
        self.states.len()
    }

    /// The number of the kernel at a place.
    pub fn state(&self, place: usize) -> usize
        requires { place < length self.now.states }
        ensures { slice_get self.now.states place ≡ Some result }
    {
        self.states[place]
    }

    /// The place of the kernel with a number.
    #[tactic(auto, using(crate::proofs::PlaceLemmas::has_place, crate::proofs::PlaceLemmas::has_no_place, crate::proofs::PlaceLemmas::has_none_past))]
    pub fn place(&self, state: usize) -> Option<usize>
        ensures { HasPlace self.now.states state result }
    {
        if state < self.places.len() {
            self.places[state]
        } else {
            None
        }
    }

    /// Puts the number of a kernel that isn't there at the end.
    pub fn add(&mut self, state: usize) -> Result<(), AllocError>
        requires below { state < self.old.count }
        requires new { ¬ Contains self.old.states state }
        ensures { OnOk result (self.new ≡ record { states = self.old.states ++ state ∷ []; count = self.old.count }) }
    {
        let place = self.states.len();
        self.states.reserve(1)?;
        self.states.push_reserved(state);
        self.places[state] = Some(place);
        Ok(())
    }
}

impl Drop for LineStates {
    fn drop(self) {
        let LineStates { states, places } = self;
        drop(states);
        drop(places);
    }
}

/// The kernels for which the lines stand, where each line is good, or the place of the first that isn't.
///
/// It takes time in the lines and, for each, that of a search among the moves of a kernel.
pub fn states_of_lines(
    alloc: Global,
    kernels: &Kernels,
    lines: &[Line],
) -> Result<LineStates, LineRefusal>
    requires { AreKernels kernels.now }
    ensures good { IfOk result (λ found. AreGoodLines kernels.now.grammar lines.now) }
    ensures states { IfOk result (λ found. AreStatesOf kernels.now lines.now found.states) }
    ensures count { IfOk result (λ found. found.count ≡ count_of kernels.now) }
    ensures refused { IfErr result (IsLineRefusal kernels.now.grammar lines.now) }
{
    let mut found = LineStates::new(alloc, kernels.count())?;
    'lines: for place in 0..lines.len() {
        match next_state(kernels, &found, line_at(lines, place)) {
            None => return Err(LineRefusal::Wrong(place)),
            Some(state) => found.add(state)?,
        }
    }
    Ok(found)
}

// The number of the kernel to which a line leads, if it is good after those for which these kernels stand.
#[tactic(auto, using(crate::proofs::LineStateLemmas::next_none_from))]
fn next_state(kernels: &Kernels, found: &LineStates, line: Line) -> Option<usize>
    requires kernels { AreKernels kernels.now }
    requires below { (k s : ℕ) → slice_get found.now.states k ≡ Some s → s < count_of kernels.now }
    ensures { IsNextLine kernels.now found.now.states line result }
{
    if line.from >= found.len() {
        return None;
    }
    let next = kernels.next(found.state(line.from), line.symbol)?;
    match found.place(next) {
        None => Some(next),
        Some(_) => None,
    }
}

// The line at a place.
fn line_at(lines: &[Line], place: usize) -> Line
    requires { place < length lines.now }
    ensures { slice_get lines.now place ≡ Some result }
{
    lines[place]
}
