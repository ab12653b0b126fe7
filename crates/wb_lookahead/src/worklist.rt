//! Which sets grew and are still to be passed on? A worklist with a mark for each place, so that each waits once.
//!
//! Places of the kernel that was taken last come first, since its sets are then at hand. `propagate.rt` passes on.

ghost use Rattle.std.specs.Prelude.{◌≡◌, ◌⊎◌, ◌++◌, ◌∷◌, [], IsTrue, ◌↔◌, MatchOption, IfOk, OnErr, OnOk, slice_index_or, slice_set, false, replicate};
ghost use Rattle.wb_items.specs.Kernels.{count_of};
ghost use Rattle.wb_lookahead.specs.Inner.Waiting.{Adds, IsMarked, MarksChange};

use std::alloc::{AllocError, Global};
use std::collections::VecDeque;
use std::marker::Model;
use wb_base::push;
use wb_items::{Item, Kernels};

// An item of a kernel's closure, and its place there.
#[derive(Clone, Copy, Drop)]
pub(crate) struct Place {
    pub(crate) state: usize,
    pub(crate) item: Item,
    pub(crate) at: usize,
}

// A mark for each place of a closure.
#[derive(Drop)]
pub(crate) struct Marks {
    marks: Vec<bool>,
}

impl Model for Marks {
    ghost use Rattle.std.specs.Prelude.{List, Bool};

    ghost Value = { List Bool };

    ghost view = { λ m. m.marks.items };
}

impl Marks {
    // No mark at so many places.
    fn new(alloc: Global, count: usize) -> Result<Marks, AllocError>
        ensures { IfOk result (λ marks. marks ≡ replicate count false) }
    {
        let marks = vec![in alloc; false; count]?;
        Ok(Marks { marks })
    }

    // Whether the place has a mark.
    fn at(&self, place: usize) -> bool
        ensures { result ≡ slice_index_or self.now place false }
    {
        if place < self.marks.len() {
            self.marks[place]
        } else {
            false
        }
    }

    // Puts a mark at a place, or takes it away.
    fn put(&mut self, place: usize, mark: bool)
        ensures { self.new ≡ slice_set self.old place mark }
    {
        if place < self.marks.len() {
            self.marks[place] = mark;
        }
    }
}

// The places that wait, the kernel of the one that was taken last, and the places to which terminals spread last.
#[derive(Drop)]
pub(crate) struct Worklist {
    state: usize,
    queue: VecDeque<Place>,
    marks: Vec<Marks>,
    initial: usize,
    moved: usize,
}

impl Model for Worklist {
    ghost use Rattle.std.specs.Prelude.{List};
    ghost use Rattle.wb_lookahead.specs.declared.worklist.Place.{Place};
    ghost use Rattle.wb_lookahead.specs.Inner.Waiting.{AreMarked};

    ghost Value = { List Place };

    ghost view = { λ w. w.queue.items };

    ghost invariant = { λ w. AreMarked w.queue.items w.marks.items };
}

impl Worklist {
    // Nothing waits, of so many kernels.
    pub(crate) fn new(
        alloc: Global,
        kernels: &Kernels,
        count: usize,
    ) -> Result<Worklist, AllocError>
        requires { count ≡ count_of kernels.now }
        ensures { IfOk result (λ worklist. worklist ≡ []) }
    {
        let mut marks = Vec::new(alloc);
        'states: for state in 0..count {
            push(&mut marks, Marks::new(alloc, kernels.closure(state).len())?)?;
        }
        Ok(Worklist {
            state: 0,
            queue: VecDeque::new(alloc),
            marks,
            initial: 0,
            moved: 0,
        })
    }

    // Where an item may be: terminals mostly spread to one initial item again, and to items in turn that moved over one symbol.
    pub(crate) fn near(&self, item: Item) -> usize {
        if item.dot == 0 {
            self.initial
        } else {
            self.moved
        }
    }

    // Notes the place to which terminals spread.
    pub(crate) fn note(&mut self, item: Item, at: usize)
        ensures { self.new ≡ self.old }
    {
        if item.dot == 0 {
            self.initial = at;
        } else {
            self.moved = at.saturating_add(1);
        }
    }

    // Puts a place before the others or after them, unless one with its numbers waits.
    pub(crate) fn add(&mut self, place: Place) -> Result<(), AllocError>
        ensures { OnOk result (Adds self.old place self.new) }
    {
        if is_marked(&self.marks, place.state, place.at) {
            return Ok(());
        }
        put_place(&mut self.queue, place.state == self.state, place)?;
        put_mark(&mut self.marks, place.state, place.at, true);
        Ok(())
    }

    // Takes the first place.
    pub(crate) fn pop(&mut self) -> Option<Place>
        ensures { MatchOption result (self.old ≡ []) (λ place. self.old ≡ place ∷ self.new) }
    {
        let Some(place) = self.queue.pop_front() else {
            return None;
        };
        put_mark(&mut self.marks, place.state, place.at, false);
        self.state = place.state;
        Some(place)
    }
}

// Puts a place before the others or after them.
fn put_place(queue: &mut VecDeque<Place>, in_front: bool, place: Place) -> Result<(), AllocError>
    ensures ok { OnOk result ((queue.new.items ≡ place ∷ queue.old.items) ⊎ (queue.new.items ≡ queue.old.items ++ place ∷ [])) }
    ensures err { OnErr result (queue.new.items ≡ queue.old.items) }
{
    if in_front {
        queue.push_front(place)?;
    } else {
        queue.push_back(place)?;
    }
    Ok(())
}

// Whether the place of the kernel has a mark.
fn is_marked(marks: &[Marks], state: usize, at: usize) -> bool
    ensures { IsTrue result ↔ IsMarked marks.now state at }
{
    if state < marks.len() {
        marks[state].at(at)
    } else {
        false
    }
}

// Puts a mark at the place of the kernel, or takes it away.
fn put_mark(marks: &mut Vec<Marks>, state: usize, at: usize, mark: bool)
    ensures { MarksChange marks.old.items state at mark marks.new.items }
{
    if state < marks.len() {
        marks[state].put(at, mark);
    }
}
