//! Which value has a handle? One place is looked at, and its generation is compared.
//!
//! A place whose value was let go is taken again with the next generation, as long as there is one.

ghost use Rattle.std.specs.Prelude.{◌≡◌, ◌<◌, ◌≤◌, [], None, Some, IfOk, IfSome, IfNone, OnErr, MatchOption, length, slice_get};
ghost use Rattle.wb_library_handles.specs.Handles.{AreOthersKept, AreSpentKept, IsAt, IsNamed, IsSpent, NamesNone};
ghost use Rattle.wb_library_handles.specs.Inner.Free.{IsFree};

use crate::AddRefusal;
use crate::handle::Handle;
use crate::slot::Slot;
use std::alloc::Global;

// The most places of a table.
const PLACES: usize = 65_536;

/// Values by handles.
#[derive(Drop)]
pub struct Handles<T: Drop> {
    pub slots: Vec<Slot<T>>,
}

impl<T: Drop> Handles<T> {
    /// No values yet.
    pub fn new(alloc: Global) -> Handles<T>
        ensures { result.slots.items ≡ [] }
    {
        Handles {
            slots: Vec::new(alloc),
        }
    }

    /// The value of a handle.
    pub fn get(&self, handle: Handle) -> Option<&T>
        ensures { MatchOption result (NamesNone self.now.slots.items handle) (λ value. IsNamed self.now.slots.items handle value.now) }
    {
        let place = handle.place as usize;
        if place >= self.slots.len() {
            return None;
        }
        let slot = &self.slots[place];
        if slot.is_spent || slot.generation != handle.generation {
            return None;
        }
        slot.value.as_ref()
    }

    /// Adds a value, and answers its handle. A value that isn't added is dropped. Takes time in the places that are taken.
    pub fn add(&mut self, value: T) -> Result<Handle, AddRefusal>
        ensures named { IfOk result (λ handle. IsNamed self.new.slots.items handle value) }
        ensures new { IfOk result (λ handle. NamesNone self.old.slots.items handle) }
        ensures others { IfOk result (λ handle. AreOthersKept self.old.slots.items self.new.slots.items handle) }
        ensures spent { AreSpentKept self.old.slots.items self.new.slots.items }
        ensures err { OnErr result (self.new.slots.items ≡ self.old.slots.items) }
    {
        let place = free_place(&self.slots);
        if place >= PLACES {
            drop(value);
            return Err(AddRefusal::Full);
        }
        if place < self.slots.len() {
            return Ok(self.fill(place, value));
        }
        self.add_place(value)
    }

    // Puts a value at a free place.
    fn fill(&mut self, place: usize, value: T) -> Handle
        requires within { place < length self.old.slots.items }
        requires few { place < 65536 }
        requires free { IsFree self.old.slots.items place }
        ensures named { IsNamed self.new.slots.items result value }
        ensures new { NamesNone self.old.slots.items result }
        ensures others { AreOthersKept self.old.slots.items self.new.slots.items result }
        ensures spent { AreSpentKept self.old.slots.items self.new.slots.items }
    {
        let slot = &mut self.slots[place];
        slot.value = Some(value);
        Handle {
            place: place as u32,
            generation: slot.generation,
        }
    }

    // Puts a value at a new place.
    fn add_place(&mut self, value: T) -> Result<Handle, AddRefusal>
        requires { length self.old.slots.items < 65536 }
        ensures named { IfOk result (λ handle. IsNamed self.new.slots.items handle value) }
        ensures new { IfOk result (λ handle. NamesNone self.old.slots.items handle) }
        ensures others { IfOk result (λ handle. AreOthersKept self.old.slots.items self.new.slots.items handle) }
        ensures spent { AreSpentKept self.old.slots.items self.new.slots.items }
        ensures err { OnErr result (self.new.slots.items ≡ self.old.slots.items) }
    {
        match self.slots.reserve(1) {
            Ok(()) => {
                let place = self.slots.len() as u32;
                self.slots.push_reserved(Slot {
                    generation: 0,
                    is_spent: false,
                    value: Some(value),
                });
                Ok(Handle {
                    place,
                    generation: 0,
                })
            }
            Err(error) => {
                drop(value);
                Err(AddRefusal::NoMemory(error))
            }
        }
    }

    /// Takes the value of a handle out of the table, to be put back. Until then the handle names none.
    pub fn take(&mut self, handle: Handle) -> Option<T>
        ensures value { MatchOption result (NamesNone self.old.slots.items handle) (IsNamed self.old.slots.items handle) }
        ensures lent { IfSome result (λ value. IsAt self.new.slots.items handle None) }
        ensures others { IfSome result (λ value. AreOthersKept self.old.slots.items self.new.slots.items handle) }
        ensures none { IfNone result (self.new.slots.items ≡ self.old.slots.items) }
        ensures spent { AreSpentKept self.old.slots.items self.new.slots.items }
    {
        let place = handle.place as usize;
        if place >= self.slots.len() {
            return None;
        }
        let slot = &mut self.slots[place];
        if slot.is_spent || slot.generation != handle.generation {
            return None;
        }
        slot.value.take()
    }

    /// Puts a value back that was taken out of the table.
    pub fn put(&mut self, handle: Handle, value: T)
        requires { IsAt self.old.slots.items handle None }
        ensures named { IsNamed self.new.slots.items handle value }
        ensures others { AreOthersKept self.old.slots.items self.new.slots.items handle }
        ensures spent { AreSpentKept self.old.slots.items self.new.slots.items }
    {
        let slot = &mut self.slots[handle.place as usize];
        slot.value = Some(value);
    }

    /// Takes the value of a handle out of the table for good.
    pub fn remove(&mut self, handle: Handle) -> Option<T>
        ensures value { MatchOption result (NamesNone self.old.slots.items handle) (IsNamed self.old.slots.items handle) }
        ensures gone { IfSome result (λ value. IsSpent self.new.slots.items handle) }
        ensures others { IfSome result (λ value. AreOthersKept self.old.slots.items self.new.slots.items handle) }
        ensures none { IfNone result (self.new.slots.items ≡ self.old.slots.items) }
        ensures spent { AreSpentKept self.old.slots.items self.new.slots.items }
    {
        let value = self.take(handle)?;
        self.spend(handle);
        Some(value)
    }

    // Goes on to the next generation of a place, or spends it where there is none.
    fn spend(&mut self, handle: Handle)
        requires { IsAt self.old.slots.items handle None }
        ensures gone { IsSpent self.new.slots.items handle }
        ensures others { AreOthersKept self.old.slots.items self.new.slots.items handle }
        ensures spent { AreSpentKept self.old.slots.items self.new.slots.items }
    {
        let slot = &mut self.slots[handle.place as usize];
        if slot.generation < u32::MAX {
            slot.generation += 1;
        } else {
            slot.is_spent = true;
        }
    }
}

// The first place that is free, or the one past the end.
fn free_place<T: Drop>(slots: &[Slot<T>]) -> usize
    ensures free { IsFree slots.now result }
    ensures within { result ≤ length slots.now }
{
    for place in 0..slots.len() {
        let slot = &slots[place];
        if !slot.is_spent && slot.value.is_none() {
            return place;
        }
    }
    slots.len()
}
