//! A shelf that shows contracts all that it does.
//!
//! It is in memory, for tests and laws, and fails where it is asked to. The system's files are in `file_shelf`.

ghost use Rattle.std.specs.Prelude.{◌≡◌, ◌≢◌, ◌≤◌, ◌<◌, ◌++◌, ◌∷◌, [], length, OnOk, OnErr, Some, None};
ghost use Rattle.std.specs.Option.{option_copied};
ghost use Rattle.wb_world.specs.Cause.{Rose, NeverFalls};
ghost use Rattle.wb_world.specs.Shelf.{FitsFiles, FromPlace, given};
ghost use Rattle.wb_world.specs.MemoryShelf.{ShelfView, file_at, named, AnswersRead};

use crate::{Got, Shelf};
use std::alloc::{AllocError, Global};
use std::marker::Model;

/// Files in memory, of which stated reads fail. Contracts see all of it, and it keeps one count of each kind for all names.
#[derive(Drop)]
pub struct MemoryShelf {
    alloc: Global,
    files: Vec<(String, Vec<u8>)>,
    fails: Vec<u64>,
    calls: u64,
    faults: u64,
    absences: u64,
}

impl Model for MemoryShelf {
    ghost use Rattle.wb_world.specs.MemoryShelf.{ShelfView, named};

    ghost Value = { ShelfView };

    ghost view = { λ s. record { files = named s.files.items; fails = s.fails.items; calls = s.calls; faults = s.faults; absences = s.absences } };
}

impl MemoryShelf {
    /// A shelf that holds nothing.
    pub fn new(alloc: Global) -> MemoryShelf
        ensures { result ≡ record { files = []; fails = []; calls = 0; faults = 0; absences = 0 } }
    {
        MemoryShelf {
            alloc,
            files: Vec::new(alloc),
            fails: Vec::new(alloc),
            calls: 0,
            faults: 0,
            absences: 0,
        }
    }

    /// Adds a file under a name that no file has.
    pub fn add_file(&mut self, name: &str, contents: &[u8]) -> Result<(), AllocError>
        requires { file_at self.old.files name.now ≡ None }
        ensures ok { OnOk result (self.new ≡ record self.old { files = self.old.files ++ (name.now, contents.now) ∷ [] }) }
        ensures err { OnErr result (self.new ≡ self.old) }
    {
        let name = String::from_str(self.alloc, name)?;
        let contents = contents.to_vec(self.alloc)?;
        self.files.push((name, contents))?;
        Ok(())
    }

    /// Lets the read of this number fail, counted from 1.
    pub fn fail_at(&mut self, call: u64) -> Result<(), AllocError>
        ensures ok { OnOk result (self.new ≡ record self.old { fails = self.old.fails ++ call ∷ [] }) }
        ensures err { OnErr result (self.new ≡ self.old) }
    {
        self.fails.push(call)?;
        Ok(())
    }
}

impl Shelf for MemoryShelf {
    ghost files = { λ s. Some (file_at s.files) };

    ghost faults = { λ s _. s.faults };

    ghost absences = { λ s _. s.absences };

    fn read(&mut self, name: &str, from: u64, into: &mut [u8]) -> Got
        requires room { 0 < length into.old }
        requires place { from ≤ 16777216 }

        ensures within { given result ≤ length into.old }
        ensures known { FitsFiles (Some (file_at self.old.files)) name.now from result into.new }
        ensures files { Some (file_at self.new.files) ≡ Some (file_at self.old.files) }
        ensures failed { result ≡ Got.Failed → Rose self.old.faults self.new.faults }
        ensures absent { result ≡ Got.Absent → Rose self.old.absences self.new.absences }
        ensures faults { NeverFalls (λ _. self.old.faults) (λ _. self.new.faults) }
        ensures absences { NeverFalls (λ _. self.old.absences) (λ _. self.new.absences) }

        // Exactly the listed reads fail, and none runs out of memory.
        ensures answer { AnswersRead self.old self.new name.now result }
    {
        self.calls = self.calls.saturating_add(1);
        if self.fails.contains(&self.calls) {
            self.faults = self.faults.saturating_add(1);
            return Got::Failed;
        }
        let Some(contents) = find(&self.files, name) else {
            self.absences = self.absences.saturating_add(1);
            return Got::Absent;
        };
        Got::Bytes(copy_from(contents, from as usize, into))
    }
}

// The contents of the first file of this name.
fn find<'a>(files: &'a [(String, Vec<u8>)], name: &str) -> Option<&'a [u8]>
    ensures { option_copied result ≡ file_at (named files.now) name.now }
{
    for (key, contents) in files {
        if key.as_str() == name {
            return Some(contents);
        }
    }
    None
}

// Copies what fits of the contents from a place on, and answers how much.
fn copy_from(contents: &[u8], from: usize, into: &mut [u8]) -> usize
    requires { 0 < length into.old }
    ensures within { result ≤ length into.old }
    ensures bytes { FromPlace contents.now from result into.new }
{
    let rest = &contents[from.min(contents.len())..];
    let count = rest.len().min(into.len());
    into[..count].copy_from_slice(&rest[..count]);
    count
}
