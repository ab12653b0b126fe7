//! What may the program ask of files?
//!
//! Each failure has a cause, a count that rose, so that no answer comes from nowhere. What is asked of output is in `sink`.

ghost use Rattle.std.specs.Prelude.{◌≡◌, ◌<◌, ◌≤◌, List, ℕ, length};
ghost use Rattle.std.specs.declared.option.Option.{Option};
ghost use Rattle.wb_world.specs.Cause.{Rose, NeverFalls};
ghost use Rattle.wb_world.specs.Shelf.{Files, FitsFiles, given};

use std::alloc::AllocError;

/// The answer to a read.
#[derive(Clone, Copy, Debug, PartialEq, Eq)]
pub enum Got {
    /// So many bytes were read. None only at the end of the file.
    Bytes(usize),
    /// No file has the name.
    Absent,
    /// The read failed.
    Failed,
    /// Memory ran out.
    NoMemory(AllocError),
}

/// Files by their names.
///
/// Contracts see the contents of the files, where they are known, and two counts for each name: how often a read
/// failed, and how often it found no file. A count never falls, and stands still at `u64::MAX`.
pub trait Shelf {
    /// The contents of each file by its name, where they are known.
    ghost files: { Self → Option Files };

    /// How often a read of that name failed.
    ghost faults: { Self → List ℕ → ℕ };

    /// How often a read of that name found no file.
    ghost absences: { Self → List ℕ → ℕ };

    /// Reads some bytes of a file, from a place counted in bytes from 0, into the beginning of a buffer.
    ///
    /// The number of the answer says how many. What the rest of the buffer holds afterwards is left open.
    fn read(&mut self, name: &str, from: u64, into: &mut [u8]) -> Got
        requires room { 0 < length into.old }
        requires place { from ≤ 16777216 }

        ensures within { given result ≤ length into.old }
        ensures known { FitsFiles (files self.old) name.now from result into.new }
        ensures files { files self.new ≡ files self.old }

        // A fault has a cause: the count of the name that was read.
        ensures failed { result ≡ Got.Failed → Rose (faults self.old name.now) (faults self.new name.now) }
        ensures absent { result ≡ Got.Absent → Rose (absences self.old name.now) (absences self.new name.now) }
        ensures faults { NeverFalls (faults self.old) (faults self.new) }
        ensures absences { NeverFalls (absences self.old) (absences self.new) };
}
