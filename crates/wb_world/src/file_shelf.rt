//! How are the files of the system read as a shelf?
//!
//! Part of the trusted edge: no contract says what a file contains. What a read may answer is in `shelf`.

ghost use Rattle.std.specs.Prelude.{◌≡◌, None};
ghost use Rattle.std.specs.Io.{ReadsAtMost};

use crate::{Got, Shelf};
use std::alloc::{AllocError, Global};
use std::fs::File;
use std::io;
use std::io::{ErrorKind, Read, Seek, SeekFrom};
use std::marker::Model;
use std::rt::Files;

/// The files of the system. No contract says what they contain, and keeps one count of each kind for all names.
///
/// Contracts see the counts of faults and of absences, each from 0 on. The last file stays open, so that a file that
/// is read from its beginning on needs no seek, and pipes can be read too. A read that the system interrupts counts as a fault.
#[derive(Drop)]
pub struct FileShelf<R: Files + Drop> {
    alloc: Global,
    rt: R,
    opened: Option<Opened<R::File>>,
    faults: u64,
    absences: u64,
}

// A file that was opened, and the place where its next read begins.
#[derive(Drop)]
struct Opened<F: Drop> {
    name: String,
    file: F,
    place: u64,
}

impl<R: Files + Drop> Model for FileShelf<R> {
    ghost use Rattle.std.specs.Prelude.{ℕ};

    ghost Value = { ℕ × ℕ };

    ghost view = { λ s. (s.faults, s.absences) };
}

impl<R: Files + Drop> FileShelf<R> {
    /// The files of the system, with no fault and no absence so far.
    pub fn new(alloc: Global, rt: R) -> FileShelf<R>
        ensures { result ≡ (0, 0) }
    {
        FileShelf {
            alloc,
            rt,
            opened: None,
            faults: 0,
            absences: 0,
        }
    }
}

impl<R: Files + Drop> Shelf for FileShelf<R> {
    ghost files = { λ _. None };

    ghost faults = { λ s _. s.0 };

    ghost absences = { λ s _. s.1 };

    fn read(&mut self, name: &str, from: u64, into: &mut [u8]) -> Got {
        match read_at(self.alloc, &self.rt, &mut self.opened, name, from, into) {
            Ok(count) => Got::Bytes(count),
            Err(error) => match error.kind() {
                ErrorKind::NotFound => {
                    self.absences = self.absences.saturating_add(1);
                    Got::Absent
                }
                ErrorKind::OutOfMemory => Got::NoMemory(AllocError),
                _ => {
                    self.faults = self.faults.saturating_add(1);
                    Got::Failed
                }
            },
        }
    }
}

// Reads of the file that is open, where it is this one and not read from its beginning, and opens it otherwise.
fn read_at<R: Files>(
    alloc: Global,
    rt: &R,
    opened: &mut Option<Opened<R::File>>,
    name: &str,
    from: u64,
    into: &mut [u8],
) -> io::Result<usize>
    ensures { ReadsAtMost result into.new }
{
    if let Some(kept) = opened {
        if kept.name.as_str() == name && from > 0 {
            return read_next(kept, from, into);
        }
    }
    let mut fresh = open(alloc, rt, name)?;
    let result = read_next(&mut fresh, from, into);
    *opened = Some(fresh);
    result
}

fn open<R: Files>(alloc: Global, rt: &R, name: &str) -> io::Result<Opened<R::File>> {
    let file = File::open(rt, name)?;
    Ok(Opened {
        name: String::from_str(alloc, name)?,
        file,
        place: 0,
    })
}

fn read_next<F: Read + Seek + Drop>(
    opened: &mut Opened<F>,
    from: u64,
    into: &mut [u8],
) -> io::Result<usize>
    ensures { ReadsAtMost result into.new }
{
    if opened.place != from {
        opened.file.seek(SeekFrom::Start(from))?;
        opened.place = from;
    }
    let count = opened.file.read(into)?;
    opened.place = opened.place.saturating_add(count as u64);
    Ok(count)
}
