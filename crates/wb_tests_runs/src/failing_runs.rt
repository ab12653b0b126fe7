//! Does a read or a write that fails end the run of a row, with nothing more written?

ghost use Rattle.std.specs.Prelude.{◌≤◌};

use crate::runs::{Row, add_files, status_on};
use std::alloc::{AllocError, Global};
use wb_program::Status;
use wb_world::{MemoryShelf, MemorySink};

/// Which read and which write of a run fail, counted from 1 and 0 for none, and the greatest number of bytes that a write takes.
#[derive(Clone, Copy)]
pub struct Faults {
    pub read: u64,
    pub write: u64,
    pub most: usize,
}

/// Whether the run of a row has this status and this report with these faults.
pub fn ends_with_faults(
    alloc: Global,
    row: &Row,
    faults: &Faults,
    status: Status,
    report: &str,
) -> Result<bool, AllocError>
    requires { 1 ≤ faults.now.most }
{
    let mut sink = MemorySink::new(alloc, 1_000, faults.most)?;
    sink.fail_at(faults.write)?;
    let ended = status_to(alloc, row, faults.read, &mut sink)?;
    Ok(ended == status && sink.bytes() == report.as_bytes())
}

// The status of the run of a row whose read of this number fails.
fn status_to(
    alloc: Global,
    row: &Row,
    read: u64,
    sink: &mut MemorySink,
) -> Result<Status, AllocError> {
    let mut shelf = MemoryShelf::new(alloc);
    add_files(&mut shelf, row.1)?;
    shelf.fail_at(read)?;
    status_on(alloc, row.0, &mut shelf, sink)
}

/// Whether a run has at least this number of reads and less than 99, and each of them that fails ends the run without a report.
pub fn has_reads(alloc: Global, row: &Row, least: u64) -> Result<bool, AllocError> {
    for read in 1..100 {
        let faults = Faults {
            read,
            write: 0,
            most: 1_000,
        };
        if ends_with_faults(alloc, row, &faults, row.2, row.3)? {
            return Ok(read > least);
        }
        if !ends_with_faults(alloc, row, &faults, Status::ReadFault, "")? {
            return Ok(false);
        }
    }
    Ok(false)
}

/// The number of bytes after which a write of one byte that fails doesn't end the run, with what was written before it.
pub fn first_uncut(alloc: Global, row: &Row) -> Result<Option<usize>, AllocError> {
    for count in 0..row.3.len() {
        let faults = Faults {
            read: 0,
            write: (count as u64).saturating_add(1),
            most: 1,
        };
        let written = row.3.get(..count).unwrap_or(row.3);
        if !ends_with_faults(alloc, row, &faults, Status::WriteFault, written)? {
            return Ok(Some(count));
        }
    }
    Ok(None)
}
