//! What is in a file that is shown, and which file couldn't be read?
//!
//! The files were read before, by the run that is explained. A file that can't be read again is shown as an empty one.

ghost use Rattle.std.specs.Prelude.{◌≡◌, ◌≤◌, ◌<◌, ◌+◌, length, vec_len, IfOk};
ghost use Rattle.wb_explain_lines.specs.Outside.{outside, Keeps};

use std::alloc::{AllocError, Global};
use wb_world::{Got, Shelf};

// The most bytes that are read, which is those of the longest file that a command takes.
const LIMIT: usize = 16_777_216;

// The most bytes that are asked for at once.
const PIECE: usize = 65_536;

/// The bytes of a file, the first 16,777,216 of a longer one. Of one that can't be read there are none, or those that could be read.
pub fn contents_of<S: Shelf>(
    alloc: Global,
    shelf: &mut S,
    name: &str,
) -> Result<Vec<u8>, AllocError>
    ensures { Keeps (outside (S.files shelf.old) (S.absences shelf.old) (S.faults shelf.old))
        (outside (S.files shelf.new) (S.absences shelf.new) (S.faults shelf.new)) }
{
    let mut bytes = Vec::new(alloc);
    match read_into(alloc, shelf, name, &mut bytes) {
        Ok(()) => Ok(bytes),
        Err(error) => {
            drop(bytes);
            Err(error)
        }
    }
}

// Reads the bytes of a file onto a list.
fn read_into<S: Shelf>(
    alloc: Global,
    shelf: &mut S,
    name: &str,
    bytes: &mut Vec<u8>,
) -> Result<(), AllocError>
    ensures { Keeps (outside (S.files shelf.old) (S.absences shelf.old) (S.faults shelf.old))
        (outside (S.files shelf.new) (S.absences shelf.new) (S.faults shelf.new)) }
{
    let mut piece = zeros(alloc, PIECE)?;
    let answer = read_by(shelf, name, &mut piece, bytes);
    drop(piece);
    answer
}

// Reads the bytes of a file onto a list, by way of a buffer.
fn read_by<S: Shelf>(
    shelf: &mut S,
    name: &str,
    piece: &mut [u8],
    bytes: &mut Vec<u8>,
) -> Result<(), AllocError>
    requires { 0 < length piece.old }
    ensures { Keeps (outside (S.files shelf.old) (S.absences shelf.old) (S.faults shelf.old))
        (outside (S.files shelf.new) (S.absences shelf.new) (S.faults shelf.new)) }
{
    'pieces: while bytes.len() < LIMIT {
        if read_piece(shelf, name, piece, bytes)? == 0 {
            return Ok(());
        }
    }
    Ok(())
}

// Reads the next bytes of a file onto those before, and answers how many: none at its end, and where it can't be read.
fn read_piece<S: Shelf>(
    shelf: &mut S,
    name: &str,
    piece: &mut [u8],
    bytes: &mut Vec<u8>,
) -> Result<usize, AllocError>
    requires room { 0 < length piece.old }
    requires place { vec_len bytes.old ≤ 16777216 }
    ensures room { length piece.new ≡ length piece.old }
    ensures grows { IfOk result (λ count. vec_len bytes.new ≡ vec_len bytes.old + count) }
    ensures keeps { Keeps (outside (S.files shelf.old) (S.absences shelf.old) (S.faults shelf.old))
        (outside (S.files shelf.new) (S.absences shelf.new) (S.faults shelf.new)) }
{
    match shelf.read(name, bytes.len() as u64, piece) {
        Got::Bytes(count) => {
            bytes.extend_from_slice(&piece[..count])?;
            Ok(count)
        }
        Got::NoMemory(error) => Err(error),
        _ => Ok(0),
    }
}

// A buffer. In a function of its own, so that no proof computes its bytes.
fn zeros(alloc: Global, count: usize) -> Result<Vec<u8>, AllocError>
    ensures { IfOk result (λ bytes. vec_len bytes ≡ count) }
{
    vec![in alloc; 0; count]
}

// Whether a read of the file finds none, or else whether it fails. An empty name is no file's.
pub(crate) fn is_unread<S: Shelf>(shelf: &mut S, name: &str, absent: bool) -> bool
    ensures { Keeps (outside (S.files shelf.old) (S.absences shelf.old) (S.faults shelf.old))
        (outside (S.files shelf.new) (S.absences shelf.new) (S.faults shelf.new)) }
{
    if name.is_empty() {
        return false;
    }
    let mut byte = [0];
    let got = shelf.read(name, 0, &mut byte);
    is_so(got, absent)
}

// Whether a read found no file, or else whether it failed.
fn is_so(got: Got, absent: bool) -> bool {
    match got {
        Got::Absent => absent,
        Got::Failed => !absent,
        _ => false,
    }
}
