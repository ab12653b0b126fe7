//! What is in a file, up to a limit?
//!
//! It is read in pieces until its end or one byte past the limit, so that no file is read for ever. What the bytes are is found elsewhere.

ghost use Rattle.std.specs.Prelude.{◌≡◌, ◌≤◌, ◌<◌, ◌+◌, length, take, vec_len, IfOk, OnOk, IfErr};
ghost use Rattle.wb_program_files.specs.Files.{KnownFile};
ghost use Rattle.wb_program_files.specs.Contents.{ContentsAre};
ghost use Rattle.wb_program_files.specs.Inner.Prefixes.{KnownPrefix};
ghost use Rattle.wb_program_files.specs.Stopped.{outside, Stopped, GoesOn};

use std::alloc::{AllocError, Global};
use wb_base::{Bytes, FILE_LIMIT};
use wb_world::{Got, Shelf};

/// Why a run ends without a report.
#[derive(Clone, Copy)]
pub enum ReadFailure {
    /// The file wasn't found.
    Absent,
    /// The file couldn't be read.
    ReadFault,
    /// Memory ran out.
    NoMemory,
}

impl From<AllocError> for ReadFailure {
    ghost use Rattle.std.specs.Prelude.{◌≡◌};
    ghost use Rattle.wb_program_files.specs.declared.files.ReadFailure.TheVariants.{NoMemory};

    ghost from_gives = { λ _ failure. failure ≡ NoMemory };

    fn from(_: AllocError) -> Self {
        ReadFailure::NoMemory
    }
}

// The most bytes that are asked for at once.
const PIECE: usize = 65_536;

/// What is read of a file.
#[derive(Drop)]
pub enum Contents {
    /// All of it.
    Whole(Vec<u8>),
    /// It has more bytes than the limit.
    TooLong,
}

/// Reads a file, unless it has more bytes than the limit.
pub fn read_file<S: Shelf>(
    alloc: Global,
    shelf: &mut S,
    name: &str,
    limit: usize,
) -> Result<Contents, ReadFailure>
    requires { limit ≤ 16777216 }
    ensures ok { IfOk result (ContentsAre limit (S.files shelf.old) name.now) }
    ensures stopped { IfErr result (Stopped (outside (S.files shelf.old) (S.absences shelf.old) (S.faults shelf.old))
        (outside (S.files shelf.new) (S.absences shelf.new) (S.faults shelf.new)) (λ P. P name.now)) }
    ensures goes_on { GoesOn (outside (S.files shelf.old) (S.absences shelf.old) (S.faults shelf.old))
        (outside (S.files shelf.new) (S.absences shelf.new) (S.faults shelf.new)) }
{
    let bytes = read_prefix(alloc, shelf, name, limit)?;
    if bytes.len() <= limit {
        Ok(Contents::Whole(bytes))
    } else {
        Ok(Contents::TooLong)
    }
}

/// The word that names a file, as reports show it, and what is read of the file, unless it has more bytes than a specification may have.
pub fn named_contents<S: Shelf>(
    alloc: Global,
    shelf: &mut S,
    file: &str,
) -> Result<(Bytes, Contents), ReadFailure>
    ensures word { IfOk result (λ read. read.0 ≡ file.now) }
    ensures contents { IfOk result (λ read. ContentsAre 1048576 (S.files shelf.old) file.now read.1) }
    ensures stopped { IfErr result (Stopped (outside (S.files shelf.old) (S.absences shelf.old) (S.faults shelf.old))
        (outside (S.files shelf.new) (S.absences shelf.new) (S.faults shelf.new)) (λ P. P file.now)) }
    ensures goes_on { GoesOn (outside (S.files shelf.old) (S.absences shelf.old) (S.faults shelf.old))
        (outside (S.files shelf.new) (S.absences shelf.new) (S.faults shelf.new)) }
{
    let word = Bytes::from_slice(alloc, file.as_bytes())?;
    match read_file(alloc, shelf, file, FILE_LIMIT) {
        Ok(contents) => Ok((word, contents)),
        Err(failure) => {
            drop(word);
            Err(failure)
        }
    }
}

// Reads a file until its end, or one byte past the limit.
fn read_prefix<S: Shelf>(
    alloc: Global,
    shelf: &mut S,
    name: &str,
    limit: usize,
) -> Result<Vec<u8>, ReadFailure>
    requires { limit ≤ 16777216 }
    ensures ok { IfOk result (λ bytes. KnownFile (S.files shelf.old) name.now (λ c. bytes.items ≡ take (limit + 1) c)) }
    ensures stopped { IfErr result (Stopped (outside (S.files shelf.old) (S.absences shelf.old) (S.faults shelf.old))
        (outside (S.files shelf.new) (S.absences shelf.new) (S.faults shelf.new)) (λ P. P name.now)) }
    ensures goes_on { GoesOn (outside (S.files shelf.old) (S.absences shelf.old) (S.faults shelf.old))
        (outside (S.files shelf.new) (S.absences shelf.new) (S.faults shelf.new)) }
{
    let mut piece = zeros(alloc, PIECE)?;
    let mut bytes = Vec::new(alloc);
    while bytes.len() <= limit {
        let want = (limit + 1 - bytes.len()).min(PIECE);
        if read_piece(shelf, name, &mut piece[..want], &mut bytes)? == 0 {
            return Ok(bytes);
        }
    }
    Ok(bytes)
}

// Reads the next bytes of a file onto those before, and answers how many.
fn read_piece<S: Shelf>(
    shelf: &mut S,
    name: &str,
    piece: &mut [u8],
    bytes: &mut Vec<u8>,
) -> Result<usize, ReadFailure>
    requires room { 0 < length piece.old }
    requires place { vec_len bytes.old ≤ 16777216 }
    ensures within { IfOk result (λ count. count ≤ length piece.old) }
    ensures grows { IfOk result (λ count. vec_len bytes.new ≡ vec_len bytes.old + count) }
    ensures part { OnOk result (KnownPrefix (S.files shelf.old) name.now bytes.old.items → KnownPrefix (S.files shelf.old) name.now bytes.new.items) }
    ensures end { IfOk result (λ count. count ≡ 0 → KnownFile (S.files shelf.old) name.now (λ c. length c ≤ vec_len bytes.new)) }
    ensures stopped { IfErr result (Stopped (outside (S.files shelf.old) (S.absences shelf.old) (S.faults shelf.old))
        (outside (S.files shelf.new) (S.absences shelf.new) (S.faults shelf.new)) (λ P. P name.now)) }
    ensures goes_on { GoesOn (outside (S.files shelf.old) (S.absences shelf.old) (S.faults shelf.old))
        (outside (S.files shelf.new) (S.absences shelf.new) (S.faults shelf.new)) }
{
    match shelf.read(name, bytes.len() as u64, piece) {
        Got::Bytes(count) => {
            bytes.extend_from_slice(&piece[..count])?;
            Ok(count)
        }
        Got::Absent => Err(ReadFailure::Absent),
        Got::Failed => Err(ReadFailure::ReadFault),
        Got::NoMemory(_) => Err(ReadFailure::NoMemory),
    }
}

// A buffer. In a function of its own, so that no proof computes its bytes.
fn zeros(alloc: Global, count: usize) -> Result<Vec<u8>, AllocError>
    ensures { IfOk result (λ bytes. vec_len bytes ≡ count) }
{
    vec![in alloc; 0; count]
}
