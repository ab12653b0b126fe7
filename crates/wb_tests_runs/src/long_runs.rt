//! Does a run of the program over long files end as its row says?
//!
//! A row has the pieces of its files, each with the number of its repetitions.

use crate::runs::ends_so;
use crate::specifications::DUP;
use std::alloc::{AllocError, Global};
use wb_program::Status;

/// A text and the number of its repetitions.
pub type Piece = (&'static str, usize);

/// A command line, the pieces of the files `h` and `t`, a status and a report. The file `u` is an extension of sums.
pub type LongRow = (&'static str, [&'static [Piece]; 2], Status, &'static str);

/// The number of the first row that doesn't end as it says, counted from 0.
pub fn first_wrong_long(alloc: Global, rows: &[LongRow]) -> Result<Option<usize>, AllocError> {
    for (place, row) in rows.iter().enumerate() {
        if !long_ends_so(alloc, row)? {
            return Ok(Some(place));
        }
    }
    Ok(None)
}

// Whether a row ends as it says.
fn long_ends_so(alloc: Global, row: &LongRow) -> Result<bool, AllocError> {
    let host = text_of(alloc, row.1[0])?;
    ends_over(alloc, host.as_str(), row)
}

// Whether a row whose first file has this text ends as it says.
fn ends_over(alloc: Global, host: &str, row: &LongRow) -> Result<bool, AllocError> {
    let text = text_of(alloc, row.1[1])?;
    ends_so(alloc, row.0, &[host, text.as_str(), DUP], row.2, row.3)
}

/// The text of the pieces.
pub fn text_of(alloc: Global, pieces: &[Piece]) -> Result<String, AllocError> {
    let mut text = String::new(alloc);
    for (piece, times) in pieces {
        repeat(&mut text, *piece, *times)?;
    }
    Ok(text)
}

// Appends a piece this number of times.
fn repeat(text: &mut String, piece: &str, times: usize) -> Result<(), AllocError> {
    for _ in 0..times {
        text.push_str(piece)?;
    }
    Ok(())
}
