//! Does a run of `explain` end as its row says, over files in memory?
//!
//! Each function makes one thing that a run needs and lends it to the next, since a proof goes through all that is owned at each exit.

ghost use Rattle.std.specs.Prelude.{◌≡◌, []};

use std::alloc::{AllocError, Global};
use std::process::Abort;
use wb_explain::{Status, explain, picture, take_picture};
use wb_operations::standard_table;
use wb_world::{MemoryShelf, MemorySink};

/// A command line, the files `h`, `t`, `u` and `v` or the first of them, a status, and what is written: its beginning and its end.
pub type Row = (
    &'static str,
    &'static [&'static str],
    Status,
    &'static str,
    &'static str,
);

/// Fails at the first row that doesn't end as it says, and shows its number, counted from 0.
pub fn each_ends_so<R: Abort + AllocGlobal>(rt: &R, rows: &[Row]) {
    let wrong = first_wrong(rt.alloc(), rows);
    assert!(rt; matches!(wrong, Ok(None)), "{wrong:?}");
}

// The number of the first row that doesn't end as it says.
fn first_wrong(alloc: Global, rows: &[Row]) -> Result<Option<usize>, AllocError> {
    for (place, row) in rows.iter().enumerate() {
        if !ends_so(alloc, row)? {
            return Ok(Some(place));
        }
    }
    Ok(None)
}

// Whether a run ends as its row says.
fn ends_so(alloc: Global, row: &Row) -> Result<bool, AllocError> {
    let mut sink = MemorySink::new(alloc, 10_000, 1_000)?;
    let ended = status_of(alloc, row.0, row.1, &mut sink)?;
    Ok(ended == row.2 && fits(row.3, row.4, sink.bytes()))
}

// Whether a text has this beginning and this end.
fn fits(begin: &str, end: &str, text: &[u8]) -> bool {
    text.starts_with(begin.as_bytes()) && text.ends_with(end.as_bytes())
}

// The status of a run of this line over these files, which writes to the sink.
fn status_of(
    alloc: Global,
    line: &str,
    files: &[&str],
    sink: &mut MemorySink,
) -> Result<Status, AllocError> {
    let mut shelf = MemoryShelf::new(alloc);
    add_files(&mut shelf, files)?;
    status_on(alloc, line, &mut shelf, sink)
}

// Adds the files of a row under their names, to a shelf that holds nothing.
fn add_files(shelf: &mut MemoryShelf, files: &[&str]) -> Result<(), AllocError>
    requires { shelf.old.files ≡ [] }
{
    let Some(host) = files.first() else {
        return Ok(());
    };
    shelf.add_file("h", host.as_bytes())?;
    let Some(second) = files.get(1) else {
        return Ok(());
    };
    shelf.add_file("t", second.as_bytes())?;
    let Some(third) = files.get(2) else {
        return Ok(());
    };
    shelf.add_file("u", third.as_bytes())?;
    let Some(fourth) = files.get(3) else {
        return Ok(());
    };
    shelf.add_file("v", fourth.as_bytes())
}

// The status of a run of this line over the files of a shelf.
fn status_on(
    alloc: Global,
    line: &str,
    shelf: &mut MemoryShelf,
    sink: &mut MemorySink,
) -> Result<Status, AllocError> {
    let operations = standard_table(alloc)?;
    let mut words = words_of(alloc, line)?;
    if take_picture(alloc, &mut words)? {
        return Ok(picture(alloc, &words, shelf, sink, &operations));
    }
    Ok(explain(alloc, &words, shelf, sink, &operations))
}

// The words of a line after the name of the program, each after one space.
fn words_of(alloc: Global, line: &str) -> Result<Vec<String>, AllocError> {
    let mut words = Vec::new(alloc);
    for word in line.split(' ').skip(1) {
        words.push(String::from_str(alloc, word)?)?;
    }
    Ok(words)
}
