//! Does a run of the program end as its row says, over files in memory?
//!
//! Each function makes one thing that a run needs and lends it to the next, since a proof goes through all that is owned at each exit.

ghost use Rattle.std.specs.Prelude.{◌≡◌, []};
ghost use Rattle.wb_operations.specs.Kept.{IsKept};

use std::alloc::{AllocError, Global};
use wb_operations::{Meaning, OperationRefusal, OperationTable, standard_table};
use wb_program::{Status, workbench};
use wb_values::Value;
use wb_world::{MemoryShelf, MemorySink};

/// A command line, the files `h`, `t`, `u`, `v` and `w` or the first of them, a status, and a report, in which `…` matches any text.
pub type Row = (&'static str, &'static [&'static str], Status, &'static str);

/// The number of the first row that doesn't end as it says, counted from 0.
pub fn first_wrong_row(alloc: Global, rows: &[Row]) -> Result<Option<usize>, AllocError> {
    for (place, (line, files, status, report)) in rows.iter().enumerate() {
        if !ends_so(alloc, *line, *files, *status, *report)? {
            return Ok(Some(place));
        }
    }
    Ok(None)
}

/// The number of the first line that doesn't end so over these files, counted from 0.
pub fn first_wrong_line(
    alloc: Global,
    lines: &[&str],
    files: &[&str],
    status: Status,
    report: &str,
) -> Result<Option<usize>, AllocError> {
    for (place, line) in lines.iter().enumerate() {
        if !ends_so(alloc, *line, files, status, report)? {
            return Ok(Some(place));
        }
    }
    Ok(None)
}

/// Whether one of the rows ends as it says. They have the possible reports of one run.
pub fn any_ends_so(alloc: Global, rows: &[Row]) -> Result<bool, AllocError> {
    for (line, files, status, report) in rows {
        if ends_so(alloc, *line, *files, *status, *report)? {
            return Ok(true);
        }
    }
    Ok(false)
}

/// Whether a run of this line over these files has the status and the report.
pub fn ends_so(
    alloc: Global,
    line: &str,
    files: &[&str],
    status: Status,
    report: &str,
) -> Result<bool, AllocError> {
    let mut sink = MemorySink::new(alloc, 1_100_000, 1_000)?;
    let ended = status_of(alloc, line, files, &mut sink)?;
    Ok(ended == status && fits(report, sink.bytes()))
}

/// Whether a text is the report of a row.
pub fn fits(report: &str, text: &[u8]) -> bool {
    match report.split_once('…') {
        Some((begin, end)) => text.starts_with(begin.as_bytes()) && text.ends_with(end.as_bytes()),
        None => text == report.as_bytes(),
    }
}

/// The status of a run of this line over these files, which writes to the sink.
pub fn status_of(
    alloc: Global,
    line: &str,
    files: &[&str],
    sink: &mut MemorySink,
) -> Result<Status, AllocError> {
    let mut shelf = MemoryShelf::new(alloc);
    add_files(&mut shelf, files)?;
    status_on(alloc, line, &mut shelf, sink)
}

/// Adds the files of a row under their names, to a shelf that holds nothing.
pub fn add_files(shelf: &mut MemoryShelf, files: &[&str]) -> Result<(), AllocError>
    requires { shelf.old.files ≡ [] }
{
    let Some(host) = files.first() else {
        return Ok(());
    };
    shelf.add_file("h", host.as_bytes())?;
    let Some(second) = files.get(1) else {
        return Ok(());
    };
    shelf.add_file("t", second.as_bytes())?;
    let Some(third) = files.get(2) else {
        return Ok(());
    };
    shelf.add_file("u", third.as_bytes())?;
    let Some(fourth) = files.get(3) else {
        return Ok(());
    };
    shelf.add_file("v", fourth.as_bytes())?;
    let Some(last) = files.get(4) else {
        return Ok(());
    };
    shelf.add_file("w", last.as_bytes())
}

/// The status of a run of this line over the files of a shelf.
pub fn status_on(
    alloc: Global,
    line: &str,
    shelf: &mut MemoryShelf,
    sink: &mut MemorySink,
) -> Result<Status, AllocError> {
    let operations = standard_table(alloc)?;
    status_by(alloc, line, shelf, sink, &operations)
}

/// The same by this table of operations.
pub fn status_by<M: Meaning>(
    alloc: Global,
    line: &str,
    shelf: &mut MemoryShelf,
    sink: &mut MemorySink,
    operations: &OperationTable<M>,
) -> Result<Status, AllocError>
    requires kept { IsKept operations.now.signatures operations.now.built_in operations.now.runs.items M.meaning
        (λ run vs. ⟦<Box<dyn Fn(&[Value]) -> Result<Value, OperationRefusal>> as Fn(&[Value]) -> Result<Value, OperationRefusal>>⟧.pre run vs)
        (λ run vs r. ⟦<Box<dyn Fn(&[Value]) -> Result<Value, OperationRefusal>> as Fn(&[Value]) -> Result<Value, OperationRefusal>>⟧.post run vs r) }
{
    let words = words_of(alloc, line)?;
    Ok(workbench(alloc, &words, shelf, sink, operations))
}

/// Whether a row ends as it says by this table of operations.
pub fn row_ends_by<M: Meaning>(
    alloc: Global,
    row: &Row,
    operations: &OperationTable<M>,
) -> Result<bool, AllocError>
    requires kept { IsKept operations.now.signatures operations.now.built_in operations.now.runs.items M.meaning
        (λ run vs. ⟦<Box<dyn Fn(&[Value]) -> Result<Value, OperationRefusal>> as Fn(&[Value]) -> Result<Value, OperationRefusal>>⟧.pre run vs)
        (λ run vs r. ⟦<Box<dyn Fn(&[Value]) -> Result<Value, OperationRefusal>> as Fn(&[Value]) -> Result<Value, OperationRefusal>>⟧.post run vs r) }
{
    let mut shelf = MemoryShelf::new(alloc);
    add_files(&mut shelf, row.1)?;
    let mut sink = MemorySink::new(alloc, 1_000, 1_000)?;
    let ended = status_by(alloc, row.0, &mut shelf, &mut sink, operations)?;
    Ok(ended == row.2 && fits(row.3, sink.bytes()))
}

/// The words of a line after the name of the program, each after one space.
pub fn words_of(alloc: Global, line: &str) -> Result<Vec<String>, AllocError> {
    let mut words = Vec::new(alloc);
    for word in line.split(' ').skip(1) {
        words.push(String::from_str(alloc, word)?)?;
    }
    Ok(words)
}
