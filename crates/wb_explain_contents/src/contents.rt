//! What is said of a run from the contents of the files that its words name?

ghost use Rattle.std.specs.Prelude.{◌≡◌, [], IfOk};
ghost use Rattle.wb_operations.specs.Kept.{IsKept};
ghost use Rattle.wb_explain_lines.specs.Outside.{outside, Keeps};

use crate::files::read_wanted;
use crate::refusal::push_refused;
use crate::run::push_run;
use crate::wanted::{Wanted, wanted_of};
use std::alloc::{AllocError, Global};
use wb_base::Bytes;
use wb_operations::{Meaning, OperationRefusal, OperationTable};
use wb_values::Value;
use wb_world::Shelf;

/// What the contents of the files have to say of a run after its report: nothing of one that comes to its end. The words are those of the
/// command line without the program's name, the status goes by its number, and the lines are those of the report.
///
/// Of a file that is refused it and its host are read once more, and of a text that stops or that has no value it, the host and the
/// extensions. Where a file can't be read, nothing is said of it.
pub fn further<S: Shelf, M: Meaning>(
    alloc: Global,
    shelf: &mut S,
    words: &[String],
    status: u8,
    lines: &[u8],
    operations: &OperationTable<M>,
) -> Result<Vec<u8>, AllocError>
    // The table answers what M means.
    requires kept { IsKept operations.now.signatures operations.now.built_in operations.now.runs.items M.meaning
        (λ run vs. ⟦<Box<dyn Fn(&[Value]) -> Result<Value, OperationRefusal>> as Fn(&[Value]) -> Result<Value, OperationRefusal>>⟧.pre run vs)
        (λ run vs r. ⟦<Box<dyn Fn(&[Value]) -> Result<Value, OperationRefusal>> as Fn(&[Value]) -> Result<Value, OperationRefusal>>⟧.post run vs r) }
    ensures none { status ≡ 0 → IfOk result (λ more. more.items ≡ []) }
    ensures keeps { Keeps (outside (S.files shelf.old) (S.absences shelf.old) (S.faults shelf.old))
        (outside (S.files shelf.new) (S.absences shelf.new) (S.faults shelf.new)) }
{
    if status == 0 {
        return Ok(Vec::new(alloc));
    }
    match wanted_of(words, status, lines) {
        Some(wanted) => read_and_said(alloc, shelf, &wanted, operations),
        None => Ok(Vec::new(alloc)),
    }
}

// What is said once the files are read that are looked into.
fn read_and_said<S: Shelf, M: Meaning>(
    alloc: Global,
    shelf: &mut S,
    wanted: &Wanted<'_>,
    operations: &OperationTable<M>,
) -> Result<Vec<u8>, AllocError>
    requires kept { IsKept operations.now.signatures operations.now.built_in operations.now.runs.items M.meaning
        (λ run vs. ⟦<Box<dyn Fn(&[Value]) -> Result<Value, OperationRefusal>> as Fn(&[Value]) -> Result<Value, OperationRefusal>>⟧.pre run vs)
        (λ run vs r. ⟦<Box<dyn Fn(&[Value]) -> Result<Value, OperationRefusal>> as Fn(&[Value]) -> Result<Value, OperationRefusal>>⟧.post run vs r) }
    ensures { Keeps (outside (S.files shelf.old) (S.absences shelf.old) (S.faults shelf.old))
        (outside (S.files shelf.new) (S.absences shelf.new) (S.faults shelf.new)) }
{
    let mut files = Vec::new(alloc);
    match read_wanted(alloc, shelf, wanted, &mut files) {
        Ok(()) => {
            let more = said(alloc, wanted, &files, operations);
            drop(files);
            more
        }
        Err(error) => {
            drop(files);
            Err(error)
        }
    }
}

// What is said of these contents.
fn said<M: Meaning>(
    alloc: Global,
    wanted: &Wanted<'_>,
    files: &[Bytes],
    operations: &OperationTable<M>,
) -> Result<Vec<u8>, AllocError>
    requires kept { IsKept operations.now.signatures operations.now.built_in operations.now.runs.items M.meaning
        (λ run vs. ⟦<Box<dyn Fn(&[Value]) -> Result<Value, OperationRefusal>> as Fn(&[Value]) -> Result<Value, OperationRefusal>>⟧.pre run vs)
        (λ run vs r. ⟦<Box<dyn Fn(&[Value]) -> Result<Value, OperationRefusal>> as Fn(&[Value]) -> Result<Value, OperationRefusal>>⟧.post run vs r) }
{
    let mut more = Vec::new(alloc);
    match push_said(alloc, &mut more, wanted, files, operations) {
        Ok(()) => Ok(more),
        Err(error) => {
            drop(more);
            Err(error)
        }
    }
}

// Appends that.
fn push_said<M: Meaning>(
    alloc: Global,
    out: &mut Vec<u8>,
    wanted: &Wanted<'_>,
    files: &[Bytes],
    operations: &OperationTable<M>,
) -> Result<(), AllocError>
    requires kept { IsKept operations.now.signatures operations.now.built_in operations.now.runs.items M.meaning
        (λ run vs. ⟦<Box<dyn Fn(&[Value]) -> Result<Value, OperationRefusal>> as Fn(&[Value]) -> Result<Value, OperationRefusal>>⟧.pre run vs)
        (λ run vs r. ⟦<Box<dyn Fn(&[Value]) -> Result<Value, OperationRefusal>> as Fn(&[Value]) -> Result<Value, OperationRefusal>>⟧.post run vs r) }
{
    // The file that is refused, or the text, was read last.
    let [before @ .., last] = files else {
        return Ok(());
    };
    match wanted.refused {
        Some(_) => push_refused(alloc, out, wanted, before, last.as_slice(), operations),
        None => push_run(alloc, out, wanted, before, last.as_slice(), operations),
    }
}
