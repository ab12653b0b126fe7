//! What does a run of `explain` do?
//!
//! It runs `workbench` into a page, adds what there is to say, or puts a picture in its place, and then writes all of it.

ghost use Rattle.std.specs.Prelude.{◌≡◌, ◌≤◌, ◌⊎◌, [], OnOk};
ghost use Rattle.wb_world.specs.Cause.{Rose};
ghost use Rattle.wb_operations.specs.Kept.{IsKept};
ghost use Rattle.wb_program_words.specs.Asked.{texts};
ghost use Rattle.wb_program.specs.Reads.{AbsentCause, FaultCause};
ghost use Rattle.wb_program.specs.Report.{InCommandSet, IsReport};
ghost use Rattle.wb_explain_lines.specs.Outside.{outside, Keeps};
ghost use Rattle.wb_explain_shown.specs.Pictures.{AddsPicture};
ghost use Rattle.wb_explain.specs.Explained.{BeginsWith, Explained, ShowsAfter, ShowsInstead, Since};
ghost use Rattle.wb_explain.specs.Inner.Ends.{Adds, Ends, shown_as};
ghost use Rattle.wb_program.specs.status.Status.{Status};

use std::alloc::{AllocError, Global};
use wb_explain_contents::further;
use wb_explain_lines::{Page, explanation, write_all};
use wb_explain_shown::{picture_of_run, tree_of_run};
use wb_operations::{Meaning, OperationRefusal, OperationTable};
use wb_program::{Status, workbench};
use wb_values::Value;
use wb_world::{Shelf, Sink};

/// All that the program does: what `workbench` does with these words, files and operations, and then what there is to say of it.
///
/// What is written begins with what `workbench` writes, and the status is that of `workbench`, unless memory runs out for the explanation, or
/// it can't be written. After the tree of a text comes the tree by lines, and after another run that comes to its end nothing. All is made
/// before its first byte is written. The files of which the report speaks are read once more.
pub fn explain<S: Shelf, K: Sink, M: Meaning>(
    alloc: Global,
    words: &[String],
    shelf: &mut S,
    sink: &mut K,
    operations: &OperationTable<M>,
) -> Status
    // The table answers what M means.
    requires kept { IsKept operations.now.signatures operations.now.built_in operations.now.runs.items M.meaning
        (λ run vs. ⟦<Box<dyn Fn(&[Value]) -> Result<Value, OperationRefusal>> as Fn(&[Value]) -> Result<Value, OperationRefusal>>⟧.pre run vs)
        (λ run vs r. ⟦<Box<dyn Fn(&[Value]) -> Result<Value, OperationRefusal>> as Fn(&[Value]) -> Result<Value, OperationRefusal>>⟧.post run vs r) }

    // Usage is the status of words that are no command.
    ensures usage { result ≡ Status.Usage → ¬ InCommandSet (texts words.now) }

    // Each fault has a cause in this call.
    ensures absent { result ≡ Status.Absent → Since (AbsentCause operations.now.signatures (texts words.now) (S.files shelf.old) (S.absences shelf.old)) (S.absences shelf.new) }
    ensures read_fault { result ≡ Status.ReadFault → Since (FaultCause operations.now.signatures (texts words.now) (S.files shelf.old) (S.faults shelf.old)) (S.faults shelf.new) }
    ensures write_fault { result ≡ Status.WriteFault → Rose (K.faults sink.old) (K.faults sink.new) }
    ensures write_faults { K.faults sink.old ≤ K.faults sink.new }

    // The files stay, and no count falls.
    ensures keeps { Keeps (outside (S.files shelf.old) (S.absences shelf.old) (S.faults shelf.old))
        (outside (S.files shelf.new) (S.absences shelf.new) (S.faults shelf.new)) }

    // The bytes written are the report that the words and the files have with this status, and then an explanation.
    ensures written { Explained (IsReport (record { signatures = operations.now.signatures; meaning = M.meaning }) (texts words.now) (S.files shelf.old)) (ShowsAfter (texts words.now)) (K.written sink.old) (K.written sink.new) result }
{
    run_as(alloc, words, shelf, sink, operations, false)
}

/// What the program does with a first word `picture`: as with these words, in which the first is `tree`, but where that run comes to its end, a
/// picture is written in the place of its report.
///
/// The status is that of `workbench` with these words, unless memory runs out for the picture or the explanation, or it can't be written. All is
/// made before its first byte is written. The files are read once more.
pub fn picture<S: Shelf, K: Sink, M: Meaning>(
    alloc: Global,
    words: &[String],
    shelf: &mut S,
    sink: &mut K,
    operations: &OperationTable<M>,
) -> Status
    // The table answers what M means.
    requires kept { IsKept operations.now.signatures operations.now.built_in operations.now.runs.items M.meaning
        (λ run vs. ⟦<Box<dyn Fn(&[Value]) -> Result<Value, OperationRefusal>> as Fn(&[Value]) -> Result<Value, OperationRefusal>>⟧.pre run vs)
        (λ run vs r. ⟦<Box<dyn Fn(&[Value]) -> Result<Value, OperationRefusal>> as Fn(&[Value]) -> Result<Value, OperationRefusal>>⟧.post run vs r) }

    // Usage is the status of words that are no command.
    ensures usage { result ≡ Status.Usage → ¬ InCommandSet (texts words.now) }

    // Each fault has a cause in this call.
    ensures absent { result ≡ Status.Absent → Since (AbsentCause operations.now.signatures (texts words.now) (S.files shelf.old) (S.absences shelf.old)) (S.absences shelf.new) }
    ensures read_fault { result ≡ Status.ReadFault → Since (FaultCause operations.now.signatures (texts words.now) (S.files shelf.old) (S.faults shelf.old)) (S.faults shelf.new) }
    ensures write_fault { result ≡ Status.WriteFault → Rose (K.faults sink.old) (K.faults sink.new) }
    ensures write_faults { K.faults sink.old ≤ K.faults sink.new }

    // The files stay, and no count falls.
    ensures keeps { Keeps (outside (S.files shelf.old) (S.absences shelf.old) (S.faults shelf.old))
        (outside (S.files shelf.new) (S.absences shelf.new) (S.faults shelf.new)) }

    // The bytes written are a picture, or the report that the words and the files have with another status, and then an explanation.
    ensures written { Explained (IsReport (record { signatures = operations.now.signatures; meaning = M.meaning }) (texts words.now) (S.files shelf.old)) ShowsInstead (K.written sink.old) (K.written sink.new) result }
{
    run_as(alloc, words, shelf, sink, operations, true)
}

// What is done with these words, with a picture or without.
fn run_as<S: Shelf, K: Sink, M: Meaning>(
    alloc: Global,
    words: &[String],
    shelf: &mut S,
    sink: &mut K,
    operations: &OperationTable<M>,
    draws: bool,
) -> Status
    // The table answers what M means.
    requires kept { IsKept operations.now.signatures operations.now.built_in operations.now.runs.items M.meaning
        (λ run vs. ⟦<Box<dyn Fn(&[Value]) -> Result<Value, OperationRefusal>> as Fn(&[Value]) -> Result<Value, OperationRefusal>>⟧.pre run vs)
        (λ run vs r. ⟦<Box<dyn Fn(&[Value]) -> Result<Value, OperationRefusal>> as Fn(&[Value]) -> Result<Value, OperationRefusal>>⟧.post run vs r) }

    // Usage is the status of words that are no command.
    ensures usage { result ≡ Status.Usage → ¬ InCommandSet (texts words.now) }

    // Each fault has a cause in this call.
    ensures absent { result ≡ Status.Absent → Since (AbsentCause operations.now.signatures (texts words.now) (S.files shelf.old) (S.absences shelf.old)) (S.absences shelf.new) }
    ensures read_fault { result ≡ Status.ReadFault → Since (FaultCause operations.now.signatures (texts words.now) (S.files shelf.old) (S.faults shelf.old)) (S.faults shelf.new) }
    ensures write_fault { result ≡ Status.WriteFault → Rose (K.faults sink.old) (K.faults sink.new) }
    ensures write_faults { K.faults sink.old ≤ K.faults sink.new }

    // The files stay, and no count falls.
    ensures keeps { Keeps (outside (S.files shelf.old) (S.absences shelf.old) (S.faults shelf.old))
        (outside (S.files shelf.new) (S.absences shelf.new) (S.faults shelf.new)) }

    ensures written { Explained (IsReport (record { signatures = operations.now.signatures; meaning = M.meaning }) (texts words.now) (S.files shelf.old)) (shown_as draws (texts words.now)) (K.written sink.old) (K.written sink.new) result }
{
    let mut page = Page::new(alloc);
    let status = workbench(alloc, words, shelf, &mut page, operations);
    match added(alloc, shelf, words, status, &mut page, operations, draws) {
        Ok(()) => {
            let end = written(sink, &page, status);
            drop(page);
            end
        }
        Err(_) => {
            drop(page);
            Status::NoMemory
        }
    }
}

// Adds to the lines on a page what there is to say of them, or puts a picture in their place, where the run comes to its end.
fn added<S: Shelf, M: Meaning>(
    alloc: Global,
    shelf: &mut S,
    words: &[String],
    status: Status,
    page: &mut Page,
    operations: &OperationTable<M>,
    draws: bool,
) -> Result<(), AllocError>
    requires kept { IsKept operations.now.signatures operations.now.built_in operations.now.runs.items M.meaning
        (λ run vs. ⟦<Box<dyn Fn(&[Value]) -> Result<Value, OperationRefusal>> as Fn(&[Value]) -> Result<Value, OperationRefusal>>⟧.pre run vs)
        (λ run vs r. ⟦<Box<dyn Fn(&[Value]) -> Result<Value, OperationRefusal>> as Fn(&[Value]) -> Result<Value, OperationRefusal>>⟧.post run vs r) }
    ensures adds { OnOk result (Adds (shown_as draws (texts words.now)) status page.old page.new) }
    ensures keeps { Keeps (outside (S.files shelf.old) (S.absences shelf.old) (S.faults shelf.old))
        (outside (S.files shelf.new) (S.absences shelf.new) (S.faults shelf.new)) }
{
    if page.has_failed() {
        return Err(AllocError);
    }
    match status {
        Status::Done => ended(alloc, shelf, words, page, operations, draws),
        _ => add_said(alloc, shelf, words, status, page, operations),
    }
}

// Adds the tree by lines to the lines of a run that comes to its end, or puts a picture in their place.
fn ended<S: Shelf, M: Meaning>(
    alloc: Global,
    shelf: &mut S,
    words: &[String],
    page: &mut Page,
    operations: &OperationTable<M>,
    draws: bool,
) -> Result<(), AllocError>
    ensures ends { OnOk result (shown_as draws (texts words.now) page.old.bytes page.new.bytes) }
    ensures keeps { Keeps (outside (S.files shelf.old) (S.absences shelf.old) (S.faults shelf.old))
        (outside (S.files shelf.new) (S.absences shelf.new) (S.faults shelf.new)) }
{
    if draws {
        return draw(alloc, shelf, words, page, operations);
    }
    let more = tree_of_run(alloc, shelf, words, operations)?;
    let answer = page.add(&more);
    drop(more);
    answer
}

// Puts a picture in the place of the lines on a page.
fn draw<S: Shelf, M: Meaning>(
    alloc: Global,
    shelf: &mut S,
    words: &[String],
    page: &mut Page,
    operations: &OperationTable<M>,
) -> Result<(), AllocError>
    ensures picture { OnOk result (AddsPicture [] page.new.bytes) }
    ensures keeps { Keeps (outside (S.files shelf.old) (S.absences shelf.old) (S.faults shelf.old))
        (outside (S.files shelf.new) (S.absences shelf.new) (S.faults shelf.new)) }
{
    let made = picture_of_run(alloc, shelf, words, operations)?;
    let answer = page.put(&made);
    drop(made);
    answer
}

// Adds what there is to say to the lines of a run that doesn't come to its end.
fn add_said<S: Shelf, M: Meaning>(
    alloc: Global,
    shelf: &mut S,
    words: &[String],
    status: Status,
    page: &mut Page,
    operations: &OperationTable<M>,
) -> Result<(), AllocError>
    requires kept { IsKept operations.now.signatures operations.now.built_in operations.now.runs.items M.meaning
        (λ run vs. ⟦<Box<dyn Fn(&[Value]) -> Result<Value, OperationRefusal>> as Fn(&[Value]) -> Result<Value, OperationRefusal>>⟧.pre run vs)
        (λ run vs r. ⟦<Box<dyn Fn(&[Value]) -> Result<Value, OperationRefusal>> as Fn(&[Value]) -> Result<Value, OperationRefusal>>⟧.post run vs r) }
    ensures begins { OnOk result (BeginsWith page.old.bytes page.new.bytes) }
    ensures keeps { Keeps (outside (S.files shelf.old) (S.absences shelf.old) (S.faults shelf.old))
        (outside (S.files shelf.new) (S.absences shelf.new) (S.faults shelf.new)) }
{
    let more = said(
        alloc,
        shelf,
        words,
        status.number(),
        page.bytes(),
        operations,
    )?;
    let answer = page.add(&more);
    drop(more);
    answer
}

// What there is to say of a run with these lines: of the lines first, and then what the contents of the files have to say.
fn said<S: Shelf, M: Meaning>(
    alloc: Global,
    shelf: &mut S,
    words: &[String],
    status: u8,
    lines: &[u8],
    operations: &OperationTable<M>,
) -> Result<Vec<u8>, AllocError>
    requires kept { IsKept operations.now.signatures operations.now.built_in operations.now.runs.items M.meaning
        (λ run vs. ⟦<Box<dyn Fn(&[Value]) -> Result<Value, OperationRefusal>> as Fn(&[Value]) -> Result<Value, OperationRefusal>>⟧.pre run vs)
        (λ run vs r. ⟦<Box<dyn Fn(&[Value]) -> Result<Value, OperationRefusal>> as Fn(&[Value]) -> Result<Value, OperationRefusal>>⟧.post run vs r) }
    ensures { Keeps (outside (S.files shelf.old) (S.absences shelf.old) (S.faults shelf.old))
        (outside (S.files shelf.new) (S.absences shelf.new) (S.faults shelf.new)) }
{
    let first = explanation(alloc, shelf, words, status, lines)?;
    match further(alloc, shelf, words, status, lines, operations) {
        Ok(second) => joined(first, second),
        Err(error) => {
            drop(first);
            Err(error)
        }
    }
}

// Two lists of bytes in one.
fn joined(first: Vec<u8>, second: Vec<u8>) -> Result<Vec<u8>, AllocError> {
    let mut both = first;
    let answer = both.extend_from_slice(&second);
    drop(second);
    match answer {
        Ok(()) => Ok(both),
        Err(error) => {
            drop(both);
            Err(error)
        }
    }
}

// Writes what is on a page, and answers how the run ends.
fn written<K: Sink>(sink: &mut K, page: &Page, status: Status) -> Status
    ensures ends { Ends status page.now.bytes (K.written sink.old) (K.written sink.new) result }
    ensures failed { result ≡ Status.WriteFault → (status ≡ Status.WriteFault) ⊎ Rose (K.faults sink.old) (K.faults sink.new) }
    ensures faults { K.faults sink.old ≤ K.faults sink.new }
{
    match status {
        Status::NoMemory => Status::NoMemory,
        _ => match write_all(sink, page.bytes()) {
            Ok(()) => status,
            Err(_) => Status::WriteFault,
        },
    }
}
