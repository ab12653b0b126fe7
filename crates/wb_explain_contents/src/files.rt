//! What is in the files that are looked into?

ghost use Rattle.wb_explain_lines.specs.Outside.{outside, Keeps};

use crate::wanted::Wanted;
use std::alloc::{AllocError, Global};
use wb_base::{Bytes, push};
use wb_explain_lines::contents_of;
use wb_world::Shelf;

// Adds the contents of the files that are looked into: that of the host, those of the extensions in their order, and that of the last.
pub(crate) fn read_wanted<S: Shelf>(
    alloc: Global,
    shelf: &mut S,
    wanted: &Wanted<'_>,
    files: &mut Vec<Bytes>,
) -> Result<(), AllocError>
    ensures { Keeps (outside (S.files shelf.old) (S.absences shelf.old) (S.faults shelf.old))
        (outside (S.files shelf.new) (S.absences shelf.new) (S.faults shelf.new)) }
{
    read_file(alloc, shelf, wanted.named.host, files)?;
    read_files(alloc, shelf, wanted.extensions, files)?;
    read_file(alloc, shelf, wanted.last, files)
}

// Adds the contents of these files.
fn read_files<S: Shelf>(
    alloc: Global,
    shelf: &mut S,
    names: &[String],
    files: &mut Vec<Bytes>,
) -> Result<(), AllocError>
    ensures { Keeps (outside (S.files shelf.old) (S.absences shelf.old) (S.faults shelf.old))
        (outside (S.files shelf.new) (S.absences shelf.new) (S.faults shelf.new)) }
{
    'names: for name in names {
        read_file(alloc, shelf, name.as_str(), files)?;
    }
    Ok(())
}

// Adds the contents of a file.
fn read_file<S: Shelf>(
    alloc: Global,
    shelf: &mut S,
    name: &str,
    files: &mut Vec<Bytes>,
) -> Result<(), AllocError>
    ensures { Keeps (outside (S.files shelf.old) (S.absences shelf.old) (S.faults shelf.old))
        (outside (S.files shelf.new) (S.absences shelf.new) (S.faults shelf.new)) }
{
    let contents = contents_of(alloc, shelf, name)?;
    add(files, contents)
}

// Adds contents.
fn add(files: &mut Vec<Bytes>, contents: Vec<u8>) -> Result<(), AllocError> {
    let bytes = Bytes::from_vec(contents)?;
    push(files, bytes)
}
