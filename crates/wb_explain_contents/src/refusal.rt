//! Which part looks into a file that is refused? That of the code.

use crate::wanted::Wanted;
use std::alloc::{AllocError, Global};
use wb_base::Bytes;
use wb_explain_attributes::push_flow;
use wb_explain_beside::push_beside;
use wb_explain_conflicts::push_conflict;
use wb_explain_kinds::push_kinds;
use wb_explain_lines::{Refused, name_after, offset_in, unprefixed};
use wb_explain_names::push_names;
use wb_explain_places::Source;
use wb_explain_terms::push_term;
use wb_operations::{Meaning, OperationSignatures, OperationTable};

// Appends what is said of a file that is refused, from its contents. The files before it are that of the host alone.
pub(crate) fn push_refused<M: Meaning>(
    alloc: Global,
    out: &mut Vec<u8>,
    wanted: &Wanted<'_>,
    files: &[Bytes],
    contents: &[u8],
    operations: &OperationTable<M>,
) -> Result<(), AllocError> {
    let Some(refused) = wanted.refused else {
        return Ok(());
    };
    if refused.file != wanted.named.host {
        let source = source_of(refused, contents, files);
        return push_code(alloc, out, refused, &source, operations);
    }
    let source = source_of(refused, contents, &files[..0]);
    let count = out.len();
    push_code(alloc, out, refused, &source, operations)?;
    if out.len() > count || !is_among(wanted.named.extensions, refused.file) {
        return Ok(());
    }
    let source = source_of(refused, contents, files);
    push_code(alloc, out, refused, &source, operations)
}

// The specification that is refused, with the first of these files as its host, where there is one.
fn source_of<'a>(refused: Refused<'a>, contents: &'a [u8], files: &'a [Bytes]) -> Source<'a> {
    let host = match files.first() {
        Some(file) => Some(file.as_slice()),
        None => None,
    };
    Source {
        file: refused.file,
        contents,
        host,
    }
}

// Whether a file is one of these.
fn is_among(files: &[String], file: &str) -> bool {
    for other in files {
        if other.as_str() == file {
            return true;
        }
    }
    false
}

// Appends what the part of the code says.
fn push_code<M: Meaning>(
    alloc: Global,
    out: &mut Vec<u8>,
    refused: Refused<'_>,
    source: &Source<'_>,
    operations: &OperationTable<M>,
) -> Result<(), AllocError> {
    let Some(part) = part_of(refused.code, &PARTS) else {
        return Ok(());
    };
    match part {
        Part::Terms => push_term_at(alloc, out, refused, source.contents),
        Part::Conflicts => push_conflict(alloc, out, source, operations),
        Part::Beside => push_beside(alloc, out, source),
        Part::Kinds => push_kinds(alloc, out, source, operations),
        Part::Flows => push_flow(alloc, out, source, refused.code),
        Part::Names => push_named(alloc, out, refused, source, operations.signatures()),
    }
}

// The parts, by what they look into.
#[derive(Clone, Copy)]
enum Part {
    Terms,
    Conflicts,
    Beside,
    Kinds,
    Flows,
    Names,
}

// The part of each code that has one.
static PARTS: [(&str, Part); 22] = [
    ("T1", Part::Terms),
    ("G4", Part::Conflicts),
    ("E5", Part::Beside),
    ("E6", Part::Beside),
    ("Y1", Part::Kinds),
    ("Y2", Part::Kinds),
    ("A1", Part::Flows),
    ("A2", Part::Flows),
    ("A3", Part::Flows),
    ("A4", Part::Flows),
    ("A5", Part::Flows),
    ("A6", Part::Flows),
    ("E7", Part::Flows),
    ("E8", Part::Flows),
    ("N1", Part::Names),
    ("N2", Part::Names),
    ("N3", Part::Names),
    ("N4", Part::Names),
    ("N5", Part::Names),
    ("E1", Part::Names),
    ("E2", Part::Names),
    ("E3", Part::Names),
];

// The part of a code, among these.
fn part_of(code: &[u8], parts: &[(&str, Part)]) -> Option<Part> {
    for (other, part) in parts {
        if other.as_bytes() == code {
            return Some(*part);
        }
    }
    None
}

// Appends what can come at the place at which a term is refused.
fn push_term_at(
    alloc: Global,
    out: &mut Vec<u8>,
    refused: Refused<'_>,
    contents: &[u8],
) -> Result<(), AllocError> {
    match offset_in(refused.rest) {
        Some((at, _)) => push_term(alloc, out, contents, at),
        None => Ok(()),
    }
}

// Appends what is said of the name that the line shows. Of an extension for another host that is what is left of the line.
fn push_named(
    alloc: Global,
    out: &mut Vec<u8>,
    refused: Refused<'_>,
    source: &Source<'_>,
    operations: &OperationSignatures,
) -> Result<(), AllocError> {
    if refused.code == b"N5".as_slice() {
        return push_names(alloc, out, source, refused.code, refused.rest, operations);
    }
    match name_after(refused.rest, b" ") {
        Some((name, _)) => {
            let own = unprefixed(name);
            push_names(alloc, out, source, refused.code, own, operations)
        }
        None => Ok(()),
    }
}
