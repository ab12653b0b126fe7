//! Does each text of a host, or of an extension of a host, get its expected answer?
//!
//! An answer is a text: the rule that fails first, with the names that show it, or `ok`. Tests have tables of texts and answers.

ghost use Rattle.std.specs.Prelude.{◌≡◌, []};

use crate::attributes::append_attributes;
use crate::forwards::append_forwards;
use crate::markers::append_markers;
use std::alloc::{AllocError, Global};
use wb_names::{resolve_extension, resolve_host};
use wb_names_theory::NameRefusal;
use wb_reader::read_spec;
use wb_syntax::Spec;
use wb_syntax_resolved::Resolved;

// What is tested of a specification whose names are right.
#[derive(Clone, Copy)]
pub(crate) enum Tested {
    Names,
    Attributes,
    Markers,
    Forwards,
}

// What is tested, and the first line, which comes before each text.
pub(crate) struct Asked {
    pub(crate) tested: Tested,
    pub(crate) first_line: &'static str,
}

// A text and its expected answer.
pub(crate) type Row = (&'static str, &'static str);

// Appends pieces of text.
pub(crate) fn append(out: &mut Vec<u8>, pieces: &[&[u8]]) -> Result<(), AllocError> {
    for piece in pieces {
        out.extend_from_slice(*piece)?;
    }
    Ok(())
}

// The rule that a name breaks, and the name.
fn shown(refusal: &NameRefusal) -> (&'static str, &[u8]) {
    match refusal {
        NameRefusal::Unknown(name) => ("N1 ", name.as_slice()),
        NameRefusal::Duplicate(name) => ("N2 ", name.as_slice()),
        NameRefusal::Orphan(name) => ("N3 ", name.as_slice()),
        NameRefusal::WrongKind(name) => ("N4 ", name.as_slice()),
        NameRefusal::WrongHost(name) => ("N5 ", name.as_slice()),
        NameRefusal::NoMemory(_) => ("no memory", "".as_bytes()),
    }
}

fn append_refusal(refusal: &NameRefusal, out: &mut Vec<u8>) -> Result<(), AllocError> {
    let (rule, name) = shown(refusal);
    out.extend_from_slice(rule.as_bytes())?;
    out.extend_from_slice(name)
}

fn append_tested(
    alloc: Global,
    tested: Tested,
    resolved: &Resolved,
    out: &mut Vec<u8>,
) -> Result<(), AllocError> {
    match tested {
        Tested::Names => out.extend_from_slice(b"ok"),
        Tested::Attributes => append_attributes(alloc, resolved, out),
        Tested::Markers => append_markers(alloc, resolved, out),
        Tested::Forwards => append_forwards(alloc, resolved, out),
    }
}

fn append_host(
    alloc: Global,
    tested: Tested,
    spec: &Spec,
    out: &mut Vec<u8>,
) -> Result<(), AllocError> {
    match resolve_host(alloc, spec) {
        Ok(host) => {
            let answer = append_tested(alloc, tested, &host, out);
            host.release();
            answer
        }
        Err(refusal) => {
            let answer = append_refusal(&refusal, out);
            refusal.release();
            answer
        }
    }
}

fn is_answer_to_host(alloc: Global, tested: Tested, spec: &Spec, answer: &str) -> bool {
    let mut out = Vec::new(alloc);
    append_host(alloc, tested, spec, &mut out).is_ok() && out.as_slice() == answer.as_bytes()
}

fn host_text_gets(alloc: Global, tested: Tested, text: &[u8], answer: &str) -> bool {
    match read_spec(alloc, text) {
        Ok(spec) => {
            let answer = is_answer_to_host(alloc, tested, &spec, answer);
            spec.release();
            answer
        }
        Err(refusal) => {
            refusal.release();
            false
        }
    }
}

fn host_gets(alloc: Global, asked: &Asked, row: &Row) -> bool {
    let mut text = Vec::new(alloc);
    append(&mut text, &[asked.first_line.as_bytes(), row.0.as_bytes()]).is_ok()
        && host_text_gets(alloc, asked.tested, &text, row.1)
}

// Whether each host gets its expected answer.
pub(crate) fn hosts_get(alloc: Global, asked: &Asked, rows: &[Row]) -> bool {
    for row in rows {
        if !host_gets(alloc, asked, row) {
            return false;
        }
    }
    true
}

fn append_extension(
    alloc: Global,
    tested: Tested,
    host: &Resolved,
    spec: &Spec,
    out: &mut Vec<u8>,
) -> Result<(), AllocError>
    requires { host.now.attributes.extensions ≡ [] }
{
    match resolve_extension(alloc, host, spec) {
        Ok(extension) => {
            let answer = append_tested(alloc, tested, &extension, out);
            extension.release();
            answer
        }
        Err(refusal) => {
            let answer = append_refusal(&refusal, out);
            refusal.release();
            answer
        }
    }
}

fn is_answer_to_extension(
    alloc: Global,
    tested: Tested,
    host: &Resolved,
    spec: &Spec,
    answer: &str,
) -> bool
    requires { host.now.attributes.extensions ≡ [] }
{
    let mut out = Vec::new(alloc);
    append_extension(alloc, tested, host, spec, &mut out).is_ok()
        && out.as_slice() == answer.as_bytes()
}

fn extension_text_gets(
    alloc: Global,
    tested: Tested,
    host: &Resolved,
    text: &[u8],
    answer: &str,
) -> bool
    requires { host.now.attributes.extensions ≡ [] }
{
    match read_spec(alloc, text) {
        Ok(spec) => {
            let answer = is_answer_to_extension(alloc, tested, host, &spec, answer);
            spec.release();
            answer
        }
        Err(refusal) => {
            refusal.release();
            false
        }
    }
}

fn extension_gets(alloc: Global, asked: &Asked, host: &Resolved, row: &Row) -> bool
    requires { host.now.attributes.extensions ≡ [] }
{
    let mut text = Vec::new(alloc);
    append(&mut text, &[asked.first_line.as_bytes(), row.0.as_bytes()]).is_ok()
        && extension_text_gets(alloc, asked.tested, host, &text, row.1)
}

fn all_get(alloc: Global, asked: &Asked, host: &Resolved, rows: &[Row]) -> bool
    requires { host.now.attributes.extensions ≡ [] }
{
    'rows: for row in rows {
        if !extension_gets(alloc, asked, host, row) {
            return false;
        }
    }
    true
}

fn all_get_with(alloc: Global, asked: &Asked, spec: &Spec, rows: &[Row]) -> bool {
    match resolve_host(alloc, spec) {
        Ok(host) => {
            let answer = all_get(alloc, asked, &host, rows);
            host.release();
            answer
        }
        Err(refusal) => {
            refusal.release();
            false
        }
    }
}

// Whether each extension of the host gets its expected answer.
pub(crate) fn extensions_get(alloc: Global, asked: &Asked, host: &str, rows: &[Row]) -> bool {
    match read_spec(alloc, host.as_bytes()) {
        Ok(spec) => {
            let answer = all_get_with(alloc, asked, &spec, rows);
            spec.release();
            answer
        }
        Err(refusal) => {
            refusal.release();
            false
        }
    }
}
