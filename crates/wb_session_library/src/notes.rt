//! Which bytes answer a call, or say why it is refused? Those that the program prints.

ghost use Rattle.std.specs.Prelude.{◌≡◌, ◌≤◌, ℕ, List, IfErr, OnOk, length};
ghost use Rattle.wb_compose_files.specs.Certified.{CertifiedParts};
ghost use Rattle.wb_compose_files.specs.Extensions.{IsNextRefusal};
ghost use Rattle.wb_compose_files.specs.HostContents.{IsHostRefusal};
ghost use Rattle.wb_compose_files.specs.Unions.{all_resolved};
ghost use Rattle.wb_operations.specs.Standard.{standard_signatures};
ghost use Rattle.wb_report.specs.Lines.{report_of};
ghost use Rattle.wb_session_library.specs.Nodes.{HasNoText, IsLeafText, IsName, IsPrinted, IsTerminalName};
ghost use Rattle.wb_session_library.specs.Inner.Reasons.{IsFileReason, IsHostReason, IsNextReason};
ghost use Rattle.wb_session_library.specs.declared.reason.Reason.{Reason as Told};
ghost use Rattle.wb_session_library.specs.Refusals.{IsExtensionRefused, IsFileRefused, IsHostRefused, IsPlaceRefusal, IsPrintRefusal};

use crate::{CallRefusal, LanguageText, StandardLanguage};
use std::alloc::{AllocError, Global};
use wb_base::Bytes;
use wb_compose_files::{FileRefusal, HostRefusal, NextRefusal};
use wb_report::{Outcome, Refusal, report};
use wb_terms::{PrintRefusal, print_value};
use wb_values::{TreeId, TreeStore, Value};

// Makes a note of these bytes.
pub(crate) fn note_bytes(note: &mut Vec<u8>, bytes: &[u8]) -> Result<(), AllocError>
    ensures { OnOk result (note.new.items ≡ bytes.now) }
{
    note.clear();
    note.extend_from_slice(bytes)
}

// Makes a note of the report of an outcome.
pub(crate) fn note_outcome(
    alloc: Global,
    outcome: Outcome,
    note: &mut Vec<u8>,
) -> Result<(), AllocError>
    ensures { OnOk result (note.new.items ≡ report_of outcome) }
{
    match report(alloc, outcome) {
        Ok(lines) => {
            *note = lines;
            Ok(())
        }
        Err(error) => Err(error),
    }
}

// Makes a note of why a file of this name is refused.
fn note_refused(
    alloc: Global,
    name: &[u8],
    refusal: Refusal,
    note: &mut Vec<u8>,
) -> Result<(), AllocError>
    ensures { OnOk result (note.new.items ≡ report_of (Outcome.Refused name.now refusal)) }
{
    match Bytes::from_slice(alloc, name) {
        Ok(file) => note_outcome(alloc, Outcome::Refused { file, refusal }, note),
        Err(error) => {
            drop(refusal);
            Err(error)
        }
    }
}

// Makes a note of the other host that an extension of this name is for.
fn note_other(alloc: Global, name: &[u8], host: Bytes, note: &mut Vec<u8>) -> Result<(), AllocError>
    ensures { OnOk result (note.new.items ≡ report_of (Outcome.WrongHost name.now host)) }
{
    match Bytes::from_slice(alloc, name) {
        Ok(file) => note_outcome(alloc, Outcome::WrongHost { file, host }, note),
        Err(error) => {
            drop(host);
            Err(error)
        }
    }
}

// Makes a note of why contents are no host, and answers the refusal.
pub(crate) fn note_host(
    alloc: Global,
    name: &[u8],
    refusal: HostRefusal,
    note: &mut Vec<u8>,
) -> CallRefusal
    ensures { (contents : List ℕ) (reason : Told) → IsHostRefusal standard_signatures contents refusal → IsHostReason refusal reason → IsHostRefused contents name.now note.new.items reason result }
{
    match refusal {
        HostRefusal::Specification(reason) => match note_refused(alloc, name, reason, note) {
            Ok(()) => CallRefusal::SpecRefused,
            Err(_) => CallRefusal::NoMemory,
        },
        HostRefusal::Certification(reason) => match note_refused(alloc, name, reason, note) {
            Ok(()) => CallRefusal::NotCertified,
            Err(_) => CallRefusal::NoMemory,
        },
        HostRefusal::NoMemory(_) => CallRefusal::NoMemory,
    }
}

// Makes a note of why contents are no extension after those of a host, and answers the refusal.
pub(crate) fn note_extension(
    alloc: Global,
    name: &[u8],
    refusal: NextRefusal,
    note: &mut Vec<u8>,
) -> CallRefusal
    ensures { (host : CertifiedParts) (contents : List ℕ) (reason : Told) → IsNextRefusal standard_signatures host.host.resolved (all_resolved host.extensions) contents refusal → IsNextReason refusal reason → IsExtensionRefused contents name.now note.new.items reason host result }
{
    match refusal {
        NextRefusal::Header(reason) => note_file(alloc, name, reason, note),
        NextRefusal::Duplicate(taken) => {
            match note_outcome(alloc, Outcome::DuplicateExtension(taken), note) {
                Ok(()) => CallRefusal::DuplicateExtension,
                Err(_) => CallRefusal::NoMemory,
            }
        }
        NextRefusal::Later(reason) => note_file(alloc, name, reason, note),
    }
}

// Makes a note of why a file is no extension, and answers the refusal.
fn note_file(alloc: Global, name: &[u8], refusal: FileRefusal, note: &mut Vec<u8>) -> CallRefusal
    ensures { (host : CertifiedParts) (contents : List ℕ) (reason : Told) → IsFileRefused host contents refusal → IsFileReason refusal reason → IsExtensionRefused contents name.now note.new.items reason host result }
{
    match refusal {
        FileRefusal::Specification(reason) => match note_refused(alloc, name, reason, note) {
            Ok(()) => CallRefusal::SpecRefused,
            Err(_) => CallRefusal::NoMemory,
        },
        FileRefusal::WrongHost(host) => match note_other(alloc, name, host, note) {
            Ok(()) => CallRefusal::WrongHost,
            Err(_) => CallRefusal::NoMemory,
        },
        FileRefusal::Certification(reason) => match note_refused(alloc, name, reason, note) {
            Ok(()) => CallRefusal::NotCertified,
            Err(_) => CallRefusal::NoMemory,
        },
        FileRefusal::NoMemory(_) => CallRefusal::NoMemory,
    }
}

// Makes a note of the name of a production.
pub(crate) fn note_production(
    language: &StandardLanguage,
    production: usize,
    note: &mut Vec<u8>,
) -> Result<(), CallRefusal>
    ensures ok { OnOk result (IsName language.now.signatures production note.new.items) }
    ensures refused { IfErr result (IsPlaceRefusal (length language.now.signatures ≤ production)) }
{
    let signatures = language.inner().signatures();
    if production >= signatures.len() {
        return Err(CallRefusal::OutOfRange);
    }
    match note_bytes(note, signatures.name(production)) {
        Ok(()) => Ok(()),
        Err(_) => Err(CallRefusal::NoMemory),
    }
}

// Makes a note of the name of a terminal.
pub(crate) fn note_terminal(
    language: &StandardLanguage,
    terminal: usize,
    note: &mut Vec<u8>,
) -> Result<(), CallRefusal>
    ensures ok { OnOk result (IsTerminalName language.now.terminals terminal note.new.items) }
    ensures refused { IfErr result (IsPlaceRefusal (length language.now.terminals ≤ terminal)) }
{
    let terminals = language.inner().terminals();
    if terminal >= terminals.len() {
        return Err(CallRefusal::OutOfRange);
    }
    match note_bytes(note, terminals[terminal].as_slice()) {
        Ok(()) => Ok(()),
        Err(_) => Err(CallRefusal::NoMemory),
    }
}

// Makes a note of the text of a leaf, the child of a node at a place, counted from 0.
pub(crate) fn note_leaf(
    store: &TreeStore,
    node: usize,
    place: usize,
    note: &mut Vec<u8>,
) -> Result<(), CallRefusal>
    ensures ok { OnOk result (IsLeafText store.now node place note.new.items) }
    ensures refused { IfErr result (IsPlaceRefusal (HasNoText store.now node place)) }
{
    if node >= store.len() || place >= store.arity(TreeId(node)) {
        return Err(CallRefusal::OutOfRange);
    }
    match store.child(TreeId(node), place) {
        Ok(Value::Text(bytes)) => {
            let made = note_bytes(note, bytes.as_slice());
            drop(bytes);
            match made {
                Ok(()) => Ok(()),
                Err(_) => Err(CallRefusal::NoMemory),
            }
        }
        Ok(Value::Int(_)) => Err(CallRefusal::OutOfRange),
        Ok(Value::Bool(_)) => Err(CallRefusal::OutOfRange),
        Ok(Value::Tree(_)) => Err(CallRefusal::OutOfRange),
        Err(_) => Err(CallRefusal::NoMemory),
    }
}

// Makes a note of the printed tree at a node.
pub(crate) fn note_tree(
    alloc: Global,
    text: &LanguageText,
    node: usize,
    note: &mut Vec<u8>,
) -> Result<(), CallRefusal>
    ensures ok { OnOk result (IsPrinted text.now node note.new.items) }
    ensures refused { IfErr result (IsPrintRefusal text.now node) }
{
    let store = text.store();
    if node >= store.len() {
        return Err(CallRefusal::OutOfRange);
    }
    let value = Value::Tree(TreeId(node));
    match print_value(alloc, &value, text.language().inner().signatures(), store) {
        Ok(printed) => {
            *note = printed;
            Ok(())
        }
        Err(PrintRefusal::TooLong) => Err(CallRefusal::TooLongToPrint),
        Err(PrintRefusal::NoMemory(_)) => Err(CallRefusal::NoMemory),
    }
}
