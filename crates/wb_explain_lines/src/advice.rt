//! What is there to say of a code, a status and a fault, and how is a command written?
//!
//! One text each, in tables by subject. A text says what the code means, and then what mends it.

mod attributes;
mod certificates;
mod extensions;
mod faults;
mod grammars;
mod names;
mod specifications;
mod statuses;
mod usage;

use attributes::ATTRIBUTES;
use certificates::CERTIFICATES;
use extensions::EXTENSIONS;
use faults::FAULTS;
use grammars::GRAMMARS;
use names::NAMES;
use specifications::SPECIFICATIONS;
use statuses::STATUSES;
use usage::COMMANDS;

// What is said of one thing.
pub(crate) struct Advice {
    // The code, or the words by which it is found.
    pub of: &'static str,
    // What it means and what mends it: lines, each ended by a line feed but the last.
    pub text: &'static str,
}

// What is said of a code of a refusal.
pub(crate) fn of_code(code: &[u8]) -> Option<&'static str> {
    if let Some(text) = found(&SPECIFICATIONS, code) {
        return Some(text);
    }
    if let Some(text) = found(&NAMES, code) {
        return Some(text);
    }
    if let Some(text) = found(&GRAMMARS, code) {
        return Some(text);
    }
    if let Some(text) = found(&ATTRIBUTES, code) {
        return Some(text);
    }
    if let Some(text) = found(&EXTENSIONS, code) {
        return Some(text);
    }
    found(&CERTIFICATES, code)
}

// What is said of a status, by its number.
pub(crate) fn of_status(status: u8) -> Option<&'static str> {
    for (number, text) in &STATUSES {
        if *number == status {
            return Some(*text);
        }
    }
    None
}

// What is said of the fault of a standard operation, by its code.
pub(crate) fn of_fault(code: &[u8]) -> Option<&'static str> {
    found(&FAULTS, code)
}

// How the command of this first word is written.
pub(crate) fn usage_of(verb: &[u8]) -> Option<&'static str> {
    found(&COMMANDS, verb)
}

// The text of a row.
fn found(rows: &'static [Advice], of: &[u8]) -> Option<&'static str> {
    for row in rows {
        if row.of.as_bytes() == of {
            return Some(row.text);
        }
    }
    None
}
