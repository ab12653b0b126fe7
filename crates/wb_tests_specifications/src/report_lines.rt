//! Is each outcome reported by its line? The outcomes are in `report_refusals`, `report_attributes` and `report_outcomes`.
//!
//! Out of memory, a text or list is empty and the lines differ. So a test doesn't end early with an outcome alive.

use crate::report_attributes::attribute_reason;
use crate::report_outcomes::{done, outcome};
use crate::report_refusals::{extension_reason, grammar_reason, spec_reason, term_reason};
use std::alloc::Global;
use wb_base::{Bytes, Sequence};
use wb_report::{Outcome, Refusal, report};

// What is reported: the result of a command, an outcome that refuses no file, or the reason why the file `f` is refused.
#[derive(Clone, Copy)]
pub(crate) enum Reported {
    Ends,
    Others,
    Written,
    Terms,
    Grammars,
    Extensions,
    Attributes,
}

// The outcome of this number.
fn outcome_of(alloc: Global, reported: Reported, number: usize) -> Outcome {
    match reported {
        Reported::Ends => Outcome::Done(done(alloc, number)),
        Reported::Others => outcome(alloc, number),
        Reported::Written => refused(alloc, Refusal::Specification(spec_reason(alloc, number))),
        Reported::Terms => refused(alloc, Refusal::Term(term_reason(number))),
        Reported::Grammars => refused(alloc, Refusal::Grammar(grammar_reason(alloc, number))),
        Reported::Extensions => refused(alloc, Refusal::Extension(extension_reason(alloc, number))),
        Reported::Attributes => refused(
            alloc,
            Refusal::Attributes(attribute_reason(alloc, number)),
        ),
    }
}

// The outcome that the file `f` is refused for this reason.
fn refused(alloc: Global, refusal: Refusal) -> Outcome {
    let file = text(alloc, "f");
    Outcome::Refused { file, refusal }
}

// Whether each of these is reported by the lines of its number.
pub(crate) fn are_reported(alloc: Global, reported: Reported, rows: &[&str]) -> bool {
    for (number, lines) in rows.iter().enumerate() {
        if !is_reported(alloc, outcome_of(alloc, reported, number), *lines) {
            return false;
        }
    }
    true
}

// Whether the outcome is reported by these lines.
fn is_reported(alloc: Global, outcome: Outcome, lines: &str) -> bool {
    match report(alloc, outcome) {
        Ok(reported) => reported.as_slice() == lines.as_bytes(),
        Err(_) => false,
    }
}

// A text.
pub(crate) fn text(alloc: Global, written: &str) -> Bytes {
    match Bytes::from_slice(alloc, written.as_bytes()) {
        Ok(made) => made,
        Err(_) => Bytes::empty(),
    }
}

// Two texts.
pub(crate) fn texts(alloc: Global, first: &str, second: &str) -> Sequence<Bytes> {
    match vec![in alloc; text(alloc, first), text(alloc, second)] {
        Ok(both) => Sequence::from_vec(both),
        Err(_) => Sequence::from_vec(Vec::new(alloc)),
    }
}

// Bytes as a list.
pub(crate) fn bytes(alloc: Global, written: &str) -> Sequence<u8> {
    match Vec::from_slice(alloc, written.as_bytes()) {
        Ok(made) => Sequence::from_vec(made),
        Err(_) => Sequence::from_vec(Vec::new(alloc)),
    }
}
