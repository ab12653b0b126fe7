//! Is a refusal the expected one?
//!
//! An expected answer is a code with the names of the parts that the refusal shows. An empty name matches any part.

use crate::parts::{Part, has_name, is_name, is_terminal};
use crate::shown::{shown, shown_of_names};
use std::alloc::Global;
use wb_base::Symbol;
use wb_certify_host::CertifyRefusal;
use wb_determinism_host::DeterminismRefusal;
use wb_names_theory::NameRefusal;
use wb_reader::read_spec;
use wb_syntax::Spec;
use wb_syntax_resolved::Resolved;

// A code and the names of three parts.
pub(crate) type Answer = (&'static str, &'static str, &'static str, &'static str);

// A text and its expected answer.
pub(crate) type Row = (&'static str, Answer);

// The specification of a text.
pub(crate) fn spec_of(alloc: Global, text: &str) -> Option<Spec> {
    match read_spec(alloc, text.as_bytes()) {
        Ok(spec) => Some(spec),
        Err(refusal) => {
            refusal.release();
            None
        }
    }
}

// Whether a refusal of a file with this text, whose names are right, is the expected one.
pub(crate) fn shows(
    resolved: &Resolved,
    text: &str,
    refusal: &CertifyRefusal,
    answer: &Answer,
) -> bool {
    let (code, first, second, third) = shown(refusal);
    code == answer.0
        && has_name(resolved, text, first, answer.1)
        && has_name(resolved, text, second, answer.2)
        && has_name(resolved, text, third, answer.3)
        && has_prefix(resolved, refusal)
}

// Whether a refusal of a kernel that only an extension has shows one that comes after C.
fn has_prefix(resolved: &Resolved, refusal: &CertifyRefusal) -> bool {
    match refusal {
        CertifyRefusal::Determinism(DeterminismRefusal::Envelope { prefix, .. }) => {
            ends_in(resolved, prefix.as_slice(), "C")
        }
        _ => true,
    }
}

// Whether the last symbol is the terminal of this name.
fn ends_in(resolved: &Resolved, symbols: &[Symbol], name: &str) -> bool {
    match symbols.last() {
        Some(Symbol::Terminal(number)) => is_terminal(resolved, *number, name),
        _ => false,
    }
}

// Whether a refusal for names is the expected one.
pub(crate) fn shows_name(refusal: &NameRefusal, answer: &Answer) -> bool {
    match shown_of_names(refusal) {
        (code, Part::Text(name), _, _) => code == answer.0 && is_name(name, answer.1),
        _ => false,
    }
}
