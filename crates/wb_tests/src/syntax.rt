//! Is a copy of a specification printed like the specification?

use std::alloc::{AllocError, Global};
use wb_reader::read_spec;
use wb_reader_printer::print_spec;
use wb_syntax::Spec;
use wb_tests_runs::MINI;

// Whether this is the canonical text of a specification.
fn is_printed(alloc: Global, spec: &Spec, text: &[u8]) -> Result<bool, AllocError> {
    Ok(print_spec(alloc, spec)?.as_slice() == text)
}

// Whether this is the canonical text of a copy.
fn is_copy_printed(alloc: Global, spec: &Spec, text: &[u8]) -> Result<bool, AllocError> {
    let copy = spec.copy()?;
    let is = is_printed(alloc, &copy, text);
    copy.release();
    is
}

// Whether a specification and its copy have the same canonical text.
fn is_copied(alloc: Global, spec: &Spec) -> Result<bool, AllocError> {
    let text = print_spec(alloc, spec)?;
    is_copy_printed(alloc, spec, &text)
}

// Whether the specification of a text and its copy have the same canonical text.
fn is_text_copied(alloc: Global, text: &str) -> bool {
    match read_spec(alloc, text.as_bytes()) {
        Ok(spec) => {
            let is = matches!(is_copied(alloc, &spec), Ok(true));
            spec.release();
            is
        }
        Err(refusal) => {
            refusal.release();
            false
        }
    }
}

static TEXT: &str = MINI;

#[test]
fn a_copy_is_printed_alike(rt: HostRuntime) {
    assert!(rt; is_text_copied(rt.alloc(), TEXT));
}
