//! Does a session of a long text take many edits, each of which rests on little, and is no text longer than its limit?
//!
//! A session that parses anew builds 500,000 nodes for each of 5,000 edits, and its store fits no machine.

ghost use Rattle.std.specs.Prelude.{◌≤◌, length};

use crate::editing::agrees;
use crate::sample::{add_signatures, language};
use crate::samples::LISTS;
use std::alloc::{AllocError, Global};
use wb_parser::Parsed;
use wb_scan::Language;
use wb_session::{EditRefusal, Session};
use wb_values::Signatures;

// So many times a text.
fn repeated(alloc: Global, text: &str, count: usize) -> Result<Vec<u8>, AllocError> {
    let mut bytes = Vec::new(alloc);
    for _ in 0..count {
        bytes.extend_from_slice(text.as_bytes())?;
    }
    Ok(bytes)
}

// Whether so many edits of one byte at these places are taken, each with a tree.
fn takes_edits(session: &mut Session, from: usize, to: usize, count: usize) -> bool {
    for number in 0..count {
        let byte = if number % 2 == 0 { b"2" } else { b"1" };
        if session.edit(from, to, byte).is_err() {
            return false;
        }
        if !matches!(session.answer(), Parsed::Tree(_)) {
            return false;
        }
    }
    true
}

fn stays_small_in(alloc: Global, language: &Language, signatures: &Signatures, text: &[u8]) -> bool
    requires { length text.now ≤ 1048576 }
{
    match Session::open(alloc, language, text) {
        Ok(mut session) => {
            takes_edits(&mut session, 999_998, 999_999, 5_000)
                && agrees(alloc, language, signatures, &session)
        }
        Err(_) => false,
    }
}

fn stays_small_with(alloc: Global, language: &Language, text: &[u8]) -> bool {
    if text.len() > 1_048_576 {
        return false;
    }
    let sample = &LISTS;
    let mut signatures = Signatures::new(alloc);
    add_signatures(alloc, sample.rules, &mut signatures)
        && stays_small_in(alloc, language, &signatures, text)
}

fn stays_small_on(alloc: Global, text: &[u8]) -> bool {
    match language(alloc, &LISTS) {
        Ok(language) => {
            let small = stays_small_with(alloc, &language, text);
            language.release();
            small
        }
        Err(_) => false,
    }
}

fn stays_small(alloc: Global) -> bool {
    match repeated(alloc, "1 ", 500_000) {
        Ok(text) => stays_small_on(alloc, &text),
        Err(_) => false,
    }
}

#[test]
fn five_thousand_edits_of_a_long_text_are_done(rt: HostRuntime) {
    assert!(rt; stays_small(rt.alloc()));
}

// Whether a text that is as long as it may be is kept by an edit that would make it longer, and may be edited otherwise.
fn keeps_limit_in(alloc: Global, language: &Language, text: &[u8]) -> bool
    requires { length text.now ≤ 1048576 }
{
    match Session::open(alloc, language, text) {
        Ok(mut session) => {
            matches!(session.edit(0, 0, b" "), Err(EditRefusal::TooLong))
                && matches!(session.edit(0, 1, b"  "), Err(EditRefusal::TooLong))
                && matches!(session.edit(1, 0, b" "), Err(EditRefusal::OutOfRange))
                && session.text().len() == 1_048_576
                && session.edit(0, 1, b"1").is_ok()
                && session.edit(0, 1_048_576, b"").is_ok()
                && session.text().is_empty()
        }
        Err(_) => false,
    }
}

fn keeps_limit_on(alloc: Global, text: &[u8]) -> bool {
    if text.len() > 1_048_576 {
        return false;
    }
    match language(alloc, &LISTS) {
        Ok(language) => {
            let keeps = keeps_limit_in(alloc, &language, text);
            language.release();
            keeps
        }
        Err(_) => false,
    }
}

fn keeps_limit(alloc: Global) -> bool {
    match repeated(alloc, " ", 1_048_576) {
        Ok(text) => keeps_limit_on(alloc, &text),
        Err(_) => false,
    }
}

#[test]
fn an_edit_that_makes_a_text_too_long_is_refused(rt: HostRuntime) {
    assert!(rt; keeps_limit(rt.alloc()));
}
