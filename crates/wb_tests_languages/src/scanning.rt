//! Which token is next in a small text, at the beginning of a sentence?

use crate::sample::{Sample, language};
use crate::samples::{CONTEXTS, KEYWORDS, LAYOUTS};
use std::alloc::Global;
use wb_scan::{Language, Scanned, examined, scan, scan_examined};

// What is next: a token of a terminal from one position to another, the end, or nothing.
#[derive(Clone, Copy)]
enum Wanted {
    Token(usize, usize, usize),
    End(usize),
    NoToken(usize),
}

// A sample, a text, where the scan begins in it, what is next there at the beginning of a sentence, and before which place the bytes have to
// be looked at to see it.
type Row = (&'static Sample, &'static str, usize, Wanted, usize);

// The answer to a scan. The form of a token has no prefix.
fn scanned(wanted: Wanted) -> Scanned {
    match wanted {
        Wanted::Token(terminal, at, end) => Scanned::Token {
            terminal,
            at,
            lexeme: at,
            end,
        },
        Wanted::End(at) => Scanned::End { at },
        Wanted::NoToken(at) => Scanned::NoToken { at },
    }
}

fn is_next_in(language: &Language, row: &Row) -> bool {
    let (_, text, at, wanted, to) = *row;
    if language.tables().count() == 0 || at > text.len() {
        return false;
    }
    let next = scan_examined(language, 0, text.as_bytes(), at);
    next.scanned == scanned(wanted)
        && next.examined == to
        && scan(language, 0, text.as_bytes(), at) == next.scanned
        && examined(language, 0, text.as_bytes(), at) == to
}

fn is_next(alloc: Global, row: &Row) -> bool {
    match language(alloc, row.0) {
        Ok(language) => {
            let is = is_next_in(&language, row);
            language.release();
            is
        }
        Err(_) => false,
    }
}

fn are_next(alloc: Global, rows: &[Row]) -> bool {
    for row in rows {
        if !is_next(alloc, row) {
            return false;
        }
    }
    true
}

static NEXT: [Row; 9] = [
    (&KEYWORDS, "  if x", 0, Wanted::Token(0, 2, 4), 5),
    (&KEYWORDS, "  if x", 3, Wanted::Token(1, 3, 4), 5),
    (&KEYWORDS, "ifs", 0, Wanted::Token(1, 0, 3), 4),
    (&KEYWORDS, "  ", 0, Wanted::End(2), 3),
    (&KEYWORDS, "", 0, Wanted::End(0), 1),
    (&KEYWORDS, " 7", 0, Wanted::NoToken(1), 2),
    (&CONTEXTS, "aa", 0, Wanted::Token(0, 0, 1), 2),
    (&CONTEXTS, "ba", 0, Wanted::NoToken(0), 1),
    (&LAYOUTS, "-----", 2, Wanted::Token(0, 2, 5), 6),
];

#[test]
fn what_is_considered_is_next(rt: HostRuntime) {
    assert!(rt; are_next(rt.alloc(), &NEXT));
}
