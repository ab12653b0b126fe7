//! What could come where a small text stops, and which word of the language is there?

use crate::sample::{Sample, language};
use crate::samples::{CONTEXTS, KEYWORDS, LAYOUTS, LISTS, POINTERS};
use std::alloc::Global;
use wb_parser_expected::{Stop, stop_of, word_at};
use wb_scan::Language;

// A sample, a text that stops, and where it stops; the terminals that could come there, with the end after them; and the end of the longest
// word there.
type Row = (
    &'static Sample,
    &'static str,
    usize,
    &'static [usize],
    Option<usize>,
);

// Whether the terminals are these.
fn are(terminals: &[usize], wanted: &[usize]) -> bool {
    terminals == wanted
}

// Whether the stop is this.
fn is_stop(stop: &Stop, row: &Row) -> bool {
    stop.at == row.2 && are(&stop.terminals, row.3)
}

// Whether the longest word at the stop ends there.
fn has_word(language: &Language, row: &Row) -> bool {
    let (_, text, at, _, wanted) = *row;
    if at > text.len() {
        return false;
    }
    match (word_at(language, text.as_bytes(), at), wanted) {
        (Some(word), Some(end)) => word.end == end,
        (None, None) => true,
        _ => false,
    }
}

fn stops_in(alloc: Global, language: &Language, row: &Row) -> bool {
    match stop_of(alloc, language, row.1.as_bytes()) {
        Ok(Some(stop)) => {
            let stops = is_stop(&stop, row);
            drop(stop);
            stops && has_word(language, row)
        }
        _ => false,
    }
}

fn stops(alloc: Global, row: &Row) -> bool {
    match language(alloc, row.0) {
        Ok(language) => {
            let stops = stops_in(alloc, &language, row);
            language.release();
            stops
        }
        Err(_) => false,
    }
}

fn all_stop(alloc: Global, rows: &[Row]) -> bool {
    for row in rows {
        if !stops(alloc, row) {
            return false;
        }
    }
    true
}

static STOPS: [Row; 12] = [
    (&KEYWORDS, "", 0, &[0, 1], None),
    (&KEYWORDS, "if", 2, &[1], None),
    (&KEYWORDS, "if 7", 3, &[1], None),
    (&KEYWORDS, "iffy x", 5, &[2], Some(6)), // the end alone, and a name is there
    (&KEYWORDS, "if if if", 6, &[2], Some(8)),
    (&LISTS, "7 x", 2, &[0, 1], None),
    (&POINTERS, "=a", 0, &[0, 2], Some(1)),
    (&POINTERS, "a=", 2, &[0, 2], None),
    (&POINTERS, "a=b=c", 3, &[3], Some(4)), // the tables have a reduction before the sign
    (&POINTERS, "a b", 1, &[1, 3], None),
    (&CONTEXTS, "aa", 1, &[1], Some(2)),
    (&LAYOUTS, "a", 0, &[0, 1, 2], None),
];

#[test]
fn stops_tell_what_could_come_and_what_is_there(rt: HostRuntime) {
    assert!(rt; all_stop(rt.alloc(), &STOPS));
}

static WHOLE: [(&'static Sample, &'static str); 3] = [
    (&KEYWORDS, "if x"),
    (&LISTS, ""),
    (&POINTERS, "*a=b"),
];

fn is_whole(alloc: Global, sample: &Sample, text: &str) -> bool {
    match language(alloc, sample) {
        Ok(language) => {
            let whole = matches!(stop_of(alloc, &language, text.as_bytes()), Ok(None));
            language.release();
            whole
        }
        Err(_) => false,
    }
}

fn all_whole(alloc: Global, rows: &[(&'static Sample, &'static str)]) -> bool {
    for (sample, text) in rows {
        if !is_whole(alloc, *sample, *text) {
            return false;
        }
    }
    true
}

#[test]
fn texts_with_a_tree_have_no_stop(rt: HostRuntime) {
    assert!(rt; all_whole(rt.alloc(), &WHOLE));
}
