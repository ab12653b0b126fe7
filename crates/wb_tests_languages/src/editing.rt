//! Does a session answer after each edit what a parse of its text answers?

ghost use Rattle.std.specs.Prelude.{◌<◌, ◌≤◌, length};

use crate::sample::{Sample, add_signatures, language};
use crate::samples::{KEYWORDS, LISTS, STATEMENTS};
use std::alloc::Global;
use wb_parser::{Parsed, parse};
use wb_scan::Language;
use wb_session::{EditRefusal, LeafPlace, Session};
use wb_terms::print_value;
use wb_values::{Signatures, TreeId, TreeStore, Value};

fn is_printed(
    alloc: Global,
    signatures: &Signatures,
    store: &TreeStore,
    tree: TreeId,
    printed: &[u8],
) -> bool
    requires { tree.0 < length store.now }
{
    match print_value(alloc, &Value::Tree(tree), signatures, store) {
        Ok(text) => text.as_slice() == printed,
        Err(_) => false,
    }
}

// Whether the session's answer is this one of a parse into the store. Trees are compared as they print.
fn is_answer(
    alloc: Global,
    signatures: &Signatures,
    session: &Session,
    parsed: Parsed,
    store: &TreeStore,
) -> bool {
    match (*session.answer(), parsed) {
        (Parsed::Tree(tree), Parsed::Tree(same)) => {
            if tree.0 >= session.store().len() || same.0 >= store.len() {
                return false;
            }
            match print_value(alloc, &Value::Tree(same), signatures, store) {
                Ok(text) => is_printed(alloc, signatures, session.store(), tree, text.as_slice()),
                Err(_) => false,
            }
        }
        (answer, parsed) => answer == parsed,
    }
}

// Whether the session's answer is that of a parse of its text.
pub(crate) fn agrees(
    alloc: Global,
    language: &Language,
    signatures: &Signatures,
    session: &Session,
) -> bool {
    let mut store = TreeStore::new(alloc);
    match parse(alloc, language, session.text(), &mut store) {
        Ok(parsed) => is_answer(alloc, signatures, session, parsed, &store),
        Err(_) => false,
    }
}

// A byte for the edit of this number.
fn byte_of(number: usize) -> u8 {
    let bytes = b"x; 1*({=\n)t+}";
    bytes[number % bytes.len()]
}

// Edits and puts back what was there: a byte in the place of another, one that is added, or one that is taken away. Answers whether the
// session's answers are those of a parse.
fn edit_and_back(
    alloc: Global,
    language: &Language,
    signatures: &Signatures,
    session: &mut Session,
    number: usize,
) -> bool {
    let len = session.text().len();
    if len == 0 {
        return false;
    }
    let from = number.wrapping_mul(37) % len;
    let old = [session.text()[from]];
    let new = [byte_of(number)];
    let (to, with, end): (usize, &[u8], usize) = match number % 3 {
        0 => (from + 1, &new, from + 1),
        1 => (from, &new, from + 1),
        _ => (from + 1, &[], from),
    };
    let back: &[u8] = if number % 3 == 1 { &[] } else { &old };
    session.edit(from, to, with).is_ok()
        && agrees(alloc, language, signatures, session)
        && session.edit(from, end, back).is_ok()
        && agrees(alloc, language, signatures, session)
}

fn edits_agree_in(
    alloc: Global,
    language: &Language,
    signatures: &Signatures,
    session: &mut Session,
    count: usize,
) -> bool {
    'edits: for number in 0..count {
        if !edit_and_back(alloc, language, signatures, session, number) {
            return false;
        }
    }
    true
}

fn edits_agree_on(alloc: Global, language: &Language, row: &Row) -> bool {
    let (sample, text, count) = *row;
    if text.len() > 1024 {
        return false;
    }
    let mut signatures = Signatures::new(alloc);
    if !add_signatures(alloc, sample.rules, &mut signatures) {
        return false;
    }
    match Session::open(alloc, language, text.as_bytes()) {
        Ok(mut session) => {
            agrees(alloc, language, &signatures, &session)
                && edits_agree_in(alloc, language, &signatures, &mut session, count)
        }
        Err(_) => false,
    }
}

fn edits_agree(alloc: Global, row: &Row) -> bool {
    match language(alloc, row.0) {
        Ok(language) => {
            let agree = edits_agree_on(alloc, &language, row);
            language.release();
            agree
        }
        Err(_) => false,
    }
}

fn all_agree(alloc: Global, rows: &[Row]) -> bool {
    for row in rows {
        if !edits_agree(alloc, row) {
            return false;
        }
    }
    true
}

// A sample, a text, and how many pairs of edits are tried on it.
type Row = (&'static Sample, &'static str, usize);

static EDITED: [Row; 3] = [
    (
        &STATEMENTS,
        "let x = 2 + 3;\nprint square(x) * 2;\ntwice { print x; }",
        100,
    ),
    (&KEYWORDS, "iff y", 20),
    (&LISTS, " 1 23  4 ", 20),
];

#[test]
fn edits_of_one_byte_answer_as_a_parse(rt: HostRuntime) {
    assert!(rt; all_agree(rt.alloc(), &EDITED));
}

// Whether places that are out of order or past the end are refused, and leave the text.
fn refuses_in(alloc: Global, language: &Language) -> bool {
    match Session::open(alloc, language, b"1 2") {
        Ok(mut session) => {
            matches!(session.edit(4, 4, b""), Err(EditRefusal::OutOfRange))
                && matches!(session.edit(2, 1, b""), Err(EditRefusal::OutOfRange))
                && session.text() == b"1 2".as_slice()
                && session.edit(3, 3, b" 3").is_ok()
                && session.text() == b"1 2 3".as_slice()
        }
        Err(_) => false,
    }
}

fn refuses(alloc: Global) -> bool {
    match language(alloc, &LISTS) {
        Ok(language) => {
            let refuses = refuses_in(alloc, &language);
            language.release();
            refuses
        }
        Err(_) => false,
    }
}

#[test]
fn edits_that_do_not_fit_are_refused(rt: HostRuntime) {
    assert!(rt; refuses(rt.alloc()));
}

fn is_piece(text: &[u8], place: LeafPlace, piece: &str) -> bool {
    place.lexeme == place.begin
        && place.begin <= place.end
        && place.end <= text.len()
        && &text[place.begin..place.end] == piece.as_bytes()
}

// Whether the leaves of a session are these pieces of its text, in order.
fn has_leaves(session: &Session, pieces: &[&str]) -> bool {
    for number in 0..pieces.len() {
        match session.place_of(number) {
            Some(place) => {
                if !is_piece(session.text(), place, pieces[number]) {
                    return false;
                }
            }
            None => return false,
        }
    }
    session.leaves() == pieces.len() && session.place_of(pieces.len()).is_none()
}

fn are_placed_on(alloc: Global, language: &Language, row: &PlacedRow) -> bool {
    if row.text.len() > 1024 {
        return false;
    }
    match Session::open(alloc, language, row.text.as_bytes()) {
        Ok(mut session) => {
            has_leaves(&session, row.leaves)
                && session.edit(row.from, row.to, row.with.as_bytes()).is_ok()
                && has_leaves(&session, row.leaves_after)
                && session.release().is_ok()
                && has_leaves(&session, row.leaves_after)
        }
        Err(_) => false,
    }
}

fn are_placed(alloc: Global, row: &PlacedRow) -> bool {
    match language(alloc, row.sample) {
        Ok(language) => {
            let placed = are_placed_on(alloc, &language, row);
            language.release();
            placed
        }
        Err(_) => false,
    }
}

fn all_placed(alloc: Global, rows: &[PlacedRow]) -> bool {
    for row in rows {
        if !are_placed(alloc, row) {
            return false;
        }
    }
    true
}

// A text with its leaves, and an edit with the leaves after it.
struct PlacedRow {
    sample: &'static Sample,
    text: &'static str,
    leaves: &'static [&'static str],
    from: usize,
    to: usize,
    with: &'static str,
    leaves_after: &'static [&'static str],
}

static PLACED: [PlacedRow; 4] = [
    PlacedRow {
        sample: &LISTS,
        text: " 1 23  4 ",
        leaves: &["1", "23", "4"],
        from: 2,
        to: 2,
        with: " 5",
        leaves_after: &["1", "5", "23", "4"],
    },
    PlacedRow {
        sample: &KEYWORDS,
        text: "iff y",
        leaves: &["iff"],
        from: 2,
        to: 3,
        with: "",
        leaves_after: &["if", "y"],
    },
    PlacedRow {
        sample: &STATEMENTS,
        text: "let x = 2 + 3;",
        leaves: &["let", "x", "=", "2", "+", "3", ";"],
        from: 4,
        to: 5,
        with: "xyz ",
        leaves_after: &["let", "xyz", "=", "2", "+", "3", ";"],
    },
    PlacedRow {
        sample: &STATEMENTS,
        text: "let x = 2 + 3;",
        leaves: &["let", "x", "=", "2", "+", "3", ";"],
        from: 8,
        to: 9,
        with: "",
        leaves_after: &["let", "x", "="],
    },
];

#[test]
fn leaves_are_where_they_stand_in_the_text(rt: HostRuntime) {
    assert!(rt; all_placed(rt.alloc(), &PLACED));
}

// Whether a release leaves the answer, and as many trees as a session that is opened with the text has.
fn releases_in(alloc: Global, language: &Language, signatures: &Signatures) -> bool {
    match Session::open(alloc, language, b"1 2 3") {
        Ok(mut session) => {
            let opened = session.store().len();
            let edited = session.edit(0, 1, b"4").is_ok() && session.edit(0, 1, b"5").is_ok();
            let grown = session.store().len() > opened;
            let released = session.release().is_ok();
            edited
                && grown
                && released
                && session.store().len() == opened
                && agrees(alloc, language, signatures, &session)
        }
        Err(_) => false,
    }
}

fn releases(alloc: Global, sample: &Sample) -> bool {
    let mut signatures = Signatures::new(alloc);
    if !add_signatures(alloc, sample.rules, &mut signatures) {
        return false;
    }
    match language(alloc, sample) {
        Ok(language) => {
            let releases = releases_in(alloc, &language, &signatures);
            language.release();
            releases
        }
        Err(_) => false,
    }
}

#[test]
fn a_release_drops_the_trees_of_earlier_texts(rt: HostRuntime) {
    assert!(rt; releases(rt.alloc(), &LISTS));
}

// Whether an edit at the beginning of a list of statements builds the nodes above it anew and leaves those behind it.
fn saves_in(alloc: Global, language: &Language, signatures: &Signatures) -> bool {
    let text =
        "let x = 2 + 3; print x; let y = 4; print (y * 2) + x; let z = 5 * 6; print z; print 7 + 8 + 9; print x * y * z;";
    match Session::open(alloc, language, text.as_bytes()) {
        Ok(mut session) => match session.edit(8, 9, b"1") {
            Ok(done) => {
                // the number, its factor, term and expression, the sum, the statement, and eight lists of statements
                done.built <= 15
                    && done.scanned == 2
                    && done.known > 30
                    && agrees(alloc, language, signatures, &session)
            }
            Err(_) => false,
        },
        Err(_) => false,
    }
}

fn saves(alloc: Global, sample: &Sample) -> bool {
    let mut signatures = Signatures::new(alloc);
    if !add_signatures(alloc, sample.rules, &mut signatures) {
        return false;
    }
    match language(alloc, sample) {
        Ok(language) => {
            let saves = saves_in(alloc, &language, &signatures);
            language.release();
            saves
        }
        Err(_) => false,
    }
}

#[test]
fn an_edit_leaves_the_nodes_behind_it(rt: HostRuntime) {
    assert!(rt; saves(rt.alloc(), &STATEMENTS));
}
