//! Which names does the line of a refusal show?
//!
//! Each code has the words of its line after which its names are, in their order. What shows the places of a name is in `refusal`.

ghost use Rattle.std.specs.Prelude.{◌≤◌, length};

use crate::line::place_of;
use wb_text_parts::word;

// The code of a line, and the words after which it shows a name, with the spaces beside them. Those of one code follow each other in its line.
// Where those of a row aren't there, those of the next are looked for.
pub(crate) static MARKS: [(&str, &str); 26] = [
    ("R2", " "),
    ("G1", " unreachable "),
    ("G1", " unproductive "),
    ("G2", " "),
    ("G2", " "),
    ("G3", " "),
    ("G3", " "),
    ("G4", " on "),
    ("G4", " reduce "),
    ("G4", " reduce "),
    ("G5", ": "),
    ("G5", " and "),
    ("G6", " "),
    ("G6", " "),
    ("E4", " "),
    ("E4", " and "),
    ("E5", " on "),
    ("E6", " on "),
    ("E7", " "),
    ("E8", " "),
    ("A1", " "),
    ("A2", " "),
    ("A3", " "),
    ("A4", " "),
    ("A5", " "),
    ("A6", " "),
];

/// The name after these words in a line, and what is after it. A colon at its end is left out.
pub fn name_after<'l>(text: &'l [u8], before: &[u8]) -> Option<(&'l [u8], &'l [u8])> {
    match after_first(text, before) {
        Some(after) => Some(split_name(after)),
        None => None,
    }
}

// What is after these bytes where they first are in a text.
fn after_first<'l>(text: &'l [u8], bytes: &[u8]) -> Option<&'l [u8]> {
    let mut at = 0;
    'places: while at < text.len() {
        match word(&text[at..], bytes) {
            Ok(after) => return Some(after),
            Err(_) => at += 1,
        }
    }
    None
}

// The name at the beginning, and what is after it.
fn split_name(text: &[u8]) -> (&[u8], &[u8]) {
    let (name, after) = text.split_at(end_of_name(text));
    (without_colon(name), after)
}

// How many bytes are before the first space or line feed.
fn end_of_name(text: &[u8]) -> usize
    ensures { result ≤ length text.now }
{
    for (place, byte) in text.iter().enumerate() {
        if *byte == b' ' || *byte == b'\n' {
            return place;
        }
    }
    text.len()
}

// The name without a colon at its end.
fn without_colon(name: &[u8]) -> &[u8] {
    let [before @ .., b':'] = name else {
        return name;
    };
    before
}

/// The name as its own file writes it: without its extension and the colon after that.
pub fn unprefixed(name: &[u8]) -> &[u8] {
    match place_of(name, b':') {
        Some(place) => &name[place + 1..],
        None => name,
    }
}
