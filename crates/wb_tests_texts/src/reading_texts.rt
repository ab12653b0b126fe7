//! Does `reading` find the first marker of texts that are made by number, and do `tree` and `run` report the same with extensions and
//! without where it finds none?
//!
//! Files are in memory: a host of sums in `h`, its extensions in `t` and `u`, and the text in `v`. The markers are `d` and `-`.

ghost use Rattle.std.specs.Prelude.{◌<◌};

use crate::expected::expect_none;
use std::alloc::{AllocError, Global};
use wb_program::Status;
use wb_tests_runs::{DUP, MINUS, TINY, ends_so, status_of};
use wb_world::MemorySink;

// Numbers that look random, the same for the same start.
#[derive(Drop)]
struct Generator {
    state: u64,
}

impl Generator {
    // The next number below a bound.
    fn below(&mut self, bound: usize) -> usize
        requires { 0 < bound }
        ensures { result < bound }
    {
        self.state = self
            .state
            .wrapping_mul(6_364_136_223_846_793_005)
            .wrapping_add(1_442_695_040_888_963_407);
        (self.state >> 33) as usize % bound
    }
}

// A word of this number.
fn word_of(number: usize) -> &'static str {
    match number {
        0 => "+3",
        1 => " + 47",
        2 => "+ 5 ",
        3 => "9",
        4 => " ",
        5 => "+d2",
        6 => " + dup::d 6",
        7 => "+-",
        8 => "+ minus::-",
        9 => "+m",
        10 => "d",
        _ => "+99999999999999999999",
    }
}

// A number, and up to six words after it.
fn text_of(alloc: Global, number: u64) -> Result<String, AllocError> {
    let mut generator = Generator { state: number };
    let mut text = String::from_str(alloc, "7")?;
    for _word in 0..generator.below(7) {
        text.push_str(word_of(generator.below(12)))?;
    }
    Ok(text)
}

// What may come next in a sum.
#[derive(Clone, Copy)]
enum Next {
    // A number, which a marker may precede.
    Number,
    // More of a number, or a plus.
    Digit,
    // A plus.
    Plus,
}

// What comes after a byte, where it isn't the first of a marker and may come.
fn after(next: Next, byte: u8) -> Option<Next> {
    match next {
        Next::Number => match byte {
            b' ' => Some(Next::Number),
            b'0'..=b'9' => Some(Next::Digit),
            _ => None,
        },
        Next::Digit => match byte {
            b' ' => Some(Next::Plus),
            b'+' => Some(Next::Number),
            b'0'..=b'9' => Some(Next::Digit),
            _ => None,
        },
        Next::Plus => match byte {
            b' ' => Some(Next::Plus),
            b'+' => Some(Next::Number),
            _ => None,
        },
    }
}

// The name of the marker that begins here, where a number may come.
fn marker_in(next: Next, rest: &[u8]) -> Option<&'static str> {
    match next {
        Next::Number if rest.starts_with(b"d") => Some("dup:D"),
        Next::Number if rest.starts_with(b"-") || rest.starts_with(b"minus::-") => Some("minus:M"),
        _ => None,
    }
}

// The first marker of a text, with its place.
fn first_marker(text: &[u8]) -> Option<(&'static str, usize)> {
    let mut next = Next::Number;
    for at in 0..text.len() {
        if let Some(name) = marker_in(next, &text[at..]) {
            return Some((name, at));
        }
        match after(next, text[at]) {
            Some(later) => next = later,
            None => return None,
        }
    }
    None
}

// Whether `reading` reports this line of a text.
fn has_reading(alloc: Global, text: &str, line: &str) -> Result<bool, AllocError> {
    ends_so(
        alloc,
        "workbench reading --text v h t u",
        &[TINY, DUP, MINUS, text],
        Status::Done,
        line,
    )
}

// Whether runs of both lines over a text end with one status and one report.
fn are_same(alloc: Global, line: &str, other: &str, text: &str) -> Result<bool, AllocError> {
    let files = [TINY, DUP, MINUS, text];
    let mut sink = MemorySink::new(alloc, 1_000, 1_000)?;
    let ended = status_of(alloc, line, &files, &mut sink)?;
    let mut beside = MemorySink::new(alloc, 1_000, 1_000)?;
    let status = status_of(alloc, other, &files, &mut beside)?;
    Ok(ended == status && sink.bytes() == beside.bytes())
}

// Whether `tree` and `run` report of a text with the extensions what they report without.
fn means_the_same(alloc: Global, text: &str) -> Result<bool, AllocError> {
    Ok(
        are_same(
            alloc,
            "workbench tree --text v h t u",
            "workbench tree --text v h",
            text,
        )? && are_same(
            alloc,
            "workbench run --text v --attr value h t u",
            "workbench run --text v --attr value h",
            text,
        )? && are_same(
            alloc,
            "workbench run --text v --attr value --steps 3 h t u",
            "workbench run --text v --attr value --steps 3 h",
            text,
        )?,
    )
}

// Whether the reading of a text is right.
fn reads_right(alloc: Global, text: &str) -> Result<bool, AllocError> {
    match first_marker(text.as_bytes()) {
        Some((name, at)) => {
            let line = format!(in alloc; "marker {name} at {at}\n")?;
            has_reading(alloc, text, line.as_str())
        }
        None => Ok(has_reading(alloc, text, "host reading\n")? && means_the_same(alloc, text)?),
    }
}

// The number of the first text that isn't read right.
fn first_wrong(alloc: Global) -> Result<Option<usize>, AllocError> {
    for number in 0..200 {
        let text = text_of(alloc, number as u64)?;
        if !reads_right(alloc, text.as_str())? {
            return Ok(Some(number));
        }
    }
    Ok(None)
}

#[test]
fn texts_are_read_as_their_bytes_say(rt: HostRuntime) {
    expect_none(&rt, first_wrong(rt.alloc()));
}
