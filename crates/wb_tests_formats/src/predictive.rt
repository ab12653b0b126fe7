//! Does a table read whole texts, and stop at the first token that can't follow?
//!
//! The table is that of nested lists, which has a token, a list and an action of each sort.

use std::alloc::{AllocError, Global};
use std::test::Fail;
use wb_text_predictive::nested::Event::{Began, Finished, Met};
use wb_text_predictive::nested::{Event, Events, Nested};
use wb_text_predictive::{Outcome, read_all};

// The steps that the text below leads to.
static MET: [Event; 7] = [
    Began,
    Met { digit: 1, at: 1 },
    Began,
    Met { digit: 2, at: 4 },
    Met { digit: 3, at: 6 },
    Finished,
    Finished,
];

// Whether the whole text is read by these steps.
fn meets(alloc: Global, text: &[u8], wanted: &[Event]) -> Result<bool, AllocError> {
    match read_all(alloc, &Nested, text, Events::new(alloc))? {
        Outcome::Whole(events) => Ok(events.as_slice() == wanted),
        Outcome::Stopped { at: _ } => Ok(false),
    }
}

#[test]
fn a_whole_text_has_what_it_meets(rt: HostRuntime) -> Result<(), Fail> {
    assert!(rt; meets(rt.alloc(), b"(1 (2 3)) ", &MET)?);
    Ok(())
}

// Whether a text is read up to this position.
fn stops_at(alloc: Global, text: &[u8], place: usize) -> Result<bool, AllocError> {
    match read_all(alloc, &Nested, text, Events::new(alloc))? {
        Outcome::Whole(_) => Ok(false),
        Outcome::Stopped { at } => Ok(at == place),
    }
}

static STOPPED: [(&str, usize); 8] = [
    ("", 0), // the end comes too early
    ("( 1 ", 4), // too early as well: the length, after the space
    ("7", 0), // a token that begins no text
    ("(1))", 3), // one too many
    ("() ()", 3),
    ("(1x)", 2), // no token
    ("()x", 2),
    ("((x", 2), // no token, before the text could end
];

#[test]
fn other_texts_stop_at_what_cannot_follow(rt: HostRuntime) -> Result<(), Fail> {
    for (text, place) in &STOPPED {
        assert!(rt; stops_at(rt.alloc(), text.as_bytes(), *place)?, "{text:?}");
    }
    Ok(())
}
