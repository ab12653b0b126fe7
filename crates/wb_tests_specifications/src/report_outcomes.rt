//! Which lines report the end of a command, and an outcome that refuses no file?

use crate::report_lines::{Reported, are_reported, bytes, text, texts};
use std::alloc::Global;
use wb_report::{Done, Outcome, ShownStop};

// The outcome without a refused file of this number.
pub(crate) fn outcome(alloc: Global, number: usize) -> Outcome {
    match number {
        0 => stopped(4, ShownStop::NoToken),
        1 => stopped(2, ShownStop::Unexpected(text(alloc, "end"))),
        2 => fault(alloc),
        3 => Outcome::MoreSteps(1_000),
        4 => Outcome::TextTooLong,
        5 => Outcome::TooLongToPrint,
        6 => Outcome::TooManyExtensions,
        7 => Outcome::DuplicateExtension(text(alloc, "dup")),
        8 => wrong_host(alloc),
        9 => Outcome::UnknownAttribute(text(alloc, "size")),
        _ => Outcome::NoSentence { size: 0, least: 1 },
    }
}

// A text that stops at a position.
fn stopped(at: usize, stop: ShownStop) -> Outcome {
    Outcome::Stopped { at, stop }
}

// An operation that has no result.
fn fault(alloc: Global) -> Outcome {
    Outcome::Fault {
        operation: text(alloc, "div"),
        code: 2,
    }
}

// An extension of another host.
fn wrong_host(alloc: Global) -> Outcome {
    Outcome::WrongHost {
        file: text(alloc, "dup.spec"),
        host: text(alloc, "tiny"),
    }
}

// The line of each outcome without a refused file.
static OTHERS: [&str; 11] = [
    "stopped at 4 no token\n",
    "stopped at 2 unexpected end\n",
    "fault div 2\n",
    "more than 1000 steps\n",
    "text too long\n",
    "value too long to print\n",
    "too many extensions\n",
    "duplicate extension dup\n",
    "wrong host dup.spec names tiny\n",
    "no attribute size\n",
    "no sentence of 0 leaves, least 1\n",
];

#[test]
fn other_outcomes_have_their_line(rt: HostRuntime) {
    assert!(rt; are_reported(rt.alloc(), Reported::Others, &OTHERS));
}

// The result of a command with this number.
pub(crate) fn done(alloc: Global, number: usize) -> Done {
    match number {
        0 => value(alloc),
        1 => Done::Canonical(bytes(alloc, "format 1;\nhost t;\n")),
        2 => certified(alloc),
        3 => composed(alloc),
        4 => Done::Tree(bytes(alloc, "none()")),
        5 => generated(alloc),
        6 => Done::HostReading,
        _ => marker(alloc),
    }
}

// A value.
fn value(alloc: Global) -> Done {
    Done::Value {
        attribute: text(alloc, "count:leaves"),
        value: bytes(alloc, "2"),
    }
}

// A host and extensions that are certified.
fn certified(alloc: Global) -> Done {
    Done::Certified {
        host: text(alloc, "adj"),
        extensions: texts(alloc, "first", "second"),
    }
}

// A composed language.
fn composed(alloc: Global) -> Done {
    Done::Composed {
        host: text(alloc, "mini"),
        extensions: 2,
        prefixed: texts(alloc, "a:Sum", "b:Sum"),
    }
}

// Sentences that were generated.
fn generated(alloc: Global) -> Done {
    Done::Generated {
        leaves: 3,
        bytes: 5,
        attribute: text(alloc, "value"),
        value: bytes(alloc, "0"),
    }
}

// The first marker of a text.
fn marker(alloc: Global) -> Done {
    Done::MarkerAt {
        marker: text(alloc, "power:Square"),
        at: 6,
    }
}

// The lines of each result of a command.
static ENDS: [&str; 8] = [
    "count:leaves = 2\n",
    "format 1;\nhost t;\n",
    "certified host adj\ncertified extension first\ncertified extension second\n",
    "composed mini with 2 extensions\nprefix a:Sum\nprefix b:Sum\n",
    "none()\n",
    "leaves 3\nbytes 5\nvalue = 0\n",
    "host reading\n",
    "marker power:Square at 6\n",
];

#[test]
fn commands_that_come_to_their_end_have_their_lines(rt: HostRuntime) {
    assert!(rt; are_reported(rt.alloc(), Reported::Ends, &ENDS));
}
