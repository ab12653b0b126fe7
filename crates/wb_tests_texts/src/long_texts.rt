//! Does each run over a long or deep text end with its status?

use crate::expected::each_long_ends_so;
use wb_program::Status;
use wb_tests_runs::{LongRow, MINI, Piece, TINY};

// A statement that prints a number in many parentheses.
const DEEP: &[Piece] = &[
    ("print ", 1),
    ("(", 100_000),
    ("1", 1),
    (")", 100_000),
    (";", 1),
];

static DEEP_TEXTS: [LongRow; 2] = [
    (
        "workbench run --text t --attr out --steps 300007 h",
        [&[(MINI, 1)], DEEP],
        Status::Done,
        "out = \"1\\n\"\n",
    ),
    (
        "workbench run --text t --attr out --steps 300006 h",
        [&[(MINI, 1)], DEEP],
        Status::MoreSteps,
        "more than 300006 steps\n",
    ),
];

#[test]
fn a_text_may_be_deep(rt: HostRuntime) {
    each_long_ends_so(&rt, &DEEP_TEXTS);
}

// A number with spaces before it, up to the limit of a text and one more.
static LONG_TEXTS: [LongRow; 2] = [
    (
        "workbench run --text t --attr value h",
        [&[(TINY, 1)], &[(" ", 1_048_575), ("7", 1)]],
        Status::Done,
        "value = 7\n",
    ),
    (
        "workbench run --text t --attr value h",
        [&[(TINY, 1)], &[(" ", 1_048_576), ("7", 1)]],
        Status::TextTooLong,
        "text too long\n",
    ),
];

#[test]
fn a_text_may_be_as_long_as_its_limit(rt: HostRuntime) {
    each_long_ends_so(&rt, &LONG_TEXTS);
}
