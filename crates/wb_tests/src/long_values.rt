//! Does each run of `value` over long files, terms, trees or values end with its status?

use crate::expected::{each_ends_so, each_long_ends_so};
use wb_program::Status;
use wb_tests_runs::{CALC0, DBL, LOOP, LongRow, Piece, Row, TWINS};

// The greatest length of a file.
const LIMIT: usize = 1_048_576;

const TERM: &str = "add(lit(1), lit(2))";

// A host and a term with spaces after them, up to the limit.
const LONG_HOST: &[Piece] = &[(CALC0, 1), (" ", LIMIT - CALC0.len())];

const LONG_TERM: &[Piece] = &[(TERM, 1), (" ", LIMIT - TERM.len())];

// The same with one space more.
const LONGER_HOST: &[Piece] = &[(CALC0, 1), (" ", LIMIT + 1 - CALC0.len())];

const LONGER_TERM: &[Piece] = &[(TERM, 1), (" ", LIMIT + 1 - TERM.len())];

static LONG_FILES: [LongRow; 3] = [
    (
        "workbench value h t value",
        [LONG_HOST, LONG_TERM],
        Status::Done,
        "value = 3\n",
    ),
    (
        "workbench value h t value",
        [LONGER_HOST, LONG_TERM],
        Status::SpecRefused,
        "refused h S2\n",
    ),
    (
        "workbench value h t value",
        [LONG_HOST, LONGER_TERM],
        Status::TextTooLong,
        "text too long\n",
    ),
];

#[test]
fn a_file_may_be_as_long_as_its_limit(rt: HostRuntime) {
    each_long_ends_so(&rt, &LONG_FILES);
}

static DEEP_TERM: [LongRow; 1] = [(
    "workbench value h t value",
    [
        &[(CALC0, 1)],
        &[("add(lit(1), ", 80_000), ("lit(0)", 1), (")", 80_000)],
    ],
    Status::Done,
    "value = 80000\n",
)];

#[test]
fn a_term_may_be_deep(rt: HostRuntime) {
    each_long_ends_so(&rt, &DEEP_TERM);
}

const DEEP_HOST: &[Piece] = &[
    (
        "format 1; host y; nonterminal E; syn v : int; occurs v on E; abstract p : E ::= { top.v = ",
        1,
    ),
    ("@add(1, ", 100_000),
    ("0", 1),
    (")", 100_000),
    ("; }", 1),
];

static DEEP_EXPRESSION: [LongRow; 1] = [(
    "workbench value h t v",
    [DEEP_HOST, &[("p()", 1)]],
    Status::Done,
    "v = 100000\n",
)];

#[test]
fn an_expression_may_be_deep(rt: HostRuntime) {
    each_long_ends_so(&rt, &DEEP_EXPRESSION);
}

// Values that double this number of times.
static LONG_VALUES: [LongRow; 3] = [
    (
        "workbench value h t t",
        [&[(DBL, 1)], &[("d(", 24), ("z()", 1), (")", 24)]],
        Status::TooLongToPrint,
        "value too long to print\n",
    ),
    (
        "workbench value h t t",
        [&[(DBL, 1)], &[("d(", 25), ("z()", 1), (")", 25)]],
        Status::OperationFault,
        "fault concat 4\n",
    ),
    (
        "workbench value h t u",
        [&[(TWINS, 1)], &[("d(", 40), ("z()", 1), (")", 40)]],
        Status::TooLongToPrint,
        "value too long to print\n",
    ),
];

#[test]
fn a_value_may_be_too_long_to_print(rt: HostRuntime) {
    each_long_ends_so(&rt, &LONG_VALUES);
}

static NO_END: [Row; 1] = [(
    "workbench value h t v",
    &[LOOP, "go(\"x\")"],
    Status::MoreSteps,
    "more than 1000000 steps\n",
)];

#[test]
fn an_evaluation_may_have_no_end(rt: HostRuntime) {
    each_ends_so(&rt, &NO_END);
}
