//! Which value, or which fault, do expressions of operations give?
//!
//! Arguments are evaluated from left to right, one branch alone is evaluated, and the first fault is the answer.

use crate::answers::{Answer, Row, rows_answer};
use crate::hosts::NUMBERS;

// Sums and quotients.
static VALUES: [Row; 8] = [
    ("lit(1)", "value", 1_000_000, Answer::Int(1)),
    ("num(\"42\")", "value", 1_000_000, Answer::Int(42)),
    ("add(lit(1), lit(2))", "value", 1_000_000, Answer::Int(3)),
    (
        "add(add(lit(1), lit(-2)), lit(3))",
        "value",
        1_000_000,
        Answer::Int(2),
    ),
    ("div(lit(7), lit(2))", "value", 1_000_000, Answer::Int(3)),
    ("div(lit(-7), lit(2))", "value", 1_000_000, Answer::Int(-3)),
    (
        "div(lit(-9223372036854775808), lit(1))",
        "value",
        1_000_000,
        Answer::Int(-9_223_372_036_854_775_808),
    ),
    (
        "add(lit(9223372036854775806), lit(1))",
        "value",
        1_000_000,
        Answer::Int(9_223_372_036_854_775_807),
    ),
];

#[test]
fn operations_give_values(rt: HostRuntime) {
    assert!(rt; rows_answer(rt.alloc(), NUMBERS, &VALUES));
}

// What has no value.
static FAULTS: [Row; 7] = [
    (
        "div(lit(1), lit(0))",
        "value",
        1_000_000,
        Answer::Fault("div", 2),
    ),
    (
        "div(lit(-9223372036854775808), lit(-1))",
        "value",
        1_000_000,
        Answer::Fault("div", 1),
    ),
    (
        "add(lit(9223372036854775807), lit(1))",
        "value",
        1_000_000,
        Answer::Fault("add", 1),
    ),
    (
        "add(lit(-9223372036854775808), lit(-1))",
        "value",
        1_000_000,
        Answer::Fault("add", 1),
    ),
    (
        "num(\"9223372036854775808\")",
        "value",
        1_000_000,
        Answer::Fault("to_int", 3),
    ),
    ("num(\"x\")", "value", 1_000_000, Answer::Fault("to_int", 3)),
    (
        "add(lit(1), add(lit(2), div(lit(3), lit(0))))",
        "value",
        1_000_000,
        Answer::Fault("div", 2),
    ),
];

#[test]
fn operations_fail(rt: HostRuntime) {
    assert!(rt; rows_answer(rt.alloc(), NUMBERS, &FAULTS));
}

// What isn't needed gives no fault.
static NOT_NEEDED: [Row; 5] = [
    (
        "first(lit(1), div(lit(1), lit(0)))",
        "value",
        1_000_000,
        Answer::Int(1),
    ),
    (
        "pick(lit(0), div(lit(1), lit(0)), lit(5))",
        "value",
        1_000_000,
        Answer::Int(5),
    ),
    (
        "pick(lit(1), lit(5), div(lit(1), lit(0)))",
        "value",
        1_000_000,
        Answer::Int(5),
    ),
    (
        "pick(lit(1), div(lit(1), lit(0)), lit(5))",
        "value",
        1_000_000,
        Answer::Fault("div", 2),
    ),
    (
        "pick(div(lit(1), lit(0)), lit(4), lit(5))",
        "value",
        1_000_000,
        Answer::Fault("div", 2),
    ),
];

#[test]
fn one_branch_alone_is_evaluated(rt: HostRuntime) {
    assert!(rt; rows_answer(rt.alloc(), NUMBERS, &NOT_NEEDED));
}

// Of two faults the left one comes first.
static FIRST_FAULTS: [Row; 5] = [
    (
        "add(div(lit(1), lit(0)), add(lit(9223372036854775807), lit(1)))",
        "value",
        1_000_000,
        Answer::Fault("div", 2),
    ),
    (
        "add(add(lit(9223372036854775807), lit(1)), div(lit(1), lit(0)))",
        "value",
        1_000_000,
        Answer::Fault("add", 1),
    ),
    ("both(lit(1))", "value", 1_000_000, Answer::Fault("div", 2)),
    ("other(lit(1))", "value", 1_000_000, Answer::Fault("add", 1)),
    ("other(lit(0))", "value", 1_000_000, Answer::Fault("div", 2)),
];

#[test]
fn the_first_fault_is_the_answer(rt: HostRuntime) {
    assert!(rt; rows_answer(rt.alloc(), NUMBERS, &FIRST_FAULTS));
}
