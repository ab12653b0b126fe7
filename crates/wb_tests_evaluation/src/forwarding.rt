//! Does a production that forwards have the attributes of the forwarded tree?
//!
//! An equation of its own wins. Inherited attributes are copied where no equation gives them.

use crate::answers::{Answer, Row, rows_answer};
use crate::hosts::{ENDLESS, HANDED_DOWN, NUMBERS, TWO_INHERITED};

// Attributes of the forwarded tree.
static FORWARDED: [Row; 7] = [
    ("doubled(lit(3))", "value", 1_000_000, Answer::Int(6)),
    ("nested(lit(3))", "value", 1_000_000, Answer::Int(12)),
    ("seven(lit(3))", "value", 1_000_000, Answer::Int(7)),
    ("next(lit(3))", "value", 1_000_000, Answer::Int(7)),
    (
        "doubled(seven(lit(3)))",
        "value",
        1_000_000,
        Answer::Int(14),
    ),
    (
        "seven(div(lit(1), lit(0)))",
        "value",
        1_000_000,
        Answer::Int(7),
    ),
    (
        "doubled(div(lit(1), lit(0)))",
        "value",
        1_000_000,
        Answer::Fault("div", 2),
    ),
];

#[test]
fn attributes_are_those_of_the_forwarded_tree(rt: HostRuntime) {
    assert!(rt; rows_answer(rt.alloc(), NUMBERS, &FORWARDED));
}

// Inherited attributes of the forwarded tree, copied or by an equation.
static COPIED: [Row; 5] = [
    ("root(copied(leaf(\"x\")))", "v", 1_000_000, Answer::Int(3)),
    (
        "root(changed(leaf(\"x\")))",
        "v",
        1_000_000,
        Answer::Int(13),
    ),
    (
        "root(copied(changed(leaf(\"x\"))))",
        "v",
        1_000_000,
        Answer::Int(13),
    ),
    (
        "root(changed(copied(leaf(\"x\"))))",
        "v",
        1_000_000,
        Answer::Int(13),
    ),
    (
        "root(changed(changed(again(leaf(\"x\")))))",
        "v",
        1_000_000,
        Answer::Int(24),
    ),
];

#[test]
fn inherited_attributes_are_copied(rt: HostRuntime) {
    assert!(rt; rows_answer(rt.alloc(), HANDED_DOWN, &COPIED));
}

// One of two is copied.
static ONE_OF_TWO: [Row; 3] = [
    ("root(leaf(\"x\"))", "value", 1_000_000, Answer::Int(3)),
    (
        "root(swap(leaf(\"x\")))",
        "value",
        1_000_000,
        Answer::Int(4),
    ),
    (
        "root(swap(swap(leaf(\"x\"))))",
        "value",
        1_000_000,
        Answer::Int(4),
    ),
];

#[test]
fn an_equation_wins_over_the_copy(rt: HostRuntime) {
    assert!(rt; rows_answer(rt.alloc(), TWO_INHERITED, &ONE_OF_TWO));
}

// A production that forwards to itself.
static WITHOUT_END: [Row; 3] = [
    ("go(\"x\")", "v", 1, Answer::MoreSteps),
    ("go(\"x\")", "v", 1_000, Answer::MoreSteps),
    ("go(\"x\")", "v", 1_000_000, Answer::MoreSteps),
];

#[test]
fn forwarding_without_end_asks_for_more_steps(rt: HostRuntime) {
    assert!(rt; rows_answer(rt.alloc(), ENDLESS, &WITHOUT_END));
}
