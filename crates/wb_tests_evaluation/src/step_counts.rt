//! How many steps does an answer take?
//!
//! Each instance that is needed is one step. A row has the limit that just suffices, and the row after it has one step less.

use crate::answers::{Answer, Row, rows_answer};
use crate::hosts::{HANDED_DOWN, NUMBERS, TWO_INHERITED};

// Values and faults of arithmetic.
static OF_NUMBERS: [Row; 10] = [
    ("lit(1)", "value", 1, Answer::Int(1)),
    ("lit(1)", "value", 0, Answer::MoreSteps),
    ("add(lit(1), lit(2))", "value", 3, Answer::Int(3)),
    ("add(lit(1), lit(2))", "value", 2, Answer::MoreSteps),
    (
        "add(lit(1), div(lit(4), lit(2)))",
        "value",
        5,
        Answer::Int(3),
    ),
    (
        "add(lit(1), div(lit(4), lit(2)))",
        "value",
        4,
        Answer::MoreSteps,
    ),
    ("div(lit(1), lit(0))", "value", 3, Answer::Fault("div", 2)),
    ("div(lit(1), lit(0))", "value", 2, Answer::MoreSteps),
    (
        "add(div(lit(1), lit(0)), add(lit(1), lit(1)))",
        "value",
        4,
        Answer::Fault("div", 2),
    ),
    (
        "add(div(lit(1), lit(0)), add(lit(1), lit(1)))",
        "value",
        3,
        Answer::MoreSteps,
    ),
];

#[test]
fn operations_take_no_step(rt: HostRuntime) {
    assert!(rt; rows_answer(rt.alloc(), NUMBERS, &OF_NUMBERS));
}

// What is read twice, and what isn't read.
static READS: [Row; 10] = [
    ("twice(lit(4))", "value", 2, Answer::Int(8)),
    ("twice(lit(4))", "value", 1, Answer::MoreSteps),
    ("twice(twice(lit(4)))", "value", 3, Answer::Int(16)),
    ("twice(twice(lit(4)))", "value", 2, Answer::MoreSteps),
    (
        "first(lit(1), div(lit(1), lit(0)))",
        "value",
        2,
        Answer::Int(1),
    ),
    (
        "first(lit(1), div(lit(1), lit(0)))",
        "value",
        1,
        Answer::MoreSteps,
    ),
    (
        "pick(lit(0), add(lit(1), lit(2)), lit(5))",
        "value",
        3,
        Answer::Int(5),
    ),
    (
        "pick(lit(0), add(lit(1), lit(2)), lit(5))",
        "value",
        2,
        Answer::MoreSteps,
    ),
    ("both(lit(1))", "value", 2, Answer::Fault("div", 2)),
    ("both(lit(1))", "value", 1, Answer::MoreSteps),
];

#[test]
fn a_read_counts_once(rt: HostRuntime) {
    assert!(rt; rows_answer(rt.alloc(), NUMBERS, &READS));
}

// The forwarded tree is a step, and so is its attribute.
static OF_FORWARDS: [Row; 6] = [
    ("doubled(lit(3))", "value", 5, Answer::Int(6)),
    ("doubled(lit(3))", "value", 4, Answer::MoreSteps),
    ("seven(lit(3))", "value", 1, Answer::Int(7)),
    ("seven(lit(3))", "value", 0, Answer::MoreSteps),
    ("next(lit(3))", "value", 5, Answer::Int(7)),
    ("next(lit(3))", "value", 4, Answer::MoreSteps),
];

#[test]
fn a_forwarded_tree_is_a_step(rt: HostRuntime) {
    assert!(rt; rows_answer(rt.alloc(), NUMBERS, &OF_FORWARDS));
}

// Each copy of an inherited attribute is a step.
static OF_COPIES: [Row; 12] = [
    ("root(leaf(\"x\"))", "v", 3, Answer::Int(3)),
    ("root(leaf(\"x\"))", "v", 2, Answer::MoreSteps),
    ("root(again(leaf(\"x\")))", "v", 5, Answer::Int(4)),
    ("root(again(leaf(\"x\")))", "v", 4, Answer::MoreSteps),
    ("root(copied(leaf(\"x\")))", "v", 6, Answer::Int(3)),
    ("root(copied(leaf(\"x\")))", "v", 5, Answer::MoreSteps),
    ("root(changed(leaf(\"x\")))", "v", 6, Answer::Int(13)),
    ("root(changed(leaf(\"x\")))", "v", 5, Answer::MoreSteps),
    ("root(through())", "v", 5, Answer::Int(5)),
    ("root(through())", "v", 4, Answer::MoreSteps),
    ("root(sum(leaf(\"x\")))", "v", 7, Answer::Int(3)),
    ("root(sum(leaf(\"x\")))", "v", 6, Answer::MoreSteps),
];

#[test]
fn a_copy_is_a_step(rt: HostRuntime) {
    assert!(rt; rows_answer(rt.alloc(), HANDED_DOWN, &OF_COPIES));
}

// An attribute that an equation replaces isn't needed.
static OF_EQUATIONS: [Row; 4] = [
    ("root(leaf(\"x\"))", "value", 4, Answer::Int(3)),
    ("root(leaf(\"x\"))", "value", 3, Answer::MoreSteps),
    ("root(swap(leaf(\"x\")))", "value", 7, Answer::Int(4)),
    ("root(swap(leaf(\"x\")))", "value", 6, Answer::MoreSteps),
];

#[test]
fn what_is_replaced_is_not_needed(rt: HostRuntime) {
    assert!(rt; rows_answer(rt.alloc(), TWO_INHERITED, &OF_EQUATIONS));
}
