//! Do inherited attributes reach the trees that they are handed down to?
//!
//! Some of these trees are locals, and some are tables that attributes hand on.

use crate::answers::{Answer, Row, rows_answer};
use crate::hosts::{HANDED_DOWN, STATEMENTS};

// A number from the root down.
static DOWN: [Row; 3] = [
    ("root(leaf(\"x\"))", "v", 1_000_000, Answer::Int(3)),
    ("root(again(leaf(\"x\")))", "v", 1_000_000, Answer::Int(4)),
    (
        "root(again(again(leaf(\"x\"))))",
        "v",
        1_000_000,
        Answer::Int(5),
    ),
];

#[test]
fn inherited_attributes_are_handed_down(rt: HostRuntime) {
    assert!(rt; rows_answer(rt.alloc(), HANDED_DOWN, &DOWN));
}

// Locals have the attributes that their equations give.
static LOCALS: [Row; 4] = [
    ("root(through())", "v", 1_000_000, Answer::Int(5)),
    ("root(again(through()))", "v", 1_000_000, Answer::Int(5)),
    ("root(sum(leaf(\"x\")))", "v", 1_000_000, Answer::Int(3)),
    (
        "root(sum(again(leaf(\"x\"))))",
        "v",
        1_000_000,
        Answer::Int(5),
    ),
];

#[test]
fn locals_have_their_own(rt: HostRuntime) {
    assert!(rt; rows_answer(rt.alloc(), HANDED_DOWN, &LOCALS));
}

// Statements, with a table of names and their values.
static NAMES: [Row; 6] = [
    ("prog(none())", "out", 1_000_000, Answer::Text("")),
    (
        "prog(more(none(), print(\"print\", term(factor(num(\"4\"))), \";\")))",
        "out",
        1_000_000,
        Answer::Text("4\n"),
    ),
    (
        "prog(more(more(none(), let(\"let\", \"x\", \"=\", term(factor(num(\"4\"))), \";\")), \
            print(\"print\", plus(term(factor(var(\"x\"))), \"+\", factor(num(\"3\"))), \";\")))",
        "out",
        1_000_000,
        Answer::Text("7\n"),
    ),
    (
        "prog(more(none(), print(\"print\", term(factor(var(\"x\"))), \";\")))",
        "out",
        1_000_000,
        Answer::Text("0\n"),
    ),
    (
        "prog(more(more(more(none(), let(\"let\", \"x\", \"=\", term(factor(num(\"4\"))), \";\")), \
            let(\"let\", \"x\", \"=\", term(times(factor(var(\"x\")), \"*\", var(\"x\"))), \";\")), \
            print(\"print\", term(factor(var(\"x\"))), \";\")))",
        "out",
        1_000_000,
        Answer::Text("16\n"),
    ),
    (
        "prog(more(more(none(), block(\"{\", more(none(), let(\"let\", \"x\", \"=\", term(factor(num(\"4\"))), \";\")), \"}\")), \
            print(\"print\", term(factor(var(\"x\"))), \";\")))",
        "out",
        1_000_000,
        Answer::Text("0\n"),
    ),
];

#[test]
fn tables_are_handed_on(rt: HostRuntime) {
    assert!(rt; rows_answer(rt.alloc(), STATEMENTS, &NAMES));
}
