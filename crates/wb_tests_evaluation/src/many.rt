//! Are attributes, children and locals of high numbers found? Few specifications have more than sixteen of any.
//!
//! The host is made by number: 300 attributes, a production with seventeen children, and one with seventeen locals.

use crate::answers::{Answer, Row, rows_answer};
use std::alloc::{AllocError, Global};

const ATTRIBUTES: usize = 300;

const PARTS: usize = 17;

// Each attribute of a leaf is its own number. A sum has some of the first and the last child, or of the first and the last local.
fn host_of(alloc: Global) -> Result<String, AllocError> {
    let mut text = String::from_str(
        alloc,
        "format 1; host many; terminal X /x/; nonterminal E; nonterminal S; start E; syn sum : int; occurs sum on S; ",
    )?;
    for number in 0..ATTRIBUTES {
        add(alloc, &mut text, "syn a", number, " : int; ")?;
        add(alloc, &mut text, "occurs a", number, " on E; ")?;
    }
    text.push_str("concrete leaf : E ::= x : X { ")?;
    for number in 0..ATTRIBUTES {
        add(alloc, &mut text, "top.a", number, " = ")?;
        add(alloc, &mut text, "", number, "; ")?;
    }
    text.push_str("} abstract wide : S ::=")?;
    for number in 0..PARTS {
        add(alloc, &mut text, " c", number, " : E")?;
    }
    text.push_str(
        " { top.sum = @add(c0.a1, @add(c15.a255, c16.a299)); } abstract kept : S ::= c : E { ",
    )?;
    for number in 0..PARTS {
        add(alloc, &mut text, "local t", number, " : E = c; ")?;
    }
    text.push_str("top.sum = @add(t0.a2, @add(t15.a16, t16.a256)); }")?;
    Ok(text)
}

// Adds a number between two pieces.
fn add(
    alloc: Global,
    text: &mut String,
    before: &str,
    number: usize,
    after: &str,
) -> Result<(), AllocError> {
    let piece = format!(in alloc; "{before}{number}{after}")?;
    text.push_str(piece.as_str())?;
    Ok(())
}

static HIGH: [Row; 8] = [
    ("leaf(\"x\")", "a0", 1, Answer::Int(0)),
    ("leaf(\"x\")", "a15", 1, Answer::Int(15)),
    ("leaf(\"x\")", "a16", 1, Answer::Int(16)),
    ("leaf(\"x\")", "a255", 1, Answer::Int(255)),
    ("leaf(\"x\")", "a256", 1, Answer::Int(256)),
    ("leaf(\"x\")", "a299", 1, Answer::Int(299)),
    (
        "wide(leaf(\"x\"), leaf(\"x\"), leaf(\"x\"), leaf(\"x\"), leaf(\"x\"), leaf(\"x\"), leaf(\"x\"), leaf(\"x\"), leaf(\"x\"), \
            leaf(\"x\"), leaf(\"x\"), leaf(\"x\"), leaf(\"x\"), leaf(\"x\"), leaf(\"x\"), leaf(\"x\"), leaf(\"x\"))",
        "sum",
        4,
        Answer::Int(555),
    ),
    ("kept(leaf(\"x\"))", "sum", 7, Answer::Int(274)),
];

fn high_numbers_answer(alloc: Global) -> Result<bool, AllocError> {
    let host = host_of(alloc)?;
    Ok(rows_answer(alloc, host.as_str(), &HIGH))
}

#[test]
fn what_has_a_high_number_is_found(rt: HostRuntime) {
    assert!(rt; high_numbers_answer(rt.alloc()) == Ok(true));
}
