//! Are the texts that expressions of a list share those worked out by hand?

ghost use Rattle.std.specs.Prelude.{◌<◌, All, IfOk};
ghost use Rattle.wb_automata.specs.Sharing.{ArePairsBelow};

use crate::automata::expressions;
use crate::holds;
use std::alloc::{AllocError, Global};
use wb_automata::{SharedText, only_text, shared_text, sharing};
use wb_base::push;
use wb_regex::{Regex, RegexRefusal, read_regex};

// Those of the pairs whose numbers are below the count.
fn pairs_below(
    alloc: Global,
    count: usize,
    pairs: &[(usize, usize)],
) -> Result<Vec<(usize, usize)>, AllocError>
    ensures { IfOk result (λ kept. ArePairsBelow count kept.items) }
{
    let mut kept = Vec::new(alloc);
    for pair in pairs {
        if pair.0 < count && pair.1 < count {
            push(&mut kept, *pair)?;
        }
    }
    Ok(kept)
}

// The answer for these pairs.
fn shared_by(
    alloc: Global,
    terminals: &[Regex],
    pairs: &[(usize, usize)],
) -> Result<Option<SharedText>, AllocError> {
    let kept = pairs_below(alloc, terminals.len(), pairs)?;
    shared_text(alloc, terminals, kept.as_slice())
}

// Whether the least text that is shared is this one, or there is none where it is empty, and a pair of these shares it.
fn is_shared(alloc: Global, terminals: &[Regex], row: &Row) -> Result<bool, AllocError> {
    match shared_by(alloc, terminals, row.pairs)? {
        None => Ok(row.text.is_empty()),
        Some(shared) => Ok(
            shared.text.as_slice() == row.text.as_bytes()
                && row.shown.contains(&(shared.left, shared.right)),
        ),
    }
}

// Expressions, pairs of them, the least text that those of a pair share, and the pairs that share it.
struct Row {
    lines: &'static str,
    pairs: &'static [(usize, usize)],
    text: &'static str,
    shown: &'static [(usize, usize)],
}

static SHARED: [Row; 11] = [
    Row {
        lines: "if\nelse\nwhile\n[a-z]+",
        pairs: &[(0, 1), (0, 2), (1, 2)],
        text: "",
        shown: &[],
    },
    Row {
        lines: "if\nelse\nwhile\n[a-z]+",
        pairs: &[(0, 1), (3, 2), (1, 3), (0, 3)],
        text: "if",
        shown: &[(0, 3)],
    },
    Row {
        lines: "ab|c\n[a-d]+\nc",
        pairs: &[(0, 1), (0, 2)],
        text: "c",
        shown: &[(0, 1), (0, 2)],
    },
    Row {
        lines: "(a|b)*c?d+\nab?c*d",
        pairs: &[(0, 1)],
        text: "ad",
        shown: &[(0, 1)],
    },
    Row {
        lines: "a+",
        pairs: &[(0, 0)],
        text: "a",
        shown: &[(0, 0)],
    },
    Row {
        lines: "a+",
        pairs: &[],
        text: "",
        shown: &[],
    },
    Row {
        lines: "abcdefghijklmnopqrstuvwxyz0\nabcdefghijklmnopqrstuvwxyz1",
        pairs: &[(0, 1)],
        text: "",
        shown: &[],
    },
    Row {
        lines: "a?b?c?d?e?f?g?h?z\n[a-h][a-h]z\nh*g*z",
        pairs: &[(0, 1), (2, 1)],
        text: "abz",
        shown: &[(0, 1)],
    },
    Row {
        lines: "(xy?)+z\n((x|y)y)+z\n(x(yx)?)+z",
        pairs: &[(0, 1), (1, 2)],
        text: "xyz",
        shown: &[(0, 1)],
    },
    Row {
        lines: "(((a|b)*)*)*c\n((((ba)+)*)?)*bc",
        pairs: &[(0, 1)],
        text: "bc",
        shown: &[(0, 1)],
    },
    Row {
        lines: "((a?b)*)*c\n(((b*)*a)*)*aac",
        pairs: &[(0, 1)],
        text: "",
        shown: &[],
    },
];

fn row_holds(alloc: Global, row: &Row) -> Result<bool, RegexRefusal> {
    let terminals = expressions(alloc, row.lines)?;
    Ok(is_shared(alloc, terminals.as_slice(), row)?)
}

fn all_shared(alloc: Global, rows: &[Row]) -> Result<bool, RegexRefusal> {
    for row in rows {
        if !row_holds(alloc, row)? {
            return Ok(false);
        }
    }
    Ok(true)
}

#[test]
fn the_least_text_of_all_pairs_is_found(rt: HostRuntime) {
    assert!(rt; holds(all_shared(rt.alloc(), &SHARED)));
}

// Whether the flags of the pairs are these, 1 for those that share a text.
fn are_flags(
    alloc: Global,
    terminals: &[Regex],
    pairs: &[(usize, usize)],
    flags: &[u8],
) -> Result<bool, AllocError> {
    let kept = pairs_below(alloc, terminals.len(), pairs)?;
    let found = sharing(alloc, terminals, kept.as_slice())?;
    Ok(are_equal(found.as_slice(), flags))
}

fn are_equal(found: &[bool], flags: &[u8]) -> bool {
    for (place, flag) in flags.iter().enumerate() {
        if place >= found.len() || found[place] != (*flag == b'1') {
            return false;
        }
    }
    found.len() == flags.len()
}

static FLAGS: [(&str, &[(usize, usize)], &str); 2] = [
    (
        "if\n[a-z]+\n[0-9]+\n(ab)+\na?b?c?d",
        &[
            (0, 1),
            (0, 2),
            (1, 2),
            (1, 3),
            (3, 3),
            (2, 4),
            (1, 4),
            (1, 0),
            (3, 4),
        ],
        "100110110",
    ),
    ("a", &[], ""),
];

fn flags_hold(
    alloc: Global,
    lines: &str,
    pairs: &[(usize, usize)],
    flags: &str,
) -> Result<bool, RegexRefusal> {
    let terminals = expressions(alloc, lines)?;
    Ok(are_flags(alloc, terminals.as_slice(), pairs, flags.as_bytes())?)
}

fn all_flags(
    alloc: Global,
    rows: &[(&str, &[(usize, usize)], &str)],
) -> Result<bool, RegexRefusal> {
    for (lines, pairs, flags) in rows {
        if !flags_hold(alloc, lines, *pairs, flags)? {
            return Ok(false);
        }
    }
    Ok(true)
}

#[test]
fn pairs_that_share_a_text_are_flagged(rt: HostRuntime) {
    assert!(rt; holds(all_flags(rt.alloc(), &FLAGS)));
}

// Whether the one text of an expression is this one, or it has none where that is empty.
fn is_only(alloc: Global, line: &str, text: &str) -> Result<bool, RegexRefusal> {
    let regex = read_regex(alloc, line.as_bytes())?;
    match only_text(alloc, &regex)? {
        None => Ok(text.is_empty()),
        Some(found) => Ok(found.as_slice() == text.as_bytes()),
    }
}

static ONLY: [(&str, &str); 3] = [("while", "while"), ("[a]b\\+", "ab+"), ("a|b", "")];

fn all_only(alloc: Global, rows: &[(&str, &str)]) -> Result<bool, RegexRefusal> {
    for (line, text) in rows {
        if !is_only(alloc, line, text)? {
            return Ok(false);
        }
    }
    Ok(true)
}

#[test]
fn a_keyword_is_one_text_alone(rt: HostRuntime) {
    assert!(rt; holds(all_only(rt.alloc(), &ONLY)));
}
