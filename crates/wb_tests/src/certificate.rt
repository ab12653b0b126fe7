//! Does `certificate` write the certificate of a host, or of an extension with its host?
//!
//! Files are in memory. The certificates follow from the rules: kernels are numbered and entries listed as they are first reached.

use crate::expected::{each_ends_so, each_read_may_fail, each_write_may_fail, expect};
use std::alloc::{AllocError, Global};
use wb_program::Status;
use wb_tests_runs::{DUP, KW0, Row, TINY, ends_so};

const ONE: &str =
    "format 1; host one; terminal X /x/; nonterminal S; start S; concrete go : S ::= x : X { }";

const OPEN: &str =
    "format 1; host one; terminal X /x/; nonterminal S; start S; extensible S; concrete go : S ::= x : X { }";

const MORE: &str =
    "format 1; extension more for one; marking M /m/; concrete marked : S ::= m : M { forwards to go(\"x\"); }";

static ROWS: [Row; 4] = [
    (
        "workbench certificate h",
        &[ONE],
        Status::Done,
        "certificate 1\nhost one\nkernel 0 t0\nkernel 0 n0\n\
            look 0 1 0 1 -\nlook 0 0 0 1 0\nlook 2 1 1 1 0\nlook 1 0 1 1 1\n",
    ),
    // The hole of S is terminal 1.
    (
        "workbench certificate h",
        &[OPEN],
        Status::Done,
        "certificate 1\nhost one\nkernel 0 t0\nkernel 0 t1\nkernel 0 n0\n\
            look 0 2 0 2 -\nlook 0 0 0 2 0\nlook 0 1 0 2 0\nlook 3 2 1 2 0\nlook 1 0 1 2 1\nlook 2 1 1 2 2\n",
    ),
    (
        "workbench certificate h t",
        &[OPEN, MORE],
        Status::Done,
        "certificate 1\nextension more for one\nkernel 0 t0\nkernel 0 t1\nkernel 0 t2\nkernel 0 n0\n\
            look 0 3 0 3 -\nlook 0 0 0 3 0\nlook 0 1 0 3 0\nlook 0 2 0 3 0\nlook 4 3 1 3 0\n\
            look 1 0 1 3 1\nlook 2 1 1 3 2\nlook 3 2 1 3 3\n",
    ),
    // The extension adds nothing to the grammar.
    (
        "workbench certificate h t",
        &[ONE, "format 1; extension none for one;"],
        Status::Done,
        "certificate 1\nextension none for one\nkernel 0 t0\nkernel 0 n0\n\
            look 0 1 0 1 -\nlook 0 0 0 1 0\nlook 2 1 1 1 0\nlook 1 0 1 1 1\n",
    ),
];

#[test]
fn a_certificate_lists_kernels_and_lookaheads(rt: HostRuntime) {
    each_ends_so(&rt, &ROWS);
}

const USAGE: &str =
    "usage: workbench value|show|check|certify|compose|tree|run|generate|certificate|recheck|edit|reading ARGUMENTS\n";

static OTHERS: [Row; 14] = [
    ("workbench certificate", &[ONE], Status::Usage, USAGE),
    (
        "workbench certificate h t u",
        &[TINY, DUP, DUP],
        Status::Usage,
        USAGE,
    ),
    (
        "workbench certificate --text t h",
        &[ONE, ""],
        Status::Usage,
        USAGE,
    ),
    ("workbench certificate -h", &[ONE], Status::Usage, USAGE),
    ("workbench certificates h", &[ONE], Status::Usage, USAGE),
    (
        "workbench certificate h",
        &[""],
        Status::SpecRefused,
        "refused h S1 at 0\n",
    ),
    (
        "workbench certificate h t",
        &[KW0, ""],
        Status::NotCertified,
        "refused h G5 after: If and Id share \"if\"\n",
    ),
    (
        "workbench certificate h t",
        &[ONE, ""],
        Status::SpecRefused,
        "refused t S1 at 0\n",
    ),
    (
        "workbench certificate h t",
        &[ONE, DUP],
        Status::WrongHost,
        "wrong host t names tiny\n",
    ),
    (
        "workbench certificate h t",
        &[ONE, "format 1; extension e for one; start S;"],
        Status::SpecRefused,
        "refused t N3 S\n",
    ),
    // S isn't extensible.
    (
        "workbench certificate h t",
        &[ONE, MORE],
        Status::NotCertified,
        "refused t E3 more:marked\n",
    ),
    ("workbench certificate g t", &[ONE], Status::Absent, ""),
    ("workbench certificate h t", &[ONE], Status::Absent, ""),
    (
        "workbench certificate h g",
        &[KW0],
        Status::NotCertified,
        "refused h G5 after: If and Id share \"if\"\n",
    ),
];

#[test]
fn the_first_check_that_fails_leaves_no_certificate(rt: HostRuntime) {
    each_ends_so(&rt, &OTHERS);
}

// A host in which each of so many words may be followed by each of as many others.
fn wide(alloc: Global, words: usize) -> Result<String, AllocError> {
    let mut text = String::from_str(
        alloc,
        "format 1; host wide; nonterminal S; nonterminal E; start S;",
    )?;
    for word in 0..words {
        add_words(alloc, &mut text, word)?;
    }
    Ok(text)
}

// Adds a word, and one that follows.
fn add_words(alloc: Global, text: &mut String, word: usize) -> Result<(), AllocError> {
    let rules = format!(in alloc;
        " terminal A{word} /a{word}/; terminal B{word} /b{word}/; \
        concrete s{word} : S ::= e : E b : B{word} {{ }} concrete e{word} : E ::= a : A{word} {{ }}"
    )?;
    text.push_str(rules.as_str())?;
    Ok(())
}

// Whether the certificate of a wide host has more bytes than are printed: 980,000 lines of 17 bytes at least.
fn is_too_long(alloc: Global) -> Result<bool, AllocError> {
    let host = wide(alloc, 700)?;
    ends_so(
        alloc,
        "workbench certificate h",
        &[host.as_str()],
        Status::TooLongToPrint,
        "value too long to print\n",
    )
}

#[test]
fn a_certificate_of_more_than_16_megabytes_is_not_printed(rt: HostRuntime) {
    expect(&rt, is_too_long(rt.alloc()));
}

#[test]
fn a_read_that_fails_leaves_no_certificate(rt: HostRuntime) {
    each_read_may_fail(&rt, &ROWS[2], 2);
}

#[test]
fn a_write_that_fails_leaves_what_was_written_of_a_certificate(rt: HostRuntime) {
    each_write_may_fail(&rt, &ROWS[2]);
}
