//! Does each rule on markers refuse an extension that breaks it, with an example?
//!
//! Extensions are named `e`. Each row has the text after the first line. Expected answers follow from the rules.

use crate::written::{Asked, Row, Tested, append, extensions_get};
use std::alloc::{AllocError, Global};
use wb_base::Bytes;
use wb_marking::{MarkRefusal, check_marks};
use wb_syntax_resolved::{Resolved, ResolvedParts};

// A host: E is extensible and C isn't; words of small letters are Id, and S is layout.
const HOST: &str = "format 1; host h; \
    terminal T /[0-9]+/; terminal Id /[a-z]+/; ignore S /[ ]+/; \
    nonterminal E; nonterminal C; start E; extensible E; \
    concrete p : E ::= t : T { } \
    concrete q : E ::= c : C { } \
    concrete r : C ::= x : Id { }";

static MARKERS: Asked = Asked {
    tested: Tested::Markers,
    first_line: "format 1; extension e for h; ",
};

// Appends the rule that an extension's markers break, with what shows it.
pub(crate) fn append_markers(
    alloc: Global,
    extension: &Resolved,
    out: &mut Vec<u8>,
) -> Result<(), AllocError> {
    match &extension.parts().grammar {
        Some(_) => append_answer(extension.parts(), &check_marks(alloc, extension), out),
        None => Ok(()),
    }
}

fn append_answer(
    parts: &ResolvedParts,
    answer: &Result<(), MarkRefusal>,
    out: &mut Vec<u8>,
) -> Result<(), AllocError> {
    match answer {
        Ok(()) => out.extend_from_slice(b"ok"),
        Err(refusal) => append_refusal(parts, refusal, out),
    }
}

fn append_refusal(
    parts: &ResolvedParts,
    refusal: &MarkRefusal,
    out: &mut Vec<u8>,
) -> Result<(), AllocError> {
    match refusal {
        MarkRefusal::NotBridge(number) => append_production(parts, "E1 ", *number, out),
        MarkRefusal::MarkerElsewhere(number) => append_terminal(parts, "E2 ", *number, out),
        MarkRefusal::NotExtensible(number) => append_production(parts, "E3 ", *number, out),
        MarkRefusal::MarkerClash {
            marker,
            other,
            text,
        } => append_clash(parts, (*marker, *other), text, out),
        MarkRefusal::NoMemory(_) => Err(AllocError),
    }
}

// Appends the name of a production after a text.
pub(crate) fn append_production(
    parts: &ResolvedParts,
    before: &str,
    number: usize,
    out: &mut Vec<u8>,
) -> Result<(), AllocError> {
    let productions = parts.attributes.parts().productions.as_slice();
    if number >= productions.len() {
        return Ok(());
    }
    append(
        out,
        &[before.as_bytes(), productions[number].name.as_slice()],
    )
}

// Appends the name of a terminal after a text.
fn append_terminal(
    parts: &ResolvedParts,
    before: &str,
    number: usize,
    out: &mut Vec<u8>,
) -> Result<(), AllocError> {
    let terminals = parts.terminals.as_slice();
    if number >= terminals.len() {
        return Ok(());
    }
    append(out, &[before.as_bytes(), terminals[number].name.as_slice()])
}

// Appends two terminals and the text that they share.
fn append_clash(
    parts: &ResolvedParts,
    terminals: (usize, usize),
    text: &Bytes,
    out: &mut Vec<u8>,
) -> Result<(), AllocError> {
    append_terminal(parts, "E4 ", terminals.0, out)?;
    append_terminal(parts, " ", terminals.1, out)?;
    append(out, &[b" ".as_slice(), text.as_slice()])
}

// Extensions with a production on a nonterminal of the host that doesn't begin with a marker.
static NO_BRIDGE: [Row; 6] = [
    ("concrete x : E ::= { }", "E1 x"),
    ("concrete x : E ::= t : T { }", "E1 x"),
    ("terminal U /U/; concrete x : C ::= u : U { }", "E1 x"),
    ("nonterminal N; concrete x : E ::= n : N { }", "E1 x"),
    ("marking M /M/; concrete x : E ::= t : T m : M { }", "E1 x"),
    // The first rule is tested on all productions before the second.
    (
        "marking M /M/; concrete y : E ::= m : M a : M { } concrete x : C ::= t : T { }",
        "E1 x",
    ),
];

#[test]
fn productions_on_the_hosts_nonterminals_begin_with_markers(rt: HostRuntime) {
    assert!(rt; extensions_get(rt.alloc(), &MARKERS, HOST, &NO_BRIDGE));
}

// Extensions with a marker that doesn't begin exactly one production on a nonterminal of the host, or occurs elsewhere.
static ELSEWHERE: [Row; 8] = [
    ("marking M /M/;", "E2 M"),
    (
        "marking M /M/; concrete x : E ::= m : M { } concrete y : E ::= m : M t : T { }",
        "E2 M",
    ),
    // A marker that occurs again later in its own bridge.
    ("marking M /M/; concrete x : E ::= m : M a : M { }", "E2 M"),
    (
        "marking M /M/; nonterminal N; concrete x : N ::= m : M { }",
        "E2 M",
    ),
    (
        "marking M /M/; nonterminal N; concrete x : E ::= m : M n : N { } concrete y : N ::= m : M { }",
        "E2 M",
    ),
    (
        "marking M /M/; nonterminal N; concrete x : E ::= m : M n : N { } concrete y : N ::= t : T m : M { }",
        "E2 M",
    ),
    (
        "marking M /M/; marking K /K/; concrete x : E ::= m : M k : K { } concrete y : E ::= k : K { }",
        "E2 K",
    ),
    // The second rule is tested on all markers before the third.
    (
        "marking M /M/; marking K /K/; concrete x : C ::= m : M { }",
        "E2 K",
    ),
];

#[test]
fn each_marker_begins_one_production_and_is_nowhere_else(rt: HostRuntime) {
    assert!(rt; extensions_get(rt.alloc(), &MARKERS, HOST, &ELSEWHERE));
}

// Extensions with a bridge on a nonterminal that isn't extensible.
static NOT_EXTENSIBLE: [Row; 2] = [
    ("marking M /M/; concrete x : C ::= m : M { }", "E3 x"),
    (
        "marking M /M/; marking K /m/; concrete x : E ::= k : K { } concrete y : C ::= m : M { }",
        "E3 y",
    ),
];

#[test]
fn bridges_are_on_extensible_nonterminals(rt: HostRuntime) {
    assert!(rt; extensions_get(rt.alloc(), &MARKERS, HOST, &NOT_EXTENSIBLE));
}

// Extensions with a marker that shares a text with another terminal and no preference. Each row has the two and the least text.
static CLASHES: [Row; 11] = [
    ("marking M /m/; concrete x : E ::= m : M { }", "E4 M Id m"),
    (
        "marking M /[0-9]x|7/; concrete x : E ::= m : M { }",
        "E4 M T 7",
    ),
    ("marking M /[ ]/; concrete x : E ::= m : M { }", "E4 M S  "),
    ("marking M /A?b/; concrete x : E ::= m : M { }", "E4 M Id b"),
    (
        "marking M /(A|c)(B|d)/; concrete x : E ::= m : M { }",
        "E4 M Id cd",
    ),
    (
        "marking M /A*B?c+/; concrete x : E ::= m : M { }",
        "E4 M Id c",
    ),
    // Of two markers, the one that is declared first is shown first.
    (
        "marking M /M/; marking K /K|M/; concrete x : E ::= k : K { } concrete y : E ::= m : M { }",
        "E4 M K M",
    ),
    // The same text may be written in several ways.
    (
        "marking M /Mab/; marking K /[M](a)b/; concrete x : E ::= m : M { } concrete y : E ::= k : K { }",
        "E4 M K Mab",
    ),
    (
        "marking M /Mab/; marking K /Ma?b/; concrete x : E ::= m : M { } concrete y : E ::= k : K { }",
        "E4 M K Mab",
    ),
    // Preferences aren't transitive.
    (
        "marking M /m/; terminal A /m/; prefer M over A; prefer A over Id; concrete x : E ::= m : M a : A { }",
        "E4 M Id m",
    ),
    // Another preference doesn't help.
    (
        "marking M /m/; prefer M over T; concrete x : E ::= m : M { }",
        "E4 M Id m",
    ),
];

#[test]
fn markers_that_share_a_text_are_ordered(rt: HostRuntime) {
    assert!(rt; extensions_get(rt.alloc(), &MARKERS, HOST, &CLASHES));
}

// Extensions whose markers obey the rules.
static KEPT: [Row; 11] = [
    ("", "ok"),
    ("marking M /M/; concrete x : E ::= m : M { }", "ok"),
    (
        "marking M /m/; prefer M over Id; concrete x : E ::= m : M t : T { }",
        "ok",
    ),
    (
        "marking M /m/; prefer Id over M; concrete x : E ::= m : M { }",
        "ok",
    ),
    (
        "marking M /M/; marking K /K|M/; prefer K over M; concrete x : E ::= m : M { } concrete y : E ::= k : K { }",
        "ok",
    ),
    // Other terminals of the extension may share a text with a marker. States tell them apart, or the grammar is refused.
    (
        "marking M /M/; terminal U /M/; concrete x : E ::= m : M u : U { }",
        "ok",
    ),
    (
        "nonterminal N; terminal U /U/; marking M /M/; \
            concrete x : E ::= m : M n : N { } \
            concrete y : N ::= u : U n : N { } \
            concrete z : N ::= { }",
        "ok",
    ),
    ("marking M /A?B/; concrete x : E ::= m : M { }", "ok"),
    (
        "marking M /Mab/; marking K /Mabc/; concrete x : E ::= m : M { } concrete y : E ::= k : K { }",
        "ok",
    ),
    (
        "marking M /Mab/; marking K /Mac/; concrete x : E ::= m : M { } concrete y : E ::= k : K { }",
        "ok",
    ),
    // An abstract production needs no marker.
    ("abstract x : E ::= n : int { }", "ok"),
];

#[test]
fn markers_that_keep_the_rules_are_taken(rt: HostRuntime) {
    assert!(rt; extensions_get(rt.alloc(), &MARKERS, HOST, &KEPT));
}
