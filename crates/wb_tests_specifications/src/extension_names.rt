//! Does each name rule refuse an extension that breaks it, with the name that shows it?
//!
//! Extensions are named `e`. Each row has the text after the first line. Expected answers follow from the rules.

use crate::files::SUMS;
use crate::written::{Asked, Row, Tested, extensions_get, hosts_get};

// The host whose attributes and productions the extensions refer to.
const HOST: &str = "format 1; host h; \
    nonterminal E; syn v : int; syn w : int; inh i : int; occurs v on E; occurs w on E; occurs i on E; \
    abstract p : E ::= x : E { top.v = 1; } \
    abstract q : E ::= { forwards to q(); }";

static NAMES: Asked = Asked {
    tested: Tested::Names,
    first_line: "format 1; extension e for h; ",
};

static DECLARED_TWICE: [Row; 5] = [
    ("aspect q { forwards to q(); }", "N2 q"),
    ("abstract p : E ::= { }", "N2 p"),
    ("start E; start E;", "N2 E"),
    ("aspect p { top.v = 2; }", "N2 v"),
    (
        "aspect p { local y : E = x; } aspect p { local y : E = x; }",
        "N2 y",
    ),
];

#[test]
fn what_a_host_has_counts_for_its_extensions(rt: HostRuntime) {
    assert!(rt; extensions_get(rt.alloc(), &NAMES, HOST, &DECLARED_TWICE));
}

static UNDECLARED: [Row; 1] = [("start Q;", "N1 Q")];

#[test]
fn each_name_of_an_extension_is_declared(rt: HostRuntime) {
    assert!(rt; extensions_get(rt.alloc(), &NAMES, HOST, &UNDECLARED));
}

static WRONG_KINDS: [Row; 2] = [
    ("aspect p { forwards to q(); }", "N4 p"),
    ("terminal T /t/; start T;", "N4 T"),
];

#[test]
fn each_name_of_an_extension_is_of_the_right_kind(rt: HostRuntime) {
    assert!(rt; extensions_get(rt.alloc(), &NAMES, HOST, &WRONG_KINDS));
}

static ORPHANS: [Row; 7] = [
    ("aspect p { top.w = 2; }", "N3 w"),
    ("aspect p { x.i = 2; }", "N3 i"),
    ("aspect q { forward.i = 2; }", "N3 i"),
    ("aspect p { local y : E = x; top.w = y.v; }", "N3 w"),
    ("extensible E;", "N3 E"),
    ("ignore L /l/;", "N3 L"),
    ("forward on E needs { };", "N3 E"),
];

#[test]
fn an_extension_says_only_what_it_may(rt: HostRuntime) {
    assert!(rt; extensions_get(rt.alloc(), &NAMES, HOST, &ORPHANS));
}

static RIGHT: [Row; 8] = [
    ("aspect p { local y : E = x; y.i = 2; }", "ok"),
    ("syn u : int; occurs u on E; aspect p { top.u = 2; }", "ok"),
    ("inh j : int; occurs j on E; aspect p { x.j = 2; }", "ok"),
    ("abstract r : E ::= { top.w = 1; }", "ok"),
    ("marking K /k/; concrete r : E ::= k : K { }", "ok"),
    ("nonterminal Q; forward on Q needs { };", "ok"),
    ("nonterminal Q; occurs v on Q;", "ok"),
    ("marking K /k/; terminal L /l/; prefer K over L;", "ok"),
];

#[test]
fn what_is_right_in_an_extension_is_resolved(rt: HostRuntime) {
    assert!(rt; extensions_get(rt.alloc(), &NAMES, HOST, &RIGHT));
}

// The host closed E, and left F open.
const CLOSING: &str = "format 2; host h; \
    nonterminal E; nonterminal F; syn v : int; occurs v on E; closed E; \
    abstract p : E ::= x : F { top.v = 1; }";

static IN_FORMAT_2: Asked = Asked {
    tested: Tested::Names,
    first_line: "format 2; extension e for h; ",
};

static ON_CLOSED: [Row; 9] = [
    ("syn u : int; occurs u on E;", "N3 u"),
    ("inh j : int; occurs j on E;", "N3 j"),
    ("closed E;", "N3 E"),
    ("closed F;", "N3 F"),
    ("nonterminal Q; closed Q;", "N3 Q"),
    ("closed E; closed E;", "N2 E"),
    ("closed Q;", "N1 Q"),
    ("closed v;", "N1 v"),
    ("closed p;", "N4 p"),
];

#[test]
fn an_extension_closes_nothing_and_adds_nothing_to_what_is_closed(rt: HostRuntime) {
    assert!(rt; extensions_get(rt.alloc(), &IN_FORMAT_2, CLOSING, &ON_CLOSED));
}

static BESIDE_CLOSED: [Row; 3] = [
    (
        "syn u : int; occurs u on F; inh j : int; occurs j on F; aspect p { x.j = 1; }",
        "ok",
    ),
    ("abstract r : E ::= { top.v = 1; }", "ok"),
    (
        "nonterminal Q; syn u : int; occurs u on Q; occurs v on Q;",
        "ok",
    ),
];

#[test]
fn what_is_not_closed_is_as_it_was(rt: HostRuntime) {
    assert!(rt; extensions_get(rt.alloc(), &IN_FORMAT_2, CLOSING, &BESIDE_CLOSED));
}

// In files of format 1 no name is closed, and `closed` is a name.
static IN_FORMAT_1: [Row; 2] = [
    ("abstract closed : E ::= { top.v = 1; }", "ok"),
    ("nonterminal closed; syn u : int; occurs u on closed;", "ok"),
];

#[test]
fn the_word_is_a_name_in_format_1(rt: HostRuntime) {
    assert!(rt; extensions_get(rt.alloc(), &NAMES, CLOSING, &IN_FORMAT_1));
}

static DASH_IN_FORMAT_2: Asked = Asked {
    tested: Tested::Names,
    first_line: "format 2; extension dash for tiny; ",
};

// Extensions of format 2 with layout of their own.
static WITH_LAYOUT: [Row; 9] = [
    (
        "marking D /d/; ignore Dash /-/; \
            concrete twin : T ::= m : D t : T { forwards to num(@to_text(@mul(2, t.value))); }",
        "ok",
    ),
    ("ignore Dash /-/; prefer Dash over Num;", "ok"),
    ("ignore Dash /-/; prefer Space over Dash;", "ok"),
    ("ignore Dash /-/; prefer Plus over Num;", "N3 Plus"),
    ("ignore Dash /-/; nonterminal Q; extensible Q;", "N3 Q"),
    ("ignore Dash /-/; nonterminal Q; closed Q;", "N3 Q"),
    ("ignore Space /-/;", "N2 Space"),
    ("ignore Dash /-/; ignore Dash /_/;", "N2 Dash"),
    (
        "ignore Dash /-/; concrete twin : T ::= m : Dash { }",
        "N4 Dash",
    ),
];

static DASH_IN_FORMAT_1: Asked = Asked {
    tested: Tested::Names,
    first_line: "format 1; extension dash for tiny; ",
};

// The same in format 1, in which the host alone has layout.
static WITHOUT_LAYOUT: [Row; 3] = [
    (
        "marking D /d/; ignore Dash /-/; \
            concrete twin : T ::= m : D t : T { forwards to num(@to_text(@mul(2, t.value))); }",
        "N3 Dash",
    ),
    ("ignore Dash /-/; prefer Dash over Num;", "N3 Dash"),
    ("ignore Space /-/;", "N2 Space"),
];

#[test]
fn an_extension_may_have_layout_in_format_2(rt: HostRuntime) {
    assert!(rt;
        extensions_get(rt.alloc(), &DASH_IN_FORMAT_2, SUMS, &WITH_LAYOUT)
            && extensions_get(rt.alloc(), &DASH_IN_FORMAT_1, SUMS, &WITHOUT_LAYOUT)
    );
}

static WITH_FIRST_LINES: Asked = Asked {
    tested: Tested::Names,
    first_line: "",
};

// An extension in place of a host, and a name declared twice.
static NO_HOST: [Row; 1] = [("format 1; extension e for g; start A; start A;", "N4 e")];

// A host in place of an extension, and an extension of another host, each with a name declared twice.
static NO_EXTENSIONS: [Row; 2] = [
    ("format 1; host k; start A; start A;", "N4 k"),
    ("format 1; extension e for g; start A; start A;", "N5 g"),
];

#[test]
fn the_first_line_is_tested_first(rt: HostRuntime) {
    assert!(rt;
        hosts_get(rt.alloc(), &WITH_FIRST_LINES, &NO_HOST)
            && extensions_get(rt.alloc(), &WITH_FIRST_LINES, HOST, &NO_EXTENSIONS)
    );
}
