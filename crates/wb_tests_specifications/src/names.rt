//! Does each name rule refuse a host that breaks it, with the name that shows it?
//!
//! Hosts are named `h`. Each row has the text after the first line. Expected answers follow from the rules.

use crate::written::{Asked, Row, Tested, hosts_get};

static NAMES: Asked = Asked {
    tested: Tested::Names,
    first_line: "format 1; host h; ",
};

// Hosts in which something is declared twice, each with its name.
static DECLARED_TWICE: [Row; 18] = [
    ("nonterminal A; nonterminal A;", "N2 A"),
    ("extensible Q; extensible Q;", "N2 Q"),
    ("start A; start B;", "N2 B"),
    ("nonterminal A; terminal A /a/;", "N2 A"),
    ("syn a : int; inh a : int;", "N2 a"),
    (
        "nonterminal E; syn v : int; occurs v on E; occurs v on E;",
        "N2 v",
    ),
    (
        "nonterminal E; abstract p : E ::= x : int x : int { }",
        "N2 x",
    ),
    (
        "nonterminal E; abstract p : E ::= x : E { local x : E = x; }",
        "N2 x",
    ),
    (
        "nonterminal E; abstract p : E ::= x : E { } aspect p { local x : E = x; }",
        "N2 x",
    ),
    (
        "nonterminal E; abstract p : E ::= { } aspect p { local x : E = p(); } aspect p { local x : E = p(); }",
        "N2 x",
    ),
    (
        "terminal A /a/; terminal B /b/; prefer A over B; prefer A over B;",
        "N2 A",
    ),
    (
        "nonterminal E; forward on E needs { }; forward on E needs { };",
        "N2 E",
    ),
    (
        "nonterminal E; syn v : int; occurs v on E; abstract p : E ::= { top.v = 1; top.v = 2; }",
        "N2 v",
    ),
    (
        "nonterminal E; syn v : int; occurs v on E; abstract p : E ::= { top.v = 1; } aspect p { top.v = 2; }",
        "N2 v",
    ),
    ("aspect f { top.v = 1; top.v = 2; }", "N2 v"),
    (
        "nonterminal E; abstract p : E ::= { forwards to p(); forwards to p(); }",
        "N2 p",
    ),
    (
        "nonterminal E; abstract p : E ::= { } abstract p : E ::= { }",
        "N2 p",
    ),
    ("nonterminal A; nonterminal A; start Q;", "N2 A"),
];

#[test]
fn nothing_is_declared_twice_in_a_host(rt: HostRuntime) {
    assert!(rt; hosts_get(rt.alloc(), &NAMES, &DECLARED_TWICE));
}

// Hosts in which a name is not declared, each with that name.
static UNDECLARED: [Row; 18] = [
    ("nonterminal E; occurs q on E;", "N1 q"),
    ("start A;", "N1 A"),
    ("syn v : K;", "N1 K"),
    ("nonterminal E; abstract p : E ::= x : Q { }", "N1 Q"),
    (
        "nonterminal E; syn v : int; abstract p : E ::= { top.v = 1; }",
        "N1 v",
    ),
    (
        "nonterminal E; syn v : int; occurs v on E; abstract p : E ::= { top.v = x; }",
        "N1 x",
    ),
    (
        "nonterminal E; syn v : int; occurs v on E; abstract p : E ::= { top.v = x.v; }",
        "N1 x",
    ),
    (
        "nonterminal E; syn v : int; occurs v on E; abstract p : E ::= { top.v = x.lexeme; }",
        "N1 x",
    ),
    (
        "nonterminal E; syn v : int; occurs v on E; abstract p : E ::= { top.v = forward.v; }",
        "N1 v",
    ),
    (
        "nonterminal E; syn v : int; inh i : int; occurs v on E needs { i };",
        "N1 i",
    ),
    (
        "nonterminal E; inh i : int; forward on E needs { i };",
        "N1 i",
    ),
    (
        "nonterminal E; syn v : int; occurs v on E; abstract p : E ::= { top.v = q(); }",
        "N1 q",
    ),
    ("aspect f { }", "N1 f"),
    ("nonterminal E; terminal T /t/; prefer T over U;", "N1 U"),
    (
        "nonterminal E; nonterminal F; inh i : int; occurs i on E; abstract p : E ::= x : F { x.i = 1; }",
        "N1 i",
    ),
    (
        "nonterminal E; syn v : int; occurs v on E; aspect f { top.v = x; }",
        "N1 f",
    ),
    (
        "nonterminal E; abstract p : E ::= { local y : int2 = p(); }",
        "N1 int2",
    ),
    ("terminal T /t/; start T; extensible Q;", "N1 Q"),
];

#[test]
fn each_name_of_a_host_is_declared(rt: HostRuntime) {
    assert!(rt; hosts_get(rt.alloc(), &NAMES, &UNDECLARED));
}

// Hosts in which a name is of the wrong kind, each with that name.
static WRONG_KINDS: [Row; 24] = [
    ("marking M /m/;", "N4 M"),
    (
        "nonterminal E; syn v : int; occurs v on E; abstract p : E ::= { top.v = forward.v; } aspect p { forwards to p(); }",
        "N4 p",
    ),
    ("terminal T /t/; start T;", "N4 T"),
    ("nonterminal E; terminal T /t/; prefer E over T;", "N4 E"),
    ("nonterminal E; concrete p : E ::= x : int { }", "N4 x"),
    (
        "nonterminal E; ignore L /l/; concrete p : E ::= x : L { }",
        "N4 L",
    ),
    (
        "nonterminal E; terminal T /t/; abstract p : E ::= x : T { }",
        "N4 T",
    ),
    ("terminal T /t/; abstract p : T ::= { }", "N4 T"),
    ("terminal T /t/; syn v : T;", "N4 T"),
    ("terminal T /t/; aspect T { }", "N4 T"),
    (
        "nonterminal E; syn v : int; occurs v on E; occurs w on E needs { v }; syn w : int;",
        "N4 v",
    ),
    (
        "nonterminal E; inh i : int; occurs i on E; abstract p : E ::= { top.i = 1; }",
        "N4 i",
    ),
    (
        "nonterminal E; syn v : int; occurs v on E; abstract p : E ::= x : E { x.v = 1; }",
        "N4 v",
    ),
    (
        "nonterminal E; syn v : int; inh i : int; occurs i on E; occurs v on E; abstract p : E ::= x : int { x.i = 1; }",
        "N4 x",
    ),
    (
        "nonterminal E; syn v : int; occurs v on E; abstract p : E ::= x : int { top.v = x.v; }",
        "N4 x",
    ),
    (
        "nonterminal E; syn v : int; inh i : int; occurs i on E; occurs v on E; abstract p : E ::= { top.v = top.v; }",
        "N4 v",
    ),
    (
        "nonterminal E; syn v : int; inh i : int; occurs i on E; occurs v on E; abstract p : E ::= x : E { top.v = x.i; }",
        "N4 i",
    ),
    (
        "nonterminal E; terminal T /t/; syn v : text; occurs v on E; concrete p : E ::= x : T { top.v = x; }",
        "N4 x",
    ),
    (
        "nonterminal E; syn v : text; occurs v on E; abstract p : E ::= x : text { top.v = x.lexeme; }",
        "N4 x",
    ),
    (
        "nonterminal E; inh i : int; occurs i on E needs { };",
        "N4 i",
    ),
    (
        "nonterminal E; abstract p : E ::= { } aspect p { forwards to p(); }",
        "N4 p",
    ),
    (
        "nonterminal E; terminal T /t/; abstract p : E ::= { local y : T = p(); }",
        "N4 T",
    ),
    (
        "terminal T /t/; inh i : int; syn v : int; occurs v on T needs { i };",
        "N4 T",
    ),
    (
        "nonterminal E; syn v : int; occurs v on E; terminal T /t/; abstract p : E ::= { top.v = T(); }",
        "N4 T",
    ),
];

#[test]
fn each_name_of_a_host_is_of_the_right_kind(rt: HostRuntime) {
    assert!(rt; hosts_get(rt.alloc(), &NAMES, &WRONG_KINDS));
}

static RIGHT: [Row; 8] = [
    ("nonterminal A; syn A : int;", "ok"),
    (
        "terminal A /a/; terminal B /b/; prefer A over B; prefer B over A;",
        "ok",
    ),
    (
        "nonterminal E; syn v : int; occurs v on E; abstract p : E ::= { top.v = forward.v; forwards to p(); }",
        "ok",
    ),
    (
        "nonterminal E; inh i : int; occurs i on E; forward on E needs { i };",
        "ok",
    ),
    (
        "nonterminal E; syn v : int; occurs v on E; abstract p : E ::= { top.v = @frob(1); }",
        "ok",
    ),
    (
        "nonterminal E; terminal T /t/; concrete p : E ::= x : T { }",
        "ok",
    ),
    (
        "nonterminal E; terminal T /t/; syn v : text; occurs v on E; concrete p : E ::= x : T { top.v = x.lexeme; }",
        "ok",
    ),
    (
        "nonterminal E; syn v : E; occurs v on E; concrete p : E ::= x : E { top.v = x; local y : E = y; }",
        "ok",
    ),
];

#[test]
fn what_is_right_in_a_host_is_resolved(rt: HostRuntime) {
    assert!(rt; hosts_get(rt.alloc(), &NAMES, &RIGHT));
}

static IN_FORMAT_2: Asked = Asked {
    tested: Tested::Names,
    first_line: "format 2; host h; ",
};

// Hosts that close a nonterminal.
static CLOSING: [Row; 6] = [
    ("nonterminal E; closed E;", "ok"),
    ("closed E; extensible E; nonterminal E; start E;", "ok"),
    ("nonterminal E; closed E; closed E;", "N2 E"),
    ("closed Q; closed Q;", "N2 Q"),
    ("syn E : int; closed E;", "N1 E"),
    ("terminal E /e/; closed E;", "N4 E"),
];

#[test]
fn what_a_host_closes_is_a_nonterminal(rt: HostRuntime) {
    assert!(rt; hosts_get(rt.alloc(), &IN_FORMAT_2, &CLOSING));
}
