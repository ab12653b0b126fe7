//! Does `check` report the expected lines for each host?
//!
//! Files are in memory. A refusal may show any true example, so there is a row for each.

use crate::expected::{each_ends_so, each_long_ends_so, expect, one_ends_so};
use std::alloc::{AllocError, Global};
use wb_program::Status;
use wb_tests_runs::{AMB, KW, KW0, LIST, LongRow, MINI, PTR, Row, status_of};
use wb_world::MemorySink;

static CERTIFIED: [Row; 4] = [
    (
        "workbench check h",
        &[KW],
        Status::Done,
        "certified host kw\n",
    ),
    (
        "workbench check h",
        &[LIST],
        Status::Done,
        "certified host list\n",
    ),
    (
        "workbench check h",
        &[PTR],
        Status::Done,
        "certified host ptr\n",
    ),
    (
        "workbench check h",
        &[MINI],
        Status::Done,
        "certified host mini\n",
    ),
];

#[test]
fn each_certified_host_is_named(rt: HostRuntime) {
    each_ends_so(&rt, &CERTIFIED);
}

static REFUSED: [Row; 9] = [
    (
        "workbench check h",
        &["format 1; extension e for h;"],
        Status::SpecRefused,
        "refused h N4 e\n",
    ),
    (
        "workbench check h",
        &["format 1; host h; nonterminal A; nonterminal A;"],
        Status::SpecRefused,
        "refused h N2 A\n",
    ),
    (
        "workbench check h",
        &["format 1; host h; terminal T /t/; start T;"],
        Status::SpecRefused,
        "refused h N4 T\n",
    ),
    (
        "workbench check h",
        &[
            "format 1; host h; nonterminal E; syn v : int; occurs v on E; abstract p : E ::= { top.v = @frob(1); }",
        ],
        Status::SpecRefused,
        "refused h N1 frob\n",
    ),
    (
        "workbench check h",
        &[
            "format 1; host h; nonterminal E; syn v : int; occurs v on E; abstract p : E ::= { top.v = @neg(); }",
        ],
        Status::SpecRefused,
        "refused h Y2 at 82\n",
    ),
    (
        "workbench check h",
        &[""],
        Status::SpecRefused,
        "refused h S1 at 0\n",
    ),
    (
        "workbench check h",
        &["format 1; host t; nonterminal E; occurs q on E;"],
        Status::SpecRefused,
        "refused h N1 q\n",
    ),
    (
        "workbench check h",
        &[
            "format 1; host y; nonterminal E; syn v : int; occurs v on E; abstract p : E ::= { top.v = true; }",
        ],
        Status::SpecRefused,
        "refused h Y1 at 82\n",
    ),
    (
        "workbench check h",
        &["format 1; host h; terminal T /a*/;"],
        Status::SpecRefused,
        "refused h R2 T\n",
    ),
];

#[test]
fn each_rule_of_specifications_has_its_line(rt: HostRuntime) {
    each_ends_so(&rt, &REFUSED);
}

static NOT_CERTIFIED: [Row; 14] = [
    (
        "workbench check h",
        &["format 1; host h; terminal X /x/; prefer X over X;"],
        Status::NotCertified,
        "refused h G6 X\n",
    ),
    (
        "workbench check h",
        &["format 1; host h;"],
        Status::NotCertified,
        "refused h G1 no start\n",
    ),
    (
        "workbench check h",
        &[
            "format 1; host h; \
                terminal X /x/; nonterminal S; start S; nonterminal N; \
                concrete go : S ::= x : X { } \
                concrete n : N ::= x : X { }",
        ],
        Status::NotCertified,
        "refused h G1 unreachable N\n",
    ),
    (
        "workbench check h",
        &[
            "format 1; host h; terminal X /x/; nonterminal S; start S; concrete go : S ::= s : S { }",
        ],
        Status::NotCertified,
        "refused h G1 unproductive S\n",
    ),
    (
        "workbench check h",
        &[
            "format 1; host h; terminal X /x/; nonterminal S; start S; concrete a : S ::= s : S { } concrete b : S ::= x : X { }",
        ],
        Status::NotCertified,
        "refused h G2 S\n",
    ),
    (
        "workbench check h",
        &[
            "format 1; host h; \
                terminal X /x/; nonterminal S; start S; nonterminal N; \
                concrete a : S ::= n : N s : S x : X { } \
                concrete b : S ::= x : X { } \
                concrete c : N ::= { }",
        ],
        Status::NotCertified,
        "refused h G3 S\n",
    ),
    (
        "workbench check h",
        &[
            "format 1; host h; \
                terminal X /x/; nonterminal S; start S; terminal Y /[a-z]/; \
                concrete a : S ::= x : X { } \
                concrete b : S ::= y : Y { }",
        ],
        Status::NotCertified,
        "refused h G5 after: X and Y share \"x\"\n",
    ),
    (
        "workbench check h",
        &[
            "format 1; host h; \
                terminal X /x/; nonterminal S; start S; extensible S; \
                terminal P /p/; \
                concrete a : S ::= l : S p : P r : S { } \
                concrete b : S ::= x : X { }",
        ],
        Status::NotCertified,
        "refused h G4 after S P S on P: shift and reduce a\n",
    ),
    (
        "workbench check h",
        &[KW0],
        Status::NotCertified,
        "refused h G5 after: If and Id share \"if\"\n",
    ),
    (
        "workbench check h",
        &[
            "format 1; host h; terminal X /x/; nonterminal S; start S; inh i : int; syn s : int; occurs s on S; concrete go : S ::= x : X { }",
        ],
        Status::NotCertified,
        "refused h A1 go s\n",
    ),
    (
        "workbench check h",
        &[
            "format 1; host h; terminal X /x/; nonterminal S; start S; inh i : int; syn s : int; occurs i on S; concrete go : S ::= x : X { }",
        ],
        Status::NotCertified,
        "refused h A5 i\n",
    ),
    (
        "workbench check h",
        &[
            "format 1; host h; \
                terminal X /x/; nonterminal S; start S; inh i : int; syn s : int; \
                nonterminal N; \
                occurs i on N; occurs s on N needs { i }; occurs s on S; \
                concrete go : S ::= n : N { top.s = n.s; } \
                concrete leaf : N ::= x : X { top.s = top.i; }",
        ],
        Status::NotCertified,
        "refused h A2 go n.i\n",
    ),
    (
        "workbench check h",
        &[
            "format 1; host h; \
                terminal X /x/; \
                nonterminal S; start S; inh i : int; syn s : int; nonterminal N; occurs i on N; occurs s on N; \
                concrete go : S ::= n : N { } \
                concrete leaf : N ::= x : X { top.s = top.i; }",
        ],
        Status::NotCertified,
        "refused h A3 leaf s reads i\n",
    ),
    (
        "workbench check h",
        &[
            "format 1; host h; \
                terminal X /x/; nonterminal S; start S; inh i : int; syn s : int; \
                nonterminal N; \
                occurs i on N; occurs s on N; forward on N needs { i }; \
                concrete go : S ::= n : N { } \
                concrete leaf : N ::= x : X { top.s = 1; }",
        ],
        Status::NotCertified,
        "refused h A6 N s lacks i\n",
    ),
];

#[test]
fn each_rule_of_certification_has_its_line(rt: HostRuntime) {
    each_ends_so(&rt, &NOT_CERTIFIED);
}

// A host with a child whose attribute needs itself, and the cycle from either of its vertices on.
const CYCLE: &str = "format 1; host h; \
    terminal X /x/; \
    nonterminal S; start S; inh i : int; syn s : int; nonterminal N; occurs i on N; occurs s on N needs { i }; \
    concrete go : S ::= n : N { n.i = n.s; } \
    concrete leaf : N ::= x : X { top.s = top.i; }";

static CYCLES: [Row; 2] = [
    (
        "workbench check h",
        &[CYCLE],
        Status::NotCertified,
        "refused h A4 go: n.i n.s\n",
    ),
    (
        "workbench check h",
        &[CYCLE],
        Status::NotCertified,
        "refused h A4 go: n.s n.i\n",
    ),
];

#[test]
fn attributes_that_need_themselves_have_their_line(rt: HostRuntime) {
    one_ends_so(&rt, &CYCLES);
}

// Whether a report shows the conflict of `AMB` after a prefix that has it: any sum of two or more.
fn is_conflict(report: &[u8]) -> bool {
    let Some(rest) = report.strip_prefix(b"refused h G4 after E") else {
        return false;
    };
    let Some(sums) = rest.strip_suffix(b" on Plus: shift and reduce plus\n") else {
        return false;
    };
    for sum in sums.chunks(7) {
        if sum != b" Plus E".as_slice() {
            return false;
        }
    }
    !sums.is_empty()
}

// The host that has this conflict.
static AMBIGUOUS: [&str; 1] = [AMB];

// Whether a run shows this conflict.
fn has_conflict(alloc: Global) -> Result<bool, AllocError> {
    let mut sink = MemorySink::new(alloc, 1000, 1000)?;
    let ended = status_of(alloc, "workbench check h", &AMBIGUOUS, &mut sink)?;
    Ok(ended == Status::NotCertified && is_conflict(sink.bytes()))
}

#[test]
fn an_ambiguous_host_has_a_conflict(rt: HostRuntime) {
    expect(&rt, has_conflict(rt.alloc()));
}

static LONG: [LongRow; 1] = [(
    "workbench check h",
    [&[(" ", 1_048_577)], &[]],
    Status::SpecRefused,
    "refused h S2\n",
)];

#[test]
fn a_host_past_the_limit_is_too_long(rt: HostRuntime) {
    each_long_ends_so(&rt, &LONG);
}
