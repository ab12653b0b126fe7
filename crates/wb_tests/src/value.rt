//! Does each run of `value` end with its status and its report?
//!
//! Files are in memory, and fail where a test sets them to. Long terms and values are in `long_values`.

use crate::expected::{
    each_ends_so, each_line_ends_so, each_read_may_fail, each_write_may_fail, one_ends_so,
};
use wb_program::Status;
use wb_tests_runs::{CALC, CALC0, CYC, DBL, DIVS, MINI, Row, TWINS};

const THREE: &str = "add(lit(1), lit(2))\n";

// A host whose two terminals share texts, so that it isn't certified.
const SHARED: &str =
    "format 1; host h; terminal X /x/; terminal Y /[a-z]/; nonterminal S; start S; syn v : text; syn b : bool;
occurs v on S; occurs b on S;
concrete p : S ::= x : X { top.v = x.lexeme; top.b = @same(x.lexeme, \"q\"); }
concrete q : S ::= y : Y { top.v = y.lexeme; top.b = false; }";

static DONE: [Row; 11] = [
    (
        "workbench value h t value",
        &[CALC0, THREE],
        Status::Done,
        "value = 3\n",
    ),
    (
        "workbench value h t value",
        &[DIVS, "div(lit(7), lit(-2))"],
        Status::Done,
        "value = -3\n",
    ),
    (
        "workbench value h t value",
        &[CALC, "first(lit(1), div(lit(1), lit(0)))"],
        Status::Done,
        "value = 1\n",
    ),
    (
        "workbench value h t value",
        &[CALC, "pick(lit(0), div(lit(1), lit(0)), lit(5))"],
        Status::Done,
        "value = 5\n",
    ),
    (
        "workbench value h t value",
        &[CALC, "lit(-9223372036854775808)"],
        Status::Done,
        "value = -9223372036854775808\n",
    ),
    (
        "workbench value h t t",
        &[DBL, "d(d(z()))"],
        Status::Done,
        "t = \"xxxx\"\n",
    ),
    (
        "workbench value h t u",
        &[TWINS, "d(d(z()))"],
        Status::Done,
        "u = p(p(z(), z()), p(z(), z()))\n",
    ),
    (
        "workbench value h t v",
        &[SHARED, "p(\"q\")"],
        Status::Done,
        "v = \"q\"\n",
    ),
    (
        "workbench value h t b",
        &[SHARED, "p(\"q\")"],
        Status::Done,
        "b = true\n",
    ),
    (
        "workbench value h t v",
        &[SHARED, " q ( \"\\x0a\" )\r"],
        Status::Done,
        "v = \"\\n\"\n",
    ),
    (
        "workbench value h t out",
        &[MINI, "prog(none())"],
        Status::Done,
        "out = \"\"\n",
    ),
];

#[test]
fn values_are_printed(rt: HostRuntime) {
    each_ends_so(&rt, &DONE);
}

static SPEC_REFUSED: [Row; 7] = [
    (
        "workbench value h t value",
        &["", "lit(1)"],
        Status::SpecRefused,
        "refused h S1 at 0\n",
    ),
    (
        "workbench value h t value",
        &["format 3; host a;", "lit(1)"],
        Status::SpecRefused,
        "refused h S3\n",
    ),
    (
        "workbench value h t value",
        &["format 1; host r; terminal T /a(/;", "lit(1)"],
        Status::SpecRefused,
        "refused h R1 at 32\n",
    ),
    (
        "workbench value h t value",
        &["format 1; host t; nonterminal E; occurs q on E;", "lit(1)"],
        Status::SpecRefused,
        "refused h N1 q\n",
    ),
    (
        "workbench value h t value",
        &["format 1; extension e for h;", "lit(1)"],
        Status::SpecRefused,
        "refused h N4 e\n",
    ),
    (
        "workbench value h t v",
        &[
            "format 1; host h; nonterminal E; syn v : int; occurs v on E; abstract p : E ::= { top.v = @frob(1); }",
            "p()",
        ],
        Status::SpecRefused,
        "refused h N1 frob\n",
    ),
    (
        "workbench value h t v",
        &[
            "format 1; host y; nonterminal E; syn v : int; occurs v on E; abstract p : E ::= { top.v = true; }",
            "p()",
        ],
        Status::SpecRefused,
        "refused h Y1 at 82\n",
    ),
];

#[test]
fn hosts_are_refused_first(rt: HostRuntime) {
    each_ends_so(&rt, &SPEC_REFUSED);
}

static ILL_DEFINED: [Row; 1] = [(
    "workbench value h t s",
    &[
        "format 1; host h; nonterminal E; syn s : int; occurs s on E; abstract p : E ::= { }",
        "p()",
    ],
    Status::NotCertified,
    "refused h A1 p s\n",
)];

#[test]
fn ill_defined_attributes_are_refused(rt: HostRuntime) {
    each_ends_so(&rt, &ILL_DEFINED);
}

// A cycle may be shown from any of its vertices on.
static CYCLES: [Row; 4] = [
    (
        "workbench value h t v",
        &[CYC, "pair(leaf(), leaf())"],
        Status::NotCertified,
        "refused h A4 pair: a.i b.s b.i a.s\n",
    ),
    (
        "workbench value h t v",
        &[CYC, "pair(leaf(), leaf())"],
        Status::NotCertified,
        "refused h A4 pair: b.s b.i a.s a.i\n",
    ),
    (
        "workbench value h t v",
        &[CYC, "pair(leaf(), leaf())"],
        Status::NotCertified,
        "refused h A4 pair: b.i a.s a.i b.s\n",
    ),
    (
        "workbench value h t v",
        &[CYC, "pair(leaf(), leaf())"],
        Status::NotCertified,
        "refused h A4 pair: a.s a.i b.s b.i\n",
    ),
];

#[test]
fn attributes_that_need_themselves_are_refused(rt: HostRuntime) {
    one_ends_so(&rt, &CYCLES);
}

static FAULTS: [Row; 4] = [
    (
        "workbench value h t value",
        &[CALC0, "add(lit(9223372036854775807), lit(1))"],
        Status::OperationFault,
        "fault add 1\n",
    ),
    (
        "workbench value h t value",
        &[DIVS, "div(lit(1), lit(0))"],
        Status::OperationFault,
        "fault div 2\n",
    ),
    (
        "workbench value h t value",
        &[CALC, "div(lit(1), lit(0))"],
        Status::OperationFault,
        "fault div 2\n",
    ),
    (
        "workbench value h t value",
        &[CALC, "div(lit(-9223372036854775808), lit(-1))"],
        Status::OperationFault,
        "fault div 1\n",
    ),
];

#[test]
fn operations_fail_with_their_codes(rt: HostRuntime) {
    each_ends_so(&rt, &FAULTS);
}

static TERM_REFUSED: [Row; 6] = [
    (
        "workbench value h t value",
        &[CALC0, "add(lit(1)"],
        Status::TermRefused,
        "refused t T1 at 10\n",
    ),
    (
        "workbench value h t value",
        &[CALC0, ""],
        Status::TermRefused,
        "refused t T1 at 0\n",
    ),
    (
        "workbench value h t value",
        &[CALC0, "sub(lit(1))"],
        Status::TermRefused,
        "refused t T2 at 0\n",
    ),
    (
        "workbench value h t value",
        &[CALC0, "lit(\"1\")"],
        Status::TermRefused,
        "refused t T3 at 4\n",
    ),
    (
        "workbench value h t value",
        &[CALC0, "add(lit(1))"],
        Status::TermRefused,
        "refused t T3 at 0\n",
    ),
    (
        "workbench value h t size",
        &[CALC0, "lit(\"1\")"],
        Status::TermRefused,
        "refused t T3 at 4\n",
    ),
];

#[test]
fn terms_are_refused_at_their_first_fault(rt: HostRuntime) {
    each_ends_so(&rt, &TERM_REFUSED);
}

// No attribute of the name is synthesized, occurs at the root and needs nothing there.
static UNKNOWN: [Row; 5] = [
    (
        "workbench value h t size",
        &[CALC0, "lit(1)"],
        Status::UnknownAttribute,
        "no attribute size\n",
    ),
    (
        "workbench value h t size",
        &[CALC, "div(lit(1), lit(0))"],
        Status::UnknownAttribute,
        "no attribute size\n",
    ),
    (
        "workbench value h t out",
        &[MINI, "none()"],
        Status::UnknownAttribute,
        "no attribute out\n",
    ),
    (
        "workbench value h t env",
        &[MINI, "none()"],
        Status::UnknownAttribute,
        "no attribute env\n",
    ),
    (
        "workbench value h t value",
        &[MINI, "prog(none())"],
        Status::UnknownAttribute,
        "no attribute value\n",
    ),
];

#[test]
fn attributes_that_cannot_be_asked_are_unknown(rt: HostRuntime) {
    each_ends_so(&rt, &UNKNOWN);
}

static ABSENT: [Row; 3] = [
    (
        "workbench value g t value",
        &[CALC0, THREE],
        Status::Absent,
        "",
    ),
    (
        "workbench value h u value",
        &[CALC0, THREE],
        Status::Absent,
        "",
    ),
    ("workbench show g", &[CALC0, THREE], Status::Absent, ""),
];

#[test]
fn a_file_that_is_not_there_is_absent(rt: HostRuntime) {
    each_ends_so(&rt, &ABSENT);
}

static REFUSED_FIRST: [Row; 1] = [(
    "workbench value h u value",
    &["", THREE],
    Status::SpecRefused,
    "refused h S1 at 0\n",
)];

#[test]
fn a_host_is_refused_before_the_term_is_read(rt: HostRuntime) {
    each_ends_so(&rt, &REFUSED_FIRST);
}

const USAGE: &str =
    "usage: workbench value|show|check|certify|compose|tree|run|generate|certificate|recheck|edit|reading ARGUMENTS\n";

// Command lines that aren't valid. The first have no word at all and an empty one.
static NO_COMMANDS: [&str; 42] = [
    "workbench",
    "workbench ",
    "workbench frob",
    "workbench --help",
    "workbench value",
    "workbench value h t",
    "workbench value h t value value",
    "workbench value h t -x",
    "workbench value h  value", // an empty word
    "workbench value --steps 1 h t value",
    "workbench show",
    "workbench show --",
    "workbench show h t",
    "workbench check",
    "workbench check h t",
    "workbench check -h",
    "workbench tree h",
    "workbench tree h --text t",
    "workbench tree --text= h",
    "workbench tree --text -t h",
    "workbench tree --text t --text t h",
    "workbench tree --texts t h",
    "workbench certify",
    "workbench certify h -x",
    "workbench certify --text t h",
    "workbench compose",
    "workbench compose h -x",
    "workbench compose --text t h",
    "workbench run --text t h",
    "workbench run --attr value h",
    "workbench run --text t --attr value",
    "workbench run --text t --attr -v h",
    "workbench run --text t --attr value --attr value h",
    "workbench run --text t --attr value --steps 1x h",
    "workbench run --text t --attr value --steps +1 h",
    "workbench run --text t --attr value --size 1 h",
    "workbench generate --number 0 --size 1 h",
    "workbench generate --number 0 --attr a h",
    "workbench generate --size 1 --attr a h",
    "workbench generate --number 0 --size 1 --attr a",
    "workbench generate --number -1 --size 1 --attr a h",
    "workbench generate --number 0 --size 1 --attr a --text t h",
];

static SUM: [&str; 2] = [CALC0, THREE];

#[test]
fn words_that_ask_for_nothing_are_usage_errors(rt: HostRuntime) {
    each_line_ends_so(&rt, &NO_COMMANDS, &SUM, Status::Usage, USAGE);
}

#[test]
fn a_read_that_fails_ends_the_run(rt: HostRuntime) {
    each_read_may_fail(&rt, &DONE[0], 2);
}

#[test]
fn a_write_that_fails_ends_the_run(rt: HostRuntime) {
    each_write_may_fail(&rt, &DONE[0]);
}
