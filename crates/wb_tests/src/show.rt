//! Does `show` report the expected lines for each file, and is its output shown as itself?
//!
//! Files are in memory, and fail where a test sets them to.

use crate::expected::{each_ends_so, each_long_ends_so, expect_none, row_ends_with_faults};
use crate::prefixes::MINI_PREFIXES;
use std::alloc::{AllocError, Global};
use wb_program::Status;
use wb_tests_runs::{ALL, Faults, LongRow, MINI, Piece, Row, ends_so, status_of, text_of};
use wb_world::MemorySink;

const SHOW: &str = "workbench show h";

static REPORTS: [Row; 13] = [
    (
        "workbench show h",
        &[""],
        Status::SpecRefused,
        "refused h S1 at 0\n",
    ),
    (
        "workbench show h",
        &["format 1; host"],
        Status::SpecRefused,
        "refused h S1 at 14\n",
    ),
    (
        "workbench show h",
        &["format 3; host a;"],
        Status::SpecRefused,
        "refused h S3\n",
    ),
    (
        "workbench show h",
        &["format 1;host  t ;// c\nterminal Num /[0-9]+/;"],
        Status::Done,
        "format 1;\nhost t;\nterminal Num /[0-9]+/;\n",
    ),
    (
        "workbench show h",
        &["format 1; host r; terminal T /a(/;"],
        Status::SpecRefused,
        "refused h R1 at 32\n",
    ),
    (
        "workbench show h",
        &["format 1; host h; terminal T /a*/;"],
        Status::SpecRefused,
        "refused h R2 T\n",
    ),
    (
        "workbench show h",
        &["format 1; host h; syn v : real int;"],
        Status::SpecRefused,
        "refused h S1 at 31\n",
    ),
    (
        "workbench show h",
        &["format 01; extension e for h; marking M /m\\/n/; prefer M over T;"],
        Status::Done,
        "format 1;\nextension e for h;\nmarking M /m\\/n/;\nprefer M over T;\n",
    ),
    (
        "workbench show h",
        &["format 1; host h; occurs a on N needs{}; occurs b on N; forward on N needs{c,d};"],
        Status::Done,
        "format 1;\nhost h;\noccurs a on N needs { };\noccurs b on N;\nforward on N needs { c, d };\n",
    ),
    (
        "workbench show h",
        &["format 1; host h; concrete p:N::=a:T b:int{top.v=f(a.lexeme,@add(-007,b));}"],
        Status::Done,
        "format 1;\nhost h;\nconcrete p : N ::= a : T b : int { top.v = f(a.lexeme, @add(-7, b)); }\n",
    ),
    (
        "workbench show h",
        &[
            "format 1; host h; aspect p{local l:N=if true then\"\\x09\\t\\\"\"else false;l.i=top.j;}",
        ],
        Status::Done,
        "format 1;\nhost h;\naspect p { local l : N = if true then \"\\x09\\x09\\\"\" else false; l.i = top.j; }\n",
    ),
    (
        "workbench show h",
        &["format 1; host h; abstract q:N::={forward.i=forward.s;forwards to r();}"],
        Status::Done,
        "format 1;\nhost h;\nabstract q : N ::= { forward.i = forward.s; forwards to r(); }\n",
    ),
    (
        "workbench show h",
        &[
            "format 1; host h; inh i:bool; syn s:text; nonterminal N; start N; extensible N; ignore I / /;",
        ],
        Status::Done,
        "format 1;\nhost h;\ninh i : bool;\nsyn s : text;\nnonterminal N;\nstart N;\nextensible N;\nignore I / /;\n",
    ),
];

#[test]
fn each_text_has_its_report(rt: HostRuntime) {
    each_ends_so(&rt, &REPORTS);
}

// Whether a text is shown as itself.
fn is_fixed(alloc: Global, text: &[u8]) -> Result<bool, AllocError> {
    match str::from_utf8(text) {
        Ok(shown) => ends_so(alloc, SHOW, &[shown], Status::Done, shown),
        Err(_) => Ok(false),
    }
}

// Whether a text is shown, and the output is shown as itself.
fn is_stable(alloc: Global, text: &str) -> Result<bool, AllocError> {
    let mut sink = MemorySink::new(alloc, 20_000, 1_000)?;
    let ended = status_of(alloc, SHOW, &[text], &mut sink)?;
    Ok(ended == Status::Done && is_fixed(alloc, sink.bytes())?)
}

// The number of the first text that isn't shown so.
fn first_unstable(alloc: Global, texts: &[&str]) -> Result<Option<usize>, AllocError> {
    for (place, text) in texts.iter().enumerate() {
        if !is_stable(alloc, *text)? {
            return Ok(Some(place));
        }
    }
    Ok(None)
}

#[test]
fn what_is_shown_is_shown_again(rt: HostRuntime) {
    expect_none(&rt, first_unstable(rt.alloc(), &ALL));
}

/// The position of the first error of a text as a specification.
pub enum Wrong {
    Nowhere,
    AtItsEnd,
    At(usize),
}

// Whether a text has its first error at this position.
fn goes_wrong(alloc: Global, text: &str, wrong: &Wrong) -> Result<bool, AllocError> {
    let place = match wrong {
        Wrong::Nowhere => return ends_so(alloc, SHOW, &[text], Status::Done, "…"),
        Wrong::AtItsEnd => text.len(),
        Wrong::At(place) => *place,
    };
    let line = format!(in alloc; "refused h S1 at {place}\n")?;
    ends_so(alloc, SHOW, &[text], Status::SpecRefused, line.as_str())
}

// The length of the first prefix whose first error isn't where these positions say. Each holds up to the length of the next.
fn first_prefix(
    alloc: Global,
    text: &str,
    cases: &[(usize, Wrong)],
) -> Result<Option<usize>, AllocError> {
    for (place, (from, wrong)) in cases.iter().enumerate() {
        let to = match cases.get(place + 1) {
            Some((next, _)) => *next,
            None => text.len() + 1,
        };
        for len in *from..to {
            let Some(prefix) = text.get(..len) else {
                return Ok(Some(len));
            };
            if !goes_wrong(alloc, prefix, wrong)? {
                return Ok(Some(len));
            }
        }
    }
    Ok(None)
}

static WHOLE: &str = MINI;

#[test]
fn each_prefix_goes_wrong_at_its_place(rt: HostRuntime) {
    expect_none(&rt, first_prefix(rt.alloc(), WHOLE, &MINI_PREFIXES));
}

static CUT: Row = (SHOW, &[MINI], Status::WriteFault, "format 1");

#[test]
fn a_write_that_fails_leaves_a_prefix_of_the_text(rt: HostRuntime) {
    row_ends_with_faults(
        &rt,
        &CUT,
        &Faults {
            read: 0,
            write: 2,
            most: 8,
        },
    );
}

static LONG: [LongRow; 1] = [(
    SHOW,
    [&[(" ", 1_048_577)], &[]],
    Status::SpecRefused,
    "refused h S2\n",
)];

#[test]
fn a_file_past_the_limit_is_too_long(rt: HostRuntime) {
    each_long_ends_so(&rt, &LONG);
}

// A canonical text whose expression has many parentheses.
const DEEP: &[Piece] = &[
    ("format 1;\nhost d;\nterminal T /", 1),
    ("(", 500_000),
    ("a", 1),
    (")", 500_000),
    ("/;\n", 1),
];

// Nothing where it is shown as itself.
fn first_not_shown(alloc: Global) -> Result<Option<usize>, AllocError> {
    let text = text_of(alloc, DEEP)?;
    if ends_so(alloc, SHOW, &[text.as_str()], Status::Done, text.as_str())? {
        Ok(None)
    } else {
        Ok(Some(0))
    }
}

#[test]
fn an_expression_may_have_many_parentheses(rt: HostRuntime) {
    expect_none(&rt, first_not_shown(rt.alloc()));
}
