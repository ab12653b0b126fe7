//! Do an extension's equations for a forwarded tree keep to the flow type of the forward?
//!
//! Extensions are named `e`. A refusal shows the production, the attribute of the forwarded tree, and what it needs of the top.

use crate::markers::append_production;
use crate::written::{Asked, Row, Tested, append, extensions_get};
use std::alloc::{AllocError, Global};
use wb_complete::check_forward;
use wb_flow::AttributeRefusal;
use wb_syntax_resolved::{Resolved, ResolvedParts};

// A host: the forward on E may need i, and the one on F may need nothing.
const HOST: &str = "format 1; host h; \
    nonterminal E; nonterminal F; \
    inh i : int; inh j : int; syn v : int; syn w : int; \
    occurs i on E; occurs j on E; occurs v on E needs { i, j }; occurs w on E needs { i }; \
    forward on E needs { i }; \
    occurs i on F; occurs j on F; occurs v on F needs { i, j }; \
    abstract p : E ::= x : E { x.i = 1; x.j = 2; top.v = x.v; top.w = x.w; } \
    abstract q : F ::= n : int { top.v = n; }";

static FORWARDS: Asked = Asked {
    tested: Tested::Forwards,
    first_line: "format 1; extension e for h; ",
};

// Appends the equation for a forwarded tree that needs too much, by the names that show it.
pub(crate) fn append_forwards(
    alloc: Global,
    extension: &Resolved,
    out: &mut Vec<u8>,
) -> Result<(), AllocError> {
    let parts = extension.parts();
    match check_forward(alloc, &parts.attributes, 1) {
        Ok(()) => out.extend_from_slice(b"ok"),
        Err(refusal) => {
            let answer = append_refusal(parts, &refusal, out);
            refusal.release();
            answer
        }
    }
}

fn append_refusal(
    parts: &ResolvedParts,
    refusal: &AttributeRefusal,
    out: &mut Vec<u8>,
) -> Result<(), AllocError> {
    let AttributeRefusal::ForwardReads {
        production,
        attribute,
        inherited,
    } = refusal
    else {
        return Ok(());
    };
    append_production(parts, "E8 ", *production, out)?;
    append_attribute(parts, *attribute, out)?;
    append_attribute(parts, *inherited, out)
}

// Appends the name of an attribute after a blank.
fn append_attribute(
    parts: &ResolvedParts,
    number: usize,
    out: &mut Vec<u8>,
) -> Result<(), AllocError> {
    let attributes = parts.attributes.parts().attributes.as_slice();
    if number >= attributes.len() {
        return Ok(());
    }
    append(out, &[b" ".as_slice(), attributes[number].name.as_slice()])
}

// Equations for a forwarded tree that need an attribute of the top outside the flow type of the forward.
static OUTSIDE: [Row; 7] = [
    (
        "abstract x : E ::= { forwards to p(y()); forward.i = top.j; } abstract y : E ::= { forwards to y(); }",
        "E8 x i j",
    ),
    (
        "abstract x : F ::= { forwards to q(1); forward.i = top.j; }",
        "E8 x i j",
    ),
    (
        "abstract x : F ::= { forwards to q(1); forward.j = top.i; }",
        "E8 x j i",
    ),
    // Through a child, whose attribute needs what the production gives it.
    (
        "abstract x : E ::= a : E { forwards to a; a.i = top.j; a.j = 1; forward.i = a.w; }",
        "E8 x i j",
    ),
    // Through another attribute of the forwarded tree. With no equation for it, it is that of the top.
    (
        "abstract x : E ::= { forwards to x(); forward.i = forward.v; }",
        "E8 x i j",
    ),
    // Through a local.
    (
        "abstract x : F ::= { local l : E = p(y()); l.i = top.j; l.j = 1; forwards to q(1); forward.i = l.w; } \
            abstract y : E ::= { forwards to y(); }",
        "E8 x i j",
    ),
    // In one branch alone.
    (
        "abstract x : E ::= b : bool { forwards to x(b); forward.i = if b then top.j else 1; }",
        "E8 x i j",
    ),
];

#[test]
fn what_is_given_to_a_forwarded_tree_needs_no_more_than_the_flow_type(rt: HostRuntime) {
    assert!(rt; extensions_get(rt.alloc(), &FORWARDS, HOST, &OUTSIDE));
}

// Extensions that keep to the flow types of forwards.
static KEPT: [Row; 8] = [
    ("", "ok"),
    ("abstract x : E ::= { forwards to x(); }", "ok"),
    (
        "abstract x : E ::= { forwards to x(); forward.i = 1; forward.j = 2; }",
        "ok",
    ),
    // The attributes of the flow type may be needed, and so may the attribute itself.
    (
        "abstract x : E ::= { forwards to x(); forward.j = top.i; forward.i = top.i; }",
        "ok",
    ),
    (
        "abstract x : E ::= { forwards to x(); forward.j = top.j; }",
        "ok",
    ),
    (
        "abstract x : F ::= { forwards to q(1); forward.i = top.i; forward.j = top.j; }",
        "ok",
    ),
    // On its own nonterminal an extension may give any equation.
    (
        "nonterminal N; occurs i on N; occurs j on N; abstract x : N ::= { forwards to x(); forward.i = top.j; }",
        "ok",
    ),
    // This rule doesn't concern other equations.
    (
        "abstract x : E ::= a : E { forwards to a; a.i = top.j; a.j = top.i; top.v = a.v; }",
        "ok",
    ),
];

#[test]
fn what_keeps_to_the_flow_type_is_taken(rt: HostRuntime) {
    assert!(rt; extensions_get(rt.alloc(), &FORWARDS, HOST, &KEPT));
}
