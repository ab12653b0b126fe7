//! Are unions the same where their kernels and lookaheads are taken from the parts, and where these are made of the grammar?
//!
//! The certified extensions of each host of these tests are united: the first alone, and then more and more of them. Unions of random
//! extensions are in `wb_tests_unions`.

ghost use Rattle.std.specs.Prelude.{◌≡◌, All};
ghost use Rattle.wb_tests_unions.specs.Composed.{IsWith};

use crate::answers::{Row, spec_of};
use crate::envelopes::{CROSSED, OF_ALIKE, OF_CROSSED, OF_SHARED, OF_TWO_EXTENSIBLE, SHARED};
use crate::extensions::{OF_STATEMENTS, OF_SUMS};
use crate::files::{ALIKE, STATEMENTS, SUMS, TWO_EXTENSIBLE};
use crate::forwarding::{CLOSED, LOOKING, NOT_LOOKING, OF_CLOSED, OF_LOOKING, OF_NOT_LOOKING};
use crate::lookaheads::{ASSIGNMENTS, KEYWORDS, LISTS};
use std::alloc::{AllocError, Global};
use std::process::Abort;
use wb_certify::CertifiedExtension;
use wb_certify_host::{CertifiedHost, certify_host};
use wb_operations::{OperationTable, Standard, standard_table};
use wb_syntax::Spec;
use wb_tests_unions::{add_certified, agree_on_union};

// Fails unless the unions of the host of this text are the same both ways.
fn unions_agree<R: Abort + AllocGlobal>(rt: &R, host: &str, rows: &[Row]) {
    assert!(rt; agree_over(rt.alloc(), host, rows));
}

// Whether they are.
fn agree_over(alloc: Global, host: &str, rows: &[Row]) -> bool {
    match standard_table(alloc) {
        Ok(operations) => agree_by(alloc, &operations, host, rows),
        Err(_) => false,
    }
}

// The same over these operations.
fn agree_by(
    alloc: Global,
    operations: &OperationTable<Standard>,
    host: &str,
    rows: &[Row],
) -> bool {
    match spec_of(alloc, host) {
        Some(spec) => {
            let are = agree_of(alloc, operations, &spec, rows);
            spec.release();
            are
        }
        None => false,
    }
}

// The same for the host of this specification.
fn agree_of(
    alloc: Global,
    operations: &OperationTable<Standard>,
    spec: &Spec,
    rows: &[Row],
) -> bool {
    match certify_host(alloc, spec, operations) {
        Ok(host) => {
            let are = all_agree(alloc, &host, operations, rows);
            host.release();
            are.unwrap_or(false)
        }
        Err(refusal) => {
            refusal.release();
            false
        }
    }
}

// The same for the certified host.
fn all_agree(
    alloc: Global,
    host: &CertifiedHost,
    operations: &OperationTable<Standard>,
    rows: &[Row],
) -> Result<bool, AllocError>
    requires { operations.now.signatures ≡ host.now.operations }
{
    let mut extensions = Vec::new(alloc);
    if !agree_on_union(alloc, host, &extensions)? {
        return Ok(false);
    }
    'rows: for (text, answer) in rows {
        if answer.0 == "ok" && !agrees_with(alloc, host, operations, *text, &mut extensions)? {
            return Ok(false);
        }
    }
    Ok(true)
}

// Whether the union is the same both ways with the extension of this text, which is certified, beside others.
fn agrees_with(
    alloc: Global,
    host: &CertifiedHost,
    operations: &OperationTable<Standard>,
    text: &str,
    extensions: &mut Vec<CertifiedExtension>,
) -> Result<bool, AllocError>
    requires operations { operations.now.signatures ≡ host.now.operations }
    requires each { All (IsWith host.now) extensions.old.items }
    ensures { All (IsWith host.now) extensions.new.items }
{
    if !add_certified(alloc, host, operations, text.as_bytes(), extensions) {
        return Ok(false);
    }
    agree_on_union(alloc, host, extensions)
}

#[test]
fn unions_of_statements_are_the_same_both_ways(rt: HostRuntime) {
    unions_agree(&rt, STATEMENTS, &OF_STATEMENTS);
}

// Extensions of sums beside those of the other tests: one with layout of its own, and two with one marker.
static MORE_OF_SUMS: [Row; 3] = [
    (
        "format 2; extension dash for tiny; marking D /d/; ignore Dash /-/; \
            concrete twin : T ::= m : D t : T { forwards to num(@to_text(@mul(2, t.value))); }",
        ("ok", "", "", ""),
    ),
    (
        "format 1; extension minus for tiny; marking M /-/; concrete same : T ::= m : M t : T { forwards to t; }",
        ("ok", "", "", ""),
    ),
    (
        "format 1; extension other for tiny; marking D /d/; nonterminal N; \
            concrete one : T ::= m : D n : N { forwards to num(\"1\"); } \
            concrete two : N ::= t : T { }",
        ("ok", "", "", ""),
    ),
];

#[test]
fn unions_of_sums_are_the_same_both_ways(rt: HostRuntime) {
    unions_agree(&rt, SUMS, &OF_SUMS);
    unions_agree(&rt, SUMS, &MORE_OF_SUMS);
}

// Two extensions that have a kernel which the host hasn't, of its items alone, each with another lookahead.
static MORE_OF_CROSSED: [Row; 2] = [
    (
        "format 1; extension one for h; marking M /m/; concrete mg : G ::= m : M a : A x : X { forwards to gz(\"z\"); }",
        ("ok", "", "", ""),
    ),
    (
        "format 1; extension two for h; marking M /m/; concrete mg : G ::= m : M a : A y : Y { forwards to gz(\"z\"); }",
        ("ok", "", "", ""),
    ),
];

#[test]
fn unions_with_new_kernels_of_the_host_are_the_same_both_ways(rt: HostRuntime) {
    unions_agree(&rt, TWO_EXTENSIBLE, &OF_TWO_EXTENSIBLE);
    unions_agree(&rt, ALIKE, &OF_ALIKE);
    unions_agree(&rt, CROSSED, &OF_CROSSED);
    unions_agree(&rt, CROSSED, &MORE_OF_CROSSED);
    unions_agree(&rt, SHARED, &OF_SHARED);
}

#[test]
fn unions_of_forwarding_extensions_are_the_same_both_ways(rt: HostRuntime) {
    unions_agree(&rt, NOT_LOOKING, &OF_NOT_LOOKING);
    unions_agree(&rt, LOOKING, &OF_LOOKING);
    unions_agree(&rt, CLOSED, &OF_CLOSED);
}

#[test]
fn hosts_alone_are_the_same_both_ways(rt: HostRuntime) {
    unions_agree(&rt, ASSIGNMENTS, &[]);
    unions_agree(&rt, KEYWORDS, &[]);
    unions_agree(&rt, LISTS, &[]);
}
