//! Is a host certified by the text of a certificate, and an extension with its host, or what is wrong first?
//!
//! Each row has the text of a host with a certificate, and that of an extension with another or nothing, and the answer of the last call.
//! Certificates follow from the rules: entries are listed so that each comes after the one from which it follows.

ghost use Rattle.std.specs.Prelude.{◌≡◌};

use crate::answers::spec_of;
use std::alloc::Global;
use std::process::Abort;
use wb_operations::{OperationTable, Standard, standard_table};
use wb_recheck::{RecheckRefusal, RecheckedHost, recheck_extension, recheck_host};
use wb_syntax::Spec;

// What a call says of a specification and a certificate.
#[derive(Clone, Copy)]
enum Answer {
    // It is certified.
    Certified,
    // A rule fails.
    Rule,
    // The text is that of no certificate from this place on.
    Syntax(usize),
    // This line is wrong.
    WrongLine(usize),
    // Of this kernel something is missing.
    Missing(usize),
}

// A host with a certificate, an extension with a certificate or nothing, and an answer.
type Row = (
    &'static str,
    &'static str,
    &'static str,
    &'static str,
    Answer,
);

// Fails unless each answer is the expected one.
fn answers_are<R: Abort + AllocGlobal>(rt: &R, rows: &[Row]) {
    assert!(rt; are_answers(rt.alloc(), rows));
}

// Whether each is.
fn are_answers(alloc: Global, rows: &[Row]) -> bool {
    match standard_table(alloc) {
        Ok(operations) => all_answer(alloc, &operations, rows),
        Err(_) => false,
    }
}

// The same over these operations.
fn all_answer(alloc: Global, operations: &OperationTable<Standard>, rows: &[Row]) -> bool {
    'rows: for row in rows {
        match spec_of(alloc, row.0) {
            Some(spec) => {
                let as_expected = spec_answers(alloc, operations, &spec, row);
                spec.release();
                if !as_expected {
                    return false;
                }
            }
            None => return false,
        }
    }
    true
}

// The same of a host's specification.
fn spec_answers(
    alloc: Global,
    operations: &OperationTable<Standard>,
    spec: &Spec,
    row: &Row,
) -> bool {
    match recheck_host(alloc, spec, row.1.as_bytes(), operations) {
        Ok(host) => {
            let as_expected = if row.2.len() == 0 {
                is_certified(row.4)
            } else {
                extension_answers(alloc, operations, &host, row)
            };
            host.release();
            as_expected
        }
        Err(refusal) => row.2.len() == 0 && is_refused(refusal, row.4),
    }
}

// The same of an extension with its host.
fn extension_answers(
    alloc: Global,
    operations: &OperationTable<Standard>,
    host: &RecheckedHost,
    row: &Row,
) -> bool
    requires { operations.now.signatures ≡ host.now.operations }
{
    match spec_of(alloc, row.2) {
        Some(spec) => {
            let answer = recheck_extension(alloc, host, &spec, row.3.as_bytes(), operations);
            spec.release();
            match answer {
                Ok(()) => is_certified(row.4),
                Err(refusal) => is_refused(refusal, row.4),
            }
        }
        None => false,
    }
}

// Whether it is expected to be certified.
fn is_certified(expected: Answer) -> bool {
    match expected {
        Answer::Certified => true,
        _ => false,
    }
}

// Whether it is expected to be refused so.
fn is_refused(refusal: RecheckRefusal, expected: Answer) -> bool {
    match (refusal, expected) {
        (RecheckRefusal::Certify(refusal), Answer::Rule) => {
            refusal.release();
            true
        }
        (RecheckRefusal::Syntax(place), Answer::Syntax(at)) => place == at,
        (RecheckRefusal::WrongLine(line), Answer::WrongLine(number)) => line == number,
        (RecheckRefusal::Missing(kernel), Answer::Missing(number)) => kernel == number,
        _ => false,
    }
}

// A host, its text, an extension or none, its text, and the answer.
static ROWS: [Row; 14] = [
    (
        ONE,
        "certificate 1\nhost one\nkernel 0 t0\nkernel 0 n0\nlook 0 1 0 1 -\nlook 0 0 0 1 0\nlook 2 1 1 1 0\nlook 1 0 1 1 1\n",
        "",
        "",
        Answer::Certified,
    ),
    // Kernels in another order, and entries.
    (
        ONE,
        "certificate 1\nhost one\nkernel 0 n0\nkernel 0 t0\nlook 0 1 0 1 -\nlook 1 1 1 1 0\nlook 0 0 0 1 0\nlook 2 0 1 1 2\n",
        "",
        "",
        Answer::Certified,
    ),
    (
        ONE,
        "certificate 1\nhost one\nkernel 0 t0\nkernel 0 n0\nlook 0 1 0 1 -\nlook 0 0 0 1 0\nlook 2 1 1 1 0\nlook 1 0 1 1 0\n",
        "",
        "",
        Answer::WrongLine(8),
    ),
    (
        ONE,
        "certificate 1\nhost one\nkernel 0 t0\nkernel 0 n0\nlook 0 1 0 1 -\nlook 0 0 0 1 0\nlook 2 1 1 1 0\n",
        "",
        "",
        Answer::Missing(0),
    ),
    (ONE, "", "", "", Answer::Syntax(0)),
    (
        ONE,
        "certificate 1\nhost other\n",
        "",
        "",
        Answer::WrongLine(2),
    ),
    (ONE, "certificate 1\nhost one\n", "", "", Answer::Missing(0)),
    // A rule before the conflict comes before the text.
    (
        "format 1; host one; terminal X /x/; nonterminal S; start S; concrete go : S ::= s : S { } concrete last : S ::= x : X { }",
        "",
        "",
        "",
        Answer::Rule,
    ),
    // One from the conflict on comes after it.
    (TWO, "", "", "", Answer::Syntax(0)),
    (
        TWO,
        "certificate 1\nhost two\nkernel 0 t0\nkernel 0 n0\nkernel 0 n1\nkernel 0 n2\nlook 0 4 0 1 -\nlook 0 0 0 1 0\nlook 0 1 0 1 0\nlook 2 4 1 1 0\nlook 0 2 0 1 1\nlook 3 0 1 1 1\nlook 0 3 0 1 2\nlook 4 1 1 1 2\nlook 1 2 1 1 4\nlook 1 3 1 1 6\n",
        "",
        "",
        Answer::Rule,
    ),
    (BASE, BASE_TEXT, MORE, MORE_TEXT, Answer::Certified),
    (BASE, BASE_TEXT, MORE, BASE_TEXT, Answer::WrongLine(2)),
    (
        BASE,
        BASE_TEXT,
        MORE,
        "certificate 1\nextension more for one\nkernel 0 t0\n",
        Answer::Missing(0),
    ),
    // The marker stands in no production.
    (
        BASE,
        BASE_TEXT,
        "format 1; extension more for one; marking M /m/;",
        "",
        Answer::Rule,
    ),
];

#[test]
fn certificates_are_trusted_in_nothing(rt: HostRuntime) {
    answers_are(&rt, &ROWS);
}

const ONE: &str =
    "format 1; host one; terminal X /x/; nonterminal S; start S; concrete go : S ::= x : X { }";

const TWO: &str =
    "format 1; host two; terminal X /x/; nonterminal S; nonterminal A; nonterminal B; start S; \
    concrete first : S ::= a : A { } concrete second : S ::= b : B { } concrete one : A ::= x : X { } concrete other : B ::= x : X { }";

const BASE: &str =
    "format 1; host one; terminal X /x/; nonterminal S; start S; extensible S; concrete go : S ::= x : X { }";

const BASE_TEXT: &str = "certificate 1\nhost one\nkernel 0 t0\nkernel 0 t1\nkernel 0 n0\n\
    look 0 2 0 2 -\nlook 0 0 0 2 0\nlook 0 1 0 2 0\nlook 3 2 1 2 0\nlook 1 0 1 2 1\nlook 2 1 1 2 2\n";

const MORE: &str =
    "format 1; extension more for one; marking M /m/; concrete marked : S ::= m : M { forwards to go(\"x\"); }";

const MORE_TEXT: &str =
    "certificate 1\nextension more for one\nkernel 0 t0\nkernel 0 t1\nkernel 0 t2\nkernel 0 n0\n\
    look 0 3 0 3 -\nlook 0 0 0 3 0\nlook 0 1 0 3 0\nlook 0 2 0 3 0\nlook 4 3 1 3 0\n\
    look 1 0 1 3 1\nlook 2 1 1 3 2\nlook 3 2 1 3 3\n";
