//! Does each rule refuse an extension that breaks it, with a true example?
//!
//! Each row has an extension and its expected answer, which follows from the rules. What true examples may differ in is left empty. Of
//! each host and extension that is certified the lookaheads are compared (`lookaheads`).

ghost use Rattle.std.specs.Prelude.{◌≡◌, IsSome};

use crate::answers::{Answer, Row, shows, shows_name, spec_of};
use crate::files::{STATEMENTS, SUMS};
use crate::lookaheads::agree;
use std::alloc::Global;
use std::process::Abort;
use wb_certify::certify_extension;
use wb_certify_host::{CertifiedHost, CertifyRefusal, certify_host};
use wb_marking_holes::with_holes;
use wb_names::resolve_extension;
use wb_operations::{OperationTable, Standard, standard_table};
use wb_syntax::Spec;
use wb_syntax_resolved::Resolved;

// Fails unless each extension of the host of this text gets its expected answer.
pub(crate) fn extensions_get<R: Abort + AllocGlobal>(rt: &R, host: &str, rows: &[Row]) {
    assert!(rt; are_answered(rt.alloc(), host, rows));
}

// Whether each extension of the host of this text gets its expected answer.
fn are_answered(alloc: Global, host: &str, rows: &[Row]) -> bool {
    match standard_table(alloc) {
        Ok(operations) => all_over(alloc, &operations, host, rows),
        Err(_) => false,
    }
}

// The same over these operations.
fn all_over(
    alloc: Global,
    operations: &OperationTable<Standard>,
    host: &str,
    rows: &[Row],
) -> bool {
    match spec_of(alloc, host) {
        Some(spec) => {
            let are = all_of(alloc, operations, &spec, rows);
            spec.release();
            are
        }
        None => false,
    }
}

// The same for the host of this specification.
fn all_of(alloc: Global, operations: &OperationTable<Standard>, spec: &Spec, rows: &[Row]) -> bool {
    match certify_host(alloc, spec, operations) {
        Ok(host) => {
            let are = agree(alloc, &host.parts().grammar)
                && all_get(alloc, &host, operations, rows);
            host.release();
            are
        }
        Err(refusal) => {
            refusal.release();
            false
        }
    }
}

// Whether each extension of the host gets its expected answer.
fn all_get(
    alloc: Global,
    host: &CertifiedHost,
    operations: &OperationTable<Standard>,
    rows: &[Row],
) -> bool
    requires { operations.now.signatures ≡ host.now.operations }
{
    'rows: for (text, answer) in rows {
        if !text_gets(alloc, host, operations, *text, answer) {
            return false;
        }
    }
    true
}

// Whether the extension of this text gets the answer.
fn text_gets(
    alloc: Global,
    host: &CertifiedHost,
    operations: &OperationTable<Standard>,
    text: &str,
    answer: &Answer,
) -> bool
    requires { operations.now.signatures ≡ host.now.operations }
{
    match spec_of(alloc, text) {
        Some(spec) => {
            let is = spec_gets(alloc, host, operations, (text, &spec), answer);
            spec.release();
            is
        }
        None => false,
    }
}

// Whether both ways find the lookaheads of a specification's grammar with holes.
fn agrees(alloc: Global, resolved: &Resolved) -> bool {
    match &resolved.parts().grammar {
        Some(_) => with_holes_agree(alloc, resolved),
        None => false,
    }
}

// The same, where there is a grammar.
fn with_holes_agree(alloc: Global, resolved: &Resolved) -> bool
    requires { IsSome resolved.now.grammar }
{
    match with_holes(alloc, resolved) {
        Ok(grammar) => {
            let is = agree(alloc, &grammar);
            drop(grammar);
            is
        }
        Err(_) => false,
    }
}

// Whether the extension of this specification gets the answer.
fn spec_gets(
    alloc: Global,
    host: &CertifiedHost,
    operations: &OperationTable<Standard>,
    file: (&str, &Spec),
    answer: &Answer,
) -> bool
    requires { operations.now.signatures ≡ host.now.operations }
{
    match certify_extension(alloc, host, file.1, operations) {
        // The code `ok` is that of a certified extension.
        Ok(extension) => {
            let is = answer.0 == "ok" && agrees(alloc, extension.resolved());
            extension.release();
            is
        }
        Err(refusal) => {
            let is = is_answer(alloc, host, file, &refusal, answer);
            refusal.release();
            is
        }
    }
}

// Whether a refusal is the expected one.
fn is_answer(
    alloc: Global,
    host: &CertifiedHost,
    file: (&str, &Spec),
    refusal: &CertifyRefusal,
    answer: &Answer,
) -> bool {
    match refusal {
        CertifyRefusal::Names(refusal) => shows_name(refusal, answer),
        _ => is_refused(alloc, host, file, refusal, answer),
    }
}

// Whether a refusal of an extension whose names are right is the expected one.
fn is_refused(
    alloc: Global,
    host: &CertifiedHost,
    file: (&str, &Spec),
    refusal: &CertifyRefusal,
    answer: &Answer,
) -> bool {
    match resolve_extension(alloc, host.resolved(), file.1) {
        Ok(resolved) => {
            let is = shows(&resolved, file.0, refusal, answer);
            resolved.release();
            is
        }
        Err(refusal) => {
            refusal.release();
            false
        }
    }
}

// Extensions of the language with statements.
pub(crate) static OF_STATEMENTS: [Row; 6] = [
    (
        "format 1; extension a for mini; \
            marking Sum /sum/; prefer Sum over Id; \
            concrete dbl : Factor ::= m : Sum o : Open x : Expr c : Close { \
              forwards to paren(\"(\", plus(x, \"+\", factor(paren(\"(\", x, \")\"))), \")\"); \
            }",
        ("ok", "", "", ""),
    ),
    (
        "format 1; extension b for mini; \
            marking Sum /sum/; prefer Sum over Id; \
            concrete sqr : Factor ::= m : Sum o : Open x : Expr c : Close { \
              forwards to paren(\"(\", term(times(factor(paren(\"(\", x, \")\")), \"*\", paren(\"(\", x, \")\"))), \")\"); \
            }",
        ("ok", "", "", ""),
    ),
    (
        "format 1; extension power for mini; \
            marking Square /square/; prefer Square over Id; \
            concrete sq : Factor ::= m : Square o : Open e : Expr c : Close { \
              forwards to paren(\"(\", term(times(factor(paren(\"(\", e, \")\")), \"*\", paren(\"(\", e, \")\"))), \")\"); \
            }",
        ("ok", "", "", ""),
    ),
    (
        "format 1; extension repeat for mini; \
            marking Twice /twice/; prefer Twice over Id; \
            concrete again : Stmt ::= m : Twice s : Stmt { forwards to block(\"{\", more(more(none(), s), s), \"}\"); }",
        ("ok", "", "", ""),
    ),
    (
        "format 1; extension comma for mini; \
            marking Dot /dot/; terminal Comma /,/; prefer Dot over Id; \
            concrete two : Factor ::= m : Dot o : Open x : Expr k : Comma y : Expr c : Close { \
              forwards to paren(\"(\", plus(x, \"+\", factor(paren(\"(\", y, \")\"))), \")\"); \
            }",
        ("E5", "Comma", "", ""),
    ),
    (
        "format 1; extension dup for tiny; marking D /d/; concrete twin : T ::= m : D t : T { forwards to num(@to_text(@mul(2, t.value))); }",
        ("N5", "tiny", "", ""),
    ),
];

#[test]
fn extensions_of_a_language_with_statements(rt: HostRuntime) {
    extensions_get(&rt, STATEMENTS, &OF_STATEMENTS);
}

// Extensions of sums that are certified.
pub(crate) static OF_SUMS: [Row; 4] = [
    ("format 1; extension e for tiny;", ("ok", "", "", "")),
    (
        "format 1; extension count for tiny; \
            syn leaves : int; occurs leaves on E; occurs leaves on T; \
            aspect plus { top.leaves = @add(a.leaves, b.leaves); } \
            aspect term { top.leaves = t.leaves; } \
            aspect num { top.leaves = 1; }",
        ("ok", "", "", ""),
    ),
    (
        "format 1; extension dup for tiny; marking D /d/; concrete twin : T ::= m : D t : T { forwards to num(@to_text(@mul(2, t.value))); }",
        ("ok", "", "", ""),
    ),
    (
        "format 1; extension minus for tiny; marking M /-/; concrete same : T ::= m : M t : T { forwards to t; }",
        ("ok", "", "", ""),
    ),
];

#[test]
fn extensions_that_keep_all_rules(rt: HostRuntime) {
    extensions_get(&rt, SUMS, &OF_SUMS);
}

// Extensions of sums whose names or kinds are wrong.
static WRONG_NAMES: [Row; 7] = [
    (
        "format 1; extension second for adj; marking K /k/; concrete kh : H ::= k : K y : Y { forwards to hx(\"x\"); }",
        ("N5", "adj", "", ""),
    ),
    (
        "format 1; host tiny; start A; start A;",
        ("N4", "tiny", "", ""),
    ),
    (
        "format 1; extension e for tiny; start Q;",
        ("N1", "Q", "", ""),
    ),
    (
        "format 1; extension e for tiny; marking K /k/; concrete p : T ::= k : K { forwards to num(1); }",
        ("Y1", "forwards to num(1)", "", ""),
    ),
    (
        "format 1; extension e for tiny; marking K /k/; concrete p : T ::= k : K { forwards to num(\"1\", \"2\"); }",
        ("Y2", "forwards to num(\"1\", \"2\")", "", ""),
    ),
    (
        "format 1; extension e for tiny; marking K /k/; concrete p : T ::= k : K { forwards to num(@frob(1)); }",
        ("N1", "frob", "", ""),
    ),
    (
        "format 1; extension e for tiny; terminal K /k/; concrete p : T ::= k : K { forwards to num(1); }",
        ("Y1", "forwards to num(1)", "", ""),
    ),
];

#[test]
fn names_and_kinds_of_extensions_are_right(rt: HostRuntime) {
    extensions_get(&rt, SUMS, &WRONG_NAMES);
}

// Extensions of sums whose markers or preferences are wrong.
static WRONG_MARKERS: [Row; 10] = [
    (
        "format 1; extension e for tiny; terminal K /k/; concrete p : T ::= k : K { forwards to num(\"1\"); }",
        ("E1", "p", "", ""),
    ),
    (
        "format 1; extension e for tiny; marking K /k/;",
        ("E2", "K", "", ""),
    ),
    (
        "format 1; extension e for tiny; marking K /k/; concrete p : E ::= k : K { forwards to term(num(\"1\")); }",
        ("E3", "p", "", ""),
    ),
    (
        "format 1; extension e for tiny; \
            marking M /m/; marking K /k/; prefer M over K; prefer K over M; \
            concrete x : T ::= m : M { forwards to num(\"1\"); } \
            concrete y : T ::= k : K { forwards to num(\"1\"); }",
        ("G6", "M", "K", ""),
    ),
    (
        "format 1; extension e for tiny; \
            marking K /k/; prefer K over Num; prefer Num over K; \
            concrete p : T ::= k : K { forwards to num(\"1\"); }",
        ("G6", "K", "Num", ""),
    ),
    (
        "format 1; extension e for tiny; \
            marking M /7/; marking K /k/; prefer M over K; prefer K over M; \
            concrete x : T ::= m : M { forwards to num(\"1\"); } \
            concrete y : T ::= k : K { forwards to num(\"1\"); }",
        ("G6", "M", "K", ""),
    ),
    (
        "format 1; extension e for tiny; marking K /[0-9]/; concrete p : T ::= k : K { forwards to num(k.lexeme); }",
        ("E4", "K", "Num", ""),
    ),
    (
        "format 1; extension e for tiny; marking K /7/; concrete p : T ::= k : K { forwards to num(k.lexeme); }",
        ("E4", "K", "Num", "7"),
    ),
    (
        "format 1; extension e for tiny; marking K /[ ]/; concrete p : T ::= k : K { forwards to num(\"1\"); }",
        ("E4", "K", "Space", " "),
    ),
    (
        "format 1; extension e for tiny; \
            marking M /m/; marking K /m/; \
            concrete x : T ::= m : M { forwards to num(\"1\"); } \
            concrete y : T ::= k : K { forwards to num(\"1\"); }",
        ("E4", "M", "K", "m"),
    ),
];

#[test]
fn markers_and_preferences_of_extensions_keep_their_rules(rt: HostRuntime) {
    extensions_get(&rt, SUMS, &WRONG_MARKERS);
}

// Extensions of sums whose grammar or scanner is wrong.
static WRONG_GRAMMARS: [Row; 8] = [
    (
        "format 1; extension e for tiny; \
            marking K /k/; nonterminal Q; \
            concrete p : T ::= k : K { forwards to num(\"1\"); } \
            concrete q : Q ::= n : Num { }",
        ("G1 unreachable", "Q", "", ""),
    ),
    (
        "format 1; extension e for tiny; marking K /k/; nonterminal Q; concrete p : T ::= k : K q : Q { forwards to num(\"1\"); }",
        ("G1 unproductive", "Q", "", ""),
    ),
    (
        "format 1; extension e for tiny; \
            marking K /k/; nonterminal Q; \
            concrete p : T ::= k : K q : Q { forwards to num(\"1\"); } \
            concrete a : Q ::= q : Q { } \
            concrete b : Q ::= n : Num { }",
        ("G2", "Q", "", ""),
    ),
    (
        "format 1; extension e for tiny; \
            marking K /k/; nonterminal Q; \
            concrete p : T ::= k : K q : Q { forwards to num(\"1\"); } \
            nonterminal R; \
            concrete a : Q ::= r : R q : Q n : Num { } \
            concrete b : Q ::= n : Num { } \
            concrete c : R ::= { }",
        ("G3", "Q", "", ""),
    ),
    (
        "format 1; extension e for tiny; \
            marking K /k/; nonterminal Q; \
            concrete p : T ::= k : K q : Q { forwards to num(\"1\"); } \
            concrete a : Q ::= q : Q o : Plus r : Q { } \
            concrete b : Q ::= n : Num { }",
        ("G4", "Plus", "shift", ""),
    ),
    (
        "format 1; extension e for tiny; \
            marking K /k/; nonterminal Q; \
            concrete p : T ::= k : K q : Q { forwards to num(\"1\"); } \
            concrete a : Q ::= n : Num { } \
            concrete b : Q ::= n : Num { }",
        ("G4", "", "a", "b"),
    ),
    (
        "format 1; extension e for tiny; \
            marking K /k/; nonterminal Q; \
            concrete p : T ::= k : K q : Q { forwards to num(\"1\"); } \
            terminal U /7/; \
            concrete a : Q ::= u : U { } \
            concrete b : Q ::= n : Num { }",
        ("G5", "Num", "U", "7"),
    ),
    (
        "format 1; extension e for tiny; \
            marking K /k/; nonterminal Q; \
            concrete p : T ::= k : K q : Q { forwards to num(\"1\"); } \
            terminal U /[ ]/; \
            concrete a : Q ::= u : U { }",
        ("G5", "U", "Space", " "),
    ),
];

#[test]
fn host_and_extension_are_deterministic(rt: HostRuntime) {
    extensions_get(&rt, SUMS, &WRONG_GRAMMARS);
}

// Extensions of sums whose attributes are wrong.
static WRONG_ATTRIBUTES: [Row; 6] = [
    (
        "format 1; extension e for tiny; inh j : int; occurs j on E;",
        ("A5", "j", "", ""),
    ),
    (
        "format 1; extension lone for tiny; marking L /l/; concrete one : T ::= m : L { top.value = 1; }",
        ("E7", "one", "", ""),
    ),
    (
        "format 1; extension e for tiny; syn leaves : int; occurs leaves on T;",
        ("A1", "num", "leaves", ""),
    ),
    (
        "format 1; extension e for tiny; \
            syn leaves : int; inh i : int; occurs i on T; occurs leaves on T needs { i }; occurs leaves on E; \
            aspect num { top.leaves = top.i; } \
            aspect term { top.leaves = t.leaves; } \
            aspect plus { top.leaves = 0; }",
        ("A2", "term", "t", "i"),
    ),
    (
        "format 1; extension e for tiny; syn leaves : int; inh i : int; occurs i on T; occurs leaves on T; aspect num { top.leaves = top.i; }",
        ("A3", "num", "leaves", "i"),
    ),
    (
        "format 1; extension e for tiny; \
            syn leaves : int; inh i : int; occurs i on T; occurs leaves on T needs { i }; \
            aspect num { top.leaves = top.i; } \
            aspect term { t.i = t.leaves; }",
        ("A4", "term", "i", "leaves"),
    ),
];

#[test]
fn attributes_of_extensions_are_well_defined(rt: HostRuntime) {
    extensions_get(&rt, SUMS, &WRONG_ATTRIBUTES);
}
