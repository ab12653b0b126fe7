//! Does each rule refuse a host that breaks it, with a true example?
//!
//! Each row has a host and its expected answer, which follows from the rules. What true examples may differ in is left empty.

use crate::answers::{Answer, Row, shows, shows_name, spec_of};
use std::alloc::Global;
use std::process::Abort;
use wb_certify_host::{CertifyRefusal, certify_host};
use wb_names::resolve_host;
use wb_operations::{OperationTable, Standard, standard_table};
use wb_syntax::Spec;

// Fails unless each host gets its expected answer.
fn hosts_get<R: Abort + AllocGlobal>(rt: &R, rows: &[Row]) {
    assert!(rt; are_answered(rt.alloc(), rows));
}

// Whether each host gets its expected answer.
fn are_answered(alloc: Global, rows: &[Row]) -> bool {
    match standard_table(alloc) {
        Ok(operations) => all_get(alloc, &operations, rows),
        Err(_) => false,
    }
}

// The same over these operations.
fn all_get(alloc: Global, operations: &OperationTable<Standard>, rows: &[Row]) -> bool {
    'rows: for (text, answer) in rows {
        if !text_gets(alloc, operations, *text, answer) {
            return false;
        }
    }
    true
}

// Whether the host of this text gets the expected answer.
fn text_gets(
    alloc: Global,
    operations: &OperationTable<Standard>,
    text: &str,
    answer: &Answer,
) -> bool {
    match spec_of(alloc, text) {
        Some(spec) => {
            let is = spec_gets(alloc, operations, (text, &spec), answer);
            spec.release();
            is
        }
        None => false,
    }
}

// Whether the host of this specification gets the expected answer.
fn spec_gets(
    alloc: Global,
    operations: &OperationTable<Standard>,
    file: (&str, &Spec),
    answer: &Answer,
) -> bool {
    match certify_host(alloc, file.1, operations) {
        // The code `ok` is that of a certified host.
        Ok(host) => {
            host.release();
            answer.0 == "ok"
        }
        Err(refusal) => {
            let is = is_answer(alloc, file, &refusal, answer);
            refusal.release();
            is
        }
    }
}

// Whether a refusal is the expected one.
fn is_answer(
    alloc: Global,
    file: (&str, &Spec),
    refusal: &CertifyRefusal,
    answer: &Answer,
) -> bool {
    match refusal {
        CertifyRefusal::Names(refusal) => shows_name(refusal, answer),
        _ => is_refused(alloc, file, refusal, answer),
    }
}

// Whether a refusal of a host whose names are right is the expected one.
fn is_refused(
    alloc: Global,
    file: (&str, &Spec),
    refusal: &CertifyRefusal,
    answer: &Answer,
) -> bool {
    match resolve_host(alloc, file.1) {
        Ok(resolved) => {
            let is = shows(&resolved, file.0, refusal, answer);
            resolved.release();
            is
        }
        Err(refusal) => {
            refusal.release();
            false
        }
    }
}

// Hosts that are certified.
static CERTIFIED: [Row; 10] = [
    (
        "format 1; host mini; \
            ignore Space /[ \\n]+/; terminal Let /let/; terminal Print /print/; terminal Id /[a-z]+/; terminal Num /[0-9]+/; \
            terminal Eq /=/; terminal Semi /;/; terminal Begin /\\{/; terminal End /\\}/; terminal Plus /\\+/; \
            terminal Times /\\*/; terminal Open /\\(/; terminal Close /\\)/; \
            nonterminal Program; nonterminal Stmts; nonterminal Stmt; nonterminal Expr; nonterminal Term; nonterminal Factor; \
            nonterminal Env; start Program; extensible Stmt; extensible Factor; \
            syn out : text; syn defs : Env; syn value : int; syn found : int; inh env : Env; inh key : text; \
            occurs out on Program; occurs env on Stmts; occurs defs on Stmts needs { env }; occurs out on Stmts needs { env }; \
            occurs env on Stmt; occurs defs on Stmt needs { env }; occurs out on Stmt needs { env }; occurs env on Expr; \
            occurs value on Expr needs { env }; occurs env on Term; occurs value on Term needs { env }; occurs env on Factor; \
            occurs value on Factor needs { env }; occurs key on Env; occurs found on Env needs { key }; \
            abstract empty : Env ::= { top.found = 0; } \
            abstract bind : Env ::= n : text v : int r : Env { \
              r.key = top.key; top.found = if @same(top.key, n) then v else r.found; \
            } \
            concrete prog : Program ::= s : Stmts { s.env = empty(); top.out = s.out; } \
            concrete none : Stmts ::= { top.defs = top.env; top.out = \"\"; } \
            concrete more : Stmts ::= a : Stmts b : Stmt { \
              a.env = top.env; b.env = a.defs; top.defs = b.defs; top.out = @concat(a.out, b.out); \
            } \
            concrete let : Stmt ::= k : Let x : Id e : Eq v : Expr z : Semi { \
              v.env = top.env; top.out = \"\"; top.defs = bind(x.lexeme, v.value, top.env); \
            } \
            concrete print : Stmt ::= k : Print v : Expr z : Semi { \
              v.env = top.env; top.defs = top.env; top.out = @concat(@to_text(v.value), \"\\n\"); \
            } \
            concrete block : Stmt ::= o : Begin s : Stmts c : End { s.env = top.env; top.defs = top.env; top.out = s.out; } \
            concrete plus : Expr ::= a : Expr p : Plus b : Term { \
              a.env = top.env; b.env = top.env; top.value = @add(a.value, b.value); \
            } \
            concrete term : Expr ::= t : Term { t.env = top.env; top.value = t.value; } \
            concrete times : Term ::= a : Term m : Times b : Factor { \
              a.env = top.env; b.env = top.env; top.value = @mul(a.value, b.value); \
            } \
            concrete factor : Term ::= f : Factor { f.env = top.env; top.value = f.value; } \
            concrete num : Factor ::= n : Num { top.value = @to_int(n.lexeme); } \
            concrete var : Factor ::= x : Id { local e : Env = top.env; e.key = x.lexeme; top.value = e.found; } \
            concrete paren : Factor ::= o : Open e : Expr c : Close { e.env = top.env; top.value = e.value; }",
        ("ok", "", "", ""),
    ),
    (
        "format 1; host tiny; \
            ignore Space /[ ]+/; terminal Num /[0-9]+/; terminal Plus /\\+/; \
            nonterminal E; nonterminal T; start E; extensible T; syn value : int; occurs value on E; occurs value on T; \
            concrete plus : E ::= a : E p : Plus b : T { top.value = @add(a.value, b.value); } \
            concrete term : E ::= t : T { top.value = t.value; } \
            concrete num : T ::= n : Num { top.value = @to_int(n.lexeme); }",
        ("ok", "", "", ""),
    ),
    (
        "format 1; host adj; \
            terminal A /a/; terminal X /x/; terminal P /p/; terminal Q /q/; terminal Y /y/; \
            nonterminal S; nonterminal N; nonterminal H; nonterminal G; start S; extensible H; extensible G; \
            concrete sn : S ::= n : N x : X { } \
            concrete sh : S ::= p : P h : H { } \
            concrete sg : S ::= q : Q g : G { } \
            concrete na : N ::= a : A { } \
            concrete hx : H ::= x : X { } \
            concrete gy : G ::= y : Y { }",
        ("ok", "", "", ""),
    ),
    (
        "format 1; host pq; \
            terminal P /p/; terminal Q /q/; terminal C /c/; terminal X /x/; terminal Y /y/; terminal Z /z/; \
            nonterminal S; nonterminal A; nonterminal B; nonterminal G; start S; extensible G; \
            concrete sa : S ::= p : P a : A x : X { } \
            concrete sb : S ::= p : P b : B y : Y { } \
            concrete sg : S ::= q : Q g : G { } \
            concrete ac : A ::= c : C { } \
            concrete bc : B ::= c : C { } \
            concrete gz : G ::= z : Z { }",
        ("ok", "", "", ""),
    ),
    (
        "format 1; host ctx; \
            ignore Space /[ ]+/; terminal X /x/; \
            nonterminal P; nonterminal N; start P; extensible N; \
            inh env : int; inh store : int; syn value : int; \
            occurs env on N; occurs store on N; occurs value on P; occurs value on N needs { env, store }; \
            concrete root : P ::= n : N { n.env = 1; n.store = 2; top.value = n.value; } \
            concrete leaf : N ::= x : X { top.value = @add(top.env, top.store); }",
        ("ok", "", "", ""),
    ),
    (
        "format 1; host ctx; \
            ignore Space /[ ]+/; terminal X /x/; \
            nonterminal P; nonterminal N; start P; extensible N; \
            inh env : int; inh store : int; syn value : int; \
            occurs env on N; occurs store on N; occurs value on P; occurs value on N needs { env, store }; \
            concrete root : P ::= n : N { n.env = 1; n.store = 2; top.value = n.value; } \
            concrete leaf : N ::= x : X { top.value = @add(top.env, top.store); } \
            forward on N needs { store };",
        ("ok", "", "", ""),
    ),
    (
        "format 1; host kw; \
            ignore Space /[ ]+/; terminal If /if/; terminal Id /[a-z]+/; prefer If over Id; \
            nonterminal S; start S; \
            concrete one : S ::= k : If x : Id { } \
            concrete two : S ::= x : Id { }",
        ("ok", "", "", ""),
    ),
    (
        "format 1; host list; \
            ignore Space /[ \\n]+/; terminal Num /[0-9]+/; \
            nonterminal L; start L; \
            concrete none : L ::= { } \
            concrete more : L ::= a : L n : Num { }",
        ("ok", "", "", ""),
    ),
    (
        "format 1; host ptr; \
            terminal Star /\\*/; terminal Eq /=/; terminal Id /[a-z]+/; \
            nonterminal S; nonterminal L; nonterminal R; start S; \
            concrete assign : S ::= l : L e : Eq r : R { } \
            concrete just : S ::= r : R { } \
            concrete star : L ::= s : Star r : R { } \
            concrete id : L ::= x : Id { } \
            concrete ofl : R ::= l : L { }",
        ("ok", "", "", ""),
    ),
    (
        "format 1; host loop; \
            terminal X /x/; \
            nonterminal S; start S; syn v : int; occurs v on S; \
            concrete go : S ::= x : X { forwards to go(x.lexeme); }",
        ("ok", "", "", ""),
    ),
];

#[test]
fn hosts_that_keep_all_rules(rt: HostRuntime) {
    hosts_get(&rt, &CERTIFIED);
}

// Hosts that aren't certified, each with its expected answer.
static REFUSED: [Row; 16] = [
    (
        "format 1; extension dup for tiny; marking D /d/; concrete twin : T ::= m : D t : T { forwards to num(@to_text(@mul(2, t.value))); }",
        ("N4", "dup", "", ""),
    ),
    (
        "format 1; host t; nonterminal E; occurs q on E;",
        ("N1", "q", "", ""),
    ),
    (
        "format 1; host y; nonterminal E; syn v : int; occurs v on E; abstract p : E ::= { top.v = true; }",
        ("Y1", "top.v = true", "", ""),
    ),
    (
        "format 1; host cyc; \
            nonterminal P; nonterminal N; \
            inh i : int; syn s : int; syn v : int; occurs i on N; occurs s on N needs { i }; occurs v on P; \
            abstract pair : P ::= a : N b : N { a.i = b.s; b.i = a.s; top.v = a.s; } \
            abstract leaf : N ::= { top.s = top.i; }",
        ("G1 no start", "", "", ""),
    ),
    (
        "format 1; host amb; \
            terminal Num /[0-9]+/; terminal Plus /\\+/; \
            nonterminal E; start E; \
            concrete num : E ::= n : Num { } \
            concrete plus : E ::= a : E p : Plus b : E { }",
        ("G4", "Plus", "shift", "plus"),
    ),
    (
        "format 1; host kw; \
            ignore Space /[ ]+/; terminal If /if/; terminal Id /[a-z]+/; \
            nonterminal S; start S; \
            concrete one : S ::= k : If x : Id { } \
            concrete two : S ::= x : Id { }",
        ("G5", "If", "Id", "if"),
    ),
    (
        "format 1; host h; \
            terminal X /x/; \
            nonterminal S; start S; inh i : int; syn s : int; nonterminal N; \
            concrete go : S ::= x : X { } \
            concrete no : N ::= x : X { }",
        ("G1 unreachable", "N", "", ""),
    ),
    (
        "format 1; host h; \
            terminal X /x/; \
            nonterminal S; start S; inh i : int; syn s : int; nonterminal N; \
            concrete go : S ::= x : X { } \
            concrete more : S ::= n : N { }",
        ("G1 unproductive", "N", "", ""),
    ),
    (
        "format 1; host h; \
            terminal X /x/; nonterminal S; start S; inh i : int; syn s : int; \
            concrete go : S ::= x : X { } \
            concrete more : S ::= s : S { }",
        ("G2", "S", "", ""),
    ),
    (
        "format 1; host h; \
            terminal X /x/; nonterminal S; start S; inh i : int; syn s : int; \
            terminal Y /y/; prefer X over Y; prefer Y over X; \
            concrete go : S ::= x : X y : Y { }",
        ("G6", "X", "Y", ""),
    ),
    (
        "format 1; host h; terminal X /x/; nonterminal S; start S; inh i : int; syn s : int; occurs s on S; concrete go : S ::= x : X { }",
        ("A1", "go", "s", ""),
    ),
    (
        "format 1; host h; terminal X /x/; nonterminal S; start S; inh i : int; syn s : int; occurs i on S; concrete go : S ::= x : X { }",
        ("A5", "i", "", ""),
    ),
    (
        "format 1; host h; \
            terminal X /x/; nonterminal S; start S; inh i : int; syn s : int; \
            nonterminal N; \
            occurs i on N; occurs s on N needs { i }; occurs s on S; \
            concrete go : S ::= n : N { top.s = n.s; } \
            concrete leaf : N ::= x : X { top.s = top.i; }",
        ("A2", "go", "n", "i"),
    ),
    (
        "format 1; host h; \
            terminal X /x/; \
            nonterminal S; start S; inh i : int; syn s : int; nonterminal N; occurs i on N; occurs s on N; \
            concrete go : S ::= n : N { } \
            concrete leaf : N ::= x : X { top.s = top.i; }",
        ("A3", "leaf", "s", "i"),
    ),
    (
        "format 1; host h; \
            terminal X /x/; nonterminal S; start S; inh i : int; syn s : int; \
            nonterminal N; \
            occurs i on N; occurs s on N; forward on N needs { i }; \
            concrete go : S ::= n : N { } \
            concrete leaf : N ::= x : X { top.s = 1; }",
        ("A6", "N", "s", "i"),
    ),
    (
        "format 1; host h; \
            terminal X /x/; \
            nonterminal S; start S; inh i : int; syn s : int; nonterminal N; occurs i on N; occurs s on N needs { i }; \
            concrete go : S ::= n : N { n.i = n.s; } \
            concrete leaf : N ::= x : X { top.s = top.i; }",
        ("A4", "go", "i", "s"),
    ),
];

#[test]
fn each_rule_refuses_a_host(rt: HostRuntime) {
    hosts_get(&rt, &REFUSED);
}
