//! Are the names of whole files right: of hosts, and of extensions with their hosts?
//!
//! They are, whether or not later rules refuse the files.

use crate::written::{Asked, Tested, extensions_get, hosts_get};
use std::alloc::Global;

static NAMES: Asked = Asked {
    tested: Tested::Names,
    first_line: "",
};

// A small language with statements, expressions and environments.
const STATEMENTS: &str = "format 1; host mini; \
    ignore Space /[ \\n]+/; terminal Let /let/; terminal Print /print/; terminal Id /[a-z]+/; terminal Num /[0-9]+/; \
    terminal Eq /=/; terminal Semi /;/; terminal Begin /\\{/; terminal End /\\}/; terminal Plus /\\+/; terminal Times /\\*/; \
    terminal Open /\\(/; terminal Close /\\)/; \
    nonterminal Program; nonterminal Stmts; nonterminal Stmt; nonterminal Expr; nonterminal Term; nonterminal Factor; \
    nonterminal Env; start Program; extensible Stmt; extensible Factor; \
    syn out : text; syn defs : Env; syn value : int; syn found : int; inh env : Env; inh key : text; \
    occurs out on Program; occurs env on Stmts; occurs defs on Stmts needs { env }; occurs out on Stmts needs { env }; \
    occurs env on Stmt; occurs defs on Stmt needs { env }; occurs out on Stmt needs { env }; occurs env on Expr; \
    occurs value on Expr needs { env }; occurs env on Term; occurs value on Term needs { env }; occurs env on Factor; \
    occurs value on Factor needs { env }; occurs key on Env; occurs found on Env needs { key }; \
    abstract empty : Env ::= { top.found = 0; } \
    abstract bind : Env ::= n : text v : int r : Env {   \
      r.key = top.key;   top.found = if @same(top.key, n) then v else r.found; \
    } \
    concrete prog : Program ::= s : Stmts { s.env = empty(); top.out = s.out; } \
    concrete none : Stmts ::= { top.defs = top.env; top.out = \"\"; } \
    concrete more : Stmts ::= a : Stmts b : Stmt {   \
      a.env = top.env; b.env = a.defs; top.defs = b.defs;   top.out = @concat(a.out, b.out); \
    } \
    concrete let : Stmt ::= k : Let x : Id e : Eq v : Expr z : Semi {   \
      v.env = top.env; top.out = \"\";   top.defs = bind(x.lexeme, v.value, top.env); \
    } \
    concrete print : Stmt ::= k : Print v : Expr z : Semi {   \
      v.env = top.env; top.defs = top.env;   top.out = @concat(@to_text(v.value), \"\\n\"); \
    } \
    concrete block : Stmt ::= o : Begin s : Stmts c : End {   s.env = top.env; top.defs = top.env; top.out = s.out; } \
    concrete plus : Expr ::= a : Expr p : Plus b : Term {   \
      a.env = top.env; b.env = top.env; top.value = @add(a.value, b.value); \
    } \
    concrete term : Expr ::= t : Term { t.env = top.env; top.value = t.value; } \
    concrete times : Term ::= a : Term m : Times b : Factor {   \
      a.env = top.env; b.env = top.env; top.value = @mul(a.value, b.value); \
    } \
    concrete factor : Term ::= f : Factor { f.env = top.env; top.value = f.value; } \
    concrete num : Factor ::= n : Num { top.value = @to_int(n.lexeme); } \
    concrete var : Factor ::= x : Id {   local e : Env = top.env; e.key = x.lexeme; top.value = e.found; } \
    concrete paren : Factor ::= o : Open e : Expr c : Close {   e.env = top.env; top.value = e.value; }";

// Sums of numbers.
pub(crate) const SUMS: &str = "format 1; host tiny; \
    ignore Space /[ ]+/; terminal Num /[0-9]+/; terminal Plus /\\+/; \
    nonterminal E; nonterminal T; start E; extensible T; syn value : int; occurs value on E; occurs value on T; \
    concrete plus : E ::= a : E p : Plus b : T { top.value = @add(a.value, b.value); } \
    concrete term : E ::= t : T { top.value = t.value; } \
    concrete num : T ::= n : Num { top.value = @to_int(n.lexeme); }";

// Two extensible nonterminals.
const TWO_EXTENSIBLE: &str = "format 1; host adj; \
    terminal A /a/; terminal X /x/; terminal P /p/; terminal Q /q/; terminal Y /y/; \
    nonterminal S; nonterminal N; nonterminal H; nonterminal G; start S; extensible H; extensible G; \
    concrete sn : S ::= n : N x : X { } \
    concrete sh : S ::= p : P h : H { } \
    concrete sg : S ::= q : Q g : G { } \
    concrete na : N ::= a : A { } \
    concrete hx : H ::= x : X { } \
    concrete gy : G ::= y : Y { }";

// Two sentences that begin alike.
const ALIKE: &str = "format 1; host pq; \
    terminal P /p/; terminal Q /q/; terminal C /c/; terminal X /x/; terminal Y /y/; terminal Z /z/; \
    nonterminal S; nonterminal A; nonterminal B; nonterminal G; start S; extensible G; \
    concrete sa : S ::= p : P a : A x : X { } \
    concrete sb : S ::= p : P b : B y : Y { } \
    concrete sg : S ::= q : Q g : G { } \
    concrete ac : A ::= c : C { } \
    concrete bc : B ::= c : C { } \
    concrete gz : G ::= z : Z { }";

// A nonterminal that inherits two attributes.
const TWO_INHERITED: &str = "format 1; host ctx; \
    ignore Space /[ ]+/; terminal X /x/; \
    nonterminal P; nonterminal N; start P; extensible N; \
    inh env : int; inh store : int; syn value : int; \
    occurs env on N; occurs store on N; occurs value on P; occurs value on N needs { env, store }; \
    concrete root : P ::= n : N { n.env = 1; n.store = 2; top.value = n.value; } \
    concrete leaf : N ::= x : X { top.value = @add(top.env, top.store); }";

// The same, with the flow type of its forward.
const FORWARD_NEEDS: &str = "format 1; host ctx; \
    ignore Space /[ ]+/; terminal X /x/; \
    nonterminal P; nonterminal N; start P; extensible N; \
    inh env : int; inh store : int; syn value : int; \
    occurs env on N; occurs store on N; occurs value on P; occurs value on N needs { env, store }; \
    concrete root : P ::= n : N { n.env = 1; n.store = 2; top.value = n.value; } \
    concrete leaf : N ::= x : X { top.value = @add(top.env, top.store); } \
    forward on N needs { store };";

// Hosts whose names are right.
static HOSTS: [&str; 19] = [
    TWO_EXTENSIBLE,
    "format 1; host amb; \
        terminal Num /[0-9]+/; terminal Plus /\\+/; \
        nonterminal E; start E; \
        concrete num : E ::= n : Num { } \
        concrete plus : E ::= a : E p : Plus b : E { }",
    "format 1; host calc; \
        nonterminal E; syn value : int; occurs value on E; \
        abstract lit : E ::= n : int { top.value = n; } \
        abstract div : E ::= a : E b : E { top.value = @div(a.value, b.value); } \
        abstract first : E ::= a : E b : E { top.value = a.value; } \
        abstract pick : E ::= c : E a : E b : E {   top.value = if @eq(c.value, 0) then b.value else a.value; }",
    "format 1; host calc0; \
        nonterminal E; syn value : int; occurs value on E; \
        abstract lit : E ::= n : int { top.value = n; } \
        abstract add : E ::= a : E b : E { top.value = @add(a.value, b.value); }",
    "format 1; host calc0; \
        nonterminal E; syn value : int; occurs value on E; \
        abstract lit : E ::= n : int { top.value = n; } \
        abstract add : E ::= a : E b : E { top.value = @add(a.value, b.value); } \
        abstract div : E ::= a : E b : E { top.value = @div(a.value, b.value); }",
    TWO_INHERITED,
    FORWARD_NEEDS,
    "format 1; host cyc; \
        nonterminal P; nonterminal N; \
        inh i : int; syn s : int; syn v : int; occurs i on N; occurs s on N needs { i }; occurs v on P; \
        abstract pair : P ::= a : N b : N { a.i = b.s; b.i = a.s; top.v = a.s; } \
        abstract leaf : N ::= { top.s = top.i; }",
    "format 1; host dbl; \
        nonterminal E; syn t : text; occurs t on E; \
        abstract z : E ::= { top.t = \"x\"; } \
        abstract d : E ::= a : E { top.t = @concat(a.t, a.t); }",
    "format 1; host kw; \
        ignore Space /[ ]+/; terminal If /if/; terminal Id /[a-z]+/; prefer If over Id; \
        nonterminal S; start S; \
        concrete one : S ::= k : If x : Id { } \
        concrete two : S ::= x : Id { }",
    "format 1; host kw; \
        ignore Space /[ ]+/; terminal If /if/; terminal Id /[a-z]+/; \
        nonterminal S; start S; \
        concrete one : S ::= k : If x : Id { } \
        concrete two : S ::= x : Id { }",
    "format 1; host list; \
        ignore Space /[ \\n]+/; terminal Num /[0-9]+/; \
        nonterminal L; start L; \
        concrete none : L ::= { } \
        concrete more : L ::= a : L n : Num { }",
    "format 1; host loop; \
        terminal X /x/; \
        nonterminal S; start S; syn v : int; occurs v on S; \
        concrete go : S ::= x : X { forwards to go(x.lexeme); }",
    STATEMENTS,
    "format 1; host one; terminal X /x/; nonterminal S; start S; concrete go : S ::= x : X { }",
    ALIKE,
    "format 1; host ptr; \
        terminal Star /\\*/; terminal Eq /=/; terminal Id /[a-z]+/; \
        nonterminal S; nonterminal L; nonterminal R; start S; \
        concrete assign : S ::= l : L e : Eq r : R { } \
        concrete just : S ::= r : R { } \
        concrete star : L ::= s : Star r : R { } \
        concrete id : L ::= x : Id { } \
        concrete ofl : R ::= l : L { }",
    SUMS,
    "format 1; host twins; \
        nonterminal E; syn u : E; occurs u on E; \
        abstract z : E ::= { top.u = z(); } \
        abstract p : E ::= a : E b : E { top.u = z(); } \
        abstract d : E ::= a : E { top.u = p(a.u, a.u); }",
];

// A host, and extensions whose names are right with it.
static WITH_HOSTS: [(&str, &str); 15] = [
    (
        STATEMENTS,
        "format 1; extension a for mini; \
            marking Sum /sum/; prefer Sum over Id; \
            concrete dbl : Factor ::= m : Sum o : Open x : Expr c : Close {   \
              forwards to paren(\"(\", plus(x, \"+\", factor(paren(\"(\", x, \")\"))), \")\"); \
            }",
    ),
    (
        STATEMENTS,
        "format 1; extension b for mini; \
            marking Sum /sum/; prefer Sum over Id; \
            concrete sqr : Factor ::= m : Sum o : Open x : Expr c : Close {   \
              forwards to paren(\"(\", term(times(factor(paren(\"(\", x, \")\")), \"*\",     paren(\"(\", x, \")\"))), \")\"); \
            }",
    ),
    (
        STATEMENTS,
        "format 1; extension comma for mini; \
            marking Dot /dot/; terminal Comma /,/; prefer Dot over Id; \
            concrete two : Factor ::= m : Dot o : Open x : Expr k : Comma y : Expr c : Close {   \
              forwards to paren(\"(\", plus(x, \"+\", factor(paren(\"(\", y, \")\"))), \")\"); \
            }",
    ),
    (
        STATEMENTS,
        "format 1; extension power for mini; \
            marking Square /square/; prefer Square over Id; \
            concrete sq : Factor ::= m : Square o : Open e : Expr c : Close {   \
              forwards to paren(\"(\", term(times(factor(paren(\"(\", e, \")\")), \"*\",     paren(\"(\", e, \")\"))), \")\"); \
            }",
    ),
    (
        STATEMENTS,
        "format 1; extension repeat for mini; \
            marking Twice /twice/; prefer Twice over Id; \
            concrete again : Stmt ::= m : Twice s : Stmt {   forwards to block(\"{\", more(more(none(), s), s), \"}\"); }",
    ),
    (
        SUMS,
        "format 1; extension count for tiny; \
            syn leaves : int; occurs leaves on E; occurs leaves on T; \
            aspect plus { top.leaves = @add(a.leaves, b.leaves); } \
            aspect term { top.leaves = t.leaves; } \
            aspect num { top.leaves = 1; }",
    ),
    (
        SUMS,
        "format 1; extension dup for tiny; marking D /d/; concrete twin : T ::= m : D t : T {   forwards to num(@to_text(@mul(2, t.value))); }",
    ),
    (
        SUMS,
        "format 1; extension lone for tiny; marking L /l/; concrete one : T ::= m : L { top.value = 1; }",
    ),
    (
        SUMS,
        "format 1; extension minus for tiny; marking M /-/; concrete same : T ::= m : M t : T { forwards to t; }",
    ),
    (
        TWO_EXTENSIBLE,
        "format 1; extension first for adj; marking M /m/; concrete mg : G ::= m : M n : N h : H { forwards to gy(\"y\"); }",
    ),
    (
        TWO_EXTENSIBLE,
        "format 1; extension second for adj; marking K /k/; concrete kh : H ::= k : K y : Y { forwards to hx(\"x\"); }",
    ),
    (
        ALIKE,
        "format 1; extension fit for pq; marking M /m/; concrete mg : G ::= m : M a : A x : X { forwards to gz(\"z\"); }",
    ),
    (
        ALIKE,
        "format 1; extension unfit for pq; marking M /m/; concrete mg : G ::= m : M a : A y : Y { forwards to gz(\"z\"); }",
    ),
    (
        TWO_INHERITED,
        "format 1; extension swap for ctx; marking M /m/; concrete swap : N ::= m : M n : N { forwards to n; forward.env = top.store; }",
    ),
    (
        FORWARD_NEEDS,
        "format 1; extension swap for ctx; marking M /m/; concrete swap : N ::= m : M n : N { forwards to n; forward.env = top.store; }",
    ),
];

fn hosts_are_resolved(alloc: Global, files: &[&'static str]) -> bool {
    for file in files {
        if !hosts_get(alloc, &NAMES, &[(*file, "ok")]) {
            return false;
        }
    }
    true
}

fn extensions_are_resolved(alloc: Global, rows: &[(&'static str, &'static str)]) -> bool {
    for (host, extension) in rows {
        if !extensions_get(alloc, &NAMES, *host, &[(*extension, "ok")]) {
            return false;
        }
    }
    true
}

#[test]
fn files_of_hosts_are_resolved(rt: HostRuntime) {
    assert!(rt; hosts_are_resolved(rt.alloc(), &HOSTS));
}

#[test]
fn files_of_extensions_are_resolved_with_their_hosts(rt: HostRuntime) {
    assert!(rt; extensions_are_resolved(rt.alloc(), &WITH_HOSTS));
}
