//! The specifications that the tests read.
//!
//! `MINI` comes first, and each of the others is written for something that it lacks. What `show` prints of them is tested in `show`.

/// A host with statements, expressions and an environment.
pub const MINI: &str = r#"format 1; host mini;
ignore Space /[ \n]+/;
terminal Let /let/; terminal Print /print/;
terminal Id /[a-z]+/; terminal Num /[0-9]+/;
terminal Eq /=/; terminal Semi /;/;
terminal Begin /\{/; terminal End /\}/;
terminal Plus /\+/; terminal Times /\*/;
terminal Open /\(/; terminal Close /\)/;
nonterminal Program; nonterminal Stmts; nonterminal Stmt;
nonterminal Expr; nonterminal Term; nonterminal Factor; nonterminal Env;
start Program; extensible Stmt; extensible Factor;
syn out : text; syn defs : Env; syn value : int; syn found : int;
inh env : Env; inh key : text;
occurs out on Program;
occurs env on Stmts; occurs defs on Stmts needs { env };
occurs out on Stmts needs { env };
occurs env on Stmt; occurs defs on Stmt needs { env };
occurs out on Stmt needs { env };
occurs env on Expr; occurs value on Expr needs { env };
occurs env on Term; occurs value on Term needs { env };
occurs env on Factor; occurs value on Factor needs { env };
occurs key on Env; occurs found on Env needs { key };
abstract empty : Env ::= { top.found = 0; }
abstract bind : Env ::= n : text v : int r : Env {
  r.key = top.key;
  top.found = if @same(top.key, n) then v else r.found; }
concrete prog : Program ::= s : Stmts { s.env = empty(); top.out = s.out; }
concrete none : Stmts ::= { top.defs = top.env; top.out = ""; }
concrete more : Stmts ::= a : Stmts b : Stmt {
  a.env = top.env; b.env = a.defs; top.defs = b.defs;
  top.out = @concat(a.out, b.out); }
concrete let : Stmt ::= k : Let x : Id e : Eq v : Expr z : Semi {
  v.env = top.env; top.out = "";
  top.defs = bind(x.lexeme, v.value, top.env); }
concrete print : Stmt ::= k : Print v : Expr z : Semi {
  v.env = top.env; top.defs = top.env;
  top.out = @concat(@to_text(v.value), "\n"); }
concrete block : Stmt ::= o : Begin s : Stmts c : End {
  s.env = top.env; top.defs = top.env; top.out = s.out; }
concrete plus : Expr ::= a : Expr p : Plus b : Term {
  a.env = top.env; b.env = top.env; top.value = @add(a.value, b.value); }
concrete term : Expr ::= t : Term { t.env = top.env; top.value = t.value; }
concrete times : Term ::= a : Term m : Times b : Factor {
  a.env = top.env; b.env = top.env; top.value = @mul(a.value, b.value); }
concrete factor : Term ::= f : Factor { f.env = top.env; top.value = f.value; }
concrete num : Factor ::= n : Num { top.value = @to_int(n.lexeme); }
concrete var : Factor ::= x : Id {
  local e : Env = top.env; e.key = x.lexeme; top.value = e.found; }
concrete paren : Factor ::= o : Open e : Expr c : Close {
  e.env = top.env; top.value = e.value; }
"#;

/// A host of sums of numbers.
pub const TINY: &str = "format 1; host tiny; \
    ignore Space /[ ]+/; terminal Num /[0-9]+/; terminal Plus /\\+/; \
    nonterminal E; nonterminal T; start E; extensible T; syn value : int; occurs value on E; occurs value on T; \
    concrete plus : E ::= a : E p : Plus b : T { top.value = @add(a.value, b.value); } \
    concrete term : E ::= t : T { top.value = t.value; } \
    concrete num : T ::= n : Num { top.value = @to_int(n.lexeme); }";

/// A host of sums whose grammar is ambiguous.
pub const AMB: &str = r#"format 1; host amb;
terminal Num /[0-9]+/; terminal Plus /\+/;
nonterminal E; start E;
concrete num : E ::= n : Num { }
concrete plus : E ::= a : E p : Plus b : E { }
"#;

/// A host with a keyword that is preferred to identifiers.
pub const KW: &str = r#"format 1; host kw;
ignore Space /[ ]+/; terminal If /if/; terminal Id /[a-z]+/;
prefer If over Id;
nonterminal S; start S;
concrete one : S ::= k : If x : Id { }
concrete two : S ::= x : Id { }
"#;

/// The same without the preference.
pub const KW0: &str = r#"format 1; host kw;
ignore Space /[ ]+/; terminal If /if/; terminal Id /[a-z]+/;
nonterminal S; start S;
concrete one : S ::= k : If x : Id { }
concrete two : S ::= x : Id { }
"#;

/// A host of lists of numbers.
pub const LIST: &str = r#"format 1; host list;
ignore Space /[ \n]+/; terminal Num /[0-9]+/;
nonterminal L; start L;
concrete none : L ::= { }
concrete more : L ::= a : L n : Num { }
"#;

/// A host of pointers, whose grammar is LALR(1) and not SLR(1).
pub const PTR: &str = r#"format 1; host ptr;
terminal Star /\*/; terminal Eq /=/; terminal Id /[a-z]+/;
nonterminal S; nonterminal L; nonterminal R; start S;
concrete assign : S ::= l : L e : Eq r : R { }
concrete just : S ::= r : R { }
concrete star : L ::= s : Star r : R { }
concrete id : L ::= x : Id { }
concrete ofl : R ::= l : L { }
"#;

/// A host of sums.
pub const CALC0: &str = r#"format 1; host calc0;
nonterminal E; syn value : int; occurs value on E;
abstract lit : E ::= n : int { top.value = n; }
abstract add : E ::= a : E b : E { top.value = @add(a.value, b.value); }
"#;

/// A host of sums and quotients.
pub const DIVS: &str = r#"format 1; host calc0;
nonterminal E; syn value : int; occurs value on E;
abstract lit : E ::= n : int { top.value = n; }
abstract add : E ::= a : E b : E { top.value = @add(a.value, b.value); }
abstract div : E ::= a : E b : E { top.value = @div(a.value, b.value); }
"#;

/// A host of numbers with quotients and choices.
pub const CALC: &str = r#"format 1; host calc;
nonterminal E; syn value : int; occurs value on E;
abstract lit : E ::= n : int { top.value = n; }
abstract div : E ::= a : E b : E { top.value = @div(a.value, b.value); }
abstract first : E ::= a : E b : E { top.value = a.value; }
abstract pick : E ::= c : E a : E b : E {
  top.value = if @eq(c.value, 0) then b.value else a.value; }
"#;

/// A host whose children need each other.
pub const CYC: &str = r#"format 1; host cyc;
nonterminal P; nonterminal N; inh i : int; syn s : int; syn v : int;
occurs i on N; occurs s on N needs { i }; occurs v on P;
abstract pair : P ::= a : N b : N { a.i = b.s; b.i = a.s; top.v = a.s; }
abstract leaf : N ::= { top.s = top.i; }
"#;

/// A host of texts that double.
pub const DBL: &str = "format 1; host dbl; \
    nonterminal E; syn t : text; occurs t on E; \
    abstract z : E ::= { top.t = \"x\"; } \
    abstract d : E ::= a : E { top.t = @concat(a.t, a.t); }";

/// A host whose trees forward without end.
pub const LOOP: &str = r#"format 1; host loop; terminal X /x/;
nonterminal S; start S; syn v : int; occurs v on S;
concrete go : S ::= x : X { forwards to go(x.lexeme); }
"#;

/// A host whose attribute has a tree as value.
pub const TWINS: &str = "format 1; host twins; \
    nonterminal E; syn u : E; occurs u on E; \
    abstract z : E ::= { top.u = z(); } \
    abstract p : E ::= a : E b : E { top.u = z(); } \
    abstract d : E ::= a : E { top.u = p(a.u, a.u); }";

/// An extension of sums that doubles.
pub const DUP: &str =
    "format 1; extension dup for tiny; marking D /d/; concrete twin : T ::= m : D t : T { forwards to num(@to_text(@mul(2, t.value))); }";

/// An extension of sums by signs that change nothing.
pub const MINUS: &str =
    "format 1; extension minus for tiny; marking M /-/; concrete same : T ::= m : M t : T { forwards to t; }";

/// An extension of statements by doubles.
pub const A: &str = "format 1; extension a for mini; \
    marking Sum /sum/; prefer Sum over Id; \
    concrete dbl : Factor ::= m : Sum o : Open x : Expr c : Close { \
      forwards to paren(\"(\", plus(x, \"+\", factor(paren(\"(\", x, \")\"))), \")\"); \
    }";

/// An extension of statements by squares that are called sums.
pub const B: &str = "format 1; extension b for mini; \
    marking Sum /sum/; prefer Sum over Id; \
    concrete sqr : Factor ::= m : Sum o : Open x : Expr c : Close { \
      forwards to paren(\"(\", term(times(factor(paren(\"(\", x, \")\")), \"*\", paren(\"(\", x, \")\"))), \")\"); \
    }";

/// An extension of statements by squares.
pub const POWER: &str = r#"format 1; extension power for mini;
marking Square /square/; prefer Square over Id;
concrete sq : Factor ::= m : Square o : Open e : Expr c : Close {
  forwards to paren("(", term(times(factor(paren("(", e, ")")), "*",
    paren("(", e, ")"))), ")"); }
"#;

/// An extension of statements that are run twice.
pub const REPEAT: &str = r#"format 1; extension repeat for mini;
marking Twice /twice/; prefer Twice over Id;
concrete again : Stmt ::= m : Twice s : Stmt {
  forwards to block("{", more(more(none(), s), s), "}"); }
"#;

/// An extension of sums that counts their numbers.
pub const COUNT: &str = r#"format 1; extension count for tiny;
syn leaves : int; occurs leaves on E; occurs leaves on T;
aspect plus { top.leaves = @add(a.leaves, b.leaves); }
aspect term { top.leaves = t.leaves; }
aspect num { top.leaves = 1; }
"#;

/// A host with two inherited numbers.
pub const CTX2: &str = r#"format 1; host ctx;
ignore Space /[ ]+/; terminal X /x/;
nonterminal P; nonterminal N; start P; extensible N;
inh env : int; inh store : int; syn value : int;
occurs env on N; occurs store on N;
occurs value on P; occurs value on N needs { env, store };
concrete root : P ::= n : N { n.env = 1; n.store = 2; top.value = n.value; }
concrete leaf : N ::= x : X { top.value = @add(top.env, top.store); }
forward on N needs { store };
"#;

/// An extension that hands one of them on as the other.
pub const SWAP: &str = r#"format 1; extension swap for ctx; marking M /m/;
concrete swap : N ::= m : M n : N { forwards to n; forward.env = top.store; }
"#;

/// The specifications of the tests, as files have them.
pub static ALL: [&str; 38] = [
    r#"format 1; extension a for mini;
marking Sum /sum/; prefer Sum over Id;
concrete dbl : Factor ::= m : Sum o : Open x : Expr c : Close {
  forwards to paren("(", plus(x, "+", factor(paren("(", x, ")"))), ")"); }
"#,
    r#"format 1; host adj;
terminal A /a/; terminal X /x/; terminal P /p/; terminal Q /q/; terminal Y /y/;
nonterminal S; nonterminal N; nonterminal H; nonterminal G;
start S; extensible H; extensible G;
concrete sn : S ::= n : N x : X { }
concrete sh : S ::= p : P h : H { }
concrete sg : S ::= q : Q g : G { }
concrete na : N ::= a : A { }
concrete hx : H ::= x : X { }
concrete gy : G ::= y : Y { }
"#,
    AMB,
    r#"format 1; extension b for mini;
marking Sum /sum/; prefer Sum over Id;
concrete sqr : Factor ::= m : Sum o : Open x : Expr c : Close {
  forwards to paren("(", term(times(factor(paren("(", x, ")")), "*",
    paren("(", x, ")"))), ")"); }
"#,
    r#"format 1; extension barec for tinyc; marking L /l/; concrete one : T ::= m : L { }"#,
    CALC,
    CALC0,
    r#"format 1; extension comma for mini;
marking Dot /dot/; terminal Comma /,/; prefer Dot over Id;
concrete two : Factor ::= m : Dot o : Open x : Expr k : Comma y : Expr c : Close {
  forwards to paren("(", plus(x, "+", factor(paren("(", y, ")"))), ")"); }
"#,
    r#"format 1; extension count for tiny;
syn leaves : int; occurs leaves on E; occurs leaves on T;
aspect plus { top.leaves = @add(a.leaves, b.leaves); }
aspect term { top.leaves = t.leaves; }
aspect num { top.leaves = 1; }
"#,
    r#"format 1; extension countc for tinyc;
syn leaves : int; occurs leaves on E; occurs leaves on T;
aspect plus { top.leaves = @add(a.leaves, b.leaves); }
aspect term { top.leaves = t.leaves; }
aspect num { top.leaves = 1; }
"#,
    r#"format 1; host ctx;
ignore Space /[ ]+/; terminal X /x/;
nonterminal P; nonterminal N; start P; extensible N;
inh env : int; inh store : int; syn value : int;
occurs env on N; occurs store on N;
occurs value on P; occurs value on N needs { env, store };
concrete root : P ::= n : N { n.env = 1; n.store = 2; top.value = n.value; }
concrete leaf : N ::= x : X { top.value = @add(top.env, top.store); }
"#,
    r#"format 1; host ctx;
ignore Space /[ ]+/; terminal X /x/;
nonterminal P; nonterminal N; start P; extensible N;
inh env : int; inh store : int; syn value : int;
occurs env on N; occurs store on N;
occurs value on P; occurs value on N needs { env, store };
concrete root : P ::= n : N { n.env = 1; n.store = 2; top.value = n.value; }
concrete leaf : N ::= x : X { top.value = @add(top.env, top.store); }
forward on N needs { store };
"#,
    CYC,
    "format 1; extension dash for tiny; \
        marking D /d/; ignore Dash /-/; \
        concrete twin : T ::= m : D t : T { forwards to num(@to_text(@mul(2, t.value))); }",
    DBL,
    DIVS,
    r#"format 1; extension dup for tiny; marking D /d/;
concrete twin : T ::= m : D t : T {
  forwards to num(@to_text(@mul(2, t.value))); }
"#,
    r#"format 1; extension dupc for tinyc; marking D /d/;
concrete twin : T ::= m : D t : T {
  forwards to num(@to_text(@mul(2, t.value))); }
"#,
    r#"format 1; extension first for adj; marking M /m/;
concrete mg : G ::= m : M n : N h : H { forwards to gy("y"); }
"#,
    r#"format 1; extension fit for pq; marking M /m/;
concrete mg : G ::= m : M a : A x : X { forwards to gz("z"); }
"#,
    KW,
    KW0,
    LIST,
    r#"format 1; extension lone for tiny; marking L /l/;
concrete one : T ::= m : L { top.value = 1; }
"#,
    r#"format 1; extension lonec for tinyc; marking L /l/;
concrete one : T ::= m : L { top.value = 1; }
"#,
    LOOP,
    r#"format 1; extension minus for tiny; marking M /-/; concrete same : T ::= m : M t : T { forwards to t; }"#,
    r#"format 1; host one; terminal X /x/; nonterminal S; start S; concrete go : S ::= x : X { }"#,
    r#"format 1; extension power for mini;
marking Square /square/; prefer Square over Id;
concrete sq : Factor ::= m : Square o : Open e : Expr c : Close {
  forwards to paren("(", term(times(factor(paren("(", e, ")")), "*",
    paren("(", e, ")"))), ")"); }
"#,
    r#"format 1; host pq;
terminal P /p/; terminal Q /q/; terminal C /c/;
terminal X /x/; terminal Y /y/; terminal Z /z/;
nonterminal S; nonterminal A; nonterminal B; nonterminal G;
start S; extensible G;
concrete sa : S ::= p : P a : A x : X { }
concrete sb : S ::= p : P b : B y : Y { }
concrete sg : S ::= q : Q g : G { }
concrete ac : A ::= c : C { }
concrete bc : B ::= c : C { }
concrete gz : G ::= z : Z { }
"#,
    PTR,
    r#"format 1; extension repeat for mini;
marking Twice /twice/; prefer Twice over Id;
concrete again : Stmt ::= m : Twice s : Stmt {
  forwards to block("{", more(more(none(), s), s), "}"); }
"#,
    r#"format 1; extension second for adj; marking K /k/;
concrete kh : H ::= k : K y : Y { forwards to hx("x"); }
"#,
    r#"format 1; extension swap for ctx; marking M /m/;
concrete swap : N ::= m : M n : N { forwards to n; forward.env = top.store; }
"#,
    r#"format 1; host tiny;
ignore Space /[ ]+/; terminal Num /[0-9]+/; terminal Plus /\+/;
nonterminal E; nonterminal T; start E; extensible T;
syn value : int; occurs value on E; occurs value on T;
concrete plus : E ::= a : E p : Plus b : T { top.value = @add(a.value, b.value); }
concrete term : E ::= t : T { top.value = t.value; }
concrete num : T ::= n : Num { top.value = @to_int(n.lexeme); }
"#,
    TWINS,
    r#"format 1; extension unfit for pq; marking M /m/;
concrete mg : G ::= m : M a : A y : Y { forwards to gz("z"); }
"#,
    MINI,
];
