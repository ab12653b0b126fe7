//! Hosts that several tests read.

// A small language with statements, expressions and environments.
pub(crate) static STATEMENTS: &str = "format 1; host mini; \
    ignore Space /[ \\n]+/; terminal Let /let/; terminal Print /print/; terminal Id /[a-z]+/; terminal Num /[0-9]+/; \
    terminal Eq /=/; terminal Semi /;/; terminal Begin /\\{/; terminal End /\\}/; terminal Plus /\\+/; terminal Times /\\*/; \
    terminal Open /\\(/; terminal Close /\\)/; \
    nonterminal Program; nonterminal Stmts; nonterminal Stmt; nonterminal Expr; nonterminal Term; nonterminal Factor; \
    nonterminal Env; start Program; extensible Stmt; extensible Factor; \
    syn out : text; syn defs : Env; syn value : int; syn found : int; inh env : Env; inh key : text; \
    occurs out on Program; occurs env on Stmts; occurs defs on Stmts needs { env }; occurs out on Stmts needs { env }; \
    occurs env on Stmt; occurs defs on Stmt needs { env }; occurs out on Stmt needs { env }; occurs env on Expr; \
    occurs value on Expr needs { env }; occurs env on Term; occurs value on Term needs { env }; occurs env on Factor; \
    occurs value on Factor needs { env }; occurs key on Env; occurs found on Env needs { key }; \
    abstract empty : Env ::= { top.found = 0; } \
    abstract bind : Env ::= n : text v : int r : Env { r.key = top.key; top.found = if @same(top.key, n) then v else r.found; } \
    concrete prog : Program ::= s : Stmts { s.env = empty(); top.out = s.out; } \
    concrete none : Stmts ::= { top.defs = top.env; top.out = \"\"; } \
    concrete more : Stmts ::= a : Stmts b : Stmt { \
      a.env = top.env; b.env = a.defs; top.defs = b.defs; top.out = @concat(a.out, b.out); \
    } \
    concrete let : Stmt ::= k : Let x : Id e : Eq v : Expr z : Semi { \
      v.env = top.env; top.out = \"\"; top.defs = bind(x.lexeme, v.value, top.env); \
    } \
    concrete print : Stmt ::= k : Print v : Expr z : Semi { \
      v.env = top.env; top.defs = top.env; top.out = @concat(@to_text(v.value), \"\\n\"); \
    } \
    concrete block : Stmt ::= o : Begin s : Stmts c : End { s.env = top.env; top.defs = top.env; top.out = s.out; } \
    concrete plus : Expr ::= a : Expr p : Plus b : Term { a.env = top.env; b.env = top.env; top.value = @add(a.value, b.value); } \
    concrete term : Expr ::= t : Term { t.env = top.env; top.value = t.value; } \
    concrete times : Term ::= a : Term m : Times b : Factor { \
      a.env = top.env; b.env = top.env; top.value = @mul(a.value, b.value); \
    } \
    concrete factor : Term ::= f : Factor { f.env = top.env; top.value = f.value; } \
    concrete num : Factor ::= n : Num { top.value = @to_int(n.lexeme); } \
    concrete var : Factor ::= x : Id { local e : Env = top.env; e.key = x.lexeme; top.value = e.found; } \
    concrete paren : Factor ::= o : Open e : Expr c : Close { e.env = top.env; top.value = e.value; }";

// Sums of numbers.
pub(crate) static SUMS: &str = "format 1; host tiny; \
    ignore Space /[ ]+/; terminal Num /[0-9]+/; terminal Plus /\\+/; \
    nonterminal E; nonterminal T; start E; extensible T; syn value : int; occurs value on E; occurs value on T; \
    concrete plus : E ::= a : E p : Plus b : T { top.value = @add(a.value, b.value); } \
    concrete term : E ::= t : T { top.value = t.value; } \
    concrete num : T ::= n : Num { top.value = @to_int(n.lexeme); }";

// Two extensible nonterminals.
pub(crate) static TWO_EXTENSIBLE: &str = "format 1; host adj; \
    terminal A /a/; terminal X /x/; terminal P /p/; terminal Q /q/; terminal Y /y/; \
    nonterminal S; nonterminal N; nonterminal H; nonterminal G; start S; extensible H; extensible G; \
    concrete sn : S ::= n : N x : X { } \
    concrete sh : S ::= p : P h : H { } \
    concrete sg : S ::= q : Q g : G { } \
    concrete na : N ::= a : A { } \
    concrete hx : H ::= x : X { } \
    concrete gy : G ::= y : Y { }";

// Two sentences that begin alike.
pub(crate) static ALIKE: &str = "format 1; host pq; \
    terminal P /p/; terminal Q /q/; terminal C /c/; terminal X /x/; terminal Y /y/; terminal Z /z/; \
    nonterminal S; nonterminal A; nonterminal B; nonterminal G; start S; extensible G; \
    concrete sa : S ::= p : P a : A x : X { } \
    concrete sb : S ::= p : P b : B y : Y { } \
    concrete sg : S ::= q : Q g : G { } \
    concrete ac : A ::= c : C { } \
    concrete bc : B ::= c : C { } \
    concrete gz : G ::= z : Z { }";

// A nonterminal that inherits two attributes.
pub(crate) static TWO_INHERITED: &str = "format 1; host ctx; \
    ignore Space /[ ]+/; terminal X /x/; \
    nonterminal P; nonterminal N; start P; extensible N; \
    inh env : int; inh store : int; syn value : int; \
    occurs env on N; occurs store on N; occurs value on P; occurs value on N needs { env, store }; \
    concrete root : P ::= n : N { n.env = 1; n.store = 2; top.value = n.value; } \
    concrete leaf : N ::= x : X { top.value = @add(top.env, top.store); }";

// The same, with the flow type of its forward.
pub(crate) static FORWARD_NEEDS: &str = "format 1; host ctx; \
    ignore Space /[ ]+/; terminal X /x/; \
    nonterminal P; nonterminal N; start P; extensible N; \
    inh env : int; inh store : int; syn value : int; \
    occurs env on N; occurs store on N; occurs value on P; occurs value on N needs { env, store }; \
    concrete root : P ::= n : N { n.env = 1; n.store = 2; top.value = n.value; } \
    concrete leaf : N ::= x : X { top.value = @add(top.env, top.store); } \
    forward on N needs { store };";
