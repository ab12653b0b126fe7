//! The hosts whose terms are evaluated.

// Arithmetic, with productions that forward to sums.
pub(crate) const NUMBERS: &str = "format 1; host calc; \
    terminal Num /[0-9]+/; \
    nonterminal E; start E; syn value : int; occurs value on E; \
    concrete num : E ::= n : Num { top.value = @to_int(n.lexeme); } \
    abstract lit : E ::= n : int { top.value = n; } \
    abstract add : E ::= a : E b : E { top.value = @add(a.value, b.value); } \
    abstract div : E ::= a : E b : E { top.value = @div(a.value, b.value); } \
    abstract twice : E ::= a : E { top.value = @add(a.value, a.value); } \
    abstract first : E ::= a : E b : E { top.value = a.value; } \
    abstract pick : E ::= c : E a : E b : E { top.value = if @eq(c.value, 0) then b.value else a.value; } \
    abstract both : E ::= a : E { top.value = @add(@div(a.value, 0), @add(9223372036854775807, a.value)); } \
    abstract other : E ::= a : E { top.value = @add(@add(9223372036854775807, a.value), @div(a.value, 0)); } \
    abstract doubled : E ::= a : E { forwards to add(a, a); } \
    abstract seven : E ::= a : E { forwards to add(a, a); top.value = 7; } \
    abstract next : E ::= a : E { forwards to add(a, a); top.value = @add(forward.value, 1); } \
    abstract nested : E ::= a : E { forwards to doubled(doubled(a)); }";

// A number that is handed down, changed or copied.
pub(crate) const HANDED_DOWN: &str = "format 1; host down; \
    terminal X /x/; \
    nonterminal P; nonterminal N; start P; inh i : int; syn v : int; occurs i on N; occurs v on N needs { i }; occurs v on P; \
    concrete root : P ::= n : N { n.i = 3; top.v = n.v; } \
    concrete leaf : N ::= x : X { top.v = top.i; } \
    abstract again : N ::= n : N { n.i = @add(top.i, 1); top.v = n.v; } \
    abstract copied : N ::= n : N { forwards to n; } \
    abstract changed : N ::= n : N { forwards to n; forward.i = @add(top.i, 10); } \
    abstract through : N ::= { local t : N = leaf(\"x\"); t.i = 5; top.v = t.v; } \
    abstract sum : N ::= n : N { local t : N = n; t.i = 1; n.i = 2; top.v = @add(t.v, n.v); }";

// Two numbers that are handed down, of which a production changes one where it forwards.
pub(crate) const TWO_INHERITED: &str = "format 1; host ctx; \
    ignore Space /[ ]+/; terminal X /x/; \
    nonterminal P; nonterminal N; start P; extensible N; \
    inh env : int; inh store : int; syn value : int; \
    occurs env on N; occurs store on N; occurs value on P; occurs value on N needs { env, store }; \
    concrete root : P ::= n : N { n.env = 1; n.store = 2; top.value = n.value; } \
    concrete leaf : N ::= x : X { top.value = @add(top.env, top.store); } \
    abstract swap : N ::= n : N { forwards to n; forward.env = top.store; } \
    forward on N needs { store };";

// A production that forwards to itself.
pub(crate) const ENDLESS: &str = "format 1; host loop; \
    terminal X /x/; \
    nonterminal S; start S; syn v : int; occurs v on S; \
    concrete go : S ::= x : X { forwards to go(x.lexeme); }";

// A small language with statements, expressions and environments.
pub(crate) const STATEMENTS: &str = "format 1; host mini; \
    ignore Space /[ \\n]+/; terminal Let /let/; terminal Print /print/; terminal Id /[a-z]+/; terminal Num /[0-9]+/; \
    terminal Eq /=/; terminal Semi /;/; terminal Begin /\\{/; terminal End /\\}/; terminal Plus /\\+/; terminal Times /\\*/; \
    terminal Open /\\(/; terminal Close /\\)/; \
    nonterminal Program; nonterminal Stmts; nonterminal Stmt; nonterminal Expr; nonterminal Term; nonterminal Factor; \
    nonterminal Env; start Program; extensible Stmt; extensible Factor; \
    syn out : text; syn defs : Env; syn value : int; syn found : int; inh env : Env; inh key : text; \
    occurs out on Program; occurs env on Stmts; occurs defs on Stmts needs { env }; occurs out on Stmts needs { env }; \
    occurs env on Stmt; occurs defs on Stmt needs { env }; occurs out on Stmt needs { env }; occurs env on Expr; \
    occurs value on Expr needs { env }; occurs env on Term; occurs value on Term needs { env }; occurs env on Factor; \
    occurs value on Factor needs { env }; occurs key on Env; occurs found on Env needs { key }; \
    abstract empty : Env ::= { top.found = 0; } \
    abstract bind : Env ::= n : text v : int r : Env { r.key = top.key; top.found = if @same(top.key, n) then v else r.found; } \
    concrete prog : Program ::= s : Stmts { s.env = empty(); top.out = s.out; } \
    concrete none : Stmts ::= { top.defs = top.env; top.out = \"\"; } \
    concrete more : Stmts ::= a : Stmts b : Stmt { \
      a.env = top.env; b.env = a.defs; top.defs = b.defs; top.out = @concat(a.out, b.out); \
    } \
    concrete let : Stmt ::= k : Let x : Id e : Eq v : Expr z : Semi { \
      v.env = top.env; top.out = \"\"; top.defs = bind(x.lexeme, v.value, top.env); \
    } \
    concrete print : Stmt ::= k : Print v : Expr z : Semi { \
      v.env = top.env; top.defs = top.env; top.out = @concat(@to_text(v.value), \"\\n\"); \
    } \
    concrete block : Stmt ::= o : Begin s : Stmts c : End { s.env = top.env; top.defs = top.env; top.out = s.out; } \
    concrete plus : Expr ::= a : Expr p : Plus b : Term { a.env = top.env; b.env = top.env; top.value = @add(a.value, b.value); } \
    concrete term : Expr ::= t : Term { t.env = top.env; top.value = t.value; } \
    concrete times : Term ::= a : Term m : Times b : Factor { \
      a.env = top.env; b.env = top.env; top.value = @mul(a.value, b.value); \
    } \
    concrete factor : Term ::= f : Factor { f.env = top.env; top.value = f.value; } \
    concrete num : Factor ::= n : Num { top.value = @to_int(n.lexeme); } \
    concrete var : Factor ::= x : Id { local e : Env = top.env; e.key = x.lexeme; top.value = e.found; } \
    concrete paren : Factor ::= o : Open e : Expr c : Close { e.env = top.env; top.value = e.value; }";
