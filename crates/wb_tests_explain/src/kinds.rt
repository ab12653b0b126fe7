//! Is it said which part of an expression is of another kind than is wanted, and what can come in a term?

use crate::runs::{Row, each_ends_so};
use wb_explain::Status;

static ROWS: [Row; 8] = [
    // the whole of an equation
    (
        "explain check h",
        &[
            "format 1; host h;\nnonterminal E; syn v : int; occurs v on E;\nabstract p : E ::= { top.v = true; }",
        ],
        Status::SpecRefused,
        "refused h Y1 at 82\n\n",
        "\n\nh, line 3, column 30:\n\n    abstract p : E ::= { top.v = true; }\n                                 ^\n\nWhat is here is of another kind than is wanted here:\n\n    wanted: an int, as the value of this equation\n    found:  a bool\n\nThe value of an equation is of the kind with which its attribute is declared. That\nof a local is a tree of the nonterminal that the local is declared with, and what\nis forwarded to is a tree of the production's left side.\n",
    ),
    // an argument of a production, with a way from the one nonterminal to the other
    (
        "explain check h",
        &[
            "format 1; host h;\nnonterminal E; nonterminal F; nonterminal G;\nabstract f : F ::= e : E { }\nabstract g : G ::= f : F { }\nabstract p : E ::= x : G { }\nabstract q : E ::= e : E { forwards to p(e); }",
        ],
        Status::SpecRefused,
        "refused h Y1 at 177\n",
        "\nh, line 6, column 28:\n\n    abstract q : E ::= e : E { forwards to p(e); }\n                               ^\n\nIn the equation at this place some expression is of another kind than its place\nasks for: an attribute of kind int wants an int, an argument of an operation the\nkind that the operation takes, a child of a production a tree of the nonterminal\nthat the production has there, and both branches of an if one kind.\n\nWhere calls are nested, it may be any of them. Give each call a local of the\nnonterminal that it makes: each local is an equation with a place of its own.\n\nh, line 6, column 42:\n\n    abstract q : E ::= e : E { forwards to p(e); }\n                                             ^\n\nWhat is here is of another kind than is wanted here:\n\n    wanted: a tree of G, as argument 1 of p\n    found:  a tree of E\n\nWritten around it, from the outside in, this makes what is wanted:\n\n    g makes a tree of G of a tree of F\n    f makes a tree of F of a tree of E\n\nTo paste, with what is there in the place of the dots:\n\n    g(f(..))\n\nThe arguments of p:\n\n    1: x, a tree of G\n",
    ),
    // the first argument of a nested call that is wrong, after others that are right, and an operation that makes the one of the other
    (
        "explain check h",
        &[
            "format 1; host h;\nnonterminal E; syn v : int; occurs v on E;\nabstract p : E ::= {\n  top.v = @add(@neg(1), @length(@concat(\"a\", @length(\"b\"))));\n}",
        ],
        Status::SpecRefused,
        "refused h Y1 at 84\n\n",
        "\n\nh, line 4, column 46:\n\n      top.v = @add(@neg(1), @length(@concat(\"a\", @length(\"b\"))));\n                                                 ^\n\nWhat is here is of another kind than is wanted here:\n\n    wanted: a text, as argument 2 of @concat\n    found:  an int\n\nWritten around it, from the outside in, this makes what is wanted:\n\n    @to_text makes a text of an int\n\nTo paste, with what is there in the place of the dots:\n\n    @to_text(..)\n\nA text is written in quotes, or it is that of a word: LABEL.lexeme, where LABEL is a\nchild that is a word.\n\nThe arguments of @concat:\n\n    1: a text\n    2: a text\n",
    ),
    // what is after else
    (
        "explain check h",
        &[
            "format 1; host h;\nnonterminal E; syn v : int; occurs v on E;\nabstract p : E ::= { top.v = if @eq(1, 0) then 1 else true; }",
        ],
        Status::SpecRefused,
        "refused h Y1 at 82\n\n",
        "\n\nh, line 3, column 55:\n\n    abstract p : E ::= { top.v = if @eq(1, 0) then 1 else true; }\n                                                          ^\n\nWhat is here is of another kind than is wanted here:\n\n    wanted: an int, as what is after else, since what is after then is one\n    found:  a bool\n",
    ),
    // a tree whose attribute was meant
    (
        "explain check h",
        &[
            "format 1; host h;\nnonterminal E; syn v : int; occurs v on E;\nabstract p : E ::= e : E { top.v = @neg(e); }",
        ],
        Status::SpecRefused,
        "refused h Y1 at 88\n\n",
        "\n\nh, line 3, column 41:\n\n    abstract p : E ::= e : E { top.v = @neg(e); }\n                                            ^\n\nWhat is here is of another kind than is wanted here:\n\n    wanted: an int, as argument 1 of @neg\n    found:  a tree of E\n\nIf an attribute of it is meant, these are of the kind that is wanted:\n\n    .v\n\nThe arguments of @neg:\n\n    1: an int\n",
    ),
    // a production of an extension, in the extension's file
    (
        "explain certify h t",
        &[
            "format 1; host h;\nterminal X /x/; nonterminal S; start S; extensible S;\nconcrete go : S ::= x : X { }",
            "format 1; extension e for h;\nmarking M /m/;\nnonterminal N;\nabstract n : N ::= s : S { }\nconcrete s : S ::= m : M { forwards to go(n(m.lexeme)); }",
        ],
        Status::SpecRefused,
        "refused t Y1 at ",
        "\n\nt, line 5, column 45:\n\n    concrete s : S ::= m : M { forwards to go(n(m.lexeme)); }\n                                                ^\n\nWhat is here is of another kind than is wanted here:\n\n    wanted: a tree of S, as argument 1 of e:n\n    found:  a text\n\nWritten around it, from the outside in, this makes what is wanted:\n\n    go makes a tree of S of a text\n\nTo paste, with what is there in the place of the dots:\n\n    go(..)\n\nThe arguments of e:n:\n\n    1: s, a tree of S\n",
    ),
    // a number of arguments
    (
        "explain check h",
        &[
            "format 1; host h;\nnonterminal E; syn v : int; occurs v on E;\nabstract p : E ::= { top.v = @add(1, @neg(1, 2)); }",
        ],
        Status::SpecRefused,
        "refused h Y2 at 82\n\n",
        "\n\nh, line 3, column 38:\n\n    abstract p : E ::= { top.v = @add(1, @neg(1, 2)); }\n                                         ^\n\nHere is another number of arguments than is wanted:\n\n    @neg takes 1, and here are 2\n\nThe arguments of @neg:\n\n    1: an int\n",
    ),
    // in a term that ends too early
    (
        "explain value h t v",
        &[
            "format 1; host h; terminal X /x/; nonterminal S; start S; syn v : int; occurs v on S;\nconcrete x : S ::= x : X { top.v = 1; }",
            "x(\"x\"",
        ],
        Status::TermRefused,
        "refused t T1 at 5\n\n",
        "\n\nWhat can come there: ')', ','.\n",
    ),
];

#[test]
fn each_part_of_another_kind_is_shown(rt: HostRuntime) {
    each_ends_so(&rt, &ROWS);
}
