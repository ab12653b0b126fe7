//! Is said of a name where it is, what is wrong there, and what mends it?
//!
//! Each row has all that is said of the name; what is said before that is left out.

use crate::runs::{Row, each_ends_so};
use wb_explain::Status;

const CALC: &str =
    "format 1; host calc;\nignore Space /[ \\n]+/;\nterminal Number /[0-9]+/; terminal Plus /\\+/; terminal Open /\\(/; terminal Close /\\)/;\nnonterminal Sum; nonterminal Factor;\nstart Sum; extensible Factor;\nsyn value : int; occurs value on Sum; occurs value on Factor;\nconcrete add : Sum ::= a : Sum sign : Plus b : Factor { top.value = @add(a.value, b.value); }\nconcrete factor : Sum ::= a : Factor { top.value = a.value; }\nconcrete number : Factor ::= digits : Number { top.value = @to_int(digits.lexeme); }\nconcrete group : Factor ::= o : Open inner : Sum c : Close { top.value = inner.value; }\n";

static ROWS: [Row; 15] = [
    // a nonterminal that is misspelt
    (
        "explain check h",
        &[
            "format 1; host h;\nnonterminal Product; syn v : int; occurs v on Product;\nabstract p : Product ::= a : Prodct { top.v = a.v; }\n",
        ],
        Status::SpecRefused,
        "refused h N1 Prodct\n",
        "\n\nProdct isn't declared. Here a nonterminal is wanted, or int, bool or text:\n\nh, line 3, column 30:\n\n    abstract p : Product ::= a : Prodct { top.v = a.v; }\n                                 ^\n\nPerhaps Product is meant, which is in line 2.\n\nWrite the name that is meant, or declare this one:\n\n    nonterminal Prodct;\n",
    ),
    // an attribute that is misspelt, two letters in the wrong order
    (
        "explain check h",
        &[
            "format 1; host h;\nnonterminal E; syn value : int; occurs value on E;\nabstract p : E ::= a : E { top.value = a.vlaue; }\n",
        ],
        Status::SpecRefused,
        "refused h N1 vlaue\n",
        "\n\nvlaue isn't declared. Here a synthesized attribute is wanted:\n\nh, line 3, column 42:\n\n    abstract p : E ::= a : E { top.value = a.vlaue; }\n                                             ^\n\nPerhaps value is meant, which is in line 2.\n\nWrite the name that is meant, or declare this one.\n",
    ),
    // an attribute that doesn't occur there
    (
        "explain check h",
        &[
            "format 1; host h;\nnonterminal E; nonterminal F; syn v : int; occurs v on E;\nabstract p : E ::= f : F { top.v = f.v; }\n",
        ],
        Status::SpecRefused,
        "refused h N1 v\n",
        "\n\nv doesn't occur on F, the nonterminal of f:\n\nh, line 3, column 38:\n\n    abstract p : E ::= f : F { top.v = f.v; }\n                                         ^\n\nIt occurs on E.\n\nWhere it is to, write:\n\n    occurs v on F;\n",
    ),
    // an operation that isn't there
    (
        "explain check h",
        &[
            "format 1; host h;\nnonterminal E; syn v : int; occurs v on E;\nabstract p : E ::= { top.v = @ngg(1); }\n",
        ],
        Status::SpecRefused,
        "refused h N1 ngg\n",
        "\n\nThere is no operation @ngg:\n\nh, line 3, column 31:\n\n    abstract p : E ::= { top.v = @ngg(1); }\n                                  ^\n\nPerhaps @neg is meant.\n\nThe operations: add, sub, mul, div, rem, neg, eq, less, same, not, and, or,\nconcat, length, to_text, to_int.\n",
    ),
    // a label that the production doesn't have
    (
        "explain check h",
        &[
            "format 1; host h;\nnonterminal E; syn v : int; occurs v on E;\nabstract p : E ::= a : E { top.v = q; }\n",
        ],
        Status::SpecRefused,
        "refused h N1 q\n",
        "\n\nThe production p has no child and no local q:\n\nh, line 3, column 36:\n\n    abstract p : E ::= a : E { top.v = q; }\n                                       ^\n\nIts labels: a.\n",
    ),
    // a forwarded tree of a production that doesn't forward
    (
        "explain check h",
        &[
            "format 1; host h;\nnonterminal E; syn v : int; occurs v on E;\nabstract p : E ::= { top.v = forward.v; }\n",
        ],
        Status::SpecRefused,
        "refused h N1 v\n",
        "\n\nThe production p doesn't forward, so no tree stands for it that has v:\n\nh, line 3, column 38:\n\n    abstract p : E ::= { top.v = forward.v; }\n                                         ^\n\nForward in the production itself, by an equation that begins with  forwards to , or leave\nthis out.\n",
    ),
    // a label that is there twice, in a file that has the name as a label elsewhere
    (
        "explain check h",
        &[
            "format 1; host h;\nnonterminal E;\nabstract one : E ::= a : E { }\nabstract both : E ::= a : E a : E { }\n",
        ],
        Status::SpecRefused,
        "refused h N2 a\n",
        "\n\nTwo children or locals of the production both have the label a. First here:\n\nh, line 4, column 23:\n\n    abstract both : E ::= a : E a : E { }\n                          ^\n\nAnd here:\n\nh, line 4, column 29:\n\n    abstract both : E ::= a : E a : E { }\n                                ^\n\nGive one of them another label.\n",
    ),
    // an equation that the host has
    (
        "explain certify h t",
        &[
            CALC,
            "format 1; extension e for calc;\naspect add { top.value = 1; }\n",
        ],
        Status::SpecRefused,
        "refused t N2 value\n",
        "\n\nThe production add has two equations for top.value. The host has it:\n\nthe host, line 7, column 61:\n\n    concrete add : Sum ::= a : Sum sign : Plus b : Factor { top.value = @add(a.value, b.value); }\n                                                                ^\n\nAnd here:\n\nt, line 2, column 18:\n\n    aspect add { top.value = 1; }\n                     ^\n\nLeave one of them out.\n",
    ),
    // a preference of the host's
    (
        "explain certify h t",
        &[
            CALC,
            "format 1; extension e for calc;\nprefer Number over Plus;\n",
        ],
        Status::SpecRefused,
        "refused t N3 Number\n",
        "\n\nOnly the host prefers one terminal of the host to another:\n\nt, line 2, column 8:\n\n    prefer Number over Plus;\n           ^\n\nThe host declares Number in its line 3.\n\nThe host declares Plus in its line 3.\n\nPrefer a terminal of the extension, or change the host.\n",
    ),
    // an equation for a child's own attribute
    (
        "explain check h",
        &[
            "format 1; host h;\nnonterminal E; syn v : int; occurs v on E;\nabstract p : E ::= a : E { a.v = 1; top.v = a.v; }\n",
        ],
        Status::SpecRefused,
        "refused h N4 v\n",
        "\n\nv is a synthesized attribute (line 2), and here an inherited attribute is wanted:\n\nh, line 3, column 30:\n\n    abstract p : E ::= a : E { a.v = 1; top.v = a.v; }\n                                 ^\n\nA production gives inherited attributes to its children and locals. A synthesized one is\ngiven by the production of the child itself, by  top. . Leave the equation out, or declare the\nattribute by  inh .\n",
    ),
    // a word as a value
    (
        "explain check h",
        &[
            "format 1; host h;\nterminal Number /[0-9]+/; nonterminal E; syn v : int; occurs v on E;\nconcrete number : E ::= digits : Number { top.v = @to_int(digits); }\n",
        ],
        Status::SpecRefused,
        "refused h N4 digits\n",
        "\n\nIn the production number the label digits is of Number, a terminal (line 2).\nA word is no value by itself; its text is one:\n\nh, line 3, column 59:\n\n    concrete number : E ::= digits : Number { top.v = @to_int(digits); }\n                                                              ^\n\nWrite:\n\n    digits.lexeme\n",
    ),
    // the host twice
    (
        "explain certify h h",
        &[
            "format 1; host h;\nterminal X /x/; nonterminal S; start S;\nconcrete go : S ::= x : X { }\n",
        ],
        Status::SpecRefused,
        "refused h N4 h\n",
        "\n\nThis file is a host, and an extension is wanted. The host's file comes first, and those of\nextensions after it:\n\nh, line 1, column 16:\n\n    format 1; host h;\n                   ^\n",
    ),
    // a marker that comes too late
    (
        "explain certify h t",
        &[
            CALC,
            "format 1; extension e for calc;\nmarking D /d/;\nconcrete a : Factor ::= n : Number m : D { forwards to number(\"1\"); }\n",
        ],
        Status::NotCertified,
        "refused t E1 e:a\n",
        "\n\nThe production a is on Factor, a nonterminal of the host, and its first child is no marker:\n\nt, line 3, column 10:\n\n    concrete a : Factor ::= n : Number m : D { forwards to number(\"1\"); }\n             ^\n\nIts child m is the marker D, which comes too late there.\n\nThe markers of the file: D.\n\nMake a marker the first child. Each marker begins one production alone.\n",
    ),
    // a marker that begins nothing
    (
        "explain certify h t",
        &[CALC, "format 1; extension e for calc;\nmarking D /d/;\n"],
        Status::NotCertified,
        "refused t E2 e:D\n",
        "\n\nNo production has this marker:\n\nt, line 2, column 9:\n\n    marking D /d/;\n            ^\n\nExtensible in the host: Factor.\n\nWrite a production on one of these nonterminals whose first child is the marker, or leave the\nmarker out.\n",
    ),
    // a production on a nonterminal that isn't extensible
    (
        "explain certify h t",
        &[
            CALC,
            "format 1; extension e for calc;\nmarking D /d/;\nconcrete a : Sum ::= m : D { forwards to factor(number(\"1\")); }\n",
        ],
        Status::NotCertified,
        "refused t E3 e:a\n",
        "\n\nThe production a begins with a marker and is on Sum, which the host doesn't make\nextensible:\n\nt, line 3, column 10:\n\n    concrete a : Sum ::= m : D { forwards to factor(number(\"1\")); }\n             ^\n\nExtensible in the host: Factor.\n\nWrite the production on one of these, or make this one extensible in the host:\n\n    extensible Sum;\n",
    ),
];

#[test]
fn each_name_is_shown_with_what_is_wrong_there(rt: HostRuntime) {
    each_ends_so(&rt, &ROWS);
}
