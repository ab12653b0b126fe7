//! Are all equations that are missing listed, and is it told which reads lead to what isn't in a flow type, or round in a circle?

use crate::runs::{Row, each_ends_so};
use wb_explain::Status;

static ATTRIBUTES: [Row; 9] = [
    // each equation of a left side that is missing, and none of a production that forwards
    (
        "explain check h",
        &[
            "format 1; host h; terminal X /x/; nonterminal S; start S;\nsyn s : int; syn t : text; occurs s on S; occurs t on S;\nconcrete go : S ::= x : X { }\nabstract b : S ::= { top.t = \"x\"; }\nabstract c : S ::= { forwards to b(); }\n",
        ],
        Status::NotCertified,
        "refused h A1 go ",
        "\nEvery equation of a left side that is missing, to paste, with an expression in\nthe place of the dots. After it come its kind and where the production is.\n\n    aspect go { top.s = ..; }  // int, in line 3\n    aspect go { top.t = ..; }  // text, in line 3\n    aspect b { top.s = ..; }  // int, in line 4\n",
    ),
    // aspects of an extension, on productions of the host
    (
        "explain certify h t",
        &[
            "format 1; host calc;\nterminal Number /[0-9]+/; terminal Plus /\\+/;\nnonterminal Sum; nonterminal Factor; start Sum; extensible Factor;\nsyn value : int; occurs value on Sum; occurs value on Factor;\nconcrete add : Sum ::= a : Sum sign : Plus b : Factor { top.value = @add(a.value, b.value); }\nconcrete factor : Sum ::= a : Factor { top.value = a.value; }\nconcrete number : Factor ::= digits : Number { top.value = @to_int(digits.lexeme); }\n",
            "format 1; extension e for calc;\nsyn depth : int; occurs depth on Sum; occurs depth on Factor;\naspect number { top.depth = 1; }\n",
        ],
        Status::NotCertified,
        "refused t A1 add e:depth\n",
        "\nEvery equation of a left side that is missing, to paste, with an expression in\nthe place of the dots. After it come its kind and where the production is.\n\n    aspect add { top.depth = ..; }  // int, in line 5 of the host's file\n    aspect factor { top.depth = ..; }  // int, in line 6 of the host's file\n",
    ),
    // each attribute that isn't handed down, once, with what is read that needs it
    (
        "explain check h",
        &[
            "format 1; host h; terminal X /x/; nonterminal S; start S;\nnonterminal N; inh i : int; inh j : text; syn s : int;\noccurs i on N; occurs j on N; occurs s on S; occurs s on N needs { i, j };\nconcrete go : S ::= n : N { top.s = n.s; }\nconcrete two : S ::= x : X n : N {\n  n.i = 1;\n  top.s = @add(n.s, n.s);\n}\nconcrete leaf : N ::= y : X { top.s = @add(top.i, @length(top.j)); }\n",
        ],
        Status::NotCertified,
        "refused h A2 go n.",
        "\nEvery attribute that has to be handed down and isn't, to paste, with an expression\nin the place of the dots. After it come its kind and what is read that needs it.\n\n    aspect go { n.i = ..; }  // int, for n.s in line 4\n    aspect go { n.j = ..; }  // text, for n.s in line 4\n    aspect two { n.j = ..; }  // text, for n.s in line 7\n",
    ),
    // the chain of reads, and the line that mends it
    (
        "explain check h",
        &[
            "format 1; host h; terminal X /x/; nonterminal S; start S;\nnonterminal T; nonterminal U; inh i : int; syn s : int;\noccurs s on S; occurs i on T; occurs s on T; occurs i on U; occurs s on U needs { i };\nconcrete go : S ::= t : T { t.i = 1; top.s = t.s; }\nconcrete mid : T ::= u : U { top.s = u.s; u.i = top.i; }\nconcrete low : U ::= x : X { top.s = top.i; }\n",
        ],
        Status::NotCertified,
        "refused h A3 mid s reads i\n",
        "\nStep by step:\n\ntop.s reads u.s:\n\nh, line 5, column 30:\n\n    concrete mid : T ::= u : U { top.s = u.s; u.i = top.i; }\n                                 ^\n\nu.s needs u.i, as the  needs { .. }  of its  occurs  line says.\n\nu.i reads top.i:\n\nh, line 5, column 43:\n\n    concrete mid : T ::= u : U { top.s = u.s; u.i = top.i; }\n                                              ^\n\nTo paste, in the place of what declares this  occurs , if it may need that:\n\n    occurs s on T needs { i };\n",
    ),
    // the tree to which a production forwards
    (
        "explain check h",
        &[
            "format 1; host h; terminal X /x/; nonterminal S; start S;\nnonterminal T; inh i : int; syn s : int; occurs s on S; occurs i on T;\nconcrete go : S ::= t : T { t.i = 1; top.s = 1; }\nconcrete leaf : T ::= x : X { }\nabstract two : T ::= { forwards to if @eq(top.i, 1) then two() else two(); }\n",
        ],
        Status::NotCertified,
        "refused h A3 two forward reads i\n",
        "\nStep by step:\n\nforward reads top.i:\n\nh, line 5, column 24:\n\n    abstract two : T ::= { forwards to if @eq(top.i, 1) then two() else two(); }\n                           ^\n\nTo paste, for its  forward on , if it may need that:\n\n    forward on T needs { i };\n",
    ),
    // an equation for each step of a circle
    (
        "explain check h",
        &[
            "format 1; host h; terminal X /x/; nonterminal S; start S;\nnonterminal T; inh i : int; syn s : int; occurs s on S; occurs i on T; occurs s on T needs { i };\nconcrete go : S ::= t : T { t.i = t.s; top.s = t.s; }\nconcrete leaf : T ::= x : X { top.s = top.i; }\n",
        ],
        Status::NotCertified,
        "refused h A4 go: t.",
        "One of these equations has to read something else.\n",
    ),
    // a local that needs itself
    (
        "explain check h",
        &[
            "format 1; host h; terminal X /x/; nonterminal S; start S; syn s : int; occurs s on S;\nconcrete go : S ::= x : X { top.s = 1; local t : S = t; }\n",
        ],
        Status::NotCertified,
        "refused h A4 go: t\n",
        "\nStep by step:\n\nt reads t:\n\nh, line 2, column 40:\n\n    concrete go : S ::= x : X { top.s = 1; local t : S = t; }\n                                           ^\n\nOne of these equations has to read something else.\n",
    ),
    // each flow type that lacks what a forward's has
    (
        "explain check h",
        &[
            "format 1; host h; terminal X /x/; nonterminal S; start S;\nnonterminal N; inh i : int; inh j : int; syn s : int; syn t : int; occurs i on N; occurs j on N; occurs s on S;\noccurs s on N needs { j }; occurs t on N; forward on N needs { i };\nconcrete go : S ::= n : N { n.i = 1; n.j = 1; top.s = n.s; }\nconcrete leaf : N ::= x : X { top.s = top.i; top.t = 1; }\n",
        ],
        Status::NotCertified,
        "refused h A6 N s lacks i\n",
        "\nEvery  occurs  whose  needs  lacks what a  forward on  has, with all that it has to\nhave, to paste in the place of what is there:\n\n    occurs s on N needs { i, j };\n    occurs t on N needs { i };\n",
    ),
    // what an equation for a forwarded tree reads
    (
        "explain certify h t",
        &[
            "format 1; host h; terminal X /x/; nonterminal S; start S;\nnonterminal N; extensible N; inh i : int; inh j : int; syn s : int;\noccurs i on N; occurs j on N; occurs s on S; occurs s on N needs { i, j };\nconcrete go : S ::= n : N { n.i = 1; n.j = 2; top.s = n.s; }\nconcrete leaf : N ::= x : X { top.s = @add(top.i, top.j); }\n",
            "format 1; extension e for h;\nmarking M /m/;\nconcrete a : N ::= m : M n : N { forwards to n; forward.i = top.j; }\n",
        ],
        Status::NotCertified,
        "refused t E8 e:a forward.i reads j\n",
        "\nStep by step:\n\nforward.i reads top.j:\n\nt, line 3, column 49:\n\n    concrete a : N ::= m : M n : N { forwards to n; forward.i = top.j; }\n                                                    ^\n\nTo paste into the host, for its  forward on , if it may need that:\n\n    forward on N needs { j };\n",
    ),
];

#[test]
fn equations_that_are_missing_and_reads_are_shown(rt: HostRuntime) {
    each_ends_so(&rt, &ATTRIBUTES);
}
