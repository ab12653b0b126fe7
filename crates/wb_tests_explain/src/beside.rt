//! Is it shown which production of an extension has something new after a part of the host, and what the host has there?

use crate::runs::{Row, each_ends_so};
use wb_explain::Status;

static NEW: [Row; 2] = [
    // a terminal of its own after a part of the host
    (
        "explain certify h t",
        &[
            "format 1; host h;\nterminal A /a/; terminal B /b/; terminal C /c/;\nnonterminal S; nonterminal N; nonterminal F; start S; extensible F;\nconcrete s : S ::= n : N b : B f : F { }\nconcrete n : N ::= a : A { }\nconcrete f : F ::= c : C { }\n",
            "format 1; extension e for h; marking M /m/; terminal D /d/;\nconcrete x : F ::= m : M n : N d : D { forwards to f(\"c\"); }\n",
        ],
        Status::NotCertified,
        "refused t E5 after A item n/1 on e:D\n",
        "\nt, line 2, column 10:\n\n    concrete x : F ::= m : M n : N d : D { forwards to f(\"c\"); }\n             ^\n\nIn e:x, after N, which the host has, comes e:D.\nThe host never has it there. After N it has:\n\n    B\n\nWhat can mend it:\n- A terminal of this list in the place of e:D.\n- A terminal of this list, and then e:D.\n- Another part in the place of both.\n",
    ),
    // a terminal of the host after another part than in the host
    (
        "explain certify h t",
        &[
            "format 1; host h;\nterminal P /p/; terminal Q /q/; terminal C /c/; terminal X /x/; terminal Y /y/; terminal Z /z/;\nnonterminal S; nonterminal A; nonterminal B; nonterminal G; start S; extensible G;\nconcrete sa : S ::= p : P a : A x : X { }\nconcrete sb : S ::= p : P b : B y : Y { }\nconcrete sg : S ::= q : Q g : G { }\nconcrete ac : A ::= c : C { }\nconcrete bc : B ::= c : C { }\nconcrete gz : G ::= z : Z { }\n",
            "format 1; extension e for h;\nmarking M /m/;\nconcrete mg : G ::= m : M a : A y : Y { forwards to gz(\"z\"); }\n",
        ],
        Status::NotCertified,
        "refused t E6 after Q e:M C item ac/1 on Y\n",
        "\nt, line 3, column 10:\n\n    concrete mg : G ::= m : M a : A y : Y { forwards to gz(\"z\"); }\n             ^\n\nIn e:mg, after A, which the host has, comes Y.\nThe host never has it there. After A it has:\n\n    X\n\nWhat can mend it:\n- A terminal of this list in the place of Y.\n- A terminal of this list, and then Y.\n- Another part in the place of both.\n",
    ),
];

#[test]
fn each_new_terminal_after_a_part_of_the_host_is_shown(rt: HostRuntime) {
    each_ends_so(&rt, &NEW);
}
