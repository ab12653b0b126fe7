//! Is an extension refused for lookaheads that its host doesn't have, and for kernels that go beyond what the host allows?
//!
//! Expected answers follow from the rules. Here a kernel that only an extension has comes after C.

use crate::answers::Row;
use crate::extensions::extensions_get;
use crate::files::{ALIKE, TWO_EXTENSIBLE};

// After P, and after Q, each of A and B has what the other has there.
pub(crate) static CROSSED: &str = "format 1; host h; \
    terminal P /p/; terminal Q /q/; terminal R /r/; terminal C /c/; terminal X /x/; terminal Y /y/; terminal Z /z/; \
    nonterminal S; nonterminal A; nonterminal B; nonterminal D; nonterminal F; nonterminal G; start S; extensible G; \
    concrete pa : S ::= p : P a : A x : X { } \
    concrete pb : S ::= p : P b : B y : Y { } \
    concrete pd : S ::= p : P d : D z : Z { } \
    concrete qa : S ::= q : Q a : A y : Y { } \
    concrete qb : S ::= q : Q b : B x : X { } \
    concrete qf : S ::= q : Q f : F z : Z { } \
    concrete rg : S ::= r : R g : G { } \
    concrete ac : A ::= c : C { } \
    concrete bc : B ::= c : C { } \
    concrete dc : D ::= c : C { } \
    concrete fc : F ::= c : C { } \
    concrete gz : G ::= z : Z { }";

// After P the terminal U follows A, and after Q the terminal V does.
pub(crate) static SHARED: &str = "format 1; host h; \
    terminal P /p/; terminal Q /q/; terminal R /r/; terminal C /c/; terminal U /u/; terminal V /[uv]/; terminal Z /z/; \
    nonterminal S; nonterminal A; nonterminal D; nonterminal F; nonterminal G; start S; extensible G; \
    concrete pa : S ::= p : P a : A u : U { } \
    concrete pd : S ::= p : P d : D z : Z { } \
    concrete qa : S ::= q : Q a : A v : V { } \
    concrete qf : S ::= q : Q f : F z : Z { } \
    concrete rg : S ::= r : R g : G { } \
    concrete ac : A ::= c : C { } \
    concrete dc : D ::= c : C { } \
    concrete fc : F ::= c : C { } \
    concrete gz : G ::= z : Z { }";

// Extensions of a host with two extensible nonterminals. The first lets one of them follow N, and its hole is no lookahead of the host.
pub(crate) static OF_TWO_EXTENSIBLE: [Row; 2] = [
    (
        "format 1; extension first for adj; marking M /m/; concrete mg : G ::= m : M n : N h : H { forwards to gy(\"y\"); }",
        ("E5", "hole:H", "na", ""),
    ),
    (
        "format 1; extension second for adj; marking K /k/; concrete kh : H ::= k : K y : Y { forwards to hx(\"x\"); }",
        ("ok", "", "", ""),
    ),
];

#[test]
fn what_follows_a_host_nonterminal_stays(rt: HostRuntime) {
    extensions_get(&rt, TWO_EXTENSIBLE, &OF_TWO_EXTENSIBLE);
}

// Extensions that know which of two sentences is read. One lets Y follow where the host has X.
pub(crate) static OF_ALIKE: [Row; 2] = [
    (
        "format 1; extension fit for pq; marking M /m/; concrete mg : G ::= m : M a : A x : X { forwards to gz(\"z\"); }",
        ("ok", "", "", ""),
    ),
    (
        "format 1; extension unfit for pq; marking M /m/; concrete mg : G ::= m : M a : A y : Y { forwards to gz(\"z\"); }",
        ("E6 item", "Y", "ac", ""),
    ),
];

#[test]
fn new_kernels_have_lookaheads_of_the_host(rt: HostRuntime) {
    extensions_get(&rt, ALIKE, &OF_ALIKE);
}

// A kernel that only the extension has, where the lookaheads that the host allows conflict; and one for A alone.
pub(crate) static OF_CROSSED: [Row; 2] = [
    (
        "format 1; extension e for h; \
            marking M /m/; nonterminal N; \
            concrete mg : G ::= m : M n : N { forwards to gz(\"z\"); } \
            concrete na : N ::= a : A x : X { } \
            concrete nb : N ::= b : B y : Y { }",
        ("E6 conflict", "", "ac", "bc"),
    ),
    (
        "format 1; extension e for h; marking M /m/; concrete mg : G ::= m : M a : A x : X { forwards to gz(\"z\"); }",
        ("ok", "", "", ""),
    ),
];

#[test]
fn new_kernels_have_no_conflict_in_what_the_host_allows(rt: HostRuntime) {
    extensions_get(&rt, CROSSED, &OF_CROSSED);
}

// A kernel that only the extension has, where terminals that the host allows share a text; and extensions with that of D or none.
pub(crate) static OF_SHARED: [Row; 3] = [
    (
        "format 1; extension e for h; marking M /m/; concrete mg : G ::= m : M a : A u : U { forwards to gz(\"z\"); }",
        ("E6 clash", "U", "V", "u"),
    ),
    (
        "format 1; extension e for h; marking M /m/; concrete mg : G ::= m : M d : D z : Z { forwards to gz(\"z\"); }",
        ("ok", "", "", ""),
    ),
    (
        "format 1; extension e for h; marking M /m/; concrete mg : G ::= m : M c : C { forwards to gz(\"z\"); }",
        ("ok", "", "", ""),
    ),
];

#[test]
fn new_kernels_have_no_clash_in_what_the_host_allows(rt: HostRuntime) {
    extensions_get(&rt, SHARED, &OF_SHARED);
}
