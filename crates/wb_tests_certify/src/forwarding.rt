//! Is an extension refused that is well defined alone, but not together with another one?
//!
//! Expected answers follow from the rules.

use crate::answers::Row;
use crate::extensions::extensions_get;
use crate::files::{FORWARD_NEEDS, TWO_INHERITED};

// A nonterminal that inherits two attributes. Its forward may need none of them.
pub(crate) static NOT_LOOKING: &str = "format 1; host h; \
    terminal X /x/; \
    nonterminal P; nonterminal N; start P; extensible N; \
    inh env : bool; inh store : bool; syn value : bool; \
    occurs env on N; occurs store on N; occurs value on P; occurs value on N needs { env, store }; \
    concrete root : P ::= n : N { n.env = true; n.store = false; top.value = n.value; } \
    concrete leaf : N ::= x : X { top.value = top.env; }";

// The same. Its forward may need one of them.
pub(crate) static LOOKING: &str = "format 1; host h; \
    terminal X /x/; \
    nonterminal P; nonterminal N; start P; extensible N; \
    inh env : bool; inh store : bool; syn value : bool; \
    occurs env on N; occurs store on N; occurs value on P; occurs value on N needs { env, store }; \
    forward on N needs { env }; \
    concrete root : P ::= n : N { n.env = true; n.store = false; top.value = n.value; } \
    concrete leaf : N ::= x : X { top.value = top.env; }";

// The same nonterminal, closed.
pub(crate) static CLOSED: &str = "format 2; host h; \
    terminal X /x/; \
    nonterminal P; nonterminal N; start P; extensible N; closed N; \
    inh env : bool; inh store : bool; syn value : bool; \
    occurs env on N; occurs store on N; occurs value on P; occurs value on N needs { env, store }; \
    concrete root : P ::= n : N { n.env = true; n.store = false; top.value = n.value; } \
    concrete leaf : N ::= x : X { top.value = top.env; }";

// An extension that swaps what its forwarded tree inherits.
static OF_TWO_INHERITED: [Row; 1] = [(
    "format 1; extension swap for ctx; marking M /m/; concrete swap : N ::= m : M n : N { forwards to n; forward.env = top.store; }",
    ("E8", "swap", "env", "store"),
)];

#[test]
fn equations_for_a_forwarded_tree_keep_to_its_flow_type(rt: HostRuntime) {
    extensions_get(&rt, TWO_INHERITED, &OF_TWO_INHERITED);
}

// The same where the flow type allows it.
static OF_FORWARD_NEEDS: [Row; 1] = [(
    "format 1; extension swap for ctx; marking M /m/; concrete swap : N ::= m : M n : N { forwards to n; forward.env = top.store; }",
    ("ok", "", "", ""),
)];

#[test]
fn equations_for_a_forwarded_tree_may_need_what_its_flow_type_has(rt: HostRuntime) {
    extensions_get(&rt, FORWARD_NEEDS, &OF_FORWARD_NEEDS);
}

// Extensions `f` are right alone. With one of them, a refused `e` would need what isn't there: one `e` swaps what its forwarded tree
// inherits, one doesn't forward, and one needs an attribute to choose its forwarded tree.
pub(crate) static OF_NOT_LOOKING: [Row; 7] = [
    (
        "format 1; extension e for h; marking M /m/; concrete p : N ::= m : M n : N { forwards to n; forward.env = top.store; }",
        ("E8", "p", "env", "store"),
    ),
    (
        "format 1; extension f for h; syn seen : bool; occurs seen on N needs { env }; aspect leaf { top.seen = true; }",
        ("ok", "", "", ""),
    ),
    (
        "format 1; extension e for h; marking M /m/; concrete p : N ::= m : M n : N { top.value = true; }",
        ("E7", "p", "", ""),
    ),
    (
        "format 1; extension f for h; syn seen : bool; occurs seen on N; aspect leaf { top.seen = true; }",
        ("ok", "", "", ""),
    ),
    (
        "format 1; extension e for h; marking M /m/; concrete p : N ::= m : M n : N { forwards to n; }",
        ("ok", "", "", ""),
    ),
    (
        "format 1; extension e for h; marking M /m/; concrete p : N ::= m : M n : N { forwards to n; forward.env = top.env; }",
        ("ok", "", "", ""),
    ),
    (
        "format 1; extension e for h; marking M /m/; concrete p : N ::= m : M n : N { forwards to if top.env then n else n; }",
        ("A3", "p", "forward", "env"),
    ),
];

#[test]
fn an_extension_is_right_with_any_other(rt: HostRuntime) {
    extensions_get(&rt, NOT_LOOKING, &OF_NOT_LOOKING);
}

// The first is right. So the second is refused, whose attribute doesn't need what a forward may need.
pub(crate) static OF_LOOKING: [Row; 4] = [
    (
        "format 1; extension e for h; marking M /m/; concrete p : N ::= m : M n : N { forwards to if top.env then n else n; }",
        ("ok", "", "", ""),
    ),
    (
        "format 1; extension f for h; syn seen : bool; occurs seen on N; aspect leaf { top.seen = true; }",
        ("A6", "N", "seen", "env"),
    ),
    (
        "format 1; extension f for h; syn seen : bool; occurs seen on N needs { env }; aspect leaf { top.seen = true; }",
        ("ok", "", "", ""),
    ),
    (
        "format 1; extension e for h; marking M /m/; concrete p : N ::= m : M n : N { forwards to n; forward.store = top.env; }",
        ("ok", "", "", ""),
    ),
];

#[test]
fn attributes_need_what_forwards_look_at(rt: HostRuntime) {
    extensions_get(&rt, LOOKING, &OF_LOOKING);
}

// A production on it needn't forward, and is else as all are; an attribute of an extension is on P alone.
pub(crate) static OF_CLOSED: [Row; 9] = [
    (
        "format 1; extension e for h; marking M /m/; concrete p : N ::= m : M { top.value = true; }",
        ("ok", "", "", ""),
    ),
    (
        "format 2; extension e for h; marking M /m/; \
            concrete p : N ::= m : M n : N { n.env = top.store; n.store = top.env; top.value = n.value; }",
        ("ok", "", "", ""),
    ),
    (
        "format 1; extension e for h; marking M /m/; concrete p : N ::= m : M n : N { forwards to n; }",
        ("ok", "", "", ""),
    ),
    (
        "format 1; extension e for h; marking M /m/; concrete p : N ::= m : M { }",
        ("A1", "p", "value", ""),
    ),
    (
        "format 1; extension e for h; marking M /m/; concrete p : N ::= m : M n : N { n.env = true; top.value = n.value; }",
        ("A2", "p", "n", "store"),
    ),
    (
        "format 1; extension e for h; marking M /m/; concrete p : N ::= m : M n : N { forwards to n; forward.env = top.store; }",
        ("E8", "p", "env", "store"),
    ),
    (
        "format 1; extension e for h; abstract p : P ::= { top.value = true; }",
        ("E7", "p", "", ""),
    ),
    (
        "format 1; extension f for h; syn seen : bool; occurs seen on N needs { env }; aspect leaf { top.seen = true; }",
        ("N3", "seen", "", ""),
    ),
    (
        "format 1; extension f for h; syn seen : bool; occurs seen on P; aspect root { top.seen = n.value; }",
        ("ok", "", "", ""),
    ),
];

#[test]
fn on_a_closed_nonterminal_all_attributes_are_the_hosts(rt: HostRuntime) {
    extensions_get(&rt, CLOSED, &OF_CLOSED);
}
