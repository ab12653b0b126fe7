//! Does each text read as expected, and do the parts of a specification have their positions?
//!
//! Expected values follow from the grammar and the order of refusals.

use std::alloc::Global;
use wb_reader::{SpecRefusal, read_spec};
use wb_syntax::{Header, Item, ItemForm, Node, Pattern, ProductionRole, Spec};

// The code and the position of a refusal: 0 where it has none, and the length of its name where it has one.
fn shown(refusal: &SpecRefusal) -> (&'static str, usize) {
    match refusal {
        SpecRefusal::TooLong => ("S2", 0),
        SpecRefusal::WrongFormat => ("S3", 0),
        SpecRefusal::Syntax(at) => ("S1", *at),
        SpecRefusal::BadRegex(at) => ("R1", *at),
        SpecRefusal::MatchesEmpty(name) => ("R2", name.as_slice().len()),
        SpecRefusal::NoMemory(_) => ("no memory", 0),
    }
}

// Whether a text has this number of items, or is refused by this code at this position.
fn has_outcome(alloc: Global, text: &[u8], code: &str, place: usize) -> bool {
    match read_spec(alloc, text) {
        Ok(spec) => code == "items" && spec.items().len() == place,
        Err(refusal) => {
            let (is, at) = shown(&refusal);
            is == code && at == place
        }
    }
}

// Whether each text gets the code and the position in its row.
fn have_outcomes(alloc: Global, cases: &[(&str, &str, usize)]) -> bool {
    for (text, code, place) in cases {
        if !has_outcome(alloc, text.as_bytes(), *code, *place) {
            return false;
        }
    }
    true
}

static HEADERS: [(&str, &str, usize); 14] = [
    ("", "S1", 0),
    ("  // c", "S1", 6),
    ("format 1; host h;", "items", 0),
    ("format 01; host h; // c", "items", 0),
    ("format 1; host", "S1", 14),
    ("format 1; host host;", "S1", 15),
    ("format 3; host a;", "S3", 0),
    ("format 3", "S1", 7),
    ("format 3 host a;", "S1", 7),
    ("format -1 ; x", "S3", 0),
    ("format 9223372036854775808;", "S1", 7),
    ("format 1; host a; host b;", "S1", 18),
    ("format 1; extension e for h; prefer A over B;", "items", 1),
    ("format 1; extension e;", "S1", 21),
];

static ITEMS: [(&str, &str, usize); 16] = [
    ("format 1; host r; terminal T /a(/;", "R1", 32),
    ("format 1; host h; terminal T /a*/;", "R2", 1),
    ("format 1; host h; terminal Tt /b?/; ignore U /(/;", "R2", 2),
    (
        "format 1; host h; ignore U /(/; terminal Tt /b?/;",
        "R1",
        29,
    ),
    ("format 1; host h; terminal T /(/; x", "S1", 34),
    ("format 1; host h; terminal T /a\\//;", "items", 1),
    ("format 1; host h; terminal T //;", "S1", 32),
    ("format 1; host h; syn v : real int;", "S1", 31),
    ("format 1; host h; forward on N;", "S1", 30),
    ("format 1; host h; forward on N needs { };", "items", 1),
    ("format 1; host h; occurs a on N needs { b, };", "S1", 43),
    ("format 1; host h; concrete p : N ::= { }", "items", 1),
    ("format 1; host h; concrete p : N ::= { };", "S1", 40),
    ("format 1; host h; aspect p { top.a = f(); }", "items", 1),
    ("format 1; host h; aspect p { top.a = (1); }", "S1", 37),
    ("format 1; host h; aspect p { a.b.c = 1; }", "S1", 32),
];

static FORMATS: [(&str, &str, usize); 17] = [
    ("format 1; host h; closed E;", "S1", 18),
    ("format 2; host h; nonterminal E; closed E;", "items", 2),
    ("format 02; host h; closed E;", "items", 1),
    ("format // c\n 2 ; extension e for h; closed E;", "items", 1),
    ("format 3; host h; closed E;", "S3", 0),
    ("format 0; closed", "S3", 0),
    ("format 2", "S1", 8),
    ("format 2;", "S1", 9),
    ("format 2 host h;", "S1", 9),
    ("format 2 closed;", "S1", 9),
    ("closed", "S1", 0),
    ("format 1; host closed; nonterminal closed;", "items", 1),
    ("format 2; host closed;", "S1", 15),
    ("format 2; host h; nonterminal closed;", "S1", 30),
    ("format 2; host h; closed", "S1", 24),
    ("format 2; host h; closed closed;", "S1", 25),
    (
        "format 2; host h; prefer A over B; aspect p { top.a = 2; }",
        "items",
        2,
    ),
];

#[test]
fn a_text_is_read_by_the_words_of_its_format(rt: HostRuntime) {
    assert!(rt; have_outcomes(rt.alloc(), &FORMATS));
}

// Whether a text is a specification, or has its first error in its last 11 bytes or at its end.
fn stops_late(alloc: Global, text: &[u8]) -> bool {
    match read_spec(alloc, text) {
        Ok(_) => true,
        Err(refusal) => {
            let (is, at) = shown(&refusal);
            is == "S1" && at <= text.len() && text.len() - at <= 11
        }
    }
}

// Whether each beginning of a text is so.
fn stop_late(alloc: Global, text: &[u8]) -> bool {
    for end in 0..=text.len() {
        if !stops_late(alloc, &text[..end]) {
            return false;
        }
    }
    true
}

// The longest word, `nonterminal`, has 11 bytes.
#[test]
fn a_beginning_of_a_text_has_no_error_before_its_last_token(rt: HostRuntime) {
    assert!(rt; stop_late(rt.alloc(), b"format 2; host h; nonterminal E; closed E;"));
}

#[test]
fn a_header_has_its_outcome(rt: HostRuntime) {
    assert!(rt; have_outcomes(rt.alloc(), &HEADERS));
}

#[test]
fn a_pattern_or_an_item_has_its_outcome(rt: HostRuntime) {
    assert!(rt; have_outcomes(rt.alloc(), &ITEMS));
}

// Whether the node of the equation below is at its position.
fn is_right(place: usize, node: &Node) -> bool {
    match node {
        Node::Label(_) => place == 0,
        Node::Read {
            label: _,
            attribute: _,
        } => place == 1,
        Node::Text(_) => place == 2,
        Node::Build {
            production: _,
            children,
        } => place == 3 && children.as_slice() == [1, 2].as_slice(),
        Node::Call {
            operation: _,
            arguments,
        } => place == 4 && arguments.is_empty(),
        Node::If {
            condition,
            holds,
            fails,
        } => place == 5 && *condition == 0 && *holds == 3 && *fails == 4,
        _ => false,
    }
}

// Whether an item is the production below.
fn is_production(item: &Item<Pattern>) -> bool {
    let ItemForm::Production { role, production } = &item.form else {
        return false;
    };
    let mut right = item.offset == 29 && *role == ProductionRole::Abstract;
    right = right && production.children.len() == 2 && production.equations.len() == 1;
    for equation in production.equations.as_slice() {
        right = right && equation.offset == 66 && equation.nodes.len() == 6;
        for (place, node) in equation.nodes.as_slice().iter().enumerate() {
            right = right && is_right(place, node);
        }
    }
    right
}

// Whether a specification is the extension below.
fn is_extension(spec: &Spec) -> bool {
    let Header::Extension { host } = spec.header() else {
        return false;
    };
    let mut right = spec.format() == 1 && spec.name() == b"e".as_slice();
    right = right && host.as_slice() == b"h".as_slice() && spec.items().len() == 1;
    for item in spec.items() {
        right = right && is_production(item);
    }
    right
}

// Whether the extension is read as it is.
fn is_read(alloc: Global) -> bool {
    let text =
        b"format 1; extension e for h; abstract p : N ::= a : int b : M {\n  b.i = if a then f(b.s, \"x\") else @g(); }";
    match read_spec(alloc, text) {
        Ok(spec) => is_extension(&spec),
        Err(_) => false,
    }
}

#[test]
fn a_specification_has_its_parts_in_order(rt: HostRuntime) {
    assert!(rt; is_read(rt.alloc()));
}
