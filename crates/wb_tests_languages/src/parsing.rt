//! Which tree does a small text have, or where does it stop?

ghost use Rattle.std.specs.Prelude.{◌<◌, length};

use crate::sample::{Sample, add_signatures, language};
use crate::samples::{AMBIGUOUS, CONTEXTS, KEYWORDS, LAYOUTS, LISTS, POINTERS, RING, UNDECIDED};
use std::alloc::Global;
use wb_parser::{Parsed, StopKind, parse};
use wb_scan::{Language, LanguageRefusal};
use wb_terms::print_value;
use wb_values::{Signatures, TreeId, TreeStore, Value};

// What a text gives: a tree, as it prints; a stop at a position with no token or this terminal next; or why there is no language.
#[derive(Clone, Copy)]
enum Wanted {
    Tree(&'static str),
    NoToken(usize),
    Unexpected(usize, usize),
    Cycle,
    Conflict,
    Clash,
}

// A sample, a text and what the text gives.
type Row = (&'static Sample, &'static str, Wanted);

// Whether the refusal is this.
fn is_refusal(refusal: &LanguageRefusal, wanted: Wanted) -> bool {
    match wanted {
        Wanted::Cycle => matches!(refusal, LanguageRefusal::Cycle(_)),
        Wanted::Conflict => matches!(refusal, LanguageRefusal::Conflict { .. }),
        Wanted::Clash => matches!(refusal, LanguageRefusal::Clash { .. }),
        _ => false,
    }
}

// Whether the stop is this.
fn is_stop(at: usize, kind: StopKind, wanted: Wanted) -> bool {
    match wanted {
        Wanted::NoToken(place) => at == place && kind == StopKind::NoToken,
        Wanted::Unexpected(place, terminal) => at == place
            && kind == StopKind::Unexpected(terminal),
        _ => false,
    }
}

// Whether the tree prints as this text.
fn is_printed(
    alloc: Global,
    signatures: &Signatures,
    store: &TreeStore,
    tree: TreeId,
    printed: &str,
) -> bool
    requires { tree.0 < length store.now }
{
    match print_value(alloc, &Value::Tree(tree), signatures, store) {
        Ok(text) => text.as_slice() == printed.as_bytes(),
        Err(_) => false,
    }
}

// Whether the tree is this.
fn is_tree(alloc: Global, sample: &Sample, store: &TreeStore, tree: TreeId, wanted: Wanted) -> bool
    requires { tree.0 < length store.now }
{
    let Wanted::Tree(printed) = wanted else {
        return false;
    };
    let mut signatures = Signatures::new(alloc);
    add_signatures(alloc, sample.rules, &mut signatures)
        && is_printed(alloc, &signatures, store, tree, printed)
}

// Whether the text gives this in the language, where nothing is in the store yet.
fn gives_into(alloc: Global, language: &Language, row: &Row, store: &mut TreeStore) -> bool {
    let (sample, text, wanted) = *row;
    let Ok(parsed) = parse(alloc, language, text.as_bytes(), store) else {
        return false;
    };
    match parsed {
        Parsed::Tree(tree) => is_tree(alloc, sample, store, tree, wanted),
        Parsed::Stopped { at, kind } => store.is_empty() && is_stop(at, kind, wanted),
    }
}

fn gives_in(alloc: Global, language: &Language, row: &Row) -> bool {
    let mut store = TreeStore::new(alloc);
    gives_into(alloc, language, row, &mut store)
}

fn gives(alloc: Global, row: &Row) -> bool {
    match language(alloc, row.0) {
        Ok(language) => {
            let gives = gives_in(alloc, &language, row);
            language.release();
            gives
        }
        Err(refusal) => is_refusal(&refusal, row.2),
    }
}

fn are_given(alloc: Global, rows: &[Row]) -> bool {
    for row in rows {
        if !gives(alloc, row) {
            return false;
        }
    }
    true
}

static TEXTS: [Row; 20] = [
    (&KEYWORDS, "if if", Wanted::Tree("one(\"if\", \"if\")")),
    (&KEYWORDS, "iffy", Wanted::Tree("two(\"iffy\")")),
    (&KEYWORDS, "if", Wanted::Unexpected(2, 2)), // the end
    (&KEYWORDS, "", Wanted::Unexpected(0, 2)),
    (&KEYWORDS, "  ", Wanted::Unexpected(2, 2)), // after the layout
    (&KEYWORDS, " if  x ", Wanted::Tree("one(\"if\", \"x\")")),
    (&KEYWORDS, "if if if", Wanted::NoToken(6)), // no terminal is valid there but the end
    (&KEYWORDS, "if 7", Wanted::NoToken(3)),
    (&LISTS, "", Wanted::Tree("none()")),
    (&LISTS, "   ", Wanted::Tree("none()")),
    (&LISTS, "  7 x", Wanted::NoToken(4)),
    (
        &LISTS,
        "7 8",
        Wanted::Tree("more(more(none(), \"7\"), \"8\")"),
    ),
    (
        &POINTERS,
        "*a=b",
        Wanted::Tree("assign(star(\"*\", ofl(id(\"a\"))), \"=\", ofl(id(\"b\")))"),
    ),
    (&POINTERS, "a=", Wanted::Unexpected(2, 3)),
    (&POINTERS, "a=b=c", Wanted::Unexpected(3, 1)), // a name has one kernel before and after the sign
    (&POINTERS, "=a", Wanted::NoToken(0)),
    (&CONTEXTS, "aaa", Wanted::Tree("pair(\"a\", \"aa\")")), // "aa" isn't considered at the beginning
    (&CONTEXTS, "aa", Wanted::NoToken(1)),
    (&LAYOUTS, "---", Wanted::Tree("a(none(), \"---\")")), // longer than layout
    (&LAYOUTS, "--bbb", Wanted::Tree("b(none(), \"b\")")), // layout wins twice
];

#[test]
fn texts_give_their_one_tree_or_stop(rt: HostRuntime) {
    assert!(rt; are_given(rt.alloc(), &TEXTS));
}

static REFUSED: [Row; 3] = [
    (&RING, "", Wanted::Cycle),
    (&AMBIGUOUS, "", Wanted::Conflict),
    (&UNDECIDED, "", Wanted::Clash),
];

#[test]
fn languages_are_refused_for_cycles_conflicts_and_clashes(rt: HostRuntime) {
    assert!(rt; are_given(rt.alloc(), &REFUSED));
}
