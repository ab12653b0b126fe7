//! Are terms read and printed as their grammar says, with the first error at its position?
//!
//! Signatures and stores are made in helpers, one for each test. What the program prints of values is tested in `wb_tests`.

ghost use Rattle.std.specs.Prelude.{◌<◌, IfOk, length};

use std::alloc::{AllocError, Global};
use std::test::Fail;
use wb_base::Kind;
use wb_terms::{PrintRefusal, TermRefusal, print_value, read_term};
use wb_values::{Signatures, TreeId, TreeStore, Value};

// The expected result of reading a text.
#[derive(Clone, Copy, PartialEq, Eq)]
enum Answer {
    Read,
    Bad(usize),
    Unknown(usize),
    WrongChild(usize),
    NoMemory,
}

// The productions `lit` and `add` of numbers, `e:both` with a child of each kind, `leaf` of another nonterminal and without a child, and a
// second `lit`.
fn signatures(alloc: Global) -> Result<Signatures, AllocError> {
    let mut made = Signatures::new(alloc);
    made.add(b"lit", 0, &[Kind::Int])?;
    made.add(b"add", 0, &[Kind::Tree(0), Kind::Tree(0)])?;
    made.add(
        b"e:both",
        0,
        &[Kind::Int, Kind::Bool, Kind::Text, Kind::Tree(1)],
    )?;
    made.add(b"leaf", 1, &[])?;
    made.add(b"lit", 1, &[])?;
    Ok(made)
}

// The result of reading a text into a store.
fn answer_in(alloc: Global, text: &[u8], signatures: &Signatures, store: &mut TreeStore) -> Answer {
    match read_term(alloc, text, signatures, store) {
        Ok(_) => Answer::Read,
        Err(TermRefusal::Bad(at)) => Answer::Bad(at),
        Err(TermRefusal::Unknown(at)) => Answer::Unknown(at),
        Err(TermRefusal::WrongChild(at)) => Answer::WrongChild(at),
        Err(TermRefusal::NoMemory(_)) => Answer::NoMemory,
    }
}

// Whether each text gets the expected result in its row.
fn are_answered(alloc: Global, signatures: &Signatures, cases: &[(&str, Answer)]) -> bool {
    let mut store = TreeStore::new(alloc);
    for (text, wanted) in cases {
        if answer_in(alloc, text.as_bytes(), signatures, &mut store) != *wanted {
            return false;
        }
    }
    true
}

fn are_read(alloc: Global, cases: &[(&str, Answer)]) -> Result<bool, AllocError> {
    let signatures = signatures(alloc)?;
    Ok(are_answered(alloc, &signatures, cases))
}

static READ: [(&str, Answer); 24] = [
    ("lit(1)", Answer::Read),
    (" add ( lit(1) ,\nlit(-2) ) \t", Answer::Read),
    ("e : both(1, true, \"x\", leaf())", Answer::Read),
    ("add(lit(1)", Answer::Bad(10)),
    ("sub(lit(1))", Answer::Unknown(0)),
    ("lit(\"1\")", Answer::WrongChild(4)),
    ("", Answer::Bad(0)),
    ("  ", Answer::Bad(2)),
    ("lit(1) lit(1)", Answer::Bad(7)),
    ("lit(1) // one", Answer::Bad(7)),
    ("lit(1,)", Answer::Bad(6)),
    ("true", Answer::Bad(0)),
    ("lit(host)", Answer::Bad(4)),
    ("lit(9223372036854775808)", Answer::Bad(4)),
    ("sub(lit(1)", Answer::Bad(10)),
    ("add(lit(), mul())", Answer::Unknown(11)),
    ("e:lit(1)", Answer::Unknown(0)),
    ("e:both(1, 1, sub())", Answer::Unknown(13)),
    ("add(lit(), 1)", Answer::WrongChild(4)),
    ("add(lit(1), lit(), 2)", Answer::WrongChild(0)),
    ("add(lit(1), leaf())", Answer::WrongChild(12)),
    ("add(leaf(), leaf())", Answer::WrongChild(4)),
    ("e:both(1, 0, true, lit(1))", Answer::WrongChild(10)),
    ("e:both(1, true, \"x\", lit(1))", Answer::WrongChild(21)),
];

#[test]
fn terms_are_read_exactly(rt: HostRuntime) -> Result<(), Fail> {
    assert!(rt; are_read(rt.alloc(), &READ)?);
    Ok(())
}

// The text that a tree is printed as.
fn is_text(
    alloc: Global,
    tree: TreeId,
    signatures: &Signatures,
    store: &TreeStore,
    wanted: &[u8],
) -> bool
    requires { tree.0 < length store.now }
{
    match print_value(alloc, &Value::Tree(tree), signatures, store) {
        Ok(printed) => printed.as_slice() == wanted,
        Err(_) => false,
    }
}

// Whether the term of a text is printed as this text.
fn is_printed(alloc: Global, signatures: &Signatures, text: &[u8], wanted: &[u8]) -> bool {
    let mut store = TreeStore::new(alloc);
    match read_term(alloc, text, signatures, &mut store) {
        Ok(tree) => is_text(alloc, tree, signatures, &store, wanted),
        Err(_) => false,
    }
}

fn is_printed_as(alloc: Global, text: &[u8], wanted: &[u8]) -> Result<bool, AllocError> {
    let signatures = signatures(alloc)?;
    Ok(is_printed(alloc, &signatures, text, wanted))
}

static PRINTED: [(&str, &str); 3] = [
    (" add( lit(007) , lit ( -2 ) )", "add(lit(7), lit(-2))"),
    (
        "e : both(0, false, \"\", leaf( ))",
        "e:both(0, false, \"\", leaf())",
    ),
    (
        "e:both(-9223372036854775808, true, \"a\\\"\\\\\\n\\t\\x7F~ \\xff\", leaf())",
        "e:both(-9223372036854775808, true, \"a\\\"\\\\\\n\\x09\\x7f~ \\xff\", leaf())",
    ),
];

#[test]
fn values_are_printed(rt: HostRuntime) -> Result<(), Fail> {
    for (text, wanted) in &PRINTED {
        assert!(rt;
            is_printed_as(rt.alloc(), text.as_bytes(), wanted.as_bytes())?,
            "{text}"
        );
    }
    Ok(())
}

// A text of a term nested to this depth, of three forms in turn.
fn nested(alloc: Global, depth: usize) -> Result<Vec<u8>, AllocError> {
    let mut text = Vec::new(alloc);
    for _ in 0..depth {
        text.extend_from_slice(b"add(")?;
    }
    text.extend_from_slice(b"lit(1)")?;
    for place in 0..depth {
        match place % 3 {
            0 => text.extend_from_slice(b", lit(0))")?,
            1 => text.extend_from_slice(b", add(lit(-1), lit(2)))")?,
            _ => text.extend_from_slice(b", e:both(3, true, \"\\n\\x00\", leaf()))")?,
        }
    }
    Ok(text)
}

// Whether a term nested to this depth is printed as it was read.
fn is_the_same(alloc: Global, depth: usize) -> Result<bool, AllocError> {
    let text = nested(alloc, depth)?;
    is_printed_as(alloc, &text, &text)
}

#[test]
fn what_is_printed_reads_the_same(rt: HostRuntime) -> Result<(), Fail> {
    for depth in 0..20 {
        assert!(rt; is_the_same(rt.alloc(), depth)?, "{depth}");
    }
    assert!(rt; is_the_same(rt.alloc(), 500_000)?);
    Ok(())
}

// Whether a text is refused and leaves a store of one tree as it was.
fn is_refused_in(
    alloc: Global,
    text: &[u8],
    signatures: &Signatures,
    store: &mut TreeStore,
) -> bool {
    let first = answer_in(alloc, b"lit(5)", signatures, store) == Answer::Read;
    let second = answer_in(alloc, text, signatures, store) != Answer::Read;
    let third = match read_term(alloc, b"add(lit(1), lit(2))", signatures, store) {
        Ok(tree) => tree.0 == 3,
        Err(_) => false,
    };
    first && second && third && store.len() == 4
}

fn is_refused(alloc: Global, text: &[u8]) -> Result<bool, AllocError> {
    let signatures = signatures(alloc)?;
    Ok(is_refused_in(alloc, text, &signatures, &mut TreeStore::new(alloc)))
}

#[test]
fn the_store_is_as_before_a_refusal(rt: HostRuntime) -> Result<(), Fail> {
    for text in ["add(lit(1), lit(2)", "add(lit(1), sub())", "add(lit(1), 2)"] {
        assert!(rt; is_refused(rt.alloc(), text.as_bytes())?, "{text:?}");
    }
    Ok(())
}

// The tree that has one tree as its two children.
fn twice(alloc: Global, store: &mut TreeStore, tree: TreeId) -> Result<TreeId, AllocError>
    requires { tree.0 < length store.old }
    ensures { IfOk result (λ made. made.0 < length store.new) }
{
    let children = vec![in alloc; Value::Tree(tree), Value::Tree(tree)]?;
    store.build(1, children)
}

// A leaf that is doubled this number of times: each tree has the one before it as both children.
fn shared(alloc: Global, store: &mut TreeStore, count: usize) -> Result<TreeId, AllocError>
    ensures { IfOk result (λ made. made.0 < length store.new) }
{
    let mut last = store.build(0, vec![in alloc; Value::Int(1)]?)?;
    for step in 0..count {
        last = twice(alloc, store, last)?;
    }
    Ok(last)
}

// Whether the text of a tree is too long.
fn is_too_long(
    alloc: Global,
    tree: TreeId,
    signatures: &Signatures,
    store: &TreeStore,
) -> Result<bool, AllocError>
    requires { tree.0 < length store.now }
{
    match print_value(alloc, &Value::Tree(tree), signatures, store) {
        Ok(_) => Ok(false),
        Err(PrintRefusal::TooLong) => Ok(true),
        Err(PrintRefusal::NoMemory(error)) => Err(error),
    }
}

// Whether a graph of this number of doublings is too long to be printed.
fn is_shared_long(
    alloc: Global,
    count: usize,
    signatures: &Signatures,
) -> Result<bool, AllocError> {
    let mut store = TreeStore::new(alloc);
    let tree = shared(alloc, &mut store, count)?;
    is_too_long(alloc, tree, signatures, &store)
}

fn is_long(alloc: Global, count: usize) -> Result<bool, AllocError> {
    let signatures = signatures(alloc)?;
    is_shared_long(alloc, count, &signatures)
}

#[test]
fn a_shared_graph_is_too_long(rt: HostRuntime) -> Result<(), Fail> {
    assert!(rt; is_long(rt.alloc(), 60)?);
    assert!(rt; !is_long(rt.alloc(), 4)?);
    Ok(())
}
