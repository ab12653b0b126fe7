//! Do texts, names, grammars and sequences give back what was put into them?
//!
//! A text of up to 22 bytes is in the value itself, and a longer one is shared. So lengths around 22 are tested.

ghost use Rattle.std.specs.Prelude.{◌≡◌};

use crate::holds;
use std::alloc::{AllocError, Global};
use wb_base::decimal::{digit_count, hex_value, magnitude, with_sign};
use wb_base::{Added, Bytes, FILE_LIMIT, Grammar, Names, Sequence, Symbol, push};

// Whether a text has these bytes, and so has its copy.
fn has_bytes(made: &Bytes, text: &[u8]) -> Result<bool, AllocError> {
    Ok(made.as_slice() == text && made.copy()?.as_slice() == text)
}

// Whether a text that is made from a slice has the slice's bytes.
fn is_kept(alloc: Global, text: &[u8]) -> Result<bool, AllocError> {
    let made = Bytes::from_slice(alloc, text)?;
    has_bytes(&made, text)
}

// Whether a text that is made from a vector has the vector's bytes.
fn is_moved(alloc: Global, text: &[u8]) -> Result<bool, AllocError> {
    let made = Bytes::from_vec(Vec::from_slice(alloc, text)?)?;
    has_bytes(&made, text)
}

static LENGTHS: [usize; 8] = [0, 1, 16, 21, 22, 23, 24, 32];

// Whether the beginnings of a text of these lengths are kept.
fn are_kept(alloc: Global, text: &[u8], lengths: &[usize]) -> Result<bool, AllocError> {
    for length in lengths {
        let Some(part) = text.get(..*length) else {
            return Ok(false);
        };
        if !is_kept(alloc, part)? || !is_moved(alloc, part)? {
            return Ok(false);
        }
    }
    Ok(Bytes::empty().as_slice().is_empty())
}

#[test]
fn bytes_are_those_put_in(rt: HostRuntime) {
    let text = b"an identifier of many more bytes";
    assert!(rt; holds(are_kept(rt.alloc(), text, &LENGTHS)));
}

// Whether each name is numbered once, in order of first appearance.
fn are_numbered(names: &mut Names) -> Result<bool, AllocError> {
    let first = names.add(b"E")? == Added::New(0) && names.add(b"T")? == Added::New(1);
    let again = names.add(b"E")? == Added::Present(0);
    let found = names.find(b"T") == Some(1) && names.find(b"F") == None;
    Ok(first && again && found && names.len() == 2)
}

fn is_numbering(alloc: Global) -> Result<bool, AllocError> {
    let mut names = Names::new(alloc);
    are_numbered(&mut names)
}

#[test]
fn names_are_numbered_in_order(rt: HostRuntime) {
    assert!(rt; holds(is_numbering(rt.alloc())));
}

static RECURSIVE: [Symbol; 2] = [Symbol::Nonterminal(0), Symbol::Terminal(0)];

// Whether a grammar has one terminal, one nonterminal, and an empty and a recursive production.
fn is_recursive(grammar: &Grammar) -> Result<bool, AllocError> {
    let counts = grammar.terminals() == 1 && grammar.nonterminals() == 1 && grammar.start() == 0;
    let parts = grammar.productions() == 2
        && grammar.left(1) == 0
        && grammar.right(0).is_empty()
        && grammar.right(1) == RECURSIVE.as_slice();
    Ok(counts && parts && grammar.lookahead_count()? == 2)
}

fn is_copy_recursive(grammar: &Grammar) -> Result<bool, AllocError> {
    is_recursive(&grammar.copy()?)
}

// Whether a grammar is that one after two productions are added, and its copy is too.
fn becomes_recursive(grammar: &mut Grammar) -> Result<bool, AllocError>
    requires terminals { grammar.old.terminals ≡ 1 }
    requires nonterminals { grammar.old.nonterminals ≡ 1 }
{
    grammar.add(0, &[])?;
    grammar.add(0, &[Symbol::Nonterminal(0), Symbol::Terminal(0)])?;
    Ok(is_recursive(grammar)? && is_copy_recursive(grammar)?)
}

fn is_made(alloc: Global) -> Result<bool, AllocError> {
    let mut grammar = Grammar::new(alloc, 1, 1, 0);
    becomes_recursive(&mut grammar)
}

#[test]
fn a_grammar_holds_its_productions(rt: HostRuntime) {
    assert!(rt; holds(is_made(rt.alloc())));
}

// Whether a sequence gives back its values, and so does its copy.
fn is_given_back(alloc: Global) -> Result<bool, AllocError> {
    let mut values = vec![in alloc; 3u8, 1]?;
    push(&mut values, 2)?;
    let sequence = Sequence::from_vec(values).clone()?;
    let counted = sequence.len() == 3 && !sequence.is_empty();
    Ok(counted && sequence.as_slice() == [3, 1, 2].as_slice())
}

#[test]
fn a_sequence_gives_back_its_values(rt: HostRuntime) {
    assert!(rt; holds(is_given_back(rt.alloc())));
}

fn are_ordered() -> bool {
    Symbol::Terminal(1) < Symbol::Nonterminal(0) && Symbol::Nonterminal(0) < Symbol::Nonterminal(1)
}

#[test]
fn terminals_come_before_nonterminals(rt: HostRuntime) {
    assert!(rt; are_ordered());
}

// Whether digits write their number, up to the largest of 64 bits.
fn are_magnitudes() -> bool {
    digit_count(b"042a1") == 3
        && magnitude(b"18446744073709551615") == Some(u64::MAX)
        && magnitude(b"18446744073709551616") == None
}

// Whether a number has its sign, if it then fits in 64 bits.
fn are_signed() -> bool {
    with_sign(true, 1 << 63) == Some(i64::MIN)
        && with_sign(false, 1 << 63) == None
        && with_sign(true, 0) == Some(0)
}

fn are_hexadecimal() -> bool {
    hex_value(b'F') == Some(15) && hex_value(b'a') == Some(10) && hex_value(b'g') == None
}

#[test]
fn digits_write_numbers(rt: HostRuntime) {
    assert!(rt; are_magnitudes() && are_signed() && are_hexadecimal());
    assert!(rt; FILE_LIMIT == 1_048_576);
}
