//! Which tree does a text have, or where does the text stop?
//!
//! Leaf after leaf is taken until the text is read or stops. Whatever was built for a text that stops is taken back.

ghost use Rattle.std.specs.Prelude.{◌≡◌, ◌≤◌, [], ℕ, IfOk, OnErr, length};
ghost use Rattle.wb_parser.specs.Parses.{Extends, IsParsed, KeepsStore, FitsSignatures};

use crate::Parsed;
use crate::chains::reductions_for;
use crate::leaf::{Round, take_leaf};
use crate::stack::Stack;
use std::alloc::{AllocError, Global};
use wb_scan::Language;
use wb_values::TreeStore;

// Of texts that are no longer there is nothing to save.
const SHORT: usize = 1024;

/// The one tree of a text in a language, or the one stop.
///
/// The children of the tree's nodes are its trees and lexemes, in order; a lexeme is without the prefix of its form. After a tree the store
/// begins with what it held before. After a stop, and when memory ran out, it is as before. A stack of states and values, one of each for
/// each root, two numbers for each production, and for a text of 16 kB or more up to 16,384 chains of reductions are all that is kept beside
/// the store, in which a sixteenth of a long text tells how much room is made for all of it.
pub fn parse(
    alloc: Global,
    language: &Language,
    text: &[u8],
    store: &mut TreeStore,
) -> Result<Parsed, AllocError>
    ensures parsed { IfOk result (IsParsed language.now.language text.now store.new) }
    ensures store { IfOk result (λ parsed. KeepsStore parsed store.old store.new) }
    ensures fits { IfOk result (FitsSignatures language.now.language store.new) }
    ensures err { OnErr result (store.new ≡ store.old) }
{
    let before = store.len();
    match read_all(alloc, language, text, store) {
        Ok(Parsed::Tree(tree)) => Ok(Parsed::Tree(tree)),
        Ok(Parsed::Stopped { at, kind }) => {
            store.truncate(before);
            Ok(Parsed::Stopped { at, kind })
        }
        Err(error) => {
            store.truncate(before);
            Err(error)
        }
    }
}

// Like `parse`, with whatever was built left in the store.
fn read_all(
    alloc: Global,
    language: &Language,
    text: &[u8],
    store: &mut TreeStore,
) -> Result<Parsed, AllocError>
    ensures parsed { IfOk result (IsParsed language.now.language text.now store.new) }
    ensures extends { Extends store.old store.new }
{
    let _tables = language.tables();
    let mut reductions = reductions_for(alloc, language, text.len())?;
    let mut stack = Stack::new(alloc);
    let before = store.len();
    let mut part = text.len() / 16 + SHORT;
    let mut at = 0;
    'leaves: loop {
        match take_leaf(language, &mut reductions, text, &mut stack, store, at)? {
            Round::Goes(after) => at = after,
            Round::Done(parsed) => return Ok(parsed),
        }
        part = make_room(store, before, text.len(), at, part);
    }
}

// Makes room for what a whole text needs, once a part of it is read, by what this part took: memory that grows step by step is moved at
// each step. Answers how much is to be read before it is done again, which is all of the text.
fn make_room(store: &mut TreeStore, before: usize, size: usize, at: usize, part: usize) -> usize
    requires { before ≤ length store.old }
    ensures { store.new ≡ store.old }
{
    if at <= part {
        return part;
    }
    store.make_room(before, size / at);
    size
}
