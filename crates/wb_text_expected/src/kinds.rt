//! Which of some kinds can come at a place?

ghost use Rattle.std.specs.Prelude.{◌≡◌, [], List, reverse, IfOk, IfSome, OnOk};
ghost use Rattle.wb_text_predictive.specs.declared.table.Placed.{Placed};
ghost use Rattle.wb_text_predictive.specs.Stack.{Any};
ghost use Rattle.wb_text_expected.specs.Expected.{AreExpected, AreThose, ComesAfter};
ghost use Rattle.wb_text_expected.specs.Inner.Added.{Adds};
ghost use Rattle.wb_text_expected.specs.Inner.Bare.{StandsBare};

use crate::machine::comes;
use crate::walk::walk;
use std::alloc::{AllocError, Global};
use wb_text_predictive::{Symbol, Table};

/// Those of the kinds of which a token can come at a place of a text, after the tokens that begin before it. None where these begin no text
/// of the format by themselves.
///
/// The text is read up to the place once, and no values are made of it. A kind costs the symbols that may still come. The kinds come in the
/// order in which they are asked for. The only error is out of memory.
pub fn expected<T: Table>(
    alloc: Global,
    table: &T,
    text: &[u8],
    at: usize,
    kinds: &[T::Kind],
) -> Result<Option<Vec<T::Kind>>, AllocError>
    ensures { (first : T.Values) → IfOk result (λ found. IfSome found (λ listed.
        AreExpected T.grammar (T.IsNext table.now text.now) first at kinds.now listed.items)) }
{
    let mut stack = Vec::new(alloc);
    let answer = with_stack(alloc, table, text, at, kinds, &mut stack);
    drop(stack);
    answer
}

// The same, by way of an empty stack.
fn with_stack<T: Table>(
    alloc: Global,
    table: &T,
    text: &[u8],
    at: usize,
    kinds: &[T::Kind],
    stack: &mut Vec<Symbol<T::Kind, T::Nonterminal, T::Action>>,
) -> Result<Option<Vec<T::Kind>>, AllocError>
    requires { stack.old.items ≡ [] }
    ensures { (first : T.Values) → IfOk result (λ found. IfSome found (λ listed.
        AreExpected T.grammar (T.IsNext table.now text.now) first at kinds.now listed.items)) }
{
    stack.push(Symbol::Nonterminal(table.start()))?;
    if walk(alloc, table, text, at, stack)? {
        let listed = listed(alloc, table, stack, kinds)?;
        Ok(Some(listed))
    } else {
        Ok(None)
    }
}

// Those of the kinds of which a token can come.
fn listed<T: Table>(
    alloc: Global,
    table: &T,
    stack: &[Symbol<T::Kind, T::Nonterminal, T::Action>],
    kinds: &[T::Kind],
) -> Result<Vec<T::Kind>, AllocError>
    ensures { IfOk result (λ listed. (read : List (Placed T.Token)) (first : T.Values) →
        StandsBare T.Kind.eq T.end_kind T.entries T.grammar read (reverse stack.now) Any →
        AreThose (ComesAfter T.grammar first read) kinds.now listed.items) }
{
    let mut out = Vec::new(alloc);
    match add_all(alloc, table, stack, kinds, &mut out) {
        Ok(()) => Ok(out),
        Err(error) => {
            drop(out);
            Err(error)
        }
    }
}

// Adds them to an empty list.
fn add_all<T: Table>(
    alloc: Global,
    table: &T,
    stack: &[Symbol<T::Kind, T::Nonterminal, T::Action>],
    kinds: &[T::Kind],
    out: &mut Vec<T::Kind>,
) -> Result<(), AllocError>
    requires { out.old.items ≡ [] }
    ensures { OnOk result ((read : List (Placed T.Token)) (first : T.Values) →
        StandsBare T.Kind.eq T.end_kind T.entries T.grammar read (reverse stack.now) Any →
        AreThose (ComesAfter T.grammar first read) kinds.now out.new.items) }
{
    'kinds: for kind in kinds {
        add(alloc, table, stack, out, *kind)?;
    }
    Ok(())
}

// Adds a kind, where a token of it can come.
fn add<T: Table>(
    alloc: Global,
    table: &T,
    stack: &[Symbol<T::Kind, T::Nonterminal, T::Action>],
    out: &mut Vec<T::Kind>,
    kind: T::Kind,
) -> Result<(), AllocError>
    ensures { OnOk result ((read : List (Placed T.Token)) (first : T.Values) →
        StandsBare T.Kind.eq T.end_kind T.entries T.grammar read (reverse stack.now) Any →
        Adds (ComesAfter T.grammar first read) kind out.old.items out.new.items) }
{
    if comes(alloc, table, stack, kind)? {
        out.push(kind)?;
    }
    Ok(())
}
