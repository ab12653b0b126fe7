//! What does the kind of a token do to the stack of symbols that may still come, the next on top?
//!
//! Actions are passed over, so nothing is made of the tokens. After a kind that can't come the stack may be anything.

ghost use Rattle.std.specs.Prelude.{◌≡◌, List, ◌∷◌, ◌++◌, [], reverse, IfOk, IsTrue, MatchBool, MatchOption, Some, None};
ghost use Rattle.wb_text_predictive.specs.declared.table.Placed.{Placed};
ghost use Rattle.wb_text_predictive.specs.Choice.{choose};
ghost use Rattle.wb_text_predictive.specs.Stack.{Any};
ghost use Rattle.wb_text_expected.specs.Expected.{ComesAfter};
ghost use Rattle.wb_text_expected.specs.Inner.Bare.{StandsBare, bare};
ghost use Rattle.wb_text_expected.specs.Inner.Machine.{TopIs};

use crate::choice::{chosen, push_row};
use std::alloc::{AllocError, Global};
use wb_text_predictive::{Symbol, Table};

// What is on top of the stack once everything before the next token is gone through.
#[derive(Clone, Copy)]
pub(crate) enum Top<K> {
    // A token of this kind, which is taken off the stack.
    Token(K),
    // Nothing: the stack is empty.
    Bottom,
    // A nonterminal that can't go on at the kind ahead.
    Stuck,
}

// The right side by which the nonterminal goes on at the kind.
fn right_at<T: Table>(
    table: &T,
    nonterminal: T::Nonterminal,
    kind: T::Kind,
) -> Option<&[Symbol<T::Kind, T::Nonterminal, T::Action>]>
    ensures { let grammar = T.grammar in let entry = T.entries nonterminal in
        let found = choose T.Kind.eq (grammar.rights nonterminal) entry.kinds kind in
        MatchOption result (found ≡ None) (λ right. found ≡ Some right.now) }
{
    chosen(table.rules(nonterminal), kind)
}

// With this kind ahead, goes through actions and nonterminals until a token is on top or nothing is.
fn expand<T: Table>(
    table: &T,
    stack: &mut Vec<Symbol<T::Kind, T::Nonterminal, T::Action>>,
    kind: T::Kind,
) -> Result<Top<T::Kind>, AllocError>
    ensures ok { IfOk result (λ top. (read : List (Placed T.Token)) →
        StandsBare T.Kind.eq T.end_kind T.entries T.grammar read (reverse stack.old.items) Any →
        TopIs T.Kind.eq T.end_kind T.entries T.grammar kind read (reverse stack.new.items) top) }
{
    'expand: loop {
        match stack.pop() {
            None => return Ok(Top::Bottom),
            Some(Symbol::Token(wanted)) => return Ok(Top::Token(wanted)),
            Some(Symbol::Act(_)) => {}
            Some(Symbol::Nonterminal(nonterminal)) => match right_at(table, nonterminal, kind) {
                None => return Ok(Top::Stuck),
                Some(right) => push_row(stack, right)?,
            },
        }
    }
}

// Takes a token by its kind, if it can follow those before it.
pub(crate) fn take<T: Table>(
    table: &T,
    stack: &mut Vec<Symbol<T::Kind, T::Nonterminal, T::Action>>,
    kind: T::Kind,
) -> Result<bool, AllocError>
    ensures ok { IfOk result (λ took. (read : List (Placed T.Token)) (x : Placed T.Token) →
        let grammar = T.grammar in kind ≡ grammar.kind_of x.token →
        StandsBare T.Kind.eq T.end_kind T.entries T.grammar read (reverse stack.old.items) Any → IsTrue took →
        StandsBare T.Kind.eq T.end_kind T.entries T.grammar (read ++ x ∷ []) (reverse stack.new.items) Any) }
    ensures comes { IfOk result (λ took. (read : List (Placed T.Token)) (first : T.Values) →
        StandsBare T.Kind.eq T.end_kind T.entries T.grammar read (reverse stack.old.items) Any →
        MatchBool took (ComesAfter T.grammar first read kind) (ComesAfter T.grammar first read kind → ⊥)) }
{
    match expand(table, stack, kind)? {
        Top::Token(wanted) => Ok(wanted == kind),
        Top::Bottom => Ok(false),
        Top::Stuck => Ok(false),
    }
}

// Whether a token of the kind can come.
pub(crate) fn comes<T: Table>(
    alloc: Global,
    table: &T,
    stack: &[Symbol<T::Kind, T::Nonterminal, T::Action>],
    kind: T::Kind,
) -> Result<bool, AllocError>
    ensures { IfOk result (λ can. (read : List (Placed T.Token)) (first : T.Values) →
        StandsBare T.Kind.eq T.end_kind T.entries T.grammar read (reverse stack.now) Any →
        MatchBool can (ComesAfter T.grammar first read kind) (ComesAfter T.grammar first read kind → ⊥)) }
{
    let mut copy = Vec::new(alloc);
    let answer = comes_on(table, stack, kind, &mut copy);
    drop(copy);
    answer
}

// The same, by way of an empty list.
fn comes_on<T: Table>(
    table: &T,
    stack: &[Symbol<T::Kind, T::Nonterminal, T::Action>],
    kind: T::Kind,
    copy: &mut Vec<Symbol<T::Kind, T::Nonterminal, T::Action>>,
) -> Result<bool, AllocError>
    requires { copy.old.items ≡ [] }
    ensures { IfOk result (λ can. (read : List (Placed T.Token)) (first : T.Values) →
        StandsBare T.Kind.eq T.end_kind T.entries T.grammar read (reverse stack.now) Any →
        MatchBool can (ComesAfter T.grammar first read kind) (ComesAfter T.grammar first read kind → ⊥)) }
{
    copy.extend_from_slice(stack)?;
    take(table, copy, kind)
}
