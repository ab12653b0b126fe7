//! What does one token do to the stack of symbols that may still come, the next on top?
//!
//! Each step costs one rule, one action or one token, and nothing recurses, so a text may nest as deep as memory allows. Which
//! right side is chosen is in `choice`. After an error the stack and the values may be anything.

ghost use Rattle.std.specs.Prelude.{◌≡◌, List, [], ◌∷◌, ◌++◌, reverse, IfOk, MatchBool, MatchOption, Some, None};
ghost use Rattle.wb_text_predictive.specs.declared.table.Placed.{Placed};
ghost use Rattle.wb_text_predictive.specs.Choice.{choose};
ghost use Rattle.wb_text_predictive.specs.Grammar.{CanStart, IsText};
ghost use Rattle.wb_text_predictive.specs.Inner.Machine.{TopIs};
ghost use Rattle.wb_text_predictive.specs.Stack.{Stands, Any};

use crate::choice::{chosen, push_row};
use crate::symbol::Symbol;
use crate::table::{Placed, Table};
use std::alloc::{AllocError, Global};

/// What is on top of the stack once everything before the next token is gone through.
#[derive(Clone, Copy)]
pub enum Top<K> {
    /// A token of this kind, which is taken off the stack.
    Token(K),
    /// Nothing: the stack is empty.
    Bottom,
    /// A nonterminal that can't go on at the kind ahead.
    Stuck,
}

// The right side by which the nonterminal goes on at the kind.
fn right_at<T: Table>(
    table: &T,
    nonterminal: T::Nonterminal,
    kind: T::Kind,
) -> Option<&[Symbol<T::Kind, T::Nonterminal, T::Action>]>
    ensures { let grammar = T.grammar in let entry = T.entries nonterminal in
        let found = choose T.Kind.eq (grammar.rights nonterminal) entry.kinds kind in
        MatchOption result (found ≡ None) (λ right. found ≡ Some right.now) }
{
    chosen(table.rules(nonterminal), kind)
}

// With this kind ahead, goes through actions and nonterminals until a token is on top or nothing is.
fn expand<T: Table>(
    alloc: Global,
    table: &T,
    stack: &mut Vec<Symbol<T::Kind, T::Nonterminal, T::Action>>,
    values: &mut T::Values,
    kind: T::Kind,
) -> Result<Top<T::Kind>, AllocError>
    ensures ok { IfOk result (λ top. (first : T.Values) (read : List (Placed T.Token)) →
        Stands T.Kind.eq T.end_kind T.entries T.grammar
        first read (reverse stack.old.items) values.old Any →
        TopIs T.Kind.eq T.end_kind T.entries T.grammar
        kind first read (reverse stack.new.items) values.new top) }
{
    'expand: loop {
        match stack.pop() {
            None => return Ok(Top::Bottom),
            Some(Symbol::Token(wanted)) => return Ok(Top::Token(wanted)),
            Some(Symbol::Act(action)) => table.act(alloc, action, values)?,
            Some(Symbol::Nonterminal(nonterminal)) => match right_at(table, nonterminal, kind) {
                None => return Ok(Top::Stuck),
                Some(right) => push_row(stack, right)?,
            },
        }
    }
}

/// Takes a token, if it can follow those before it.
pub fn take<T: Table>(
    alloc: Global,
    table: &T,
    stack: &mut Vec<Symbol<T::Kind, T::Nonterminal, T::Action>>,
    values: &mut T::Values,
    token: Placed<T::Token>,
) -> Result<bool, AllocError>
    ensures ok { IfOk result (λ took. (first : T.Values) (read : List (Placed T.Token)) →
        Stands T.Kind.eq T.end_kind T.entries T.grammar
        first read (reverse stack.old.items) values.old Any →
        MatchBool took
        (Stands T.Kind.eq T.end_kind T.entries T.grammar
        first (read ++ token ∷ []) (reverse stack.new.items) values.new Any)
        (CanStart T.grammar first (read ++ token ∷ []) → ⊥)) }
{
    let kind = table.kind(&token.token);
    match expand(alloc, table, stack, values, kind)? {
        Top::Token(wanted) => {
            if wanted == kind {
                let Placed { token, at, end } = token;
                table.shift(alloc, token, at, end, values)?;
                Ok(true)
            } else {
                Ok(false)
            }
        }
        Top::Bottom => Ok(false),
        Top::Stuck => Ok(false),
    }
}

/// Whether the tokens that were taken are a text; then the values are those of the text.
pub fn finish<T: Table>(
    alloc: Global,
    table: &T,
    stack: &mut Vec<Symbol<T::Kind, T::Nonterminal, T::Action>>,
    values: &mut T::Values,
) -> Result<bool, AllocError>
    ensures ok { IfOk result (λ ended. (first : T.Values) (read : List (Placed T.Token)) →
        Stands T.Kind.eq T.end_kind T.entries T.grammar
        first read (reverse stack.old.items) values.old Any →
        MatchBool ended
        (IsText T.grammar first read values.new)
        ((last : T.Values) → IsText T.grammar first read last → ⊥)) }
{
    match expand(alloc, table, stack, values, table.end())? {
        Top::Token(_) => Ok(false),
        Top::Bottom => Ok(true),
        Top::Stuck => Ok(false),
    }
}
