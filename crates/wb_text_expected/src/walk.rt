//! Which symbols may still come after the tokens before a place?
//!
//! A token that begins before the place is taken; the walk ends before the first other one.

ghost use Rattle.std.specs.Prelude.{◌≡◌, ◌≤◌, List, [], length, reverse, IfOk, IsTrue};
ghost use Rattle.wb_text_predictive.specs.declared.table.Placed.{Placed};
ghost use Rattle.wb_text_predictive.specs.Stack.{Any};
ghost use Rattle.wb_text_expected.specs.Inner.Bare.{StandsBare};
ghost use Rattle.wb_text_expected.specs.Inner.Steps.{GoesOn, HasWalked, IsEnded, StepIs};

use crate::machine::take;
use std::alloc::{AllocError, Global};
use wb_text_predictive::{Next, Symbol, Table};

// What a step of the walk has found.
#[derive(Clone, Copy)]
pub(crate) enum Step {
    // A token before the place, which was taken and ends here.
    Went(usize),
    // What is next isn't before the place.
    There,
    // Before the place is something that can't follow.
    Stuck,
}

// Takes the tokens that begin before the place. Answers whether each can follow those before it.
pub(crate) fn walk<T: Table>(
    alloc: Global,
    table: &T,
    text: &[u8],
    at: usize,
    stack: &mut Vec<Symbol<T::Kind, T::Nonterminal, T::Action>>,
) -> Result<bool, AllocError>
    requires { StandsBare T.Kind.eq T.end_kind T.entries T.grammar [] (reverse stack.old.items) Any }
    ensures { IfOk result (λ walked. IsTrue walked →
        HasWalked T.Kind.eq T.end_kind T.entries T.grammar (T.IsNext table.now text.now) at (reverse stack.new.items)) }
{
    let mut from = 0;
    'tokens: loop {
        match advance(alloc, table, text, from, at, stack)? {
            Step::Went(to) => from = to,
            Step::There => return Ok(true),
            Step::Stuck => return Ok(false),
        }
    }
}

// Reads what is next, and takes it if it begins before the place and can follow the tokens before it.
fn advance<T: Table>(
    alloc: Global,
    table: &T,
    text: &[u8],
    from: usize,
    at: usize,
    stack: &mut Vec<Symbol<T::Kind, T::Nonterminal, T::Action>>,
) -> Result<Step, AllocError>
    requires { from ≤ length text.now }
    ensures ok { IfOk result (λ step. (read : List (Placed T.Token)) →
        StandsBare T.Kind.eq T.end_kind T.entries T.grammar read (reverse stack.old.items) Any →
        StepIs T.Kind.eq T.end_kind T.entries T.grammar (T.IsNext table.now text.now)
        from at read (reverse stack.new.items) step) }
    ensures progress { IfOk result (λ step. GoesOn from (length text.now) step) }
{
    match table.next(alloc, text, from)? {
        Next::Found(token) => {
            if token.at >= at {
                return Ok(Step::There);
            }
            let kind = table.kind(&token.token);
            let end = token.end;
            if take(table, stack, kind)? {
                Ok(Step::Went(end))
            } else {
                Ok(Step::Stuck)
            }
        }
        Next::End { at: place } => Ok(ended(place, at)),
        Next::NoToken { at: place } => Ok(ended(place, at)),
    }
}

// What is found where no token is next.
fn ended(place: usize, at: usize) -> Step
    ensures { IsEnded place at result }
{
    if place >= at {
        Step::There
    } else {
        Step::Stuck
    }
}
