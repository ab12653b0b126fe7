//! Is a text whole, or at which place is the first thing that can't follow?
//!
//! The loop over a text's tokens; what one token does to the stack is in `machine`.

ghost use Rattle.std.specs.Prelude.{◌≡◌, ◌≤◌, List, length, reverse, IfOk};
ghost use Rattle.wb_text_predictive.specs.declared.reading.Outcome.{Outcome};
ghost use Rattle.wb_text_predictive.specs.declared.table.Placed.{Placed};
ghost use Rattle.wb_text_predictive.specs.Reading.{IsOutcome};
ghost use Rattle.wb_text_predictive.specs.Stack.{Stands, Any};
ghost use Rattle.wb_text_predictive.specs.Inner.Steps.{StepIs, GoesOn};

use crate::machine::{finish, take};
use crate::symbol::Symbol;
use crate::table::{Next, Table};
use std::alloc::{AllocError, Global};

/// What became of a text.
#[derive(Drop)]
pub enum Outcome<V> {
    /// It is a text of the grammar, with these values.
    Whole(V),
    /// It is none. At this place is the first token that can't follow those before it in any text,
    /// or the first bytes that no token begins, or the end of a text that ends too early.
    Stopped { at: usize },
}

// What a step has found.
#[derive(Clone, Copy)]
enum Step {
    // A token, which was taken and ends here.
    Went(usize),
    // The end of a whole text.
    Done,
    // At this place something that can't follow.
    Stuck(usize),
}

// Reads what is next, and takes it if it can follow the tokens before it.
fn advance<T: Table>(
    alloc: Global,
    table: &T,
    text: &[u8],
    from: usize,
    stack: &mut Vec<Symbol<T::Kind, T::Nonterminal, T::Action>>,
    values: &mut T::Values,
) -> Result<Step, AllocError>
    requires { from ≤ length text.now }
    ensures ok { IfOk result (λ step. (first : T.Values) (read : List (Placed T.Token)) →
        Stands T.Kind.eq T.end_kind T.entries T.grammar
        first read (reverse stack.old.items) values.old Any →
        StepIs T.Kind.eq T.end_kind T.entries T.grammar (T.IsNext table.now text.now)
        from first read (reverse stack.new.items) values.new step) }
    ensures progress { IfOk result (λ step. GoesOn from (length text.now) step) }
{
    match table.next(alloc, text, from)? {
        Next::Found(token) => {
            let at = token.at;
            let end = token.end;
            if take(alloc, table, stack, values, token)? {
                Ok(Step::Went(end))
            } else {
                Ok(Step::Stuck(at))
            }
        }
        Next::End { at } => {
            if finish(alloc, table, stack, values)? {
                Ok(Step::Done)
            } else {
                Ok(Step::Stuck(at))
            }
        }
        Next::NoToken { at } => Ok(Step::Stuck(at)),
    }
}

/// Reads a text by a table, beginning with these values.
///
/// It is accepted exactly where its bytes spell tokens that the grammar derives, and the answer has the values that the grammar makes of
/// them, which are the only ones. Else the answer is its one first error. The time is linear in the text: each token costs a number of
/// steps that the table bounds.
pub fn read_all<T: Table>(
    alloc: Global,
    table: &T,
    text: &[u8],
    values: T::Values,
) -> Result<Outcome<T::Values>, AllocError>
    ensures ok { IfOk result (λ outcome. IsOutcome T.grammar (T.IsNext table.now text.now) values outcome) }
    ensures only { (outcome : Outcome T.Values) →
        IsOutcome T.grammar (T.IsNext table.now text.now) values outcome →
        IfOk result (λ found. found ≡ outcome) }
{
    let mut made = values;
    let mut stack = Vec::new(alloc);
    stack.push(Symbol::Nonterminal(table.start()))?;
    let mut from = 0;
    'read: loop {
        match advance(alloc, table, text, from, &mut stack, &mut made)? {
            Step::Went(to) => from = to,
            Step::Done => return Ok(Outcome::Whole(made)),
            Step::Stuck(at) => return Ok(Outcome::Stopped { at }),
        }
    }
}
