//! Which two trees show what a conflict is about?
//!
//! Two parsers take its two actions at the prefix and go on until they meet; then any end completes both. Where they aren't seen to meet,
//! each is completed by itself after the conflict's terminal.

ghost use Rattle.std.specs.Prelude.{IfOk, IfSome};
ghost use Rattle.wb_explain_readings.specs.Readings.{AreReadings};

use crate::Piece;
use crate::completion::push_completion;
use crate::found::{Found, is_true};
use crate::least::{Choice, least_trees};
use crate::pieces::{Task, put_pieces};
use crate::prefix::{Target, put_prefix};
use crate::search::{Outcome, Pair, Step, search};
use crate::stacks::Stacks;
use crate::text::put_terminals;
use std::alloc::{AllocError, Global};
use wb_base::{Grammar, Sequence, Symbol};

/// What a parser can do at a conflict.
#[derive(Clone, Copy)]
pub enum Turn {
    /// It shifts the terminal.
    Shift,
    /// It reduces by the production of this number.
    Reduce(usize),
    /// It accepts the text.
    Accept,
}

/// A conflict: after the prefix both can be done on the terminal, or on the end of a text.
#[derive(Clone, Copy)]
pub struct Conflict<'a> {
    /// The symbols before it.
    pub prefix: &'a [Symbol],
    /// The terminal.
    pub terminal: usize,
    /// What can be done.
    pub first: Turn,
    /// What can be done too.
    pub second: Turn,
}

/// Two derivation trees that part at a conflict: of one text, where one is found, and else of two texts that begin alike.
///
/// Trees of nonterminals that don't matter are made of the first productions alone, so many as are given. That nothing is found says
/// nothing: no more than 100,000 pairs of stacks are looked at. The only error is out of memory.
pub fn readings(
    alloc: Global,
    grammar: &Grammar,
    productions: usize,
    conflict: &Conflict<'_>,
) -> Result<Option<Found>, AllocError>
    ensures { IfOk result (λ made. IfSome made (AreReadings grammar.now)) }
{
    let mut made = Made {
        is_whole: false,
        text: Vec::new(alloc),
        first: Vec::new(alloc),
        second: Vec::new(alloc),
    };
    match fill(alloc, grammar, productions, conflict, &mut made) {
        Ok(()) => checked(alloc, grammar, found_of(made)),
        Err(error) => {
            drop(made);
            Err(error)
        }
    }
}

// What is found, where it is true.
fn checked(alloc: Global, grammar: &Grammar, found: Found) -> Result<Option<Found>, AllocError>
    ensures { IfOk result (λ made. IfSome made (AreReadings grammar.now)) }
{
    match is_true(alloc, grammar, &found) {
        Ok(is) => {
            if is {
                return Ok(Some(found));
            }
            drop(found);
            Ok(None)
        }
        Err(error) => {
            drop(found);
            Err(error)
        }
    }
}

// What is found, while it is made.
#[derive(Drop)]
struct Made {
    is_whole: bool,
    text: Vec<usize>,
    first: Vec<Piece>,
    second: Vec<Piece>,
}

// The same as a value that contracts compare.
fn found_of(made: Made) -> Found {
    let Made {
        is_whole,
        text,
        first,
        second,
    } = made;
    Found {
        is_whole,
        text: Sequence::from_vec(text),
        first: Sequence::from_vec(first),
        second: Sequence::from_vec(second),
    }
}

// Looks for it, and puts it into what is empty.
fn fill(
    alloc: Global,
    grammar: &Grammar,
    productions: usize,
    conflict: &Conflict<'_>,
    made: &mut Made,
) -> Result<(), AllocError> {
    let choices = least_trees(alloc, grammar, productions)?;
    let mut stacks = Stacks::new(alloc, grammar);
    let answer = fill_by(alloc, conflict, &choices, &mut stacks, made);
    drop(stacks);
    drop(choices);
    answer
}

// The same, with the least trees of nonterminals and no stacks.
fn fill_by(
    alloc: Global,
    conflict: &Conflict<'_>,
    choices: &[Choice],
    stacks: &mut Stacks<'_>,
    made: &mut Made,
) -> Result<(), AllocError> {
    let mut prefix = Vec::new(alloc);
    let answer = match put_nearest(alloc, conflict, stacks, &mut prefix) {
        Ok(()) => {
            let nearer = Conflict {
                prefix: &prefix,
                terminal: conflict.terminal,
                first: conflict.first,
                second: conflict.second,
            };
            fill_after(alloc, &nearer, choices, stacks, made)
        }
        Err(error) => Err(error),
    };
    drop(prefix);
    answer
}

// Puts the nearest symbols after which the terminal can follow into an empty list.
fn put_nearest(
    alloc: Global,
    conflict: &Conflict<'_>,
    stacks: &mut Stacks<'_>,
    prefix: &mut Vec<Symbol>,
) -> Result<(), AllocError> {
    stacks.begin()?;
    let stack = stack_after(stacks, conflict.prefix)?;
    let target = Target {
        state: stacks.state(stack),
        production: reduced_by(conflict),
        terminal: conflict.terminal,
    };
    if put_prefix(alloc, stacks.grammar, &mut stacks.automaton, target, prefix)? {
        return Ok(());
    }
    prefix.extend_from_slice(conflict.prefix)?;
    Ok(())
}

// The production that is reduced, the first of two.
fn reduced_by(conflict: &Conflict<'_>) -> usize {
    match conflict.first {
        Turn::Reduce(production) => production,
        _ => match conflict.second {
            Turn::Reduce(production) => production,
            _ => usize::MAX,
        },
    }
}

// The stack after symbols.
fn stack_after(stacks: &mut Stacks<'_>, symbols: &[Symbol]) -> Result<usize, AllocError> {
    let mut stack = 0;
    'symbols: for &symbol in symbols {
        match stacks.pushed(stack, symbol)? {
            Some(next) => stack = next,
            None => break,
        }
    }
    Ok(stack)
}

// The same, where the terminal can follow after the prefix.
fn fill_after(
    alloc: Global,
    conflict: &Conflict<'_>,
    choices: &[Choice],
    stacks: &mut Stacks<'_>,
    made: &mut Made,
) -> Result<(), AllocError> {
    let mut pairs = Vec::new(alloc);
    let answer = match found_pairs(conflict, stacks, &mut pairs) {
        Ok(outcome) => {
            let ended = Ended {
                conflict,
                choices,
                stacks,
                pairs: &pairs,
            };
            put_outcome(alloc, &ended, outcome, made)
        }
        Err(error) => Err(error),
    };
    drop(pairs);
    answer
}

// Looks for the pairs of stacks.
fn found_pairs(
    conflict: &Conflict<'_>,
    stacks: &mut Stacks<'_>,
    pairs: &mut Vec<Pair>,
) -> Result<Outcome, AllocError> {
    let stack = stack_after(stacks, conflict.prefix)?;
    pairs.push(Pair {
        parent: 0,
        step: Step::Begin,
        first: stack,
        second: stack,
        is_second: true,
        is_shifted: false,
    })?;
    turn_first(stacks, pairs, conflict.first)?;
    turn_second(stacks, pairs, conflict.second)?;
    search(stacks, pairs, conflict.terminal)
}

// The first does what it can do.
fn turn_first(
    stacks: &mut Stacks<'_>,
    pairs: &mut Vec<Pair>,
    turn: Turn,
) -> Result<(), AllocError> {
    let Turn::Reduce(production) = turn else {
        return Ok(());
    };
    let place = pairs.len().saturating_sub(1);
    let Some(pair) = pairs.get(place).copied() else {
        return Ok(());
    };
    if let Some(first) = stacks.reduced(pair.first, production)? {
        pairs.push(Pair {
            parent: place,
            step: Step::First(production),
            first,
            second: pair.second,
            is_second: false,
            is_shifted: false,
        })?;
    }
    Ok(())
}

// The second does.
fn turn_second(
    stacks: &mut Stacks<'_>,
    pairs: &mut Vec<Pair>,
    turn: Turn,
) -> Result<(), AllocError> {
    let Turn::Reduce(production) = turn else {
        return Ok(());
    };
    let place = pairs.len().saturating_sub(1);
    let Some(pair) = pairs.get(place).copied() else {
        return Ok(());
    };
    if let Some(second) = stacks.reduced(pair.second, production)? {
        pairs.push(Pair {
            parent: place,
            step: Step::Second(production),
            first: pair.first,
            second,
            is_second: pair.is_second,
            is_shifted: false,
        })?;
    }
    Ok(())
}

// A search that ended, and what it went by.
#[derive(Clone, Copy)]
struct Ended<'a> {
    conflict: &'a Conflict<'a>,
    choices: &'a [Choice],
    stacks: &'a Stacks<'a>,
    pairs: &'a [Pair],
}

// Puts what is written of where it ended.
fn put_outcome(
    alloc: Global,
    ended: &Ended<'_>,
    outcome: Outcome,
    made: &mut Made,
) -> Result<(), AllocError> {
    made.is_whole = outcome.met.is_some();
    match outcome.met {
        Some(place) => {
            put_trees(alloc, ended, place, made)?;
            put_terminals(&mut made.text, &made.first)
        }
        None => match outcome.apart {
            Some(place) => {
                put_trees(alloc, ended, place, made)?;
                put_begin(alloc, ended, made)
            }
            None => Ok(()),
        },
    }
}

// Puts both trees of a pair.
fn put_trees(
    alloc: Global,
    ended: &Ended<'_>,
    place: usize,
    made: &mut Made,
) -> Result<(), AllocError> {
    put_tree(alloc, ended, place, true, &mut made.first)?;
    put_tree(alloc, ended, place, false, &mut made.second)
}

// Puts one of them into an empty list.
fn put_tree(
    alloc: Global,
    ended: &Ended<'_>,
    place: usize,
    is_first: bool,
    pieces: &mut Vec<Piece>,
) -> Result<(), AllocError> {
    let mut tasks = Vec::new(alloc);
    let answer = put_by(alloc, ended, place, is_first, &mut tasks, pieces);
    drop(tasks);
    answer
}

// The same, with no tasks yet.
fn put_by(
    alloc: Global,
    ended: &Ended<'_>,
    place: usize,
    is_first: bool,
    tasks: &mut Vec<Task>,
    pieces: &mut Vec<Piece>,
) -> Result<(), AllocError> {
    let Some(pair) = ended.pairs.get(place).copied() else {
        return Ok(());
    };
    push_steps(ended.pairs, place, is_first, tasks)?;
    push_prefix(ended.conflict.prefix, tasks)?;
    tasks.reverse();
    let stack = if is_first { pair.first } else { pair.second };
    push_completion(alloc, tasks, ended.stacks, ended.choices, stack)?;
    put_pieces(alloc, ended.stacks.grammar, ended.choices, tasks, pieces)
}

// Appends what one of the two did from the conflict to a pair, the last first.
fn push_steps(
    pairs: &[Pair],
    place: usize,
    is_first: bool,
    tasks: &mut Vec<Task>,
) -> Result<(), AllocError> {
    let mut at = place;
    'pairs: for _ in 0..pairs.len() {
        let Some(pair) = pairs.get(at) else {
            break;
        };
        match pair.step {
            Step::Begin => break,
            Step::Shift(symbol) => tasks.push(Task::Shift(symbol))?,
            Step::First(production) => {
                if is_first {
                    tasks.push(Task::Reduce(production))?;
                }
            }
            Step::Second(production) => {
                if !is_first {
                    tasks.push(Task::Reduce(production))?;
                }
            }
        }
        at = pair.parent;
    }
    Ok(())
}

// Appends shifts of the symbols before the conflict, the last first.
fn push_prefix(prefix: &[Symbol], tasks: &mut Vec<Task>) -> Result<(), AllocError> {
    'symbols: for after in 0..prefix.len() {
        tasks.push(Task::Shift(prefix[prefix.len() - 1 - after]))?;
    }
    Ok(())
}

// Puts the terminals up to the conflict's, which both trees begin with.
fn put_begin(alloc: Global, ended: &Ended<'_>, made: &mut Made) -> Result<(), AllocError> {
    let count = prefix_length(alloc, ended)?.saturating_add(1);
    put_terminals(&mut made.text, &made.first)?;
    made.text.truncate(count);
    Ok(())
}

// How many terminals are before the conflict.
fn prefix_length(alloc: Global, ended: &Ended<'_>) -> Result<usize, AllocError> {
    let mut count: usize = 0;
    'symbols: for &symbol in ended.conflict.prefix {
        count = count.saturating_add(least_length(alloc, ended, symbol)?);
    }
    Ok(count)
}

// How many terminals the least tree of a symbol has.
fn least_length(alloc: Global, ended: &Ended<'_>, symbol: Symbol) -> Result<usize, AllocError> {
    let mut pieces = Vec::new(alloc);
    let tasks = [Task::Shift(symbol)];
    let answer = put_pieces(
        alloc,
        ended.stacks.grammar,
        ended.choices,
        &tasks,
        &mut pieces,
    );
    let count = leaf_count(&pieces);
    drop(pieces);
    match answer {
        Ok(()) => Ok(count),
        Err(error) => Err(error),
    }
}

// How many leaves there are.
fn leaf_count(pieces: &[Piece]) -> usize {
    let mut count: usize = 0;
    'pieces: for piece in pieces {
        if let Piece::Leaf(_) = piece {
            count = count.saturating_add(1);
        }
    }
    count
}
