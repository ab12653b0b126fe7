//! What comes after a stack, so that a text of the start is complete?
//!
//! For each state of the stack and each nonterminal after a dot there, what is after that nonterminal is least, by going over all items
//! until no cost goes down.

use crate::automaton::Dotted;
use crate::least::{Choice, rest_cost};
use crate::pieces::Task;
use crate::stacks::Stacks;
use crate::symbols::{left_of, symbol_at};
use std::alloc::{AllocError, Global};
use wb_base::Symbol;

// The item whose dot is before a nonterminal, and the cost of what is after the nonterminal.
#[derive(Clone, Copy)]
struct Way {
    item: Dotted,
    cost: usize,
}

// A stack with its places from the bottom, and for each place and nonterminal the least way.
#[derive(Drop)]
struct Table {
    width: usize,
    places: Vec<usize>,
    ways: Vec<Way>,
}

// The most states of a stack.
const DEEPEST: usize = 1_000;

// The most passes over the items.
const PASSES: usize = 1_000;

// Appends what completes a stack.
pub(crate) fn push_completion(
    alloc: Global,
    tasks: &mut Vec<Task>,
    stacks: &Stacks<'_>,
    choices: &[Choice],
    stack: usize,
) -> Result<(), AllocError> {
    let mut table = Table {
        width: stacks.grammar.nonterminals(),
        places: Vec::new(alloc),
        ways: Vec::new(alloc),
    };
    let answer = push_by(tasks, stacks, choices, stack, &mut table);
    drop(table);
    answer
}

// The same, with an empty table.
fn push_by(
    tasks: &mut Vec<Task>,
    stacks: &Stacks<'_>,
    choices: &[Choice],
    stack: usize,
    table: &mut Table,
) -> Result<(), AllocError> {
    fill(table, stacks, stack)?;
    'passes: for _ in 0..PASSES {
        if !lowers(table, stacks, choices) {
            break;
        }
    }
    push_ways(tasks, stacks, choices, table)
}

// Lists the places of the stack, and gives the table its size.
fn fill(table: &mut Table, stacks: &Stacks<'_>, stack: usize) -> Result<(), AllocError> {
    let mut place = stack;
    'cells: for _ in 0..DEEPEST {
        table.places.push(place)?;
        if place == 0 {
            break;
        }
        place = stacks.below(place, 1);
    }
    table.places.reverse();
    let count = table.places.len().saturating_mul(table.width);
    'ways: for _ in 0..count {
        table.ways.push(Way {
            item: Dotted {
                production: 0,
                dot: 0,
            },
            cost: usize::MAX,
        })?;
    }
    Ok(())
}

// Where the way for a nonterminal at a depth is in the table.
fn index(table: &Table, depth: usize, nonterminal: usize) -> usize {
    depth
        .saturating_mul(table.width)
        .saturating_add(nonterminal)
}

// What is after an item at a depth, from a dot on, up to the end of the text.
fn cost_from(
    table: &Table,
    stacks: &Stacks<'_>,
    choices: &[Choice],
    depth: usize,
    item: Dotted,
    dot: usize,
) -> usize {
    let rest = rest_cost(stacks.grammar, choices, item.production, dot);
    if item.production >= stacks.grammar.productions() {
        return rest;
    }
    if item.dot > depth {
        return usize::MAX;
    }
    let left = left_of(stacks.grammar, item.production);
    match table.ways.get(index(table, depth - item.dot, left)) {
        Some(way) => rest.saturating_add(way.cost),
        None => usize::MAX,
    }
}

// Whether some cost goes down, by going over all items once.
fn lowers(table: &mut Table, stacks: &Stacks<'_>, choices: &[Choice]) -> bool {
    let mut is_lower = false;
    'depths: for depth in 0..table.places.len() {
        if lowers_at(table, stacks, choices, depth) {
            is_lower = true;
        }
    }
    is_lower
}

// The same at one depth.
fn lowers_at(table: &mut Table, stacks: &Stacks<'_>, choices: &[Choice], depth: usize) -> bool {
    let mut is_lower = false;
    let Some(place) = table.places.get(depth).copied() else {
        return false;
    };
    'items: for number in 0..stacks.count(place) {
        if let Some(item) = stacks.item(place, number) {
            if lowers_by(table, stacks, choices, depth, item) {
                is_lower = true;
            }
        }
    }
    is_lower
}

// The same by one item.
fn lowers_by(
    table: &mut Table,
    stacks: &Stacks<'_>,
    choices: &[Choice],
    depth: usize,
    item: Dotted,
) -> bool {
    let Some(Symbol::Nonterminal(next)) = symbol_at(stacks.grammar, item.production, item.dot)
    else {
        return false;
    };
    let cost = cost_from(
        table,
        stacks,
        choices,
        depth,
        item,
        item.dot.saturating_add(1),
    );
    let at = index(table, depth, next);
    if at < table.ways.len() {
        if cost < table.ways[at].cost {
            table.ways[at] = Way { item, cost };
            return true;
        }
    }
    false
}

// Appends what completes the items on the way from the top to the start.
fn push_ways(
    tasks: &mut Vec<Task>,
    stacks: &Stacks<'_>,
    choices: &[Choice],
    table: &Table,
) -> Result<(), AllocError> {
    let mut depth = table.places.len().saturating_sub(1);
    let Some(mut item) = cheapest(table, stacks, choices, depth) else {
        return Ok(());
    };
    let mut dot = item.dot;
    'items: for _ in 0..DEEPEST {
        push_rest(tasks, stacks, item.production, dot)?;
        if item.production >= stacks.grammar.productions() {
            break;
        }
        if item.dot > depth {
            break;
        }
        tasks.push(Task::Reduce(item.production))?;
        depth -= item.dot;
        let left = left_of(stacks.grammar, item.production);
        let Some(way) = table.ways.get(index(table, depth, left)) else {
            break;
        };
        item = way.item;
        dot = item.dot.saturating_add(1);
    }
    Ok(())
}

// The item on top that costs least.
fn cheapest(
    table: &Table,
    stacks: &Stacks<'_>,
    choices: &[Choice],
    depth: usize,
) -> Option<Dotted> {
    let Some(place) = table.places.get(depth).copied() else {
        return None;
    };
    let mut best = None;
    let mut least = usize::MAX;
    'items: for number in 0..stacks.count(place) {
        if let Some(item) = stacks.item(place, number) {
            let cost = cost_from(table, stacks, choices, depth, item, item.dot);
            if cost < least {
                least = cost;
                best = Some(item);
            }
        }
    }
    best
}

// Appends shifts of the symbols of a production from a dot on.
fn push_rest(
    tasks: &mut Vec<Task>,
    stacks: &Stacks<'_>,
    production: usize,
    dot: usize,
) -> Result<(), AllocError> {
    'symbols: for place in dot..dot.saturating_add(DEEPEST) {
        let Some(symbol) = symbol_at(stacks.grammar, production, place) else {
            break;
        };
        tasks.push(Task::Shift(symbol))?;
    }
    Ok(())
}
