//! After which symbols can the conflict's terminal follow the production that is reduced?
//!
//! The symbols of a refusal lead to the conflict's state, but the terminal may only follow after others that lead there too. A
//! breadth-first search over states and their items finds the nearest, where it is kept with each item whether the terminal can follow it.

use crate::automaton::{Automaton, Dotted};
use crate::first::{Begin, begins_of, follows_after};
use crate::symbols::{left_of, symbol_at};
use std::alloc::{AllocError, Global};
use wb_base::{Grammar, Symbol};

// An item of a state, whether the terminal can follow it, and what led there: the visit before, and the symbol that was gone over.
#[derive(Clone, Copy)]
struct Visit {
    parent: usize,
    symbol: Option<Symbol>,
    state: usize,
    place: usize,
    follows: bool,
}

// What is looked for: a state, a production that ends there, and a terminal that follows it.
#[derive(Clone, Copy)]
pub(crate) struct Target {
    pub(crate) state: usize,
    pub(crate) production: usize,
    pub(crate) terminal: usize,
}

// The visits, and which items were visited, by their places among all items.
#[derive(Drop)]
struct Visits {
    list: Vec<Visit>,
    seen: Vec<bool>,
}

// The most visits.
const MOST: usize = 1_000_000;

// Puts the symbols into an empty list, where they are found.
pub(crate) fn put_prefix(
    alloc: Global,
    grammar: &Grammar,
    automaton: &mut Automaton,
    target: Target,
    prefix: &mut Vec<Symbol>,
) -> Result<bool, AllocError> {
    let begins = begins_of(alloc, grammar, target.terminal)?;
    let mut visits = Visits {
        list: Vec::new(alloc),
        seen: Vec::new(alloc),
    };
    let answer = match found_visit(grammar, automaton, target, &begins, &mut visits) {
        Ok(Some(place)) => put_symbols(&visits.list, place, prefix),
        Ok(None) => Ok(false),
        Err(error) => Err(error),
    };
    drop(visits);
    drop(begins);
    answer
}

// Puts the symbols on the way to a visit.
fn put_symbols(
    visits: &[Visit],
    place: usize,
    prefix: &mut Vec<Symbol>,
) -> Result<bool, AllocError> {
    let mut at = place;
    'visits: for _ in 0..visits.len() {
        let Some(visit) = visits.get(at) else {
            break;
        };
        if let Some(symbol) = visit.symbol {
            prefix.push(symbol)?;
        }
        if at == 0 {
            break;
        }
        at = visit.parent;
    }
    prefix.reverse();
    Ok(true)
}

// The visit of the target.
fn found_visit(
    grammar: &Grammar,
    automaton: &mut Automaton,
    target: Target,
    begins: &[Begin],
    visits: &mut Visits,
) -> Result<Option<usize>, AllocError> {
    visits.list.push(Visit {
        parent: 0,
        symbol: None,
        state: 0,
        place: 0,
        follows: target.terminal >= grammar.terminals(),
    })?;
    'visits: for number in 0..MOST {
        let Some(visit) = visits.list.get(number).copied() else {
            break;
        };
        let Some(item) = automaton.item(visit.state, visit.place) else {
            break;
        };
        match symbol_at(grammar, item.production, item.dot) {
            Some(symbol) => {
                move_over(grammar, automaton, visits, number, visit, symbol)?;
                if let Symbol::Nonterminal(next) = symbol {
                    let follows = follows_after(
                        grammar,
                        begins,
                        target.terminal,
                        item,
                        visit.follows,
                    );
                    open(grammar, automaton, visits, number, next, follows)?;
                }
            }
            None => {
                if visit.follows
                    && visit.state == target.state
                    && item.production == target.production
                {
                    return Ok(Some(number));
                }
            }
        }
    }
    Ok(None)
}

// Visits the item with its dot one symbol further.
fn move_over(
    grammar: &Grammar,
    automaton: &mut Automaton,
    visits: &mut Visits,
    parent: usize,
    visit: Visit,
    symbol: Symbol,
) -> Result<(), AllocError> {
    let Some(item) = automaton.item(visit.state, visit.place) else {
        return Ok(());
    };
    let Some(state) = automaton.after(grammar, visit.state, symbol)? else {
        return Ok(());
    };
    let moved = Dotted {
        production: item.production,
        dot: item.dot.saturating_add(1),
    };
    'items: for place in 0..automaton.count(state) {
        if is_item(automaton, state, place, moved) {
            let next = Visit {
                parent,
                symbol: Some(symbol),
                state,
                place,
                follows: visit.follows,
            };
            return add(automaton, visits, next);
        }
    }
    Ok(())
}

// Whether an item of a state is this one.
fn is_item(automaton: &Automaton, state: usize, place: usize, item: Dotted) -> bool {
    match automaton.item(state, place) {
        Some(found) => found.production == item.production && found.dot == item.dot,
        None => false,
    }
}

// Visits the initial items of a nonterminal.
fn open(
    grammar: &Grammar,
    automaton: &Automaton,
    visits: &mut Visits,
    parent: usize,
    nonterminal: usize,
    follows: bool,
) -> Result<(), AllocError> {
    let Some(visit) = visits.list.get(parent).copied() else {
        return Ok(());
    };
    'items: for place in 0..automaton.count(visit.state) {
        if let Some(item) = automaton.item(visit.state, place) {
            if item.dot == 0
                && item.production < grammar.productions()
                && left_of(grammar, item.production) == nonterminal
            {
                let next = Visit {
                    parent,
                    symbol: None,
                    state: visit.state,
                    place,
                    follows,
                };
                add(automaton, visits, next)?;
            }
        }
    }
    Ok(())
}

// Adds a visit, where the item wasn't visited so.
fn add(automaton: &Automaton, visits: &mut Visits, visit: Visit) -> Result<(), AllocError> {
    let index = automaton
        .index(visit.state, visit.place)
        .saturating_mul(2)
        .saturating_add(if visit.follows { 1 } else { 0 });
    if index > MOST {
        return Ok(());
    }
    'flags: for _ in visits.seen.len()..index.saturating_add(1) {
        visits.seen.push(false)?;
    }
    if index >= visits.seen.len() {
        return Ok(());
    }
    if visits.seen[index] {
        return Ok(());
    }
    visits.seen[index] = true;
    visits.list.push(visit)?;
    Ok(())
}
