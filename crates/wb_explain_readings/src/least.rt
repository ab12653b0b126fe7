//! Which tree of a nonterminal is the least, by its leaves and nodes?
//!
//! Costs go down until none does, as Knuth's generalization of Dijkstra's algorithm would find them.

use crate::symbols::symbol_at;
use std::alloc::{AllocError, Global};
use wb_base::{Grammar, Symbol};

// What the least tree of a nonterminal has at its root, and how many leaves and nodes it has. The largest number where none is known.
#[derive(Clone, Copy)]
pub(crate) struct Choice {
    pub(crate) production: usize,
    pub(crate) cost: usize,
}

// The choices of all nonterminals, by the first productions alone, so many as are given.
pub(crate) fn least_trees(
    alloc: Global,
    grammar: &Grammar,
    productions: usize,
) -> Result<Vec<Choice>, AllocError> {
    let mut choices = Vec::new(alloc);
    'nonterminals: for _ in 0..grammar.nonterminals() {
        choices.push(Choice {
            production: usize::MAX,
            cost: usize::MAX,
        })?;
    }
    'passes: for _ in 0..grammar.nonterminals() {
        if !lowers(grammar, productions, &mut choices) {
            break;
        }
    }
    Ok(choices)
}

// Whether some cost goes down, by going over all productions once.
fn lowers(grammar: &Grammar, productions: usize, choices: &mut Vec<Choice>) -> bool {
    let mut is_lower = false;
    'productions: for production in 0..productions.min(grammar.productions()) {
        let cost = rest_cost(grammar, choices, production, 0).saturating_add(1);
        let left = grammar.left(production);
        if left < choices.len() {
            if cost < choices[left].cost {
                choices[left] = Choice { production, cost };
                is_lower = true;
            }
        }
    }
    is_lower
}

// What the symbols of a production from a place on cost.
pub(crate) fn rest_cost(
    grammar: &Grammar,
    choices: &[Choice],
    production: usize,
    dot: usize,
) -> usize {
    let mut cost: usize = 0;
    'symbols: for place in dot..dot.saturating_add(LONGEST) {
        match symbol_at(grammar, production, place) {
            Some(symbol) => cost = cost.saturating_add(symbol_cost(choices, symbol)),
            None => return cost,
        }
    }
    usize::MAX
}

// What a symbol costs.
fn symbol_cost(choices: &[Choice], symbol: Symbol) -> usize {
    match symbol {
        Symbol::Terminal(_) => 1,
        Symbol::Nonterminal(number) => match choices.get(number) {
            Some(choice) => choice.cost,
            None => usize::MAX,
        },
    }
}

// The most symbols of a right side that are looked at.
const LONGEST: usize = 1_000;
