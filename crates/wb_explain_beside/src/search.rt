//! Where is something after a nonterminal of the host that the host never has there?

use crate::sets::{can_begin, has, last};
use crate::told::{Sets, Side, Told};
use std::alloc::{AllocError, Global};
use wb_base::{Grammar, Symbol};

// The most places that are shown.
const MOST: usize = 5;

// The places in the extension's own productions, up to five.
pub(crate) fn sides(
    alloc: Global,
    told: &Told<'_>,
    sets: &Sets<'_>,
) -> Result<Vec<Side>, AllocError> {
    let mut found = Vec::new(alloc);
    'productions: for production in told.host.productions()..told.grammar.productions() {
        push_sides(&mut found, told, sets, production)?;
    }
    Ok(found)
}

// Appends those of a production.
fn push_sides(
    found: &mut Vec<Side>,
    told: &Told<'_>,
    sets: &Sets<'_>,
    production: usize,
) -> Result<(), AllocError> {
    'parts: for part in 0..length_of(told.grammar, production) {
        if let Some(side) = side_at(told.grammar, production, part) {
            if side.nonterminal < told.host.nonterminals() && found.len() < MOST {
                if new_after(sets, side).is_some() {
                    found.push(side)?;
                }
            }
        }
    }
    Ok(())
}

// How many symbols a right side has.
fn length_of(grammar: &Grammar, production: usize) -> usize {
    if production < grammar.productions() {
        return grammar.right(production).len();
    }
    0
}

// The nonterminal that is this part, with what is behind it.
fn side_at(grammar: &Grammar, production: usize, part: usize) -> Option<Side> {
    if production >= grammar.productions() {
        return None;
    }
    let right = grammar.right(production);
    match right.get(part) {
        Some(Symbol::Nonterminal(nonterminal)) => match right.get(part.saturating_add(1)) {
            Some(behind) => Some(Side {
                production,
                part,
                nonterminal: *nonterminal,
                behind: *behind,
            }),
            None => None,
        },
        _ => None,
    }
}

// The first terminal that can come here after the nonterminal, and in the host never does.
pub(crate) fn new_after(sets: &Sets<'_>, side: Side) -> Option<usize> {
    'terminals: for terminal in 0..last(sets.firsts) {
        if can_begin(sets.firsts, side.behind, terminal) {
            if !has(sets.follows, side.nonterminal, terminal) {
                return Some(terminal);
            }
        }
    }
    None
}

// Whether the host has after a nonterminal all that it has after another.
pub(crate) fn has_all(sets: &Sets<'_>, nonterminal: usize, other: usize) -> bool {
    'terminals: for terminal in 0..last(sets.follows).saturating_add(1) {
        if has(sets.follows, other, terminal) {
            if !has(sets.follows, nonterminal, terminal) {
                return false;
            }
        }
    }
    true
}

// An extensible nonterminal that stands in the host right behind this one.
pub(crate) fn extensible_after(
    host: &Grammar,
    extensible: &[usize],
    nonterminal: usize,
) -> Option<usize> {
    'numbers: for &number in extensible {
        if stands_after(host, nonterminal, number) {
            return Some(number);
        }
    }
    None
}

// Whether a nonterminal stands in the host right behind another.
fn stands_after(host: &Grammar, nonterminal: usize, number: usize) -> bool {
    'productions: for production in 0..host.productions() {
        if stands_in(host.right(production), nonterminal, number) {
            return true;
        }
    }
    false
}

// Whether it stands so in a right side.
fn stands_in(right: &[Symbol], nonterminal: usize, number: usize) -> bool {
    let mut is_behind = false;
    'symbols: for &symbol in right {
        if is_behind {
            if symbol == Symbol::Nonterminal(number) {
                return true;
            }
        }
        is_behind = symbol == Symbol::Nonterminal(nonterminal);
    }
    false
}
