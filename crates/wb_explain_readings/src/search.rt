//! Where do two parsers meet again that took the two actions of a conflict?
//!
//! A breadth-first search over pairs of stacks: both shift the same symbols, and each reduces as it likes. A nonterminal is shifted as a
//! whole.

use crate::stacks::Stacks;
use crate::symbols::symbol_at;
use std::alloc::AllocError;
use wb_base::Symbol;

// What leads from one pair to the next.
#[derive(Clone, Copy)]
pub(crate) enum Step {
    // Nothing.
    Begin,
    // Both shift this symbol.
    Shift(Symbol),
    // The first reduces by this production.
    First(usize),
    // The second does.
    Second(usize),
}

// A pair of stacks, and what led there from which pair. After a reduction of the second the first doesn't reduce before both shift.
#[derive(Clone, Copy)]
pub(crate) struct Pair {
    pub(crate) parent: usize,
    pub(crate) step: Step,
    pub(crate) first: usize,
    pub(crate) second: usize,
    pub(crate) is_second: bool,
    pub(crate) is_shifted: bool,
}

// Where stacks are equal again, and where both first shift the conflict's terminal.
#[derive(Clone, Copy)]
pub(crate) struct Outcome {
    pub(crate) met: Option<usize>,
    pub(crate) apart: Option<usize>,
}

// The most pairs that are made.
const MOST: usize = 100_000;

// Looks for a pair of equal stacks, from the last of these pairs on.
pub(crate) fn search(
    stacks: &mut Stacks<'_>,
    pairs: &mut Vec<Pair>,
    terminal: usize,
) -> Result<Outcome, AllocError> {
    let mut apart = None;
    'pairs: for place in pairs.len().saturating_sub(1)..MOST {
        let Some(pair) = pairs.get(place).copied() else {
            break;
        };
        let before = pairs.len();
        if before > MOST {
            break;
        }
        expand(stacks, pairs, place, pair, terminal)?;
        if apart.is_none() {
            apart = shifted_from(pairs, before);
        }
        let met = met_from(stacks, pairs, before);
        if met.is_some() {
            return Ok(Outcome { met, apart });
        }
    }
    Ok(Outcome { met: None, apart })
}

// The first pair from this place on whose stacks are equal.
fn met_from(stacks: &Stacks<'_>, pairs: &[Pair], from: usize) -> Option<usize> {
    'pairs: for place in from..pairs.len() {
        let pair = pairs[place];
        if stacks.are_equal(pair.first, pair.second) {
            return Some(place);
        }
    }
    None
}

// The first pair from this place on after a shift.
fn shifted_from(pairs: &[Pair], from: usize) -> Option<usize> {
    'pairs: for place in from..pairs.len() {
        if pairs[place].is_shifted {
            return Some(place);
        }
    }
    None
}

// Adds the pairs after one.
fn expand(
    stacks: &mut Stacks<'_>,
    pairs: &mut Vec<Pair>,
    place: usize,
    pair: Pair,
    terminal: usize,
) -> Result<(), AllocError> {
    if !pair.is_second {
        reduce_first(stacks, pairs, place, pair)?;
    }
    reduce_second(stacks, pairs, place, pair)?;
    if pair.is_shifted {
        return shift_all(stacks, pairs, place, pair);
    }
    if terminal < stacks.grammar.terminals() {
        return shift(stacks, pairs, place, pair, Symbol::Terminal(terminal));
    }
    Ok(())
}

// The production by which an item of a stack's top reduces.
pub(crate) fn reduction(stacks: &Stacks<'_>, stack: usize, item: usize) -> Option<usize> {
    let Some(found) = stacks.item(stack, item) else {
        return None;
    };
    if found.production >= stacks.grammar.productions() {
        return None;
    }
    match symbol_at(stacks.grammar, found.production, found.dot) {
        Some(_) => None,
        None => Some(found.production),
    }
}

// Adds the pairs after reductions of the first.
fn reduce_first(
    stacks: &mut Stacks<'_>,
    pairs: &mut Vec<Pair>,
    place: usize,
    pair: Pair,
) -> Result<(), AllocError> {
    'items: for item in 0..stacks.count(pair.first) {
        if let Some(production) = reduction(stacks, pair.first, item) {
            if let Some(first) = stacks.reduced(pair.first, production)? {
                pairs.push(Pair {
                    parent: place,
                    step: Step::First(production),
                    first,
                    second: pair.second,
                    is_second: false,
                    is_shifted: pair.is_shifted,
                })?;
            }
        }
    }
    Ok(())
}

// Adds the pairs after reductions of the second.
fn reduce_second(
    stacks: &mut Stacks<'_>,
    pairs: &mut Vec<Pair>,
    place: usize,
    pair: Pair,
) -> Result<(), AllocError> {
    'items: for item in 0..stacks.count(pair.second) {
        if let Some(production) = reduction(stacks, pair.second, item) {
            if let Some(second) = stacks.reduced(pair.second, production)? {
                pairs.push(Pair {
                    parent: place,
                    step: Step::Second(production),
                    first: pair.first,
                    second,
                    is_second: true,
                    is_shifted: pair.is_shifted,
                })?;
            }
        }
    }
    Ok(())
}

// Adds the pairs after shifts.
fn shift_all(
    stacks: &mut Stacks<'_>,
    pairs: &mut Vec<Pair>,
    place: usize,
    pair: Pair,
) -> Result<(), AllocError> {
    let mut at = stacks.first_move(pair.first);
    'moves: for _ in 0..MOST {
        let Some(found) = stacks.move_at(at) else {
            break;
        };
        shift(stacks, pairs, place, pair, found.symbol)?;
        at = found.next;
    }
    Ok(())
}

// Adds the pair after a shift, where both can.
fn shift(
    stacks: &mut Stacks<'_>,
    pairs: &mut Vec<Pair>,
    place: usize,
    pair: Pair,
    symbol: Symbol,
) -> Result<(), AllocError> {
    if !stacks.has_move(pair.first, symbol) || !stacks.has_move(pair.second, symbol) {
        return Ok(());
    }
    let Some(first) = stacks.pushed(pair.first, symbol)? else {
        return Ok(());
    };
    let Some(second) = stacks.pushed(pair.second, symbol)? else {
        return Ok(());
    };
    pairs.push(Pair {
        parent: place,
        step: Step::Shift(symbol),
        first,
        second,
        is_second: false,
        is_shifted: true,
    })?;
    Ok(())
}
