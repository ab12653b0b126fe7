//! Does each prefix of a small grammar lead to its kernel?

ghost use Rattle.std.specs.Prelude.{◌<◌};
ghost use Rattle.wb_items.specs.Kernels.{count_of};

use crate::items_rows::{CASES, Case, Place, Row, SYMBOLS};
use crate::small::{after, grammar_of, kernels_of};
use std::alloc::{AllocError, Global};
use std::test::Fail;
use wb_base::{Grammar, Symbol, push};
use wb_items::{Item, Kernels};

// Whether the items are these, in order.
fn are_items(items: &[Item], places: &[Place]) -> bool {
    if items.len() != places.len() {
        return false;
    }
    for (at, item) in items.iter().enumerate() {
        if (item.production, item.dot) != places[at] {
            return false;
        }
    }
    true
}

// These items in reverse order, and then the last one again.
fn turned(alloc: Global, places: &[Place]) -> Result<Vec<Item>, AllocError> {
    let mut items = Vec::new(alloc);
    for (production, dot) in places {
        push(
            &mut items,
            Item {
                production: *production,
                dot: *dot,
            },
        )?;
    }
    items.reverse();
    if let Some(&last) = items.first() {
        push(&mut items, last)?;
    }
    Ok(items)
}

// Whether one of the moves is by the symbol.
fn is_move(moves: &[(Symbol, usize)], symbol: Symbol) -> bool {
    for (by, _) in moves {
        if *by == symbol {
            return true;
        }
    }
    false
}

// Whether exactly the symbols of the moves lead on.
fn leads_on_by(
    kernels: &Kernels,
    state: usize,
    moves: &[(Symbol, usize)],
    symbols: &[Symbol],
) -> bool
    requires { state < count_of kernels.now }
{
    for symbol in symbols {
        if kernels.next(state, *symbol).is_some() != is_move(moves, *symbol) {
            return false;
        }
    }
    true
}

// Whether each move leads to the kernel of its row.
fn leads_to_rows(kernels: &Kernels, state: usize, moves: &[(Symbol, usize)], rows: &[Row]) -> bool
    requires { state < count_of kernels.now }
{
    for (symbol, row) in moves {
        let Some(next) = kernels.next(state, *symbol) else {
            return false;
        };
        if next >= kernels.count() || *row >= rows.len() {
            return false;
        }
        if !are_items(kernels.kernel(next), rows[*row].kernel) {
            return false;
        }
    }
    true
}

// Whether the items of this number are those of the row, in order.
fn has_items(kernels: &Kernels, state: usize, row: &Row) -> bool
    requires { state < count_of kernels.now }
{
    are_items(kernels.kernel(state), row.kernel) && are_items(kernels.closure(state), row.closure)
}

// Whether these items, in reverse order, have this number.
fn is_found(
    alloc: Global,
    kernels: &Kernels,
    state: usize,
    places: &[Place],
) -> Result<bool, AllocError> {
    let items = turned(alloc, places)?;
    Ok(kernels.find(&items) == Some(state))
}

// Whether the kernel's items and its prefix lead back to its number.
fn leads_back(alloc: Global, kernels: &Kernels, state: usize, row: &Row) -> Result<bool, AllocError>
    requires { state < count_of kernels.now }
{
    if !is_found(alloc, kernels, state, row.kernel)? {
        return Ok(false);
    }
    let prefix = kernels.prefix(alloc, state)?;
    Ok(after(kernels, &prefix) == Some(state))
}

// Whether the kernel after the symbols of the row is as the row says.
fn agrees(alloc: Global, kernels: &Kernels, row: &Row, rows: &[Row]) -> Result<bool, AllocError> {
    let Some(state) = after(kernels, row.prefix) else {
        return Ok(false);
    };
    Ok(
        has_items(kernels, state, row)
            && leads_on_by(kernels, state, row.moves, &SYMBOLS)
            && leads_to_rows(kernels, state, row.moves, rows)
            && leads_back(alloc, kernels, state, row)?,
    )
}

// Whether all rows are as they say.
pub(crate) fn are_rows(alloc: Global, kernels: &Kernels, rows: &[Row]) -> Result<bool, AllocError> {
    for row in rows {
        if !agrees(alloc, kernels, row, rows)? {
            return Ok(false);
        }
    }
    Ok(kernels.count() == rows.len())
}

// Whether none of the lists of items is a kernel.
fn are_none(alloc: Global, kernels: &Kernels, lists: &[&[Place]]) -> Result<bool, AllocError> {
    for places in lists {
        let items = turned(alloc, *places)?;
        if kernels.find(&items).is_some() {
            return Ok(false);
        }
    }
    Ok(true)
}

// Whether a grammar's kernels are exactly those of the rows, and no other list is one.
fn are_kernels(alloc: Global, grammar: &Grammar, case: &Case) -> Result<bool, AllocError> {
    let kernels = kernels_of(alloc, grammar)?;
    Ok(are_rows(alloc, &kernels, case.rows)? && are_none(alloc, &kernels, case.others)?)
}

fn is_right(alloc: Global, case: &Case) -> Result<bool, AllocError> {
    match grammar_of(alloc, &case.grammar)? {
        Some(grammar) => are_kernels(alloc, &grammar, case),
        None => Ok(false),
    }
}

#[test]
fn kernels_of_small_grammars_are_the_expected_ones(rt: HostRuntime) -> Result<(), Fail> {
    for case in &CASES {
        assert!(rt; is_right(rt.alloc(), case)?);
    }
    Ok(())
}
