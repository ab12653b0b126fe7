//! Makes the kernels of a grammar once more, of lists of them with their moves.

ghost use Rattle.std.specs.Prelude.{◌≡◌, ◌<◌, IfOk, OnOk, Some, length, slice_get};
ghost use Rattle.wb_items.specs.Kernels.{count_of};
ghost use Rattle.wb_tests_grammars.specs.Listed.{AddsRow, AreListsUpTo, AreMovesUpTo};

use crate::items::are_rows;
use crate::items_rows::{CASES, Case, Row};
use crate::small::{grammar_of, kernels_of};
use std::alloc::{AllocError, Global};
use std::test::Fail;
use wb_base::{Grammar, Sequence, Symbol, push};
use wb_items::{Item, Kernels, Move};
use wb_recheck_lines::parts_law;

// The kernels, made of lists of these.
fn made_again(alloc: Global, grammar: &Grammar, kernels: &Kernels) -> Result<Kernels, AllocError>
    requires { kernels.now.grammar ≡ grammar.now }
{
    let lists = lists_of(alloc, kernels)?;
    let made = of_lists(alloc, grammar, kernels, &lists);
    drop(lists);
    made
}

// Like `made_again`, where the kernels are listed.
fn of_lists(
    alloc: Global,
    grammar: &Grammar,
    kernels: &Kernels,
    lists: &[Sequence<Item>],
) -> Result<Kernels, AllocError>
    requires grammar { kernels.now.grammar ≡ grammar.now }
    requires lists { AreListsUpTo kernels.now lists.now (count_of kernels.now) }
{
    let moves = moves_of(alloc, kernels)?;
    let _count = kernels.count();
    parts_law();
    let made = Kernels::from_parts(alloc, grammar, lists, &moves);
    drop(moves);
    made
}

// The items of each kernel.
fn lists_of(alloc: Global, kernels: &Kernels) -> Result<Vec<Sequence<Item>>, AllocError>
    ensures { IfOk result (λ lists. AreListsUpTo kernels.now lists.items (count_of kernels.now)) }
{
    let mut lists = Vec::new(alloc);
    'states: for state in 0..kernels.count() {
        let list = Vec::from_slice(alloc, kernels.kernel(state))?;
        push(&mut lists, Sequence::from_vec(list))?;
    }
    Ok(lists)
}

// The moves of all kernels.
fn moves_of(alloc: Global, kernels: &Kernels) -> Result<Vec<(usize, Symbol, usize)>, AllocError>
    ensures { IfOk result (λ moves. AreMovesUpTo kernels.now moves.items (count_of kernels.now)) }
{
    let mut moves = Vec::new(alloc);
    'states: for state in 0..kernels.count() {
        add_row(state, kernels.moves(state), &mut moves)?;
    }
    Ok(moves)
}

// Adds the moves of one kernel.
fn add_row(
    state: usize,
    row: &[Move],
    moves: &mut Vec<(usize, Symbol, usize)>,
) -> Result<(), AllocError>
    ensures { OnOk result (AddsRow state row.now (length row.now) moves.old.items moves.new.items) }
{
    'moves: for place in 0..row.len() {
        let found = move_in(row, place);
        push(moves, (state, found.symbol, found.state))?;
    }
    Ok(())
}

// The move at a place.
fn move_in(row: &[Move], place: usize) -> Move
    requires { place < length row.now }
    ensures { slice_get row.now place ≡ Some result }
{
    row[place]
}

// Whether the kernels that are made of lists have these rows.
fn has_rows_again(alloc: Global, grammar: &Grammar, rows: &[Row]) -> Result<bool, AllocError> {
    let kernels = kernels_of(alloc, grammar)?;
    let made = made_again(alloc, grammar, &kernels);
    drop(kernels);
    are_rows(alloc, &made?, rows)
}

fn is_right_again(alloc: Global, case: &Case) -> Result<bool, AllocError> {
    match grammar_of(alloc, &case.grammar)? {
        Some(grammar) => has_rows_again(alloc, &grammar, case.rows),
        None => Ok(false),
    }
}

#[test]
fn kernels_made_of_lists_are_the_expected_ones(rt: HostRuntime) -> Result<(), Fail> {
    for case in &CASES {
        assert!(rt; is_right_again(rt.alloc(), case)?);
    }
    Ok(())
}
