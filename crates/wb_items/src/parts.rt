//! Makes the table of kernels that are listed with the moves between them. Nothing is looked for.
//!
//! The prefix of a kernel goes on along a move from an earlier one. The rows of moves are made in `move_rows.rt`.

ghost use Rattle.std.specs.Prelude.{◌≡◌, ◌<◌, ◌+◌, ℕ, suc, IfOk, OnOk, Some, length, slice_get, slice_set};
ghost use Rattle.wb_items.specs.Inner.Parts.{AreClosuresOf, AreParts, FoundUpTo, PlacesUpTo, Reaches};
ghost use Rattle.wb_items.specs.Table.{IsTable};

use crate::closure::close;
use crate::item_list::ItemList;
use crate::kernel_index::KernelIndex;
use crate::move_rows::{move_at, move_rows};
use crate::productions_of::production_numbers;
use crate::search::{items_at, number_at};
use crate::table::Table;
use std::alloc::{AllocError, Global};
use wb_base::{Grammar, Sequence, Symbol, push};
use wb_grammar_theory::Item;

// The listed kernels, each with its items and moves.
pub(crate) fn table_of_parts(
    alloc: Global,
    grammar: &Grammar,
    kernels: &[Sequence<Item>],
    moves: &[(usize, Symbol, usize)],
) -> Result<Table, AllocError>
    requires { AreParts grammar.now kernels.now moves.now }
    ensures table { IfOk result (λ table. IsTable grammar.now table.found table.closures.items table.rows.items) }
    ensures found { IfOk result (λ table. FoundUpTo grammar.now kernels.now table.found (length kernels.now)) }
{
    let found = found_kernels(alloc, grammar, kernels, moves)?;
    let closures = closures_of(alloc, grammar, kernels)?;
    let rows = move_rows(alloc, kernels.len(), moves)?;
    Ok(Table {
        found,
        closures,
        rows,
    })
}

// The listed kernels with prefixes that have them.
fn found_kernels(
    alloc: Global,
    grammar: &Grammar,
    kernels: &[Sequence<Item>],
    moves: &[(usize, Symbol, usize)],
) -> Result<KernelIndex, AllocError>
    requires { AreParts grammar.now kernels.now moves.now }
    ensures { IfOk result (λ found. FoundUpTo grammar.now kernels.now found (length kernels.now)) }
{
    let places = places_of_moves(alloc, kernels.len(), moves)?;
    let found = found_along(alloc, grammar, kernels, moves, &places);
    drop(places);
    found
}

// For each kernel the place of a move that leads to it from an earlier one, if there is one.
fn places_of_moves(
    alloc: Global,
    count: usize,
    moves: &[(usize, Symbol, usize)],
) -> Result<Vec<usize>, AllocError>
    ensures { IfOk result (λ places. (length places.items ≡ count) × PlacesUpTo moves.now places.items (length moves.now)) }
{
    let mut places = vec![in alloc; 0; count]?;
    'moves: for place in 0..moves.len() {
        note(moves, place, &mut places);
    }
    Ok(places)
}

// Notes the place of a move at the kernel that it leads to, if it is from an earlier one.
fn note(moves: &[(usize, Symbol, usize)], place: usize, places: &mut Vec<usize>)
    requires place { place < length moves.now }
    requires before { PlacesUpTo moves.now places.old.items place }
    ensures { (length places.new.items ≡ length places.old.items) × PlacesUpTo moves.now places.new.items (place + 1) }
{
    let found = move_at(moves, place);
    if found.0 >= found.2 {
        return;
    }
    if found.2 >= places.len() {
        return;
    }
    put(places, found.2, place);
}

// Puts a number at a place.
fn put(places: &mut Vec<usize>, at: usize, place: usize)
    requires { at < length places.old.items }
    ensures { places.new.items ≡ slice_set places.old.items at place }
{
    places[at] = place;
}

// The listed kernels, where these are the places of moves to each after the first.
fn found_along(
    alloc: Global,
    grammar: &Grammar,
    kernels: &[Sequence<Item>],
    moves: &[(usize, Symbol, usize)],
    places: &[usize],
) -> Result<KernelIndex, AllocError>
    requires parts { AreParts grammar.now kernels.now moves.now }
    requires places { (length places.now ≡ length kernels.now) × PlacesUpTo moves.now places.now (length moves.now) }
    ensures { IfOk result (λ found. FoundUpTo grammar.now kernels.now found (length kernels.now)) }
{
    let mut found = KernelIndex::new(alloc, grammar, copy_at(alloc, kernels, 0)?)?;
    'states: for state in 1..kernels.len() {
        let place = number_at(places, state);
        add_listed(alloc, grammar, kernels, moves, place, &mut found)?;
    }
    Ok(found)
}

// Adds the next listed kernel, to which the move at a place leads.
fn add_listed(
    alloc: Global,
    grammar: &Grammar,
    kernels: &[Sequence<Item>],
    moves: &[(usize, Symbol, usize)],
    place: usize,
    found: &mut KernelIndex,
) -> Result<(), AllocError>
    requires parts { AreParts grammar.now kernels.now moves.now }
    requires within { length found.old.kernels < length kernels.now }
    requires before { FoundUpTo grammar.now kernels.now found.old (length found.old.kernels) }
    requires reaches { Reaches moves.now (length found.old.kernels) place }
    ensures { OnOk result (FoundUpTo grammar.now kernels.now found.new (length found.old.kernels + 1)) }
{
    let kernel = copy_at(alloc, kernels, found.len())?;
    let led = move_at(moves, place);
    found.add(led.0, led.1, kernel)?;
    Ok(())
}

// A copy of the list at a place.
fn copy_at(
    alloc: Global,
    kernels: &[Sequence<Item>],
    place: usize,
) -> Result<Sequence<Item>, AllocError>
    requires { place < length kernels.now }
    ensures { IfOk result (λ copy. slice_get kernels.now place ≡ Some copy) }
{
    let items = Vec::from_slice(alloc, kernels[place].as_slice())?;
    Ok(Sequence::from_vec(items))
}

// The closures of the kernels.
fn closures_of(
    alloc: Global,
    grammar: &Grammar,
    kernels: &[Sequence<Item>],
) -> Result<Vec<ItemList>, AllocError>
    ensures { IfOk result (λ closures. AreClosuresOf grammar.now kernels.now closures.items (length kernels.now)) }
{
    let rules = production_numbers(alloc, grammar)?;
    let mut closures = Vec::with_capacity(alloc, kernels.len())?;
    'states: for state in 0..kernels.len() {
        let closure = close(alloc, grammar, &rules, items_at(kernels, state))?;
        push(&mut closures, closure)?;
    }
    Ok(closures)
}
