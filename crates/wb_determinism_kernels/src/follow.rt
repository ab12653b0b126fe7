//! Where do symbols lead from the new kernels? Each is followed by all its symbols, until none is new.

ghost use Rattle.std.specs.Prelude.{◌≡◌, ◌↔◌, ◌+◌, ◌<◌, ◌≤◌, IfOk, List, OnOk, Some, Contains, length, slice_get, vec_len};
ghost use Rattle.wb_base.specs.declared.symbol.Symbol.{Symbol};
ghost use Rattle.wb_grammar_theory.specs.Closure.{InClosure};
ghost use Rattle.wb_grammar_theory.specs.declared.item.Item.{Item};
ghost use Rattle.wb_items.specs.Kernels.{ListsItems, count_of};
ghost use Rattle.wb_items.specs.Table.{AreProductions, IsRow};
ghost use Rattle.wb_determinism_kernels.specs.Given.{IsGiven};
ghost use Rattle.wb_determinism_kernels.specs.NewKernels.{prefixes_beside};
ghost use Rattle.wb_determinism_kernels.specs.Numbers.{up_by};
ghost use Rattle.wb_determinism_kernels.specs.Inner.Following.{AreFollowed, AreKernelsAfter, FollowsMore, IsRowAdded, RowUpTo};
ghost use Rattle.wb_determinism_kernels.specs.Inner.Growing.{AreFoundSoFar};

use crate::beside::Beside;
use crate::index::{Index, Step};
use crate::moved::{MovedKernel, moved_kernels};
use crate::numbering::{number_at, number_of};
use std::alloc::{AllocError, Global};
use wb_base::{Grammar, Sequence, push};
use wb_items::{Item, Move, Numbers, kernel_closure};

// The new kernels that were found, and for the first of them their items and moves.
#[derive(Drop)]
pub(crate) struct Table {
    pub(crate) found: Index,
    pub(crate) closures: Vec<Sequence<Item>>,
    pub(crate) rows: Vec<Sequence<Move>>,
}

// Adds the items and the moves of the next new kernel, and the new kernels that these lead to.
pub(crate) fn follow(
    alloc: Global,
    beside: &Beside,
    rules: &[Numbers],
    table: &mut Table,
) -> Result<(), AllocError>
    requires given { IsGiven beside.now.host.now beside.now.grammar.now beside.now.numbers.now beside.now.images.now }
    requires rules { AreProductions beside.now.grammar.now rules.now }
    requires within { vec_len table.old.closures < length table.old.found.kernels }
    requires so_far { AreFoundSoFar beside.now.host.now beside.now.grammar.now (up_by beside.now.numbers.now) table.old.found }
    requires followed { AreFollowed beside.now.host.now beside.now.grammar.now (up_by beside.now.numbers.now) table.old.found table.old.closures.items table.old.rows.items }
    ensures { OnOk result (FollowsMore beside.now.host.now beside.now.grammar.now (up_by beside.now.numbers.now) table.old table.new) }
{
    let place = table.closures.len();
    let closure = sorted_closure(alloc, beside.grammar, rules, table.found.kernel(place))?;
    let row = moves(alloc, beside, place, closure.as_slice(), &mut table.found)?;
    push(&mut table.closures, closure)?;
    push(&mut table.rows, row)?;
    Ok(())
}

// The items of the closure of a kernel, sorted.
fn sorted_closure(
    alloc: Global,
    grammar: &Grammar,
    rules: &[Numbers],
    kernel: &[Item],
) -> Result<Sequence<Item>, AllocError>
    requires { AreProductions grammar.now rules.now }
    ensures { IfOk result (λ closure. (item : Item) → Contains closure item ↔ InClosure grammar.now (Contains kernel.now) item) }
{
    let mut closure = kernel_closure(alloc, grammar, rules, kernel)?;
    closure.sort()?;
    Ok(Sequence::from_vec(closure))
}

// The moves from the new kernel at a place, which has these items.
fn moves(
    alloc: Global,
    beside: &Beside,
    place: usize,
    closure: &[Item],
    found: &mut Index,
) -> Result<Sequence<Move>, AllocError>
    requires given { IsGiven beside.now.host.now beside.now.grammar.now beside.now.numbers.now beside.now.images.now }
    requires place { place < length found.old.kernels }
    requires so_far { AreFoundSoFar beside.now.host.now beside.now.grammar.now (up_by beside.now.numbers.now) found.old }
    requires exact { (prefix : List Symbol) → slice_get (prefixes_beside (up_by beside.now.numbers.now) beside.now.host.now found.old.steps) (count_of beside.now.host.now + place) ≡ Some prefix → ListsItems beside.now.grammar.now prefix closure.now }
    ensures { IfOk result (IsRowAdded beside.now.host.now beside.now.grammar.now (up_by beside.now.numbers.now) found.old found.new closure.now place) }
{
    let moved = moved_kernels(alloc, beside.grammar, closure)?;
    let row = row_of(alloc, beside, place, &moved, found);
    drop(moved);
    row
}

// The moves over the symbols of moved kernels.
fn row_of(
    alloc: Global,
    beside: &Beside,
    place: usize,
    moved: &[MovedKernel],
    found: &mut Index,
) -> Result<Sequence<Move>, AllocError>
    requires given { IsGiven beside.now.host.now beside.now.grammar.now beside.now.numbers.now beside.now.images.now }
    requires place { place < length found.old.kernels }
    requires so_far { AreFoundSoFar beside.now.host.now beside.now.grammar.now (up_by beside.now.numbers.now) found.old }
    requires kernels { AreKernelsAfter beside.now.host.now beside.now.grammar.now (up_by beside.now.numbers.now) found.old moved.now place }
    ensures { IfOk result (λ row. RowUpTo beside.now.host.now beside.now.grammar.now (up_by beside.now.numbers.now) found.old found.new moved.now place row (length moved.now)) }
{
    let mut row = Vec::new(alloc);
    'moves: for at in 0..moved.len() {
        add_move(alloc, beside, place, moved, at, found, &mut row)?;
    }
    Ok(Sequence::from_vec(row))
}

// Adds the move over one of them, and the kernel that it leads to where that is new.
fn add_move(
    alloc: Global,
    beside: &Beside,
    place: usize,
    moved: &[MovedKernel],
    at: usize,
    found: &mut Index,
    row: &mut Vec<Move>,
) -> Result<(), AllocError>
    requires given { IsGiven beside.now.host.now beside.now.grammar.now beside.now.numbers.now beside.now.images.now }
    requires kernels { AreKernelsAfter beside.now.host.now beside.now.grammar.now (up_by beside.now.numbers.now) found.old moved.now place }
    requires at { at < length moved.now }
    requires before { RowUpTo beside.now.host.now beside.now.grammar.now (up_by beside.now.numbers.now) found.old found.old moved.now place row.old.items at }
    ensures { OnOk result (RowUpTo beside.now.host.now beside.now.grammar.now (up_by beside.now.numbers.now) found.old found.new moved.now place row.new.items (at + 1)) }
{
    let from = number_at(beside.host, place)?;
    let symbol = moved[at].symbol;
    let step = Step { from, symbol };
    let state = number_of(alloc, beside, step, moved[at].kernel.as_slice(), found)?;
    push(row, Move { symbol, state })?;
    Ok(())
}
