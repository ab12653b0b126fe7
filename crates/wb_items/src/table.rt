//! Finds the kernels of a grammar. The LR(0) kernels are found by following each symbol from each, until none is new.
//!
//! Those found are kept in `kernel_index.rt`; one closure is made in `closure.rt`, and what moves over a symbol found in `advance.rt`.

ghost use Rattle.std.specs.Prelude.{◌≡◌, ◌<◌, ◌≤◌, ◌+◌, ◌++◌, ◌∷◌, [], List, IfOk, OnOk, Some, length, slice_get, vec_len};
ghost use Rattle.wb_base.specs.declared.symbol.Symbol.{Symbol};
ghost use Rattle.wb_grammar_theory.specs.declared.item.Item.{Item};
ghost use Rattle.wb_grammar_theory.specs.Items.{start_item};
ghost use Rattle.wb_grammar_theory.specs.Shape.{IsLive};
ghost use Rattle.wb_items.specs.Kernels.{ListsItems};
ghost use Rattle.wb_items.specs.declared.transitions.Move.{Move};
ghost use Rattle.wb_items.specs.declared.advance.Advance.{Advance};
ghost use Rattle.wb_items.specs.Inner.Advances.{AreAdvancesRising};
ghost use Rattle.wb_items.specs.Inner.Passes.{MovesUpTo};
ghost use Rattle.wb_items.specs.Table.{AreKernelsOf, AreFollowed, AreProductions, IsRow, IsTable, Leads};
ghost use Rattle.wb_items.specs.Inner.Growing.{Grows};
ghost use Rattle.wb_items.specs.Moved.{IsKernelFor};

use crate::advance::{Advance, advances, symbol_at};
use crate::closure::close;
use crate::item_list::ItemList;
use crate::kernel_index::KernelIndex;
use crate::kernel_of_symbol::{kernel_after, run_end};
use crate::move_row::MoveRow;
use crate::productions_of::{Numbers, production_numbers};
use crate::transitions::Move;
use std::alloc::{AllocError, Global};
use wb_base::{Grammar, Sequence, Symbol, push};
use wb_grammar_theory::Item;

// The kernels with their items and moves.
#[derive(Drop)]
pub(crate) struct Table {
    pub(crate) found: KernelIndex,
    pub(crate) closures: Vec<ItemList>,
    pub(crate) rows: Vec<MoveRow>,
}

// All kernels of the grammar.
pub(crate) fn build_table(alloc: Global, grammar: &Grammar) -> Result<Table, AllocError>
    requires { IsLive grammar.now }
    ensures { IfOk result (λ table. IsTable grammar.now table.found table.closures.items table.rows.items) }
{
    let rules = production_numbers(alloc, grammar)?;
    let mut table = Table {
        found: KernelIndex::new(alloc, grammar, first_kernel(alloc, grammar)?)?,
        closures: Vec::new(alloc),
        rows: Vec::new(alloc),
    };
    'states: while table.closures.len() < table.found.len() {
        follow(alloc, grammar, &rules, &mut table)?;
    }
    Ok(table)
}

// The kernel of the empty prefix.
fn first_kernel(alloc: Global, grammar: &Grammar) -> Result<Sequence<Item>, AllocError>
    ensures { IfOk result (λ kernel. kernel ≡ start_item grammar.now ∷ []) }
{
    let mut kernel = Vec::new(alloc);
    push(
        &mut kernel,
        Item {
            production: grammar.productions(),
            dot: 0,
        },
    )?;
    Ok(Sequence::from_vec(kernel))
}

// Adds the items and the moves of the next kernel, and the kernels that these lead to.
fn follow(
    alloc: Global,
    grammar: &Grammar,
    rules: &[Numbers],
    table: &mut Table,
) -> Result<(), AllocError>
    requires live { IsLive grammar.now }
    requires rules { AreProductions grammar.now rules.now }
    requires within { vec_len table.old.closures < length table.old.found.kernels }
    requires kernels { AreKernelsOf grammar.now table.old.found.prefixes table.old.found.kernels }
    requires followed { AreFollowed grammar.now table.old.found.prefixes table.old.closures.items table.old.rows.items }
    ensures kernels { OnOk result (AreKernelsOf grammar.now table.new.found.prefixes table.new.found.kernels) }
    ensures followed { OnOk result (AreFollowed grammar.now table.new.found.prefixes table.new.closures.items table.new.rows.items) }
    ensures within { OnOk result (length table.new.closures.items ≤ length table.new.found.kernels) }
    ensures more { OnOk result (length table.new.closures.items ≡ length table.old.closures.items + 1) }
{
    let state = table.closures.len();
    let closure = close(alloc, grammar, rules, table.found.kernel(state))?;
    let row = moves(alloc, grammar, state, closure.as_slice(), &mut table.found)?;
    push(&mut table.closures, closure)?;
    push(&mut table.rows, row)?;
    Ok(())
}

// The moves from a kernel with these items, and the kernels that they lead to.
fn moves(
    alloc: Global,
    grammar: &Grammar,
    state: usize,
    closure: &[Item],
    found: &mut KernelIndex,
) -> Result<MoveRow, AllocError>
    requires live { IsLive grammar.now }
    requires state { state < length found.old.kernels }
    requires exact { (prefix : List Symbol) → slice_get found.old.prefixes state ≡ Some prefix → ListsItems grammar.now prefix closure.now }
    requires kernels { AreKernelsOf grammar.now found.old.prefixes found.old.kernels }
    ensures kernels { OnOk result (AreKernelsOf grammar.now found.new.prefixes found.new.kernels) }
    ensures grows { OnOk result (Grows found.old found.new) }
    ensures row { IfOk result (λ row. IsRow grammar.now found.new.prefixes closure.now state row) }
{
    let list = advances(alloc, grammar, closure)?;
    let mut row = Vec::new(alloc);
    let mut place = 0;
    'runs: while place < list.len() {
        place = add_move(alloc, grammar, state, &list, place, found, &mut row)?;
    }
    Ok(MoveRow::from_vec(row))
}

// The move by the symbol at a place, and the kernel that it leads to. The answer is the place after all that have the symbol.
fn add_move(
    alloc: Global,
    grammar: &Grammar,
    state: usize,
    list: &[Advance],
    place: usize,
    found: &mut KernelIndex,
    row: &mut Vec<Move>,
) -> Result<usize, AllocError>
    requires live { IsLive grammar.now }
    requires rising { AreAdvancesRising list.now }
    requires place { place < length list.now }
    requires before { MovesUpTo grammar.now found.old found.old list.now state row.old.items place }
    ensures moves { IfOk result (λ end. MovesUpTo grammar.now found.old found.new list.now state row.new.items end) }
    ensures after { IfOk result (λ end. (place < end) × (end ≤ length list.now)) }
{
    let symbol = symbol_at(list, place);
    let end = run_end(list, place, symbol);
    let kernel = kernel_after(alloc, &list[place..end])?;
    let next = number_of(grammar, state, symbol, kernel, found)?;
    push(
        row,
        Move {
            symbol,
            state: next,
        },
    )?;
    Ok(end)
}

// The number of the kernel that a symbol leads to, which is added where it is new.
fn number_of(
    grammar: &Grammar,
    state: usize,
    symbol: Symbol,
    kernel: Sequence<Item>,
    found: &mut KernelIndex,
) -> Result<usize, AllocError>
    requires live { IsLive grammar.now }
    requires state { state < length found.old.kernels }
    requires kernel { (prefix : List Symbol) → slice_get found.old.prefixes state ≡ Some prefix → IsKernelFor grammar.now (prefix ++ symbol ∷ []) kernel }
    requires kernels { AreKernelsOf grammar.now found.old.prefixes found.old.kernels }
    ensures kernels { OnOk result (AreKernelsOf grammar.now found.new.prefixes found.new.kernels) }
    ensures grows { OnOk result (Grows found.old found.new) }
    ensures leads { IfOk result (Leads grammar.now found.new.prefixes state symbol) }
{
    if let Some(next) = found.get(symbol, kernel.as_slice()) {
        return Ok(next);
    }
    let next = find_or_add(grammar, state, symbol, kernel, found)?;
    found.put(symbol, next);
    Ok(next)
}

// Like `number_of`, where the symbol led to another kernel before.
fn find_or_add(
    grammar: &Grammar,
    state: usize,
    symbol: Symbol,
    kernel: Sequence<Item>,
    found: &mut KernelIndex,
) -> Result<usize, AllocError>
    requires live { IsLive grammar.now }
    requires state { state < length found.old.kernels }
    requires kernel { (prefix : List Symbol) → slice_get found.old.prefixes state ≡ Some prefix → IsKernelFor grammar.now (prefix ++ symbol ∷ []) kernel }
    requires kernels { AreKernelsOf grammar.now found.old.prefixes found.old.kernels }
    ensures kernels { OnOk result (AreKernelsOf grammar.now found.new.prefixes found.new.kernels) }
    ensures grows { OnOk result (Grows found.old found.new) }
    ensures leads { IfOk result (Leads grammar.now found.new.prefixes state symbol) }
{
    if let Some(next) = found.find(kernel.as_slice()) {
        return Ok(next);
    }
    let next = found.len();
    found.add(state, symbol, kernel)?;
    Ok(next)
}
