//! To which kernel does a symbol lead? The items that move over it stand together in the list of `advance.rt`.

ghost use Rattle.std.specs.Prelude.{◌≡◌, ◌<◌, ◌+◌, ◌-◌, ◌↔◌, IfOk, OnOk, Some, Contains, length, slice_get};
ghost use Rattle.wb_grammar_theory.specs.declared.item.Item.{Item};
ghost use Rattle.wb_items.specs.declared.advance.Advance.{Advance};
ghost use Rattle.wb_items.specs.Inner.Advances.{AreAdvancesRising, IsRun, items_of, symbol_of};
ghost use Rattle.wb_items.specs.Kernels.{AreInOrder};
ghost use Rattle.wb_items.specs.Sorted.{AreRising, StrictUpTo};

use crate::advance::{Advance, symbol_at};
use crate::dot::{is_item, is_symbol};
use std::alloc::{AllocError, Global};
use wb_base::{Sequence, Symbol, push};
use wb_grammar_theory::Item;

// The place after all that have the symbol, from a place that has it.
pub(crate) fn run_end(list: &[Advance], place: usize, symbol: Symbol) -> usize
    requires rising { AreAdvancesRising list.now }
    requires place { place < length list.now }
    requires symbol { (a : Advance) → slice_get list.now place ≡ Some a → symbol_of a ≡ symbol }
    ensures { IsRun list.now symbol place result }
{
    'places: for at in place + 1..list.len() {
        if !is_symbol(symbol_at(list, at), symbol) {
            return at;
        }
    }
    list.len()
}

// The items, each once.
pub(crate) fn kernel_after(alloc: Global, run: &[Advance]) -> Result<Sequence<Item>, AllocError>
    requires { AreRising (items_of run.now) }
    ensures same { IfOk result (λ kernel. (item : Item) → Contains kernel item ↔ Contains (items_of run.now) item) }
    ensures in_order { IfOk result (λ kernel. AreInOrder kernel) }
{
    let mut kernel = Vec::new(alloc);
    'places: for place in 0..run.len() {
        add_to_kernel(run, place, &mut kernel)?;
    }
    Ok(Sequence::from_vec(kernel))
}

// Adds the item at a place, if it isn't the one before.
fn add_to_kernel(run: &[Advance], place: usize, kernel: &mut Vec<Item>) -> Result<(), AllocError>
    requires rising { AreRising (items_of run.now) }
    requires place { place < length run.now }
    requires before { StrictUpTo (items_of run.now) kernel.old.items place }
    ensures { OnOk result (StrictUpTo (items_of run.now) kernel.new.items (place + 1)) }
{
    let item = advanced_at(run, place);
    if place > 0 {
        let before = advanced_at(run, place - 1);
        if is_item(before, item) {
            return Ok(());
        }
    }
    push(kernel, item)?;
    Ok(())
}

// The item at a place.
fn advanced_at(run: &[Advance], place: usize) -> Item
    requires { place < length run.now }
    ensures { slice_get (items_of run.now) place ≡ Some result }
{
    run[place].item
}
