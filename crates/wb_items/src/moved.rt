//! Which kernels are after the symbols before which a closure's items have their dots?

ghost use Rattle.std.specs.Prelude.{◌≡◌, ◌<◌, ◌≤◌, IfOk, length};
ghost use Rattle.wb_items.specs.declared.advance.Advance.{Advance};
ghost use Rattle.wb_items.specs.Inner.Advances.{AreAdvancesRising};
ghost use Rattle.wb_items.specs.Inner.MovedKernels.{MovedUpTo};
ghost use Rattle.wb_items.specs.MovedKernels.{AreMovedKernels};

use crate::advance::{Advance, advances, symbol_at};
use crate::kernel_of_symbol::{kernel_after, run_end};
use std::alloc::{AllocError, Global};
use wb_base::{Grammar, Sequence, Symbol, push};
use wb_grammar_theory::Item;

/// A symbol, and the items that have moved over it.
pub struct MovedKernel {
    pub symbol: Symbol,
    pub kernel: Sequence<Item>,
}

/// The kernels after all symbols before which a closure's items have their dots, in the order of the symbols.
pub fn moved_kernels(
    alloc: Global,
    grammar: &Grammar,
    closure: &[Item],
) -> Result<Vec<MovedKernel>, AllocError>
    ensures { IfOk result (λ moved. AreMovedKernels grammar.now closure.now moved.items) }
{
    let list = advances(alloc, grammar, closure)?;
    let mut moved = Vec::new(alloc);
    let mut place = 0;
    'runs: while place < list.len() {
        place = add_moved(alloc, &list, place, &mut moved)?;
    }
    Ok(moved)
}

// Adds that of the symbol at a place. The answer is the place after all that have the symbol.
fn add_moved(
    alloc: Global,
    list: &[Advance],
    place: usize,
    moved: &mut Vec<MovedKernel>,
) -> Result<usize, AllocError>
    requires rising { AreAdvancesRising list.now }
    requires place { place < length list.now }
    requires before { MovedUpTo list.now moved.old.items place }
    ensures moved { IfOk result (λ end. MovedUpTo list.now moved.new.items end) }
    ensures after { IfOk result (λ end. (place < end) × (end ≤ length list.now)) }
{
    let symbol = symbol_at(list, place);
    let end = run_end(list, place, symbol);
    let kernel = kernel_after(alloc, &list[place..end])?;
    push(moved, MovedKernel { symbol, kernel })?;
    Ok(end)
}

impl Drop for MovedKernel {
    fn drop(self) {
        let MovedKernel { symbol: _, kernel } = self;
        drop(kernel);
    }
}
