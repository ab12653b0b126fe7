//! Which items are in the kernel after a marker? Those of the productions that it begins, wherever that is.

ghost use Rattle.std.specs.Prelude.{◌≡◌, ◌<◌, ◌+◌, ◌^◌, IfOk, OnOk, length};
ghost use Rattle.wb_determinism_kernels.specs.Inner.Holes.{AfterUpTo};

use crate::before_hole::begins;
use std::alloc::{AllocError, Global};
use wb_base::{Grammar, Sequence, push};
use wb_items::Item;

// The items after a terminal that begins productions.
pub(crate) fn after_marker(
    alloc: Global,
    grammar: &Grammar,
    marker: usize,
) -> Result<Sequence<Item>, AllocError>
    ensures { IfOk result (λ items. AfterUpTo grammar.now marker items (length grammar.now.productions)) }
{
    let mut items = Vec::new(alloc);
    'productions: for production in 0..grammar.productions() {
        add_after(grammar, marker, production, &mut items)?;
    }
    Ok(Sequence::from_vec(items))
}

// Adds the item of a production, if the terminal begins it.
fn add_after(
    grammar: &Grammar,
    marker: usize,
    production: usize,
    items: &mut Vec<Item>,
) -> Result<(), AllocError>
    requires production { production < length grammar.now.productions }
    requires before { AfterUpTo grammar.now marker items.old.items production }
    ensures { OnOk result (AfterUpTo grammar.now marker items.new.items (production + 1)) }
{
    if begins(grammar.right(production), marker) {
        push(items, Item { production, dot: 1 })?;
    }
    Ok(())
}
