//! Where do the numbers of each kernel's items begin? Items are numbered by kernels, and then by their places there.

ghost use Rattle.std.specs.Prelude.{◌≡◌, ◌<◌, ◌+◌, IfOk, OnOk};
ghost use Rattle.wb_items.specs.Kernels.{AreKernels, count_of};
ghost use Rattle.wb_digraph.specs.Inner.Numbers.{AreBases, AreBasesUpTo};

use std::alloc::{AllocError, Global};
use wb_base::push;
use wb_items::Kernels;

// Where they begin, and last how many there are.
pub(crate) fn bases_of(alloc: Global, kernels: &Kernels) -> Result<Vec<usize>, AllocError>
    ensures kernels { OnOk result (AreKernels kernels.now) }
    ensures bases { IfOk result (λ bases. AreBases kernels.now bases.items) }
{
    let mut bases = Vec::new(alloc);
    push(&mut bases, 0)?;
    'states: for state in 0..kernels.count() {
        add_base(kernels, state, &mut bases)?;
    }
    Ok(bases)
}

// Adds where those of the next kernel begin. The only error, but for want of memory, is that there are too many items to be numbered.
fn add_base(kernels: &Kernels, state: usize, bases: &mut Vec<usize>) -> Result<(), AllocError>
    requires state { state < count_of kernels.now }
    requires before { AreBasesUpTo kernels.now state bases.old.items }
    ensures { OnOk result (AreBasesUpTo kernels.now (state + 1) bases.new.items) }
{
    let Some(next) = bases[state].checked_add(kernels.closure(state).len()) else {
        return Err(AllocError);
    };
    push(bases, next)?;
    Ok(())
}
