//! Which kernels of the host have an item of a production? No other kernel contains one that has such an item.

ghost use Rattle.std.specs.Prelude.{◌≡◌, ◌<◌, ◌+◌, ◌++◌, ◌∷◌, [], ℕ, IfOk, OnOk, Some, length, replicate, slice_get};
ghost use Rattle.wb_items.specs.Kernels.{AreKernels, count_of};
ghost use Rattle.wb_determinism.specs.Inner.Index.{IsIndex};

use std::alloc::{AllocError, Global};
use std::marker::Model;
use wb_base::push;
use wb_items::Kernels;

// Numbers of kernels.
#[derive(Drop)]
pub(crate) struct States {
    states: Vec<usize>,
}

impl Model for States {
    ghost use Rattle.std.specs.Prelude.{List, ℕ};

    ghost Value = { List ℕ };

    ghost view = { λ s. s.states.items };
}

impl States {
    // No number.
    fn new(alloc: Global) -> States
        ensures { result ≡ [] }
    {
        States {
            states: Vec::new(alloc),
        }
    }

    // Puts a number after the others.
    fn push(&mut self, state: usize) -> Result<(), AllocError>
        ensures { OnOk result (self.new ≡ self.old ++ state ∷ []) }
    {
        push(&mut self.states, state)
    }

    // The numbers.
    pub(crate) fn as_slice(&self) -> &[usize]
        ensures { result.now ≡ self.now }
    {
        &self.states
    }
}

// The kernels that are listed at a production.
pub(crate) fn listed(index: &[States], production: usize) -> &[usize]
    requires { production < length index.now }
    ensures { slice_get index.now production ≡ Some result.now }
{
    index[production].as_slice()
}

// For each production, and `S' -> S`, the kernels that have an item of it.
pub(crate) fn host_index(
    alloc: Global,
    host: &Kernels,
    count: usize,
) -> Result<Vec<States>, AllocError>
    requires { count ≡ length host.now.grammar.productions + 1 }
    ensures { IfOk result (λ index. IsIndex host.now (count_of host.now) index.items) }
{
    let mut index = empty_index(alloc, count)?;
    'kernels: for state in 0..host.count() {
        add_kernel(host, state, &mut index)?;
    }
    Ok(index)
}

// So many empty lists.
fn empty_index(alloc: Global, count: usize) -> Result<Vec<States>, AllocError>
    ensures { IfOk result (λ index. index.items ≡ replicate count []) }
{
    let mut index = Vec::new(alloc);
    'rows: for _row in 0..count {
        push(&mut index, States::new(alloc))?;
    }
    Ok(index)
}

// Adds the number of a kernel at the production of each of its items.
fn add_kernel(host: &Kernels, state: usize, index: &mut Vec<States>) -> Result<(), AllocError>
    requires exact { AreKernels host.now }
    requires state { state < count_of host.now }
    requires before { IsIndex host.now state index.old.items }
    ensures { OnOk result (IsIndex host.now (state + 1) index.new.items) }
{
    'items: for item in host.kernel(state) {
        index[item.production].push(state)?;
    }
    Ok(())
}
