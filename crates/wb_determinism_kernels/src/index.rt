//! Which kernels were found that are none of the host's? Each with the kernel from which a symbol led to it first.

ghost use Rattle.std.specs.List.{insert};
ghost use Rattle.std.specs.Prelude.{◌≡◌, ◌<◌, ◌≤◌, ◌++◌, ◌∷◌, [], ℕ, List, IfSome, IfNone, OnErr, OnOk, Some, length, slice_get};
ghost use Rattle.wb_grammar_theory.specs.declared.item.Item.{Item};
ghost use Rattle.wb_items.specs.Kernels.{AreInOrder};
ghost use Rattle.wb_items.specs.Table.{SameItems};

use crate::search::locate;
use std::alloc::{AllocError, Global};
use std::marker::Model;
use wb_base::{Sequence, Symbol};
use wb_items::Item;

// A kernel is that after a symbol at the kernel of an earlier number, where the host's numbers come first.
#[derive(Clone, Copy, Drop)]
pub(crate) struct Step {
    pub(crate) from: usize,
    pub(crate) symbol: Symbol,
}

// For each kernel its step and its items; and the numbers of kernels in the order of these as sets.
#[derive(Drop)]
pub(crate) struct Index {
    steps: Vec<Step>,
    kernels: Vec<Sequence<Item>>,
    order: Vec<usize>,
}

impl Model for Index {
    ghost use Rattle.wb_determinism_kernels.specs.NewKernels.{IndexView};
    ghost use Rattle.wb_determinism_kernels.specs.Inner.Growing.{IsOrdered};

    ghost Value = { IndexView };

    ghost view = { λ f. record { steps = f.steps.items; kernels = f.kernels.items } };

    ghost invariant = { λ f. IsOrdered f.steps.items f.kernels.items f.order.items };
}

impl Index {
    // No kernel.
    pub(crate) fn new(alloc: Global) -> Index
        ensures { result ≡ record { steps = []; kernels = [] } }
    {
        Index {
            steps: Vec::new(alloc),
            kernels: Vec::new(alloc),
            order: Vec::new(alloc),
        }
    }

    // How many there are.
    pub(crate) fn len(&self) -> usize
        ensures kernels { result ≡ length self.now.kernels }
        ensures steps { result ≡ length self.now.steps }
    {
        self.kernels.len()
    }

    // The items of this number.
    pub(crate) fn kernel(&self, number: usize) -> &[Item]
        requires { number < length self.now.kernels }
        ensures { slice_get self.now.kernels number ≡ Some result.now }
    {
        self.kernels[number].as_slice()
    }

    // The number with these items.
    pub(crate) fn find(&self, items: &[Item]) -> Option<usize>
        requires { AreInOrder items.now }
        ensures found { IfSome result (λ i. (kernel : List Item) × (slice_get self.now.kernels i ≡ Some kernel) × SameItems kernel items.now) }
        ensures none { IfNone result ((i : ℕ) (kernel : List Item) → slice_get self.now.kernels i ≡ Some kernel → ¬ SameItems kernel items.now) }
    {
        match locate(&self.kernels, &self.order, items) {
            Ok(number) => Some(number),
            Err(_) => None,
        }
    }

    // Adds a kernel, which is new, with its step.
    pub(crate) fn add(&mut self, step: Step, kernel: Sequence<Item>) -> Result<(), AllocError>
        requires in_order { AreInOrder kernel }
        requires new { (i : ℕ) (other : List Item) → slice_get self.old.kernels i ≡ Some other → ¬ SameItems other kernel }
        ensures { OnOk result (self.new ≡ record { steps = self.old.steps ++ step ∷ []; kernels = self.old.kernels ++ kernel ∷ [] }) }
    {
        let Err(place) = locate(&self.kernels, &self.order, kernel.as_slice()) else {
            unreachable!()
        };
        self.steps.reserve(1)?;
        self.kernels.reserve(1)?;
        insert(&mut self.order, place, self.kernels.len())?;
        self.steps.push_reserved(step);
        self.kernels.push_reserved(kernel);
        Ok(())
    }
}

// Puts a number at a place of a list.
fn insert(list: &mut Vec<usize>, place: usize, number: usize) -> Result<(), AllocError>
    requires { place ≤ length list.old.items }
    ensures ok { OnOk result (list.new.items ≡ insert list.old.items place number) }
    ensures err { OnErr result (list.new.items ≡ list.old.items) }
{
    list.insert(place, number)?;
    Ok(())
}
