//! Which kernels were found, and by which steps? Each has a prefix that leads to it, and an order in which it is looked for.
//!
//! The search is in `search.rt`, and the kernel to which a symbol led last in `cache.rt`.

ghost use Rattle.std.specs.List.{insert};
ghost use Rattle.std.specs.Prelude.{◌≡◌, ◌<◌, ◌≤◌, ◌++◌, ◌∷◌, [], ℕ, suc, List, IfOk, IfSome, IfNone, OnErr, OnOk, Some, length, slice_get, slice_index_or};
ghost use Rattle.wb_grammar_theory.specs.declared.item.Item.{Item};
ghost use Rattle.wb_items.specs.Inner.Numbering.{GoesOn};
ghost use Rattle.wb_items.specs.Kernels.{AreInOrder};
ghost use Rattle.wb_items.specs.Table.{SameItems};

use crate::cache::Cache;
use crate::compare::are_in_order;
use crate::search::{is_number_of, locate};
use std::alloc::{AllocError, Global};
use std::marker::Model;
use wb_base::{Grammar, Sequence, Symbol, push};
use wb_grammar_theory::Item;

// A prefix goes on from that of an earlier number by a symbol.
#[derive(Clone, Copy, Drop)]
pub(crate) struct Step {
    pub(crate) from: usize,
    pub(crate) symbol: Symbol,
}

// Step n leads to the prefix of the number n + 1, and the order has the numbers by their kernels.
#[derive(Drop)]
pub(crate) struct KernelIndex {
    steps: Vec<Step>,
    kernels: Vec<Sequence<Item>>,
    order: Vec<usize>,
    cache: Cache,
}

impl Model for KernelIndex {
    ghost use Rattle.wb_items.specs.Index.{IndexView, prefixes_of};
    ghost use Rattle.wb_items.specs.Inner.Steps.{IsKernelIndex};

    ghost Value = { IndexView };

    ghost view = { λ f. record { prefixes = prefixes_of f.steps.items; kernels = f.kernels.items } };

    ghost invariant = { λ f. IsKernelIndex f.steps.items f.kernels.items f.order.items };
}

impl KernelIndex {
    // The empty prefix with its items.
    pub(crate) fn new(
        alloc: Global,
        grammar: &Grammar,
        kernel: Sequence<Item>,
    ) -> Result<KernelIndex, AllocError>
        requires { AreInOrder kernel }
        ensures { IfOk result (λ found. found ≡ record { prefixes = [] ∷ []; kernels = kernel ∷ [] }) }
    {
        let mut kernels = Vec::new(alloc);
        push(&mut kernels, kernel)?;
        let mut order = Vec::new(alloc);
        push(&mut order, 0)?;
        Ok(KernelIndex {
            steps: Vec::new(alloc),
            kernels,
            order,
            cache: Cache::new(alloc, grammar)?,
        })
    }

    // How many there are.
    pub(crate) fn len(&self) -> usize
        ensures kernels { result ≡ length self.now.kernels }
        ensures prefixes { result ≡ length self.now.prefixes }
        ensures steps { (n : ℕ) → suc n < length self.now.prefixes → GoesOn self.now.prefixes (suc n) }
    {
        self.kernels.len()
    }

    // The items of this number.
    pub(crate) fn kernel(&self, number: usize) -> &[Item]
        requires { number < length self.now.kernels }
        ensures { slice_get self.now.kernels number ≡ Some result.now }
    {
        self.kernels[number].as_slice()
    }

    // The number with these items.
    pub(crate) fn find(&self, items: &[Item]) -> Option<usize>
        ensures found { IfSome result (λ s. (kernel : List Item) × (slice_get self.now.kernels s ≡ Some kernel) × SameItems kernel items.now) }
        ensures none { IfNone result ((s : ℕ) (kernel : List Item) → slice_get self.now.kernels s ≡ Some kernel → ¬ SameItems kernel items.now) }
    {
        match locate(&self.kernels, &self.order, items, are_in_order(items)) {
            Ok(number) => Some(number),
            Err(_) => None,
        }
    }

    // The number that was put last for the symbol, if it has these items.
    pub(crate) fn get(&self, symbol: Symbol, items: &[Item]) -> Option<usize>
        requires { AreInOrder items.now }
        ensures { IfSome result (λ s. (kernel : List Item) × (slice_get self.now.kernels s ≡ Some kernel) × SameItems kernel items.now) }
    {
        let number = self.cache.get(symbol);
        if is_number_of(&self.kernels, number, items) {
            Some(number)
        } else {
            None
        }
    }

    // Puts a number for the symbol.
    pub(crate) fn put(&mut self, symbol: Symbol, number: usize)
        ensures { self.new ≡ self.old }
    {
        self.cache.put(symbol, number);
    }

    // Adds a prefix, which goes on from that of a number by a symbol, with its items, which are new.
    pub(crate) fn add(
        &mut self,
        from: usize,
        symbol: Symbol,
        kernel: Sequence<Item>,
    ) -> Result<(), AllocError>
        requires from { from < length self.old.kernels }
        requires in_order { AreInOrder kernel }
        requires new { (s : ℕ) (other : List Item) → slice_get self.old.kernels s ≡ Some other → ¬ SameItems other kernel }
        ensures { OnOk result (self.new ≡ record { prefixes = self.old.prefixes ++ (slice_index_or self.old.prefixes from [] ++ symbol ∷ []) ∷ []; kernels = self.old.kernels ++ kernel ∷ [] }) }
    {
        let Err(place) = locate(&self.kernels, &self.order, kernel.as_slice(), true) else {
            unreachable!()
        };
        self.steps.reserve(1)?;
        self.kernels.reserve(1)?;
        insert(&mut self.order, place, self.kernels.len())?;
        self.steps.push_reserved(Step { from, symbol });
        self.kernels.push_reserved(kernel);
        Ok(())
    }

    // The prefix of this number.
    pub(crate) fn prefix(&self, alloc: Global, number: usize) -> Result<Vec<Symbol>, AllocError>
        requires { number < length self.now.kernels }
        ensures { IfOk result (λ prefix. prefix.items ≡ slice_index_or self.now.prefixes number []) }
    {
        let mut symbols = Vec::new(alloc);
        let mut at = number;
        'steps: while at > 0 {
            let step = self.steps[at - 1];
            push(&mut symbols, step.symbol)?;
            at = step.from;
        }
        symbols.reverse();
        Ok(symbols)
    }
}

// Puts a number at a place of a list.
fn insert(list: &mut Vec<usize>, place: usize, number: usize) -> Result<(), AllocError>
    requires { place ≤ length list.old.items }
    ensures ok { OnOk result (list.new.items ≡ insert list.old.items place number) }
    ensures err { OnErr result (list.new.items ≡ list.old.items) }
{
    list.insert(place, number)?;
    Ok(())
}
