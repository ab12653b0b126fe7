//! Which terminals belong to which item of which kernel? Sets that the crates above fill.
//!
//! Items can have one set. Which have one at first is in `numbering.rt`.

ghost use Rattle.std.specs.Prelude.{◌≡◌, ◌<◌, ◌↔◌, ◌++◌, ◌∷◌, [], ℕ, List, Bool, IsTrue, true, false, IfOk, MatchOption, OnErr, OnOk, Some, length, map, replicate, Contains, slice_get, slice_index_or, slice_set};
ghost use Rattle.wb_termset.specs.Sets.{IsMember, IsUnion, Grew};
ghost use Rattle.wb_items.specs.declared.item_lookahead.ItemLookahead.{ItemLookahead};
ghost use Rattle.wb_items.specs.Apart.{AreApart};
ghost use Rattle.wb_items.specs.Kernels.{AreInOrder};
ghost use Rattle.wb_items.specs.Lookaheads.{AnswersUnion, AreLookaheadsOf, AreEmpty, ChangesAt, Inserts, IsSetOf, items_in, numbers_of, row_of, set_of};

use crate::dot::{is_item, item_at};
use crate::item_list::ItemList;
use crate::kernels::Kernels;
use crate::numbering::{Made, numbers_apart};
use crate::position::position;
use crate::set_numbers::SetNumbers;
use std::alloc::{AllocError, Global};
use std::marker::Model;
use wb_base::{Grammar, push};
use wb_grammar_theory::Item;
use wb_termset::TermSet;

/// A set of terminals for each kernel and each item of its closure.
///
/// Kernels have their numbers, and the place of an item is that in the kernel's closure. A set is one of numbers up to the number
/// of terminals, which stands for the end of a text. Sets have numbers too, and each item has the number of its set: a change of
/// the set at an item is one at each item that shares it, and takes no memory.
pub struct Lookaheads {
    items: Vec<ItemList>,
    numbers: Vec<SetNumbers>,
    sets: Vec<TermSet>,
}

impl Model for Lookaheads {
    ghost use Rattle.wb_items.specs.Lookaheads.{AreNumbered, LookaheadsView};

    ghost Value = { LookaheadsView };

    ghost view = { λ l. record { items = l.items.items; numbers = l.numbers.items; sets = l.sets.items } };

    ghost invariant = { λ l. AreNumbered (record { items = l.items.items; numbers = l.numbers.items; sets = l.sets.items }) };
}

impl Lookaheads {
    /// Empty sets. The items of a kernel that one nonterminal opens have one set, and each other item has its own.
    pub fn new(
        alloc: Global,
        grammar: &Grammar,
        kernels: &Kernels,
    ) -> Result<Lookaheads, AllocError>
        requires { kernels.now.grammar ≡ grammar.now }
        ensures items { IfOk result (AreLookaheadsOf kernels.now) }
        ensures empty { IfOk result AreEmpty }
        ensures apart { IfOk result (AreApart kernels.now.grammar) }
    {
        let items = item_lists(alloc, kernels)?;
        let mut made = Made::new(alloc, grammar)?;
        let numbers = numbers_apart(alloc, grammar, kernels, &mut made)?;
        Ok(Lookaheads {
            items,
            numbers,
            sets: made.sets,
        })
    }

    /// One empty set, which all items have. So they take a word each, until `add_set` and `put_at` give them others.
    pub fn with_one_set(
        alloc: Global,
        grammar: &Grammar,
        kernels: &Kernels,
    ) -> Result<Lookaheads, AllocError>
        requires { kernels.now.grammar ≡ grammar.now }
        ensures items { IfOk result (AreLookaheadsOf kernels.now) }
        ensures empty { IfOk result AreEmpty }
        ensures one { IfOk result (λ lookaheads. length lookaheads.sets ≡ 1) }
    {
        let items = item_lists(alloc, kernels)?;
        let numbers = zeros_for(alloc, &items)?;
        let mut sets = Vec::new(alloc);
        push(&mut sets, TermSet::new(alloc, grammar.lookahead_count()?)?)?;
        Ok(Lookaheads {
            items,
            numbers,
            sets,
        })
    }

    /// How many items the closure of a kernel has.
    pub fn len(&self, state: usize) -> usize
        requires { state < length self.now.items }
        ensures { result ≡ length (row_of self.now state) }
    {
        self.items[state].as_slice().len()
    }

    /// The item at a place.
    pub fn item_at(&self, state: usize, place: usize) -> Item
        requires state { state < length self.now.items }
        requires place { place < length (row_of self.now state) }
        ensures { slice_get (items_in (row_of self.now state)) place ≡ Some result }
    {
        item_at(self.items[state].as_slice(), place)
    }

    /// The place of an item, if the kernel has it.
    pub fn find(&self, state: usize, item: Item) -> Option<usize>
        requires { state < length self.now.items }
        ensures { MatchOption result (¬ Contains (items_in (row_of self.now state)) item) (λ place. slice_get (items_in (row_of self.now state)) place ≡ Some item) }
    {
        position(self.items[state].as_slice(), item)
    }

    /// The place of an item.
    pub fn place(&self, state: usize, item: Item) -> usize
        requires state { state < length self.now.items }
        requires item { Contains (items_in (row_of self.now state)) item }
        ensures { slice_get (items_in (row_of self.now state)) result ≡ Some item }
    {
        let Some(place) = self.find(state, item) else {
            unreachable!()
        };
        place
    }

    /// The place of an item, found at once where it is the place `near`.
    pub fn place_near(&self, state: usize, item: Item, near: usize) -> usize
        requires state { state < length self.now.items }
        requires item { Contains (items_in (row_of self.now state)) item }
        ensures { slice_get (items_in (row_of self.now state)) result ≡ Some item }
    {
        if near < self.len(state) && is_item(self.item_at(state, near), item) {
            return near;
        }
        self.place(state, item)
    }

    /// The set at an item.
    pub fn of(&self, state: usize, item: Item) -> &TermSet
        requires state { state < length self.now.items }
        requires item { Contains (items_in (row_of self.now state)) item }
        ensures { IsSetOf self.now state item result.now }
    {
        let place = self.place(state, item);
        self.at(state, place)
    }

    /// The set at the place of an item.
    pub fn at(&self, state: usize, place: usize) -> &TermSet
        requires state { state < length self.now.items }
        requires place { place < length (row_of self.now state) }
        ensures { (looks : ItemLookahead) × (slice_get (row_of self.now state) place ≡ Some looks) × (result.now ≡ looks.set) }
    {
        self.set(self.number_at(state, place))
    }

    /// The number of the set at the place of an item.
    pub fn number_at(&self, state: usize, place: usize) -> usize
        requires state { state < length self.now.items }
        requires place { place < length (row_of self.now state) }
        ensures number { slice_get (numbers_of self.now state) place ≡ Some result }
        ensures below { result < length self.now.sets }
    {
        self.numbers[state].at(place)
    }

    /// The set of a number.
    pub fn set(&self, number: usize) -> &TermSet
        requires { number < length self.now.sets }
        ensures { slice_get self.now.sets number ≡ Some result.now }
    {
        &self.sets[number]
    }

    /// Adds a set that no item has, and answers its number, which is how many there were.
    pub fn add_set(&mut self, set: TermSet) -> Result<usize, AllocError>
        ensures ok { OnOk result (self.new ≡ record self.old { sets = self.old.sets ++ set ∷ [] }) }
        ensures number { IfOk result (λ number. number ≡ length self.old.sets) }
    {
        let number = self.sets.len();
        push(&mut self.sets, set)?;
        Ok(number)
    }

    /// Gives the item at a place the set of a number.
    pub fn put_at(&mut self, state: usize, place: usize, number: usize)
        requires state { state < length self.old.items }
        requires place { place < length (row_of self.old state) }
        requires number { number < length self.old.sets }
        ensures { self.new ≡ record self.old { numbers = slice_set self.old.numbers state (slice_set (numbers_of self.old state) place number) } }
    {
        self.numbers[state].put(place, number);
    }

    /// Adds a terminal, or the end, to the set at an item, and so to that of each item that shares it, and answers whether it was
    /// new.
    pub fn insert(&mut self, state: usize, item: Item, terminal: usize) -> bool
        requires state { state < length self.old.items }
        requires item { Contains (items_in (row_of self.old state)) item }
        requires terminal { (set : List Bool) → IsSetOf self.old state item set → terminal < length set }
        ensures { Inserts self.old state item terminal self.new result }
    {
        let place = self.place(state, item);
        self.insert_at(state, place, terminal)
    }

    /// Like `insert`, by the item's place.
    pub fn insert_at(&mut self, state: usize, place: usize, terminal: usize) -> bool
        requires state { state < length self.old.items }
        requires place { place < length (row_of self.old state) }
        requires terminal { (looks : ItemLookahead) → slice_get (row_of self.old state) place ≡ Some looks → terminal < length looks.set }
        ensures after { ChangesAt self.old state place (λ set. slice_set set terminal true) self.new }
        ensures new { (n : ℕ) → slice_get (numbers_of self.old state) place ≡ Some n → IsTrue result ↔ (¬ IsMember (set_of self.old n) terminal) }
    {
        let number = self.number_at(state, place);
        self.sets[number].insert(terminal)
    }

    /// Adds each member of a set to the set at an item, and so to that of each item that shares it, and answers whether one was new.
    pub fn unite(&mut self, state: usize, item: Item, set: &TermSet) -> bool
        requires state { state < length self.old.items }
        requires item { Contains (items_in (row_of self.old state)) item }
        requires len { (own : List Bool) → IsSetOf self.old state item own → length own ≡ length set.now }
        ensures { AnswersUnion self.old state item set.now self.new result }
    {
        let place = self.place(state, item);
        self.union_at(state, place, set)
    }

    /// Like `unite`, by the item's place.
    pub fn union_at(&mut self, state: usize, place: usize, set: &TermSet) -> bool
        requires state { state < length self.old.items }
        requires place { place < length (row_of self.old state) }
        requires len { (looks : ItemLookahead) → slice_get (row_of self.old state) place ≡ Some looks → length looks.set ≡ length set.now }
        ensures after { (n : ℕ) × (union : List Bool) × (slice_get (numbers_of self.old state) place ≡ Some n) × (n < length self.old.sets) × IsUnion (set_of self.old n) set.now union × (IsTrue result → Grew (set_of self.old n) union) × (self.new ≡ record self.old { sets = slice_set self.old.sets n union }) }
        ensures stayed { result ≡ false → self.new ≡ self.old }
    {
        let number = self.number_at(state, place);
        self.sets[number].union_with(set)
    }
}

// For each kernel its items.
fn item_lists(alloc: Global, kernels: &Kernels) -> Result<Vec<ItemList>, AllocError>
    ensures is { IfOk result (λ lists. lists.items ≡ kernels.now.closures) }
    ensures in_order { IfOk result (λ lists. (s : ℕ) → AreInOrder (slice_index_or lists.items s [])) }
{
    let mut lists = Vec::new(alloc);
    'states: for state in 0..kernels.count() {
        push(&mut lists, kernels.items(state)?)?;
    }
    Ok(lists)
}

// For each item the number 0.
fn zeros_for(alloc: Global, lists: &[ItemList]) -> Result<Vec<SetNumbers>, AllocError>
    ensures { IfOk result (λ numbers. numbers.items ≡ map (λ items. replicate (length items) 0) lists.now) }
{
    let mut numbers = Vec::new(alloc);
    'lists: for items in lists {
        push(
            &mut numbers,
            SetNumbers::zeros(alloc, items.as_slice().len())?,
        )?;
    }
    Ok(numbers)
}

impl Drop for Lookaheads {
    fn drop(self) {
        let Lookaheads {
            items,
            numbers,
            sets,
        } = self;
        drop(items);
        drop(numbers);
        drop(sets);
    }
}
