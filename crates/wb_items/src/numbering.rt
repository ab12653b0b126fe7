//! Which items have one set? Those of a kernel that one nonterminal opens; each other item has one of its own.
//!
//! What a nonterminal opens needn't be next to each other, so a table has the number that was given last for each nonterminal.

ghost use Rattle.std.specs.Prelude.{◌≡◌, ◌<◌, ◌≤◌, ℕ, [], IfOk, MatchOption, OnOk, length, replicate};
ghost use Rattle.wb_items.specs.Apart.{Opens};
ghost use Rattle.wb_items.specs.Inner.Numbering.{AddsSet, AreMade, GivesNumber, IsRowApart, NumberedUpTo};
ghost use Rattle.wb_items.specs.Kernels.{AreInOrder, count_of};

use crate::kernels::Kernels;
use crate::set_numbers::SetNumbers;
use std::alloc::{AllocError, Global};
use wb_base::{Grammar, push};
use wb_grammar_theory::Item;
use wb_termset::TermSet;

// The sets that were made, and for each nonterminal how many there were once the last one for what it opens was made, or 0.
#[derive(Drop)]
pub(crate) struct Made {
    pub(crate) sets: Vec<TermSet>,
    pub(crate) opened: Vec<usize>,
}

impl Made {
    // No set.
    pub(crate) fn new(alloc: Global, grammar: &Grammar) -> Result<Made, AllocError>
        ensures none { IfOk result (λ made. made.sets.items ≡ []) }
        ensures made { IfOk result (AreMade grammar.now) }
    {
        let opened = vec![in alloc; 0; grammar.nonterminals()]?;
        Ok(Made {
            sets: Vec::new(alloc),
            opened,
        })
    }
}

// The numbers of the sets for the items of each kernel, and these sets, where none was made before.
pub(crate) fn numbers_apart(
    alloc: Global,
    grammar: &Grammar,
    kernels: &Kernels,
    made: &mut Made,
) -> Result<Vec<SetNumbers>, AllocError>
    requires grammar { kernels.now.grammar ≡ grammar.now }
    requires none { made.old.sets.items ≡ [] }
    requires made { AreMade grammar.now made.old }
    ensures { IfOk result (λ numbers. NumberedUpTo kernels.now (length kernels.now.closures) numbers.items made.new) }
{
    let mut numbers = Vec::new(alloc);
    'states: for state in 0..kernels.count() {
        push(
            &mut numbers,
            row_numbers(alloc, grammar, kernels.closure(state), made)?,
        )?;
    }
    Ok(numbers)
}

// Those for the items of one kernel.
fn row_numbers(
    alloc: Global,
    grammar: &Grammar,
    items: &[Item],
    made: &mut Made,
) -> Result<SetNumbers, AllocError>
    requires items { AreInOrder items.now }
    requires made { AreMade grammar.now made.old }
    ensures row { IfOk result (λ numbers. IsRowApart grammar.now items.now numbers (length made.old.sets.items) (length made.new.sets.items)) }
    ensures more { OnOk result (length made.old.sets.items ≤ length made.new.sets.items) }
    ensures made { OnOk result (AreMade grammar.now made.new) }
{
    let first = made.sets.len();
    let mut numbers = SetNumbers::with_capacity(alloc, items.len())?;
    'items: for &item in items {
        let number = number_for(alloc, grammar, item, first, made)?;
        numbers.push(number)?;
    }
    Ok(numbers)
}

// That for one item, which is from `first` on where the item shares it.
fn number_for(
    alloc: Global,
    grammar: &Grammar,
    item: Item,
    first: usize,
    made: &mut Made,
) -> Result<usize, AllocError>
    requires { AreMade grammar.now made.old }
    ensures { IfOk result (λ number. GivesNumber grammar.now first item made.old number made.new) }
{
    let Some(nonterminal) = opened_by(grammar, item) else {
        return add_set(alloc, grammar, &mut made.sets);
    };
    let count = made.opened[nonterminal];
    if count > first {
        return Ok(count - 1);
    }
    let number = add_set(alloc, grammar, &mut made.sets)?;
    made.opened[nonterminal] = made.sets.len();
    Ok(number)
}

// The nonterminal that opens an item.
fn opened_by(grammar: &Grammar, item: Item) -> Option<usize>
    ensures { MatchOption result ((b : ℕ) → ¬ Opens grammar.now b item) (λ b. (b < grammar.now.nonterminals) × Opens grammar.now b item) }
{
    if item.dot > 0 || item.production >= grammar.productions() {
        return None;
    }
    Some(grammar.left(item.production))
}

// Makes an empty set, and answers its number.
fn add_set(alloc: Global, grammar: &Grammar, sets: &mut Vec<TermSet>) -> Result<usize, AllocError>
    ensures { IfOk result (λ number. AddsSet grammar.now sets.old.items number sets.new.items) }
{
    let number = sets.len();
    push(sets, TermSet::new(alloc, grammar.lookahead_count()?)?)?;
    Ok(number)
}
