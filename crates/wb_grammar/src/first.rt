//! Which terminals begin what each nonterminal derives? Passes over the productions find them, until no set grows.
//!
//! Each goes by the order of `order.rt`, by which one finds all, and then over all productions, which shows that none is missing.

ghost use Rattle.std.specs.Prelude.{◌≡◌, ℕ, ◌+◌, ◌<◌, ◌↔◌, false, length, All, IfOk, IsTrue, replicate, slice_set};
ghost use Rattle.wb_base.specs.Grammar.{IsGrammar, IsSymbolBelow};
ghost use Rattle.wb_termset.specs.Sets.{IsMember, Grew, IsUnion};
ghost use Rattle.wb_grammar.specs.Facts.{IsNullableSet, AreSets, AreFirstSets, set_of};
ghost use Rattle.wb_grammar.specs.Inner.Firsts.{CanBegin, AreFirsts, IsFirstClosedAt, SetsWithin, SetsGrew};

use crate::first_sets::FirstSets;
use crate::order::bottom_up;
use std::alloc::{AllocError, Global};
use wb_base::{Grammar, Symbol};
use wb_termset::TermSet;

// The set of each nonterminal.
pub(crate) fn first_of_all(
    alloc: Global,
    grammar: &Grammar,
    nullable: &TermSet,
) -> Result<FirstSets, AllocError>
    requires { IsNullableSet grammar.now nullable.now }
    ensures exact { IfOk result (λ sets. AreFirstSets grammar.now sets) }
    ensures grammar { IfOk result (λ _. IsGrammar grammar.now) }
{
    let Some(count) = grammar.terminals().checked_add(1) else {
        return Err(AllocError);
    };
    let order = bottom_up(alloc, grammar, nullable)?;
    let mut sets = FirstSets::new(alloc, grammar.nonterminals(), count)?;
    'passes: while pass(alloc, grammar, nullable, &order, &mut sets)? {}
    Ok(sets)
}

// Goes over the productions in the order, and then over all, and answers whether in the latter a set grew.
fn pass(
    alloc: Global,
    grammar: &Grammar,
    nullable: &TermSet,
    order: &[usize],
    sets: &mut FirstSets,
) -> Result<bool, AllocError>
    requires nullable { IsNullableSet grammar.now nullable.now }
    requires order { All (λ p. p < length grammar.now.productions) order.now }
    requires shape { AreSets grammar.now sets.old }
    requires sound { AreFirsts grammar.now sets.old }
    ensures shape { AreSets grammar.now sets.new }
    ensures sound { AreFirsts grammar.now sets.new }
    ensures keeps { SetsWithin sets.old sets.new }
    ensures grew { IfOk result (λ grew. IsTrue grew → SetsGrew sets.old sets.new) }
    ensures stayed { IfOk result (λ grew. grew ≡ false → (p : ℕ) → IsFirstClosedAt grammar.now nullable.now sets.new p) }
{
    pass_in_order(alloc, grammar, nullable, order, sets)?;
    pass_over_all(alloc, grammar, nullable, sets)
}

// Goes over the productions in the order.
fn pass_in_order(
    alloc: Global,
    grammar: &Grammar,
    nullable: &TermSet,
    order: &[usize],
    sets: &mut FirstSets,
) -> Result<(), AllocError>
    requires nullable { IsNullableSet grammar.now nullable.now }
    requires order { All (λ p. p < length grammar.now.productions) order.now }
    requires shape { AreSets grammar.now sets.old }
    requires sound { AreFirsts grammar.now sets.old }
    ensures shape { AreSets grammar.now sets.new }
    ensures sound { AreFirsts grammar.now sets.new }
    ensures keeps { SetsWithin sets.old sets.new }
{
    'order: for &production in order {
        add_first(alloc, grammar, nullable, production, sets)?;
    }
    Ok(())
}

// Goes over all productions, and answers whether a set grew.
fn pass_over_all(
    alloc: Global,
    grammar: &Grammar,
    nullable: &TermSet,
    sets: &mut FirstSets,
) -> Result<bool, AllocError>
    requires nullable { IsNullableSet grammar.now nullable.now }
    requires shape { AreSets grammar.now sets.old }
    requires sound { AreFirsts grammar.now sets.old }
    ensures shape { AreSets grammar.now sets.new }
    ensures sound { AreFirsts grammar.now sets.new }
    ensures keeps { SetsWithin sets.old sets.new }
    ensures grew { IfOk result (λ grew. IsTrue grew → SetsGrew sets.old sets.new) }
    ensures stayed { IfOk result (λ grew. grew ≡ false → (p : ℕ) → IsFirstClosedAt grammar.now nullable.now sets.new p) }
{
    let mut grew = false;
    'productions: for production in 0..grammar.productions() {
        if add_first(alloc, grammar, nullable, production, sets)? {
            grew = true;
        }
    }
    Ok(grew)
}

// Adds what can begin the right side of a production to the set of its left side, and answers whether that grew.
fn add_first(
    alloc: Global,
    grammar: &Grammar,
    nullable: &TermSet,
    production: usize,
    sets: &mut FirstSets,
) -> Result<bool, AllocError>
    requires production { production < length grammar.now.productions }
    requires nullable { IsNullableSet grammar.now nullable.now }
    requires shape { AreSets grammar.now sets.old }
    requires sound { AreFirsts grammar.now sets.old }
    ensures shape { AreSets grammar.now sets.new }
    ensures sound { AreFirsts grammar.now sets.new }
    ensures keeps { SetsWithin sets.old sets.new }
    ensures grew { IfOk result (λ grew. IsTrue grew → SetsGrew sets.old sets.new) }
    ensures stayed { IfOk result (λ grew. grew ≡ false → sets.new ≡ sets.old) }
    ensures closed { IfOk result (λ grew. grew ≡ false → IsFirstClosedAt grammar.now nullable.now sets.new production) }
{
    let begin = begin_of(
        alloc,
        grammar.terminals(),
        nullable,
        sets,
        grammar.right(production),
    )?;
    Ok(sets.add(grammar.left(production), &begin))
}

// The terminals that can begin the symbols, by the sets.
fn begin_of(
    alloc: Global,
    terminals: usize,
    nullable: &TermSet,
    sets: &FirstSets,
    symbols: &[Symbol],
) -> Result<TermSet, AllocError>
    requires sets { All (λ set. length set ≡ terminals + 1) sets.now }
    requires nullable { length nullable.now ≡ length sets.now }
    requires symbols { All (IsSymbolBelow terminals (length sets.now)) symbols.now }
    ensures len { IfOk result (λ set. length set ≡ terminals + 1) }
    ensures exact { IfOk result (λ set. (t : ℕ) → IsMember set t ↔ CanBegin nullable.now sets.now symbols.now t) }
{
    let Some(count) = terminals.checked_add(1) else {
        return Err(AllocError);
    };
    let mut begin = TermSet::new(alloc, count)?;
    'symbols: for symbol in symbols {
        match *symbol {
            Symbol::Terminal(terminal) => {
                begin.insert(terminal);
                return Ok(begin);
            }
            Symbol::Nonterminal(nonterminal) => {
                begin.union_with(sets.set(nonterminal));
                if !nullable.contains(nonterminal) {
                    return Ok(begin);
                }
            }
        }
    }
    Ok(begin)
}
