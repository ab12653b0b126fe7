//! Which leaves does the start become? Its leftmost nonterminal is replaced again and again.
//!
//! What is left of the form is on a stack, and nothing recurses. It ends, since no nonterminal derives itself.

ghost use Rattle.std.specs.Prelude.{◌≡◌, ◌↔◌, IsTrue, ◌≤◌, ◌+◌, ◌-◌, ◌++◌, ◌∷◌, [], ℕ, IfOk, OnOk, length, slice_index};
ghost use Rattle.wb_base.specs.declared.symbol.Symbol.{Symbol};
ghost use Rattle.wb_base.specs.declared.symbol.Symbol.TheVariants.{Nonterminal};
ghost use Rattle.wb_scan_theory.specs.Bounds.{HasNoCycle};
ghost use Rattle.wb_generate.specs.Making.{Makes};
ghost use Rattle.wb_generate.specs.Inner.Choices.{AreChoices};
ghost use Rattle.wb_generate.specs.Inner.Runs.{taken};
ghost use Rattle.wb_generate.specs.Inner.States.{state_of, before, IsFit};

use crate::choices::Choices;
use crate::draw::{drawn, upper};
use std::alloc::{AllocError, Global};
use wb_base::{Grammar, Stack, Symbol, push};

// The leaves that the start becomes.
pub(crate) fn make(
    alloc: Global,
    grammar: &Grammar,
    choices: &Choices,
    spare: u64,
    number: u64,
) -> Result<Vec<usize>, AllocError>
    requires grammar { HasNoCycle grammar.now }
    requires choices { AreChoices grammar.now 100001 choices.now }
    requires few { spare + slice_index choices.now.counts.items grammar.now.start ≤ 100000 }
    ensures { IfOk result (λ made. Makes grammar.now choices.now.counts.items (Nonterminal grammar.now.start ∷ []) spare number made.items) }
{
    let mut making = Making::new(alloc, grammar.start(), spare, number)?;
    'steps: while let Some(symbol) = making.form.pop() {
        making.take(grammar, choices, symbol)?;
    }
    Ok(making.made)
}

/// What is left of a form, the leaves to spare, the state of the draws, and the leaves made.
#[derive(Drop)]
pub(crate) struct Making {
    pub(crate) form: Stack<Symbol>,
    pub(crate) spare: u64,
    pub(crate) number: u64,
    pub(crate) made: Vec<usize>,
}

impl Making {
    // The form of the start alone.
    fn new(alloc: Global, start: usize, spare: u64, number: u64) -> Result<Making, AllocError>
        ensures { IfOk result (λ making. state_of making ≡ record { form = Nonterminal start ∷ []; spare = spare; number = number; made = [] }) }
    {
        let mut form = Stack::new(alloc);
        form.push(Symbol::Nonterminal(start))?;
        Ok(Making {
            form,
            spare,
            number,
            made: Vec::new(alloc),
        })
    }

    // Takes a symbol that was before the form.
    fn take(
        &mut self,
        grammar: &Grammar,
        choices: &Choices,
        symbol: Symbol,
    ) -> Result<(), AllocError>
        requires choices { AreChoices grammar.now 100001 choices.now }
        requires fit { IsFit grammar.now choices.now.counts.items 100000 (before symbol (state_of self.old)) }
        ensures { OnOk result (state_of self.new ≡ taken grammar.now choices.now.counts.items symbol (state_of self.old)) }
    {
        match symbol {
            Symbol::Terminal(t) => push(&mut self.made, t),
            Symbol::Nonterminal(a) => self.replace(grammar, choices, a),
        }
    }

    // Puts the right side of a production in the place of a nonterminal that was taken, or nothing where no leaf may come of it.
    fn replace(&mut self, grammar: &Grammar, choices: &Choices, a: usize) -> Result<(), AllocError>
        requires choices { AreChoices grammar.now 100001 choices.now }
        requires fit { IsFit grammar.now choices.now.counts.items 100000 (before (Nonterminal a) (state_of self.old)) }
        ensures { OnOk result (state_of self.new ≡ taken grammar.now choices.now.counts.items (Nonterminal a) (state_of self.old)) }
    {
        let least = choices.least(a);
        if is_over(self.spare, least) {
            return Ok(());
        }
        let number = drawn(self.number);
        let production = choices.choose(a, self.spare, upper(number));
        let spare = spare_after(self.spare, least, choices.total(production));
        put_before(&mut self.form, grammar.right(production))?;
        self.spare = spare;
        self.number = number;
        Ok(())
    }
}

// Whether no leaf is to spare and none is needed.
fn is_over(spare: u64, least: u64) -> bool
    requires { spare + least ≤ 100000 }
    ensures { IsTrue result ↔ (spare + least ≡ 0) }
{
    spare + least == 0
}

// What is to spare, where so many are needed in place of so many.
fn spare_after(spare: u64, least: u64, total: u64) -> u64
    requires { total ≤ spare + least }
    ensures { result ≡ spare - (total - least) }
{
    if total < least {
        spare
    } else {
        spare - (total - least)
    }
}

// Puts symbols before the others, the last first.
#[tactic(auto, using(crate::proofs::FormLemmas::put_none, crate::proofs::FormLemmas::put_more, crate::proofs::FormLemmas::put_all))]
fn put_before(form: &mut Stack<Symbol>, right: &[Symbol]) -> Result<(), AllocError>
    ensures { OnOk result (form.new ≡ right.now ++ form.old) }
{
    'symbols: for back in 0..right.len() {
        form.push(right[right.len() - 1 - back])?;
    }
    Ok(())
}
