//! Are the lookaheads by relations those by propagation, on a thousand grammars that a generator makes by number?

ghost use Rattle.std.specs.Prelude.{◌<◌, ◌≤◌};

use crate::lookahead_relations::agree;
use crate::small::add_checked;
use std::alloc::{AllocError, Global};
use std::test::Fail;
use wb_base::{Grammar, Symbol, push};
use wb_grammar::analyse;

// Numbers that look random, the same for the same start.
#[derive(Drop)]
struct Generator {
    state: u64,
}

impl Generator {
    // The next number below a bound.
    fn below(&mut self, bound: usize) -> usize
        requires { 0 < bound }
        ensures { result < bound }
    {
        self.state = self
            .state
            .wrapping_mul(6_364_136_223_846_793_005)
            .wrapping_add(1_442_695_040_888_963_407);
        (self.state >> 33) as usize % bound
    }
}

// How many symbols there are.
#[derive(Clone, Copy)]
struct Counts {
    terminals: usize,
    nonterminals: usize,
}

// One symbol of three is a nonterminal.
fn symbol_of(generator: &mut Generator, counts: Counts) -> Symbol
    requires terminals { 0 < counts.terminals }
    requires nonterminals { 0 < counts.nonterminals }
{
    if generator.below(3) == 0 {
        Symbol::Nonterminal(generator.below(counts.nonterminals))
    } else {
        Symbol::Terminal(generator.below(counts.terminals))
    }
}

// Up to three symbols, and after them the next nonterminal in the first production of each but the last, so that all are reached.
fn add_right(
    generator: &mut Generator,
    counts: Counts,
    number: usize,
    right: &mut Vec<Symbol>,
) -> Result<(), AllocError>
    requires terminals { 0 < counts.terminals }
    requires nonterminals { 0 < counts.nonterminals }
{
    for _place in 0..generator.below(4) {
        push(right, symbol_of(generator, counts))?;
    }
    let next = number.saturating_add(1);
    if next < counts.nonterminals {
        push(right, Symbol::Nonterminal(next))?;
    }
    Ok(())
}

// Adds a production. The first ones are those of the nonterminals in turn.
fn add_production(
    alloc: Global,
    generator: &mut Generator,
    counts: Counts,
    number: usize,
    grammar: &mut Grammar,
) -> Result<bool, AllocError>
    requires terminals { 0 < counts.terminals }
    requires nonterminals { 0 < counts.nonterminals }
{
    let left = if number < counts.nonterminals {
        number
    } else {
        generator.below(counts.nonterminals)
    };
    let mut right = Vec::new(alloc);
    add_right(generator, counts, number, &mut right)?;
    add_checked(grammar, left, &right)
}

// A grammar of up to six terminals, six nonterminals and twelve productions.
fn random_grammar(alloc: Global, number: u64) -> Result<Grammar, AllocError> {
    let mut generator = Generator { state: number };
    let counts = Counts {
        nonterminals: 1 + generator.below(6),
        terminals: 1 + generator.below(6),
    };
    let more = generator.below(13 - counts.nonterminals);
    let mut grammar = Grammar::new(alloc, counts.terminals, counts.nonterminals, 0);
    for production in 0..counts.nonterminals + more {
        add_production(alloc, &mut generator, counts, production, &mut grammar)?;
    }
    Ok(grammar)
}

// Whether both calls find the same lookaheads, for a grammar that passes its analysis.
fn agree_where_analysed(alloc: Global, grammar: &Grammar) -> Result<Option<bool>, AllocError> {
    match analyse(alloc, grammar) {
        Ok(facts) => {
            drop(facts);
            Ok(Some(agree(alloc, grammar)?))
        }
        Err(_) => Ok(None),
    }
}

fn agree_on(alloc: Global, number: u64) -> Result<Option<bool>, AllocError> {
    let grammar = random_grammar(alloc, number)?;
    agree_where_analysed(alloc, &grammar)
}

// How many of a thousand grammars pass their analysis, or none where the calls differ on one of them.
fn compared(alloc: Global) -> Result<usize, AllocError> {
    let mut count: usize = 0;
    for number in 0..1000 {
        match agree_on(alloc, number)? {
            Some(true) => count = count.saturating_add(1),
            Some(false) => return Ok(0),
            None => {}
        }
    }
    Ok(count)
}

#[test]
fn relations_agree_with_propagation_on_random_grammars(rt: HostRuntime) -> Result<(), Fail> {
    assert!(rt; compared(rt.alloc())? >= 400);
    Ok(())
}
