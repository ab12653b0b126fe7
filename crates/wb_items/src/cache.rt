//! To which kernel did a symbol lead last? It mostly leads there again.
//!
//! Nothing is promised of what is cached: who asks tests it.

use std::alloc::{AllocError, Global};
use wb_base::{Grammar, Symbol};

// A number for each terminal and for each nonterminal.
#[derive(Drop)]
pub(crate) struct Cache {
    terminals: Vec<usize>,
    nonterminals: Vec<usize>,
}

impl Cache {
    // The number 0 for each.
    pub(crate) fn new(alloc: Global, grammar: &Grammar) -> Result<Cache, AllocError> {
        let terminals = vec![in alloc; 0; grammar.terminals()]?;
        let nonterminals = vec![in alloc; 0; grammar.nonterminals()]?;
        Ok(Cache {
            terminals,
            nonterminals,
        })
    }

    // The number that was noted last.
    pub(crate) fn get(&self, symbol: Symbol) -> usize {
        match symbol {
            Symbol::Terminal(number) => get_at(&self.terminals, number),
            Symbol::Nonterminal(number) => get_at(&self.nonterminals, number),
        }
    }

    // Notes a number.
    pub(crate) fn put(&mut self, symbol: Symbol, hint: usize) {
        match symbol {
            Symbol::Terminal(number) => put_at(&mut self.terminals, number, hint),
            Symbol::Nonterminal(number) => put_at(&mut self.nonterminals, number, hint),
        }
    }
}

// The hint at a place, or 0 where there is none.
fn get_at(hints: &[usize], place: usize) -> usize {
    if place < hints.len() { hints[place] } else { 0 }
}

// Puts a hint at a place, if there is such a place.
fn put_at(hints: &mut [usize], place: usize, hint: usize) {
    if place < hints.len() {
        hints[place] = hint;
    }
}
