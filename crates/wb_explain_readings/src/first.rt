//! Which nonterminals derive the empty text, and which a text that begins with one terminal?

use crate::automaton::Dotted;
use crate::symbols::symbol_at;
use std::alloc::{AllocError, Global};
use wb_base::{Grammar, Symbol};

// Both, by nonterminal.
#[derive(Clone, Copy)]
pub(crate) struct Begin {
    is_nullable: bool,
    is_first: bool,
}

// The most symbols of a right side that are looked at.
const LONGEST: usize = 1_000;

// Both for all nonterminals, as a least fixpoint.
pub(crate) fn begins_of(
    alloc: Global,
    grammar: &Grammar,
    terminal: usize,
) -> Result<Vec<Begin>, AllocError> {
    let mut begins = Vec::new(alloc);
    'nonterminals: for _ in 0..grammar.nonterminals() {
        begins.push(Begin {
            is_nullable: false,
            is_first: false,
        })?;
    }
    'passes: for _ in 0..grammar.nonterminals().saturating_mul(2) {
        if !grows(grammar, terminal, &mut begins) {
            break;
        }
    }
    Ok(begins)
}

// Whether something is new, by going over all productions once.
fn grows(grammar: &Grammar, terminal: usize, begins: &mut Vec<Begin>) -> bool {
    let mut is_new = false;
    'productions: for production in 0..grammar.productions() {
        let found = begin_from(grammar, begins, terminal, production, 0);
        let left = grammar.left(production);
        if left < begins.len() {
            let known = begins[left];
            if (found.is_nullable && !known.is_nullable) || (found.is_first && !known.is_first) {
                begins[left] = Begin {
                    is_nullable: known.is_nullable || found.is_nullable,
                    is_first: known.is_first || found.is_first,
                };
                is_new = true;
            }
        }
    }
    is_new
}

// Both for the symbols of a production from a dot on.
fn begin_from(
    grammar: &Grammar,
    begins: &[Begin],
    terminal: usize,
    production: usize,
    dot: usize,
) -> Begin {
    let mut is_first = false;
    'symbols: for place in dot..dot.saturating_add(LONGEST) {
        let Some(symbol) = symbol_at(grammar, production, place) else {
            return Begin {
                is_nullable: true,
                is_first,
            };
        };
        let begin = begin_of(begins, terminal, symbol);
        is_first = is_first || begin.is_first;
        if !begin.is_nullable {
            break;
        }
    }
    Begin {
        is_nullable: false,
        is_first,
    }
}

// Both for a symbol.
fn begin_of(begins: &[Begin], terminal: usize, symbol: Symbol) -> Begin {
    match symbol {
        Symbol::Terminal(number) => Begin {
            is_nullable: false,
            is_first: number == terminal,
        },
        Symbol::Nonterminal(number) => match begins.get(number) {
            Some(begin) => *begin,
            None => Begin {
                is_nullable: false,
                is_first: false,
            },
        },
    }
}

// Whether the terminal can follow the symbol after a dot, where it can follow the production or not.
pub(crate) fn follows_after(
    grammar: &Grammar,
    begins: &[Begin],
    terminal: usize,
    item: Dotted,
    follows: bool,
) -> bool {
    let begin = begin_from(
        grammar,
        begins,
        terminal,
        item.production,
        item.dot.saturating_add(1),
    );
    begin.is_first || (begin.is_nullable && follows)
}
