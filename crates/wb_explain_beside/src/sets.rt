//! What can a nonterminal begin with, and what can come after it?
//!
//! Marks are in rows, one for each nonterminal. In a row there is a place for each terminal and a last one: for the empty text in the rows
//! of what a nonterminal begins with, and for the end of a text in those of what comes after it.

use std::alloc::{AllocError, Global};
use wb_base::{Grammar, Symbol};

// Marks in rows of one width.
#[derive(Drop)]
pub(crate) struct Marks {
    width: usize,
    marks: Vec<bool>,
}

// So many rows without a mark.
fn unmarked(alloc: Global, width: usize, rows: usize) -> Result<Marks, AllocError> {
    let mut marks = Vec::new(alloc);
    'marks: for _ in 0..width.saturating_mul(rows) {
        marks.push(false)?;
    }
    Ok(Marks { width, marks })
}

// The last place of a row.
pub(crate) fn last(marks: &Marks) -> usize {
    marks.width.saturating_sub(1)
}

// Whether there is a mark.
pub(crate) fn has(marks: &Marks, row: usize, column: usize) -> bool {
    let place = row.saturating_mul(marks.width).saturating_add(column);
    match marks.marks.get(place) {
        Some(is) => *is,
        None => false,
    }
}

// Makes a mark, and answers whether it is new.
fn mark(marks: &mut Marks, row: usize, column: usize) -> bool {
    let place = row.saturating_mul(marks.width).saturating_add(column);
    if place < marks.marks.len() {
        if !marks.marks[place] {
            marks.marks[place] = true;
            return true;
        }
    }
    false
}

// What each nonterminal can begin with, without what the extension adds to those of the host.
pub(crate) fn firsts(
    alloc: Global,
    host: &Grammar,
    grammar: &Grammar,
) -> Result<Marks, AllocError> {
    let width = grammar.terminals().saturating_add(1);
    let mut marks = unmarked(alloc, width, grammar.nonterminals())?;
    let passes = grammar.nonterminals().saturating_mul(2).saturating_add(1);
    'passes: for _ in 0..passes {
        if !adds_firsts(host, grammar, &mut marks) {
            break;
        }
    }
    Ok(marks)
}

// Whether marks are added by going over all productions once.
fn adds_firsts(host: &Grammar, grammar: &Grammar, marks: &mut Marks) -> bool {
    let mut adds = false;
    'productions: for production in 0..grammar.productions() {
        let left = grammar.left(production);
        if production < host.productions() || left >= host.nonterminals() {
            if adds_row(marks, left, grammar.right(production)) {
                adds = true;
            }
        }
    }
    adds
}

// Whether marks are added for what a right side can begin with.
fn adds_row(marks: &mut Marks, left: usize, right: &[Symbol]) -> bool {
    let mut adds = false;
    'symbols: for &symbol in right {
        if adds_symbol(marks, left, symbol) {
            adds = true;
        }
        if !can_be_empty(marks, symbol) {
            return adds;
        }
    }
    let column = last(marks);
    mark(marks, left, column) || adds
}

// Whether marks are added for what a symbol can begin with.
fn adds_symbol(marks: &mut Marks, left: usize, symbol: Symbol) -> bool {
    match symbol {
        Symbol::Terminal(terminal) => mark(marks, left, terminal),
        Symbol::Nonterminal(number) => {
            let mut adds = false;
            'terminals: for terminal in 0..last(marks) {
                if has(marks, number, terminal) {
                    if mark(marks, left, terminal) {
                        adds = true;
                    }
                }
            }
            adds
        }
    }
}

// Whether a symbol derives the empty text.
fn can_be_empty(firsts: &Marks, symbol: Symbol) -> bool {
    match symbol {
        Symbol::Terminal(_) => false,
        Symbol::Nonterminal(number) => has(firsts, number, last(firsts)),
    }
}

// Whether a symbol can begin with a terminal.
pub(crate) fn can_begin(firsts: &Marks, symbol: Symbol, terminal: usize) -> bool {
    match symbol {
        Symbol::Terminal(number) => number == terminal,
        Symbol::Nonterminal(number) => has(firsts, number, terminal),
    }
}

// What can come after each nonterminal of the host.
pub(crate) fn follows(alloc: Global, host: &Grammar, firsts: &Marks) -> Result<Marks, AllocError> {
    let mut marks = unmarked(alloc, firsts.width, host.nonterminals())?;
    mark(&mut marks, host.start(), last(firsts));
    'passes: for _ in 0..host.nonterminals().saturating_add(1) {
        if !adds_follows(host, firsts, &mut marks) {
            break;
        }
    }
    Ok(marks)
}

// Whether marks are added by going over all productions once.
fn adds_follows(host: &Grammar, firsts: &Marks, marks: &mut Marks) -> bool {
    let mut adds = false;
    'productions: for production in 0..host.productions() {
        if adds_parts(firsts, marks, host.left(production), host.right(production)) {
            adds = true;
        }
    }
    adds
}

// Whether marks are added for the nonterminals of a right side.
fn adds_parts(firsts: &Marks, marks: &mut Marks, left: usize, right: &[Symbol]) -> bool {
    let mut adds = false;
    'places: for place in 0..right.len() {
        if let Symbol::Nonterminal(number) = right[place] {
            if adds_rest(firsts, marks, left, number, &right[place + 1..]) {
                adds = true;
            }
        }
    }
    adds
}

// Whether marks are added for a nonterminal with this after it.
fn adds_rest(
    firsts: &Marks,
    marks: &mut Marks,
    left: usize,
    number: usize,
    rest: &[Symbol],
) -> bool {
    let mut adds = false;
    'symbols: for &symbol in rest {
        if adds_first(firsts, marks, number, symbol) {
            adds = true;
        }
        if !can_be_empty(firsts, symbol) {
            return adds;
        }
    }
    adds_left(marks, left, number) || adds
}

// Whether marks are added for a nonterminal with this symbol after it.
fn adds_first(firsts: &Marks, marks: &mut Marks, number: usize, symbol: Symbol) -> bool {
    let mut adds = false;
    'terminals: for terminal in 0..last(firsts) {
        if can_begin(firsts, symbol, terminal) {
            if mark(marks, number, terminal) {
                adds = true;
            }
        }
    }
    adds
}

// Whether marks are added for a nonterminal at the end of a right side.
fn adds_left(marks: &mut Marks, left: usize, number: usize) -> bool {
    let mut adds = false;
    'terminals: for terminal in 0..marks.width {
        if has(marks, left, terminal) {
            if mark(marks, number, terminal) {
                adds = true;
            }
        }
    }
    adds
}
