//! Which symbols has a production? `S' -> S` is numbered after all of the grammar.

use wb_base::{Grammar, Symbol};

// The symbol at a place of the right side, where there is one.
pub(crate) fn symbol_at(grammar: &Grammar, production: usize, dot: usize) -> Option<Symbol> {
    if production < grammar.productions() {
        return grammar.right(production).get(dot).copied();
    }
    if dot == 0 {
        return Some(Symbol::Nonterminal(grammar.start()));
    }
    None
}

// How many symbols the right side has.
pub(crate) fn length_of(grammar: &Grammar, production: usize) -> usize {
    if production < grammar.productions() {
        return grammar.right(production).len();
    }
    1
}

// The left side.
pub(crate) fn left_of(grammar: &Grammar, production: usize) -> usize {
    if production < grammar.productions() {
        return grammar.left(production);
    }
    grammar.start()
}
