//! Is what is written a derivation tree of the grammar?
//!
//! It is read from right to left: a closing bracket begins a list of roots, and a production is put in the place of the list that is its
//! right side.

ghost use Rattle.std.specs.Prelude.{◌≡◌, ◌<◌, ◌++◌, ◌∷◌, [], IfOk, IfSome, List, None, Option, Some, length, map, slice_get, true};
ghost use Rattle.wb_base.specs.declared.symbol.Symbol.{Symbol as Sign};
ghost use Rattle.wb_base.specs.declared.symbol.Symbol.TheVariants as s;
ghost use Rattle.wb_explain_readings.specs.declared.piece.Piece.{Piece as Part};
ghost use Rattle.wb_grammar_theory.specs.Trees.{DerivationTree, Forest};
ghost use Rattle.wb_explain_readings.specs.Inner.Frames.{Holds};
ghost use Rattle.wb_explain_readings.specs.Written.{written};

use crate::Piece;
use std::alloc::{AllocError, Global};
use wb_base::{Grammar, Stack, Symbol};

// Whether the pieces are a derivation tree.
pub(crate) fn is_tree(
    alloc: Global,
    grammar: &Grammar,
    pieces: &[Piece],
) -> Result<bool, AllocError>
    ensures { IfOk result (λ is. is ≡ true → (tree : Forest) × DerivationTree grammar.now tree × (written tree ≡ pieces.now)) }
{
    let mut stack = Stack::new(alloc);
    let answer = is_read(grammar, pieces, &mut stack);
    drop(stack);
    answer
}

// The same, with a stack that is empty.
fn is_read(
    grammar: &Grammar,
    pieces: &[Piece],
    stack: &mut Stack<Option<Symbol>>,
) -> Result<bool, AllocError>
    requires { stack.old ≡ [] }
    ensures { IfOk result (λ is. is ≡ true → (tree : Forest) × DerivationTree grammar.now tree × (written tree ≡ pieces.now)) }
{
    'pieces: for after in 0..pieces.len() {
        let is = takes(grammar, pieces[pieces.len() - 1 - after], stack)?;
        if !is {
            return Ok(false);
        }
    }
    Ok(is_start(grammar, stack))
}

// Whether a piece can be before what was read.
fn takes(
    grammar: &Grammar,
    piece: Piece,
    stack: &mut Stack<Option<Symbol>>,
) -> Result<bool, AllocError>
    ensures { (read : List Part) → Holds grammar.now stack.old read → IfOk result (λ is. is ≡ true → Holds grammar.now stack.new (piece ∷ read)) }
{
    match piece {
        Piece::Leaf(terminal) => {
            stack.push(Some(Symbol::Terminal(terminal)))?;
            Ok(true)
        }
        Piece::Close => {
            stack.push(None)?;
            Ok(true)
        }
        Piece::Open(production) => takes_node(grammar, production, stack),
    }
}

// Whether the innermost roots are the right side of a production, whose left side then is in their place.
fn takes_node(
    grammar: &Grammar,
    production: usize,
    stack: &mut Stack<Option<Symbol>>,
) -> Result<bool, AllocError>
    ensures node { IfOk result (λ is. is ≡ true → IfSome (slice_get grammar.now.productions production) (λ rule. (rest : List (Option Sign)) × (stack.old ≡ map Some rule.1 ++ None ∷ rest) × (stack.new ≡ Some (s.Nonterminal rule.0) ∷ rest))) }
    ensures some { IfOk result (λ is. is ≡ true → production < length grammar.now.productions) }
{
    if production >= grammar.productions() {
        return Ok(false);
    }
    if !has_right(grammar.right(production), stack) {
        return Ok(false);
    }
    stack.push(Some(Symbol::Nonterminal(grammar.left(production))))?;
    Ok(true)
}

// Whether the innermost roots are these symbols, which are taken then, with the mark after them.
fn has_right(right: &[Symbol], stack: &mut Stack<Option<Symbol>>) -> bool
    ensures { result ≡ true → stack.old ≡ map Some right.now ++ None ∷ stack.new }
{
    'symbols: for &symbol in right {
        if !has_top(symbol, stack) {
            return false;
        }
    }
    is_mark(stack.pop())
}

// Whether a symbol is on top, which is taken then.
fn has_top(symbol: Symbol, stack: &mut Stack<Option<Symbol>>) -> bool
    ensures { result ≡ true → stack.old ≡ Some symbol ∷ stack.new }
{
    match stack.pop() {
        Some(top) => is_same(top, symbol),
        None => false,
    }
}

// Whether something is this symbol.
fn is_same(top: Option<Symbol>, symbol: Symbol) -> bool
    ensures { result ≡ true → top ≡ Some symbol }
{
    match top {
        Some(other) => other == symbol,
        None => false,
    }
}

// Whether what was taken is a mark.
fn is_mark(top: Option<Option<Symbol>>) -> bool
    ensures { result ≡ true → top ≡ Some None }
{
    match top {
        Some(inner) => inner.is_none(),
        None => false,
    }
}

// Whether the start alone is there.
fn is_start(grammar: &Grammar, stack: &mut Stack<Option<Symbol>>) -> bool
    ensures { result ≡ true → stack.old ≡ Some (s.Nonterminal grammar.now.start) ∷ [] }
{
    if !has_top(Symbol::Nonterminal(grammar.start()), stack) {
        return false;
    }
    match stack.pop() {
        Some(_) => false,
        None => true,
    }
}
