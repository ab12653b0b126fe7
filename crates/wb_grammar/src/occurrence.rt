//! Which symbols of a right side occur as a test asks? What is before and after them decides, by whether it derives the empty text.
//!
//! The edges between nonterminals that such occurrences make are in `edges.rt`.

ghost use Rattle.std.specs.Prelude.{◌≤◌, ◌↔◌, IsTrue, false, length, All, Contains};
ghost use Rattle.wb_base.specs.declared.symbol.Symbol.{Symbol};
ghost use Rattle.wb_grammar.specs.Inner.LeastSets.{Holds, IsKnown};
ghost use Rattle.wb_grammar.specs.Inner.Edges.{IsPlaced, IsLeading};

use wb_base::Symbol;
use wb_termset::TermSet;

/// Which occurrences of symbols in a right side count.
#[derive(Clone, Copy)]
pub(crate) enum Occurrence {
    /// All.
    Any,
    /// Left corners: those before which all symbols derive the empty text.
    LeftCorner,
    /// Left corners before which there is a symbol.
    HiddenLeft,
    /// Those beside which all symbols derive the empty text.
    Unit,
}

// The symbols that occur so.
pub(crate) fn occurring<'a>(
    occurrence: Occurrence,
    symbols: &'a [Symbol],
    nullable: &TermSet,
) -> &'a [Symbol]
    requires { All (IsKnown (length nullable.now)) symbols.now }
    ensures { (x : Symbol) → Contains result.now x ↔ IsPlaced occurrence nullable.now symbols.now x }
{
    let empty = count_empty(symbols, nullable);
    match occurrence {
        Occurrence::Any => symbols,
        Occurrence::LeftCorner => left_corner(symbols, empty, nullable),
        Occurrence::HiddenLeft => hidden_left(symbols, empty, nullable),
        Occurrence::Unit => unit(symbols, empty, nullable),
    }
}

// Up to the first symbol that doesn't derive the empty text.
fn left_corner<'a>(symbols: &'a [Symbol], empty: usize, nullable: &TermSet) -> &'a [Symbol]
    requires { IsLeading nullable.now symbols.now empty }
    ensures { (x : Symbol) → Contains result.now x ↔ IsPlaced Occurrence.LeftCorner nullable.now symbols.now x }
{
    if empty < symbols.len() {
        &symbols[..empty + 1]
    } else {
        symbols
    }
}

// Like `left_corner`, without the first symbol of all.
fn hidden_left<'a>(symbols: &'a [Symbol], empty: usize, nullable: &TermSet) -> &'a [Symbol]
    requires within { empty ≤ length symbols.now }
    requires leading { IsLeading nullable.now symbols.now empty }
    ensures { (x : Symbol) → Contains result.now x ↔ IsPlaced Occurrence.HiddenLeft nullable.now symbols.now x }
{
    if empty == 0 {
        &symbols[..0]
    } else if empty < symbols.len() {
        &symbols[1..empty + 1]
    } else {
        &symbols[1..symbols.len()]
    }
}

// All symbols where each derives the empty text, the one that doesn't where there is one, and none where there are more.
fn unit<'a>(symbols: &'a [Symbol], empty: usize, nullable: &TermSet) -> &'a [Symbol]
    requires known { All (IsKnown (length nullable.now)) symbols.now }
    requires leading { IsLeading nullable.now symbols.now empty }
    ensures { (x : Symbol) → Contains result.now x ↔ IsPlaced Occurrence.Unit nullable.now symbols.now x }
{
    if empty >= symbols.len() {
        symbols
    } else if are_nullable(&symbols[empty + 1..], nullable) {
        &symbols[empty..empty + 1]
    } else {
        &symbols[..0]
    }
}

// How many symbols at the beginning derive the empty text.
fn count_empty(symbols: &[Symbol], nullable: &TermSet) -> usize
    requires { All (IsKnown (length nullable.now)) symbols.now }
    ensures within { result ≤ length symbols.now }
    ensures leading { IsLeading nullable.now symbols.now result }
{
    'symbols: for (place, symbol) in symbols.iter().enumerate() {
        if !is_nullable(*symbol, nullable) {
            return place;
        }
    }
    symbols.len()
}

// Whether each symbol derives the empty text.
fn are_nullable(symbols: &[Symbol], nullable: &TermSet) -> bool
    requires { All (IsKnown (length nullable.now)) symbols.now }
    ensures { IsTrue result ↔ All (Holds false nullable.now) symbols.now }
{
    symbols.iter().all(|symbol| is_nullable(*symbol, nullable))
}

// Whether the symbol derives the empty text.
fn is_nullable(symbol: Symbol, nullable: &TermSet) -> bool
    requires { IsKnown (length nullable.now) symbol }
    ensures { IsTrue result ↔ Holds false nullable.now symbol }
{
    match symbol {
        Symbol::Terminal(_) => false,
        Symbol::Nonterminal(a) => nullable.contains(a),
    }
}
