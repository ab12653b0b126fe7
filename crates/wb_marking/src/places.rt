//! Does each marker begin exactly one production on a nonterminal of the host, and is it nowhere else?
//!
//! A table has a production that each marker begins, where there is one; then each place is looked at once.

ghost use Rattle.std.specs.Prelude.{◌≡◌, ◌+◌, ◌<◌, ◌↔◌, ℕ, IfErr, IfOk, IfSome, IfNone, IsTrue, length};
ghost use Rattle.wb_base.specs.declared.symbol.Symbol.TheVariants.{Terminal};
ghost use Rattle.wb_marking.specs.Bridges.{BeginWithMarkers, EachBeginsOne};
ghost use Rattle.wb_marking.specs.Inner.Begun.{AreBegun, BeginsAll, IsBeginning, IsMisplaced, IsUnused};
ghost use Rattle.wb_marking.specs.Markers.{IsMarker};
ghost use Rattle.wb_marking.specs.Refusals.{IsBridgeRefusal};

use crate::MarkRefusal;
use crate::scope::{Scope, beginning, is_hosts, is_marker, marker_of};
use std::alloc::{AllocError, Global};
use wb_base::Symbol;
use wb_syntax_resolved::ResolvedParts;

// Whether each marker does, and is nowhere else.
pub(crate) fn check_places(alloc: Global, scope: &Scope) -> Result<(), MarkRefusal>
    requires begin { BeginWithMarkers scope.now.parts.now scope.now.grammar.now }
    ensures ok { IfOk result (λ done. EachBeginsOne scope.now.parts.now scope.now.grammar.now) }
    ensures refused { IfErr result (IsBridgeRefusal scope.now.parts.now scope.now.grammar.now) }
{
    let table = begun(alloc, scope)?;
    check_by(scope, &table)
}

// For each marker a production on a nonterminal of the host that it begins.
fn begun(alloc: Global, scope: &Scope) -> Result<Vec<Option<usize>>, AllocError>
    ensures { IfOk result (λ table. AreBegun scope.now.parts.now scope.now.grammar.now (length scope.now.grammar.now.productions) table.items) }
{
    let mut table = vec![in alloc; None; scope.parts.terminals.len()]?;
    'productions: for number in 0..scope.grammar.productions() {
        put(scope, &mut table, number);
    }
    Ok(table)
}

// Puts a production into the table, where a marker begins it.
fn put(scope: &Scope, table: &mut Vec<Option<usize>>, number: usize)
    requires number { number < length scope.now.grammar.now.productions }
    requires table { AreBegun scope.now.parts.now scope.now.grammar.now number table.old.items }
    ensures { AreBegun scope.now.parts.now scope.now.grammar.now (number + 1) table.new.items }
{
    let Some(marker) = beginning(scope, number) else {
        return;
    };
    if is_hosts(scope.parts, scope.grammar.left(number)) {
        table[marker] = Some(number);
    }
}

// Whether each marker is in the table, and at no place where it doesn't begin its production.
fn check_by(scope: &Scope, table: &[Option<usize>]) -> Result<(), MarkRefusal>
    requires table { AreBegun scope.now.parts.now scope.now.grammar.now (length scope.now.grammar.now.productions) table.now }
    requires begin { BeginWithMarkers scope.now.parts.now scope.now.grammar.now }
    ensures ok { IfOk result (λ done. EachBeginsOne scope.now.parts.now scope.now.grammar.now) }
    ensures refused { IfErr result (IsBridgeRefusal scope.now.parts.now scope.now.grammar.now) }
{
    if let Some(marker) = elsewhere(scope, table) {
        return Err(MarkRefusal::MarkerElsewhere(marker));
    }
    match unused(scope, table) {
        Some(marker) => Err(MarkRefusal::MarkerElsewhere(marker)),
        None => Ok(()),
    }
}

// A marker that is at a place where it doesn't begin its production.
fn elsewhere(scope: &Scope, table: &[Option<usize>]) -> Option<usize>
    requires { length table.now ≡ length scope.now.parts.now.terminals }
    ensures some { IfSome result (IsMisplaced scope.now.parts.now scope.now.grammar.now table.now) }
    ensures none { IfNone result ((number : ℕ) → BeginsAll scope.now.parts.now scope.now.grammar.now table.now number) }
{
    'productions: for number in 0..scope.grammar.productions() {
        if let Some(marker) = elsewhere_in(scope, table, number) {
            return Some(marker);
        }
    }
    None
}

// Like `elsewhere`, in one production.
fn elsewhere_in(scope: &Scope, table: &[Option<usize>], number: usize) -> Option<usize>
    requires number { number < length scope.now.grammar.now.productions }
    requires table { length table.now ≡ length scope.now.parts.now.terminals }
    ensures some { IfSome result (IsMisplaced scope.now.parts.now scope.now.grammar.now table.now) }
    ensures none { IfNone result (BeginsAll scope.now.parts.now scope.now.grammar.now table.now number) }
{
    let right = scope.grammar.right(number);
    'places: for place in 0..right.len() {
        let found = misplaced(scope.parts, table, number, place, right[place]);
        if found.is_some() {
            return found;
        }
    }
    None
}

// The marker that a symbol is, where it doesn't begin at this place the production that the table has for it.
fn misplaced(
    parts: &ResolvedParts,
    table: &[Option<usize>],
    number: usize,
    place: usize,
    symbol: Symbol,
) -> Option<usize>
    requires { length table.now ≡ length parts.now.terminals }
    ensures some { IfSome result (λ marker. (symbol ≡ Terminal marker) × IsMarker parts.now marker × ¬ IsBeginning table.now marker number place) }
    ensures none { IfNone result ((marker : ℕ) → symbol ≡ Terminal marker → IsMarker parts.now marker → IsBeginning table.now marker number place) }
{
    let Some(marker) = marker_of(parts, symbol) else {
        return None;
    };
    if is_beginning(table, marker, number, place) {
        None
    } else {
        Some(marker)
    }
}

// Whether the marker begins at this place the production that the table has for it.
fn is_beginning(table: &[Option<usize>], marker: usize, number: usize, place: usize) -> bool
    requires { marker < length table.now }
    ensures { IsTrue result ↔ IsBeginning table.now marker number place }
{
    match table[marker] {
        Some(begun) => place == 0 && begun == number,
        None => false,
    }
}

// A marker for which the table has no production.
fn unused(scope: &Scope, table: &[Option<usize>]) -> Option<usize>
    requires { length table.now ≡ length scope.now.parts.now.terminals }
    ensures some { IfSome result (IsUnused scope.now.parts.now table.now) }
    ensures none { IfNone result ((marker : ℕ) → ¬ IsUnused scope.now.parts.now table.now marker) }
{
    'terminals: for number in 0..table.len() {
        if table[number].is_none() && is_marker(scope.parts, number) {
            return Some(number);
        }
    }
    None
}
