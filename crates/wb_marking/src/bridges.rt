//! Do an extension's productions on the host's nonterminals begin with its markers, and are these nonterminals extensible?
//!
//! Each rule is tested on all productions before the next, so the first that fails is the answer. That each marker begins one production
//! is in `places`.

ghost use Rattle.std.specs.Prelude.{◌≡◌, ◌<◌, All, IfErr, IfOk, IfSome, IsSome, IsTrue, false, length};
ghost use Rattle.wb_marking.specs.Bridges.{AreBridges, AreExtensible, BeginWithMarkers, BeginsWithMarker, EachBeginsOne, IsClosed, IsOnHost};
ghost use Rattle.wb_marking.specs.Inner.Begun.{AreIn, IsOpen};
ghost use Rattle.wb_marking.specs.Markers.{HasGrammar};
ghost use Rattle.wb_marking.specs.Refusals.{IsBridgeRefusal, IsNoBridge};

use crate::MarkRefusal;
use crate::places::check_places;
use crate::scope::{Scope, beginning, is_on_host};
use std::alloc::{AllocError, Global};
use wb_syntax_resolved::Resolved;
use wb_termset::TermSet;

/// Whether each production of an extension on a nonterminal of the host begins with a marker, each marker begins exactly one such
/// production and is nowhere else, and the left sides of these productions are extensible.
///
/// Rules are tested in this order. The time is linear in the terminals and the grammar; no clause bounds it.
pub fn check_bridges(alloc: Global, resolved: &Resolved) -> Result<(), MarkRefusal>
    requires { IsSome resolved.now.grammar }
    ensures ok { IfOk result (λ done. IfSome resolved.now.grammar (AreBridges resolved.now)) }
    ensures refused { IfErr result (λ refusal. IfSome resolved.now.grammar (λ g. IsBridgeRefusal resolved.now g refusal)) }
{
    let parts = resolved.parts();
    match &parts.grammar {
        Some(grammar) => check_in(alloc, &Scope { parts, grammar }),
        None => unreachable!(),
    }
}

// Like `check_bridges`, where the specification has this grammar.
fn check_in(alloc: Global, scope: &Scope) -> Result<(), MarkRefusal>
    requires { HasGrammar scope.now.parts.now scope.now.grammar.now }
    ensures ok { IfOk result (λ done. AreBridges scope.now.parts.now scope.now.grammar.now) }
    ensures refused { IfErr result (IsBridgeRefusal scope.now.parts.now scope.now.grammar.now) }
{
    check_begin(scope)?;
    check_places(alloc, scope)?;
    check_extensible(alloc, scope)
}

// Whether an extension's productions on nonterminals of the host begin with markers.
fn check_begin(scope: &Scope) -> Result<(), MarkRefusal>
    ensures ok { IfOk result (λ done. BeginWithMarkers scope.now.parts.now scope.now.grammar.now) }
    ensures refused { IfErr result (IsBridgeRefusal scope.now.parts.now scope.now.grammar.now) }
{
    'productions: for number in 0..scope.grammar.productions() {
        if is_no_bridge(scope, number) {
            return Err(MarkRefusal::NotBridge(number));
        }
    }
    Ok(())
}

// Whether a production is an extension's on a nonterminal of the host, and begins with no marker.
fn is_no_bridge(scope: &Scope, number: usize) -> bool
    requires { number < length scope.now.grammar.now.productions }
    ensures lacks { IsTrue result → IsNoBridge scope.now.parts.now scope.now.grammar.now number }
    ensures begins { result ≡ false → IsOnHost scope.now.parts.now scope.now.grammar.now number → BeginsWithMarker scope.now.parts.now scope.now.grammar.now number }
{
    if !is_on_host(scope, number) {
        return false;
    }
    beginning(scope, number).is_none()
}

// Whether productions that begin with markers are on extensible nonterminals.
fn check_extensible(alloc: Global, scope: &Scope) -> Result<(), MarkRefusal>
    requires has { HasGrammar scope.now.parts.now scope.now.grammar.now }
    requires begin { BeginWithMarkers scope.now.parts.now scope.now.grammar.now }
    requires once { EachBeginsOne scope.now.parts.now scope.now.grammar.now }
    ensures ok { IfOk result (λ done. AreExtensible scope.now.parts.now scope.now.grammar.now) }
    ensures refused { IfErr result (IsBridgeRefusal scope.now.parts.now scope.now.grammar.now) }
{
    let count = scope.grammar.nonterminals();
    let extensible = set_of(alloc, count, scope.parts.extensible.as_slice())?;
    check_left_sides(scope, &extensible)
}

// Like `check_extensible`, where these are the extensible nonterminals.
fn check_left_sides(scope: &Scope, extensible: &TermSet) -> Result<(), MarkRefusal>
    requires extensible { AreIn scope.now.grammar.now.nonterminals scope.now.parts.now.extensible extensible.now }
    requires begin { BeginWithMarkers scope.now.parts.now scope.now.grammar.now }
    requires once { EachBeginsOne scope.now.parts.now scope.now.grammar.now }
    ensures ok { IfOk result (λ done. AreExtensible scope.now.parts.now scope.now.grammar.now) }
    ensures refused { IfErr result (IsBridgeRefusal scope.now.parts.now scope.now.grammar.now) }
{
    'productions: for number in 0..scope.grammar.productions() {
        if is_closed(scope, extensible, number) {
            return Err(MarkRefusal::NotExtensible(number));
        }
    }
    Ok(())
}

// Whether a production begins with a marker, and its left side isn't one of the extensible nonterminals.
fn is_closed(scope: &Scope, extensible: &TermSet, number: usize) -> bool
    requires extensible { AreIn scope.now.grammar.now.nonterminals scope.now.parts.now.extensible extensible.now }
    requires number { number < length scope.now.grammar.now.productions }
    ensures closed { IsTrue result → IsClosed scope.now.parts.now scope.now.grammar.now number }
    ensures open { result ≡ false → IsOpen scope.now.parts.now scope.now.grammar.now number }
{
    if extensible.contains(scope.grammar.left(number)) {
        return false;
    }
    beginning(scope, number).is_some()
}

// The set of these numbers.
fn set_of(alloc: Global, count: usize, numbers: &[usize]) -> Result<TermSet, AllocError>
    requires { All (λ number. number < count) numbers.now }
    ensures { IfOk result (AreIn count numbers.now) }
{
    let mut set = TermSet::new(alloc, count)?;
    'numbers: for &number in numbers {
        set.insert(number);
    }
    Ok(set)
}
