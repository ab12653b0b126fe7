//! Which terminals are markers, and where does one begin a production?

ghost use Rattle.std.specs.Prelude.{◌≡◌, ◌<◌, ◌↔◌, ℕ, IfSome, IfNone, IsTrue, length};
ghost use Rattle.wb_base.specs.declared.symbol.Symbol.TheVariants.{Terminal};
ghost use Rattle.wb_marking.specs.Bridges.{IsOnHost};
ghost use Rattle.wb_marking.specs.Markers.{IsAt, IsExtensions, IsHosts, IsMarker};

use wb_base::{Grammar, Symbol};
use wb_syntax_resolved::{ResolvedParts, TerminalKind};

// A specification and its grammar.
#[derive(Clone, Copy)]
pub(crate) struct Scope<'a> {
    pub(crate) parts: &'a ResolvedParts,
    pub(crate) grammar: &'a Grammar,
}

// Whether there is a marker of this number.
pub(crate) fn is_marker(parts: &ResolvedParts, number: usize) -> bool
    ensures { IsTrue result ↔ IsMarker parts.now number }
{
    let terminals = parts.terminals.as_slice();
    if number >= terminals.len() {
        return false;
    }
    matches!(terminals[number].kind, TerminalKind::Marking)
}

// The marker that a symbol is.
pub(crate) fn marker_of(parts: &ResolvedParts, symbol: Symbol) -> Option<usize>
    ensures some { IfSome result (λ marker. (symbol ≡ Terminal marker) × IsMarker parts.now marker) }
    ensures none { IfNone result ((marker : ℕ) → symbol ≡ Terminal marker → ¬ IsMarker parts.now marker) }
{
    let Symbol::Terminal(number) = symbol else {
        return None;
    };
    if is_marker(parts, number) {
        Some(number)
    } else {
        None
    }
}

// The marker that begins a production.
pub(crate) fn beginning(scope: &Scope, number: usize) -> Option<usize>
    requires { number < length scope.now.grammar.now.productions }
    ensures some { IfSome result (λ marker. IsMarker scope.now.parts.now marker × IsAt scope.now.grammar.now marker number 0) }
    ensures none { IfNone result ((marker : ℕ) → IsMarker scope.now.parts.now marker → ¬ IsAt scope.now.grammar.now marker number 0) }
{
    let right = scope.grammar.right(number);
    if right.is_empty() {
        None
    } else {
        marker_of(scope.parts, right[0])
    }
}

// Whether a nonterminal is the host's.
pub(crate) fn is_hosts(parts: &ResolvedParts, nonterminal: usize) -> bool
    ensures { IsTrue result ↔ IsHosts parts.now nonterminal }
{
    let nonterminals = parts.attributes.parts().nonterminals.as_slice();
    if nonterminal >= nonterminals.len() {
        return false;
    }
    nonterminals[nonterminal].owner == 0
}

// Whether there is a production of this number, and it isn't the host's.
fn is_extensions(parts: &ResolvedParts, number: usize) -> bool
    ensures { IsTrue result ↔ IsExtensions parts.now number }
{
    let productions = parts.attributes.parts().productions.as_slice();
    if number >= productions.len() {
        return false;
    }
    productions[number].owner != 0
}

// Whether a production is an extension's, on a nonterminal of the host.
pub(crate) fn is_on_host(scope: &Scope, number: usize) -> bool
    requires { number < length scope.now.grammar.now.productions }
    ensures { IsTrue result ↔ IsOnHost scope.now.parts.now scope.now.grammar.now number }
{
    is_extensions(scope.parts, number) && is_hosts(scope.parts, scope.grammar.left(number))
}
