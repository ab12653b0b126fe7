//! For which terminal of the host does one of the extended host stand? A marker stands for the hole of its nonterminal.

ghost use Rattle.std.specs.Prelude.{◌≡◌, ◌≢◌, ◌+◌, ◌<◌, ◌^◌, ℕ, IfOk, MatchOption, length, slice_get};
ghost use Rattle.wb_determinism.specs.Images.{begins, bridged, hole_among, hole_for, is_marker_row, is_marking, stands_for};
ghost use Rattle.wb_determinism.specs.Numbers.{lifted};
ghost use Rattle.wb_determinism_beside.specs.Inner.Images.{AreImagesBy, IsDownBy};

use std::alloc::{AllocError, Global};
use wb_base::{Grammar, Symbol, push};
use wb_determinism_kernels::Added;
use wb_syntax_resolved::{ResolvedParts, Terminal, TerminalKind};

// For each terminal of the extended host, and the end of a text, the host's terminal that it stands for.
pub(crate) fn images_of(
    alloc: Global,
    parts: &ResolvedParts,
    grammar: &Grammar,
    added: Added,
    count: usize,
) -> Result<Vec<Option<usize>>, AllocError>
    requires holes { grammar.now.terminals + length parts.now.extensible < 2 ^ 64 }
    ensures { IfOk result (λ images. AreImagesBy added.own added.more (stands_for parts.now grammar.now) count images.items) }
{
    let mut images = Vec::new(alloc);
    'terminals: for terminal in 0..count {
        let image = image_of(parts, grammar, added, terminal);
        push(&mut images, image)?;
    }
    Ok(images)
}

// The host's terminal that one stands for.
fn image_of(
    parts: &ResolvedParts,
    grammar: &Grammar,
    added: Added,
    terminal: usize,
) -> Option<usize>
    requires holes { grammar.now.terminals + length parts.now.extensible < 2 ^ 64 }
    ensures { IsDownBy added.own added.more (stands_for parts.now grammar.now terminal) result }
{
    down(added, represented(parts, grammar, terminal))
}

// The host's terminal that was moved to this number.
fn down(added: Added, number: usize) -> Option<usize>
    ensures { MatchOption result ((n : ℕ) → number ≢ lifted added.own added.more n) (λ n. number ≡ lifted added.own added.more n) }
{
    if number < added.own {
        return Some(number);
    }
    if number - added.own < added.more {
        return None;
    }
    Some(number - added.more)
}

// What a terminal stands for, in the extended host's numbers.
fn represented(parts: &ResolvedParts, grammar: &Grammar, terminal: usize) -> usize
    requires { grammar.now.terminals + length parts.now.extensible < 2 ^ 64 }
    ensures { result ≡ stands_for parts.now grammar.now terminal }
{
    if is_marker(parts.terminals.as_slice(), terminal) {
        represented_hole(grammar, parts.extensible.as_slice(), terminal)
    } else {
        terminal
    }
}

// Whether a terminal is a marker.
fn is_marker(terminals: &[Terminal], number: usize) -> bool
    ensures { result ≡ is_marker_row (slice_get terminals.now number) }
{
    if number >= terminals.len() {
        return false;
    }
    is_marking(terminals[number].kind)
}

// Whether the kind is that of markers.
fn is_marking(kind: TerminalKind) -> bool
    ensures { result ≡ is_marking kind }
{
    match kind {
        TerminalKind::Plain => false,
        TerminalKind::Ignore => false,
        TerminalKind::Marking => true,
    }
}

// The hole of the nonterminal of the first production that a terminal begins, or else the terminal.
fn represented_hole(grammar: &Grammar, extensible: &[usize], terminal: usize) -> usize
    requires { grammar.now.terminals + length extensible.now < 2 ^ 64 }
    ensures { result ≡ hole_for grammar.now extensible.now terminal }
{
    let Some(nonterminal) = bridged(grammar, terminal) else {
        return terminal;
    };
    match hole_among(grammar.terminals(), nonterminal, extensible) {
        Some(hole) => hole,
        None => terminal,
    }
}

// The left side of the first production that a terminal begins.
fn bridged(grammar: &Grammar, terminal: usize) -> Option<usize>
    ensures { result ≡ bridged terminal grammar.now.productions }
{
    'productions: for production in 0..grammar.productions() {
        if begins(grammar.right(production), terminal) {
            return Some(grammar.left(production));
        }
    }
    None
}

// Whether the symbols begin with a terminal.
fn begins(symbols: &[Symbol], terminal: usize) -> bool
    ensures { result ≡ begins terminal symbols.now }
{
    if symbols.len() == 0 {
        return false;
    }
    match symbols[0] {
        Symbol::Terminal(number) => number == terminal,
        Symbol::Nonterminal(_) => false,
    }
}

// The hole of a nonterminal, where holes are numbered in this order from the first on.
fn hole_among(first: usize, nonterminal: usize, extensible: &[usize]) -> Option<usize>
    requires { first + length extensible.now < 2 ^ 64 }
    ensures { result ≡ hole_among first nonterminal extensible.now }
{
    'holes: for place in 0..extensible.len() {
        if extensible[place] == nonterminal {
            return Some(first + place);
        }
    }
    None
}
