//! Can the markers of an extension be told apart from what else is scanned?
//!
//! Pairs are left out by preferences and by the texts of keywords, and all others are asked for a common text at once. No automaton is built.

ghost use Rattle.std.specs.Prelude.{◌≡◌, ◌<◌, ℕ, IfErr, IfOk, IsTrue, length, map};
ghost use Rattle.wb_marking.specs.Clashes.{HasNoMarkerClash};
ghost use Rattle.wb_marking.specs.Inner.Compared.{AreOnlyTexts, ArePairsToTest, Gathers, IsCompared, IsScanned, Lists, MayClash, ShowsNone};
ghost use Rattle.wb_marking.specs.Inner.Patterns.{patterns_of};
ghost use Rattle.wb_marking.specs.Refusals.{IsClashRefusal};
ghost use Rattle.wb_syntax_resolved.specs.Resolved.{IsResolved};

use crate::MarkRefusal;
use crate::compared::{are_compared, ordered_with};
use crate::scope::is_marker;
use crate::texts::differ;
use std::alloc::{AllocError, Global};
use wb_automata::{only_text, shared_text};
use wb_base::{Sequence, push};
use wb_regex::Regex;
use wb_syntax_resolved::{Resolved, ResolvedParts, Terminal};
use wb_termset::TermSet;

/// Whether each marker shares no text with another marker of its extension, with layout, or with a terminal of the host, but where a
/// preference orders the two. What is shown is a pair with the least text that is shared.
///
/// Pairs that a preference orders are left out, and so are two of which each is one text, and not the same one. All others are asked by
/// one call of `shared_text`. So the time is about the markers times the terminals and preferences, and what that call takes; no clause
/// bounds it.
pub fn check_clashes(alloc: Global, resolved: &Resolved) -> Result<(), MarkRefusal>
    ensures ok { IfOk result (λ done. HasNoMarkerClash resolved.now) }
    ensures refused { IfErr result (IsClashRefusal resolved.now) }
{
    let parts = resolved.parts();
    let patterns = patterns_of(alloc, parts.terminals.as_slice())?;
    check_by(alloc, parts, patterns.as_slice())
}

// A specification, and the texts of those of its terminals that have one alone.
#[derive(Clone, Copy)]
struct Scanned<'a> {
    parts: &'a ResolvedParts,
    texts: &'a [Option<Sequence<u8>>],
}

// A marker, and the terminals that a preference orders against it.
#[derive(Clone, Copy)]
struct Compared<'a> {
    scanned: &'a Scanned<'a>,
    marker: usize,
    ordered: &'a TermSet,
}

// The expressions of terminals.
fn patterns_of(alloc: Global, terminals: &[Terminal]) -> Result<Vec<Regex>, AllocError>
    ensures { IfOk result (λ all. all.items ≡ patterns_of terminals.now) }
{
    let mut all = Vec::new(alloc);
    'terminals: for terminal in terminals {
        push(&mut all, terminal.pattern.copy()?)?;
    }
    Ok(all)
}

// The texts of terminals that have one alone.
fn texts_of(alloc: Global, terminals: &[Terminal]) -> Result<Vec<Option<Sequence<u8>>>, AllocError>
    ensures { IfOk result (λ all. AreOnlyTexts terminals.now all.items) }
{
    let mut all = Vec::new(alloc);
    'terminals: for terminal in terminals {
        push(&mut all, only_text(alloc, &terminal.pattern)?)?;
    }
    Ok(all)
}

// Whether no marker clashes, where these are the expressions of the terminals.
fn check_by(alloc: Global, parts: &ResolvedParts, patterns: &[Regex]) -> Result<(), MarkRefusal>
    requires resolved { IsResolved parts.now }
    requires patterns { patterns.now ≡ patterns_of parts.now.terminals }
    ensures ok { IfOk result (λ done. HasNoMarkerClash parts.now) }
    ensures refused { IfErr result (IsClashRefusal parts.now) }
{
    let pairs = all_pairs(alloc, parts)?;
    let shared = shared_text(alloc, patterns, pairs.as_slice())?;
    match shared {
        None => Ok(()),
        Some(shared) => Err(MarkRefusal::MarkerClash {
            marker: shared.left,
            other: shared.right,
            text: shared.text,
        }),
    }
}

// The pairs of a marker and another terminal that may clash.
fn all_pairs(alloc: Global, parts: &ResolvedParts) -> Result<Vec<(usize, usize)>, AllocError>
    requires { IsResolved parts.now }
    ensures { IfOk result (λ pairs. ArePairsToTest parts.now pairs.items) }
{
    let texts = texts_of(alloc, parts.terminals.as_slice())?;
    pairs_of(
        alloc,
        &Scanned {
            parts,
            texts: texts.as_slice(),
        },
    )
}

fn pairs_of(alloc: Global, scanned: &Scanned) -> Result<Vec<(usize, usize)>, AllocError>
    requires { IsScanned scanned.now }
    ensures { IfOk result (λ pairs. ArePairsToTest scanned.now.parts.now pairs.items) }
{
    let mut pairs = Vec::new(alloc);
    'terminals: for number in 0..scanned.parts.terminals.len() {
        add_terminal(alloc, scanned, number, &mut pairs)?;
    }
    Ok(pairs)
}

// Adds the pairs of a terminal, if it is a marker.
fn add_terminal(
    alloc: Global,
    scanned: &Scanned,
    number: usize,
    pairs: &mut Vec<(usize, usize)>,
) -> Result<(), AllocError>
    requires { IsScanned scanned.now }
    ensures gathers { IfOk result (λ _. Gathers scanned.now.parts.now pairs.old.items pairs.new.items) }
    ensures lists { IfOk result (λ _. (other : ℕ) → Lists scanned.now.parts.now pairs.new.items number other) }
{
    if !is_marker(scanned.parts, number) {
        return Ok(());
    }
    let ordered = ordered_with(alloc, scanned.parts, number)?;
    add_marker(
        &Compared {
            scanned,
            marker: number,
            ordered: &ordered,
        },
        pairs,
    )
}

// Adds the pairs of a marker.
fn add_marker(compared: &Compared, pairs: &mut Vec<(usize, usize)>) -> Result<(), AllocError>
    requires { IsCompared compared.now }
    ensures gathers { IfOk result (λ _. Gathers compared.now.scanned.now.parts.now pairs.old.items pairs.new.items) }
    ensures lists { IfOk result (λ _. (other : ℕ) → Lists compared.now.scanned.now.parts.now pairs.new.items compared.now.marker other) }
{
    'terminals: for other in 0..compared.scanned.parts.terminals.len() {
        add_pair(compared, other, pairs)?;
    }
    Ok(())
}

// Adds the pair of a marker and this terminal, if they may clash.
fn add_pair(
    compared: &Compared,
    other: usize,
    pairs: &mut Vec<(usize, usize)>,
) -> Result<(), AllocError>
    requires compared { IsCompared compared.now }
    requires other { other < length compared.now.scanned.now.parts.now.terminals }
    ensures gathers { IfOk result (λ _. Gathers compared.now.scanned.now.parts.now pairs.old.items pairs.new.items) }
    ensures lists { IfOk result (λ _. Lists compared.now.scanned.now.parts.now pairs.new.items compared.now.marker other) }
{
    if may_clash(compared, other) {
        push(pairs, (compared.marker, other))?;
    }
    Ok(())
}

// Whether the marker has to be told apart from the other, no preference orders them, and their texts don't say that they differ.
fn may_clash(compared: &Compared, other: usize) -> bool
    requires compared { IsCompared compared.now }
    requires other { other < length compared.now.scanned.now.parts.now.terminals }
    ensures { MayClash compared.now other result }
{
    if !are_compared(compared.scanned.parts, compared.marker, other) {
        return false;
    }
    if compared.ordered.contains(other) {
        return false;
    }
    !differs(compared, other)
}

// Whether both are one text and not the same.
fn differs(compared: &Compared, other: usize) -> bool
    requires compared { IsCompared compared.now }
    requires other { other < length compared.now.scanned.now.parts.now.terminals }
    ensures { IsTrue result → ShowsNone compared.now.scanned.now.parts.now compared.now.marker other }
{
    let texts = compared.scanned.texts;
    differ(&texts[compared.marker], &texts[other])
}
