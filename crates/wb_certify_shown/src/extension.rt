//! Which rule on what an extension adds to its host does a report show, by names?
//!
//! Numbers are those of the host with the extension; in prefixes, items, conflicts and lookaheads those of its grammar with holes.

ghost use Rattle.std.specs.Prelude.{◌≡◌, IfOk, map};
ghost use Rattle.wb_report.specs.declared.extension_reason.ExtensionReason.TheVariants as shown;
ghost use Rattle.wb_certify_shown.specs.Extensions as spec;
ghost use Rattle.wb_certify_shown.specs.Names as names;

use crate::both::both;
use crate::grammar::{ShownPair, conflict_of, pair_of, symbol_names};
use crate::holes::{lookahead_name, reduction_name};
use crate::names::{production_name, terminal_name};
use std::alloc::{AllocError, Global};
use wb_base::{Bytes, Sequence, Symbol};
use wb_certify_host::{DeterminismRefusal, EnvelopeFault};
use wb_items::Item;
use wb_marking::MarkRefusal;
use wb_report::{ExtensionReason, Refusal, ShownConflict, ShownItem};
use wb_syntax_resolved::Resolved;

// A rule on what an extension adds to its host; none for the rules that hosts have too, and for out of memory.
pub(crate) fn extension_rule(
    alloc: Global,
    resolved: &Resolved,
    refusal: &DeterminismRefusal,
) -> Result<Option<Refusal>, AllocError>
    ensures { IfOk result (λ shown. shown ≡ spec.of_extension (spec.extension_reason resolved.now refusal.now)) }
{
    let reason = match refusal {
        DeterminismRefusal::Markers(refusal) => return marker_rule(alloc, resolved, refusal),
        DeterminismRefusal::Lookahead {
            prefix,
            item,
            terminal,
        } => lookahead_rule(alloc, resolved, prefix.as_slice(), *item, *terminal)?,
        DeterminismRefusal::Envelope { prefix, fault } => {
            envelope_rule(alloc, resolved, prefix.as_slice(), fault)?
        }
        _ => return Ok(None),
    };
    Ok(Some(Refusal::Extension(reason)))
}

// A rule on the markers of an extension; none for out of memory.
fn marker_rule(
    alloc: Global,
    resolved: &Resolved,
    refusal: &MarkRefusal,
) -> Result<Option<Refusal>, AllocError>
    ensures { IfOk result (λ shown. shown ≡ spec.of_extension (spec.marker_reason resolved.now refusal.now)) }
{
    let reason = match refusal {
        MarkRefusal::NotBridge(production) => {
            ExtensionReason::NotBridge(production_name(alloc, resolved, *production)?)
        }
        MarkRefusal::MarkerElsewhere(marker) => {
            ExtensionReason::MarkerElsewhere(terminal_name(alloc, resolved, *marker)?)
        }
        MarkRefusal::NotExtensible(production) => {
            ExtensionReason::NotExtensible(production_name(alloc, resolved, *production)?)
        }
        MarkRefusal::MarkerClash {
            marker,
            other,
            text,
        } => marker_clash(pair_of(alloc, resolved, *marker, *other, text)?),
        MarkRefusal::NoMemory(_) => return Ok(None),
    };
    Ok(Some(Refusal::Extension(reason)))
}

// A marker that clashes with a terminal.
fn marker_clash(pair: ShownPair) -> ExtensionReason
    ensures { result ≡ shown.MarkerClash pair.left pair.right pair.text }
{
    ExtensionReason::MarkerClash {
        marker: pair.left,
        terminal: pair.right,
        text: pair.text,
    }
}

// A lookahead that an item of the host gets.
fn lookahead_rule(
    alloc: Global,
    resolved: &Resolved,
    prefix: &[Symbol],
    item: Item,
    terminal: usize,
) -> Result<ExtensionReason, AllocError>
    ensures { IfOk result (λ made. made ≡ shown.Lookahead (map (names.symbol_shown resolved.now) prefix.now) (spec.item_shown resolved.now item) (names.lookahead_shown resolved.now terminal)) }
{
    let (prefix, (item, terminal)) = lookahead_of(alloc, resolved, prefix, item, terminal)?;
    Ok(ExtensionReason::Lookahead {
        prefix,
        item,
        terminal,
    })
}

// A lookahead that an item gets after a prefix.
fn lookahead_of(
    alloc: Global,
    resolved: &Resolved,
    prefix: &[Symbol],
    item: Item,
    terminal: usize,
) -> Result<(Sequence<Bytes>, (ShownItem, Bytes)), AllocError>
    ensures { IfOk result (λ made. (made.0 ≡ map (names.symbol_shown resolved.now) prefix.now) × (made.1.0 ≡ spec.item_shown resolved.now item) × (made.1.1 ≡ names.lookahead_shown resolved.now terminal)) }
{
    both(
        symbol_names(alloc, resolved, prefix),
        both(
            item_of(alloc, resolved, item),
            lookahead_name(alloc, resolved, terminal),
        ),
    )
}

// An item.
fn item_of(alloc: Global, resolved: &Resolved, item: Item) -> Result<ShownItem, AllocError>
    ensures { IfOk result (λ made. made ≡ spec.item_shown resolved.now item) }
{
    let production = reduction_name(alloc, resolved, item.production)?;
    Ok(ShownItem {
        production,
        dot: item.dot,
    })
}

// How a new kernel of host's items goes beyond what the host allows.
fn envelope_rule(
    alloc: Global,
    resolved: &Resolved,
    prefix: &[Symbol],
    fault: &EnvelopeFault,
) -> Result<ExtensionReason, AllocError>
    ensures { IfOk result (λ made. made ≡ spec.envelope_reason resolved.now (map (names.symbol_shown resolved.now) prefix.now) fault.now) }
{
    match fault {
        EnvelopeFault::Lookahead { item, terminal } => {
            new_lookahead(alloc, resolved, prefix, *item, *terminal)
        }
        EnvelopeFault::Conflict {
            terminal,
            first,
            second,
        } => new_conflict(
            alloc,
            resolved,
            prefix,
            conflict_of(alloc, resolved, *terminal, *first, *second)?,
        ),
        EnvelopeFault::Clash { left, right, text } => new_clash(
            alloc,
            resolved,
            prefix,
            pair_of(alloc, resolved, *left, *right, text)?,
        ),
    }
}

// A lookahead that the host doesn't allow.
fn new_lookahead(
    alloc: Global,
    resolved: &Resolved,
    prefix: &[Symbol],
    item: Item,
    terminal: usize,
) -> Result<ExtensionReason, AllocError>
    ensures { IfOk result (λ made. made ≡ shown.NewLookahead (map (names.symbol_shown resolved.now) prefix.now) (spec.item_shown resolved.now item) (names.lookahead_shown resolved.now terminal)) }
{
    let (prefix, (item, terminal)) = lookahead_of(alloc, resolved, prefix, item, terminal)?;
    Ok(ExtensionReason::NewLookahead {
        prefix,
        item,
        terminal,
    })
}

// A conflict that the host doesn't have.
fn new_conflict(
    alloc: Global,
    resolved: &Resolved,
    prefix: &[Symbol],
    conflict: ShownConflict,
) -> Result<ExtensionReason, AllocError>
    ensures { IfOk result (λ made. made ≡ shown.NewConflict (map (names.symbol_shown resolved.now) prefix.now) conflict) }
{
    let (prefix, conflict) = both(symbol_names(alloc, resolved, prefix), Ok(conflict))?;
    Ok(ExtensionReason::NewConflict { prefix, conflict })
}

// A clash that the host doesn't have.
fn new_clash(
    alloc: Global,
    resolved: &Resolved,
    prefix: &[Symbol],
    pair: ShownPair,
) -> Result<ExtensionReason, AllocError>
    ensures { IfOk result (λ made. made ≡ shown.NewClash (map (names.symbol_shown resolved.now) prefix.now) pair.left pair.right pair.text) }
{
    let (prefix, pair) = both(symbol_names(alloc, resolved, prefix), Ok(pair))?;
    Ok(ExtensionReason::NewClash {
        prefix,
        left: pair.left,
        right: pair.right,
        text: pair.text,
    })
}
