//! Which rule of grammars and scanners does a report show, by names?

ghost use Rattle.std.specs.Prelude.{◌≡◌, IfOk, map};
ghost use Rattle.wb_report.specs.declared.grammar_reason.GrammarReason.TheVariants as shown;
ghost use Rattle.wb_certify_shown.specs.Names as names;
ghost use Rattle.wb_certify_shown.specs.Shows as spec;

use crate::both::both;
use crate::holes::{lookahead_name, reduction_name, symbol_name};
use crate::names::{nonterminal_name, terminal_name};
use std::alloc::{AllocError, Global};
use wb_base::{Bytes, Sequence, Symbol, push};
use wb_certify_host::DeterminismRefusal;
use wb_grammar::Reason;
use wb_lookahead::Action;
use wb_report::{GrammarReason, Refusal, ShownAction, ShownConflict};
use wb_syntax_resolved::Resolved;

// A rule of grammars and scanners; none for the rules on what extensions add, and for out of memory.
pub(crate) fn grammar_rule(
    alloc: Global,
    resolved: &Resolved,
    refusal: &DeterminismRefusal,
) -> Result<Option<Refusal>, AllocError>
    ensures { IfOk result (λ shown. shown ≡ spec.of_grammar (spec.grammar_reason resolved.now refusal.now)) }
{
    let reason = match refusal {
        DeterminismRefusal::PreferenceCycle(terminals) => GrammarReason::PreferenceCycle(
            terminal_names(alloc, resolved, terminals.as_slice())?,
        ),
        DeterminismRefusal::NotReduced(reason) => reduced_rule(alloc, resolved, reason)?,
        DeterminismRefusal::UnitCycle(cycle) => GrammarReason::UnitCycle(nonterminal_names(
            alloc,
            resolved,
            cycle.as_slice(),
        )?),
        DeterminismRefusal::HiddenLeftRecursion(cycle) => GrammarReason::HiddenLeftRecursion(
            nonterminal_names(alloc, resolved, cycle.as_slice())?,
        ),
        DeterminismRefusal::Conflict {
            prefix,
            terminal,
            first,
            second,
        } => conflict_reason(
            alloc,
            resolved,
            prefix.as_slice(),
            conflict_of(alloc, resolved, *terminal, *first, *second)?,
        )?,
        DeterminismRefusal::Clash {
            prefix,
            left,
            right,
            text,
        } => clash_reason(
            alloc,
            resolved,
            prefix.as_slice(),
            pair_of(alloc, resolved, *left, *right, text)?,
        )?,
        _ => return Ok(None),
    };
    Ok(Some(Refusal::Grammar(reason)))
}

// Why a grammar isn't reduced.
fn reduced_rule(
    alloc: Global,
    resolved: &Resolved,
    reason: &Reason,
) -> Result<GrammarReason, AllocError>
    ensures { IfOk result (λ shown. shown ≡ spec.reduced_reason resolved.now reason.now) }
{
    match reason {
        Reason::Unreachable(number) => Ok(GrammarReason::Unreachable(nonterminal_name(
            alloc, resolved, *number,
        )?)),
        Reason::Unproductive(number) => Ok(GrammarReason::Unproductive(nonterminal_name(
            alloc, resolved, *number,
        )?)),
    }
}

// A conflict after a prefix.
fn conflict_reason(
    alloc: Global,
    resolved: &Resolved,
    prefix: &[Symbol],
    conflict: ShownConflict,
) -> Result<GrammarReason, AllocError>
    ensures { IfOk result (λ made. made ≡ shown.Conflict (map (names.symbol_shown resolved.now) prefix.now) conflict) }
{
    let (prefix, conflict) = both(symbol_names(alloc, resolved, prefix), Ok(conflict))?;
    Ok(GrammarReason::Conflict { prefix, conflict })
}

// Two actions on a terminal.
pub(crate) fn conflict_of(
    alloc: Global,
    resolved: &Resolved,
    terminal: usize,
    first: Action,
    second: Action,
) -> Result<ShownConflict, AllocError>
    ensures { IfOk result (λ shown. shown ≡ record { terminal = names.lookahead_shown resolved.now terminal; first = spec.action_shown resolved.now first; second = spec.action_shown resolved.now second }) }
{
    let (terminal, (first, second)) = both(
        lookahead_name(alloc, resolved, terminal),
        both(
            action_of(alloc, resolved, first),
            action_of(alloc, resolved, second),
        ),
    )?;
    Ok(ShownConflict {
        terminal,
        first,
        second,
    })
}

// An action.
fn action_of(alloc: Global, resolved: &Resolved, action: Action) -> Result<ShownAction, AllocError>
    ensures { IfOk result (λ shown. shown ≡ spec.action_shown resolved.now action) }
{
    match action {
        Action::Shift(_) => Ok(ShownAction::Shift),
        Action::Reduce(number) => {
            Ok(ShownAction::Reduce(reduction_name(alloc, resolved, number)?))
        }
        Action::Accept => Ok(ShownAction::Accept),
        Action::None => Ok(ShownAction::Accept),
    }
}

// The names of two terminals, and a text that both match.
#[derive(Drop)]
pub(crate) struct ShownPair {
    pub(crate) left: Bytes,
    pub(crate) right: Bytes,
    pub(crate) text: Bytes,
}

// Two terminals that match a text.
pub(crate) fn pair_of(
    alloc: Global,
    resolved: &Resolved,
    left: usize,
    right: usize,
    text: &Bytes,
) -> Result<ShownPair, AllocError>
    ensures { IfOk result (λ made. made ≡ record { left = names.terminal_shown resolved.now left; right = names.terminal_shown resolved.now right; text = text.now }) }
{
    let (text, (left, right)) = both(
        text.copy(),
        both(
            terminal_name(alloc, resolved, left),
            terminal_name(alloc, resolved, right),
        ),
    )?;
    Ok(ShownPair { left, right, text })
}

// A clash after a prefix.
fn clash_reason(
    alloc: Global,
    resolved: &Resolved,
    prefix: &[Symbol],
    pair: ShownPair,
) -> Result<GrammarReason, AllocError>
    ensures { IfOk result (λ made. made ≡ shown.Clash (map (names.symbol_shown resolved.now) prefix.now) pair.left pair.right pair.text) }
{
    let (prefix, pair) = both(symbol_names(alloc, resolved, prefix), Ok(pair))?;
    Ok(GrammarReason::Clash {
        prefix,
        left: pair.left,
        right: pair.right,
        text: pair.text,
    })
}

// The names of terminals.
fn terminal_names(
    alloc: Global,
    resolved: &Resolved,
    numbers: &[usize],
) -> Result<Sequence<Bytes>, AllocError>
    ensures { IfOk result (λ shown. shown ≡ map (names.terminal_shown resolved.now) numbers.now) }
{
    let mut made = Vec::new(alloc);
    'numbers: for &number in numbers {
        let name = terminal_name(alloc, resolved, number)?;
        push(&mut made, name)?;
    }
    Ok(Sequence::from_vec(made))
}

// The names of nonterminals.
fn nonterminal_names(
    alloc: Global,
    resolved: &Resolved,
    numbers: &[usize],
) -> Result<Sequence<Bytes>, AllocError>
    ensures { IfOk result (λ shown. shown ≡ map (names.nonterminal_shown resolved.now) numbers.now) }
{
    let mut made = Vec::new(alloc);
    'numbers: for &number in numbers {
        let name = nonterminal_name(alloc, resolved, number)?;
        push(&mut made, name)?;
    }
    Ok(Sequence::from_vec(made))
}

// The names of symbols of the grammar with holes.
pub(crate) fn symbol_names(
    alloc: Global,
    resolved: &Resolved,
    symbols: &[Symbol],
) -> Result<Sequence<Bytes>, AllocError>
    ensures { IfOk result (λ shown. shown ≡ map (names.symbol_shown resolved.now) symbols.now) }
{
    let mut made = Vec::new(alloc);
    'symbols: for &symbol in symbols {
        let name = symbol_name(alloc, resolved, symbol)?;
        push(&mut made, name)?;
    }
    Ok(Sequence::from_vec(made))
}
