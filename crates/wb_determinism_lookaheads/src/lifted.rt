//! Which terminals of the host with an extension become those of a set of the host? Itself each, and for a hole its markers.

ghost use Rattle.std.specs.Prelude.{◌≡◌, ◌≢◌, ◌≤◌, ◌<◌, ◌+◌, ℕ, ◌↔◌, IfOk, IsTrue, MatchOption, length};
ghost use Rattle.wb_termset.specs.Sets.{IsMember};
ghost use Rattle.wb_compose_theory.specs.Blocks.{lift};
ghost use Rattle.wb_determinism_kernels.specs.Numbers.{phi_by, up_by};
ghost use Rattle.wb_determinism_lookaheads.specs.Inner.Spreading.{Becomes, IsLifted, LiftedUpTo};

use crate::context::Context;
use std::alloc::{AllocError, Global};
use wb_determinism_kernels::{Added, Beside};
use wb_termset::TermSet;

// The terminals that become those of the set.
pub(crate) fn lifted(alloc: Global, context: &Context, set: &TermSet) -> Result<TermSet, AllocError>
    ensures { IfOk result (IsLifted context.now set.now) }
{
    let count = context.beside.grammar.lookahead_count()?;
    let mut lifted = TermSet::new(alloc, count)?;
    'terminals: for terminal in 0..count {
        add(context, set, terminal, &mut lifted);
    }
    Ok(lifted)
}

// Adds a terminal, if it becomes one of the set.
fn add(context: &Context, set: &TermSet, terminal: usize, lifted: &mut TermSet)
    requires before { LiftedUpTo context.now set.now lifted.old terminal }
    requires within { terminal < length lifted.old }
    ensures { LiftedUpTo context.now set.now lifted.new (terminal + 1) }
{
    if !becomes(context.beside, set, terminal) {
        return;
    }
    lifted.insert(terminal);
}

// Whether the terminal becomes one of the set.
fn becomes(beside: &Beside, set: &TermSet, terminal: usize) -> bool
    ensures { IsTrue result ↔ ((u : ℕ) × ((up_by beside.now.numbers.now).terminal u ≡ phi_by beside.now.numbers.now beside.now.images.now terminal) × IsMember set.now u) }
{
    match host_terminal(beside, terminal) {
        Some(own) => own < set.count() && set.contains(own),
        None => false,
    }
}

// The host's terminal that the terminal becomes.
fn host_terminal(beside: &Beside, terminal: usize) -> Option<usize>
    ensures { MatchOption result ((u : ℕ) → (up_by beside.now.numbers.now).terminal u ≢ phi_by beside.now.numbers.now beside.now.images.now terminal) (λ u. (up_by beside.now.numbers.now).terminal u ≡ phi_by beside.now.numbers.now beside.now.images.now terminal) }
{
    if terminal < beside.images.len() {
        if let Some(own) = beside.images[terminal] {
            return Some(own);
        }
    }
    down(beside.numbers.terminals, terminal)
}

// The number that was moved to this one.
fn down(added: Added, number: usize) -> Option<usize>
    ensures { MatchOption result ((n : ℕ) → lift added.own added.more n ≢ number) (λ n. lift added.own added.more n ≡ number) }
{
    if number < added.own {
        return Some(number);
    }
    if number - added.own < added.more {
        return None;
    }
    Some(number - added.more)
}
