//! Finds the new kernels and their lookaheads, in the numbers of both grammars.

ghost use Rattle.std.specs.Prelude.{◌≡◌, ◌-◌, ◌≤◌, IfOk, IsTrue};
ghost use Rattle.wb_determinism.specs.Extensions.{IsPartOf, numbers_of};
ghost use Rattle.wb_determinism_kernels.specs.NewKernels.{AreNewKernels};
ghost use Rattle.wb_items.specs.Table.{AreProductions};
ghost use Rattle.wb_determinism_beside.specs.Given.{moved_by};
ghost use Rattle.wb_determinism_beside.specs.Inner.Asking.{Answer, IsBesideOf, IsFit, IsFoundOf, asked_in};

use crate::asked::Fit;
use crate::clear::is_clear;
use crate::foreign::are_foreign;
use crate::found::Found;
use crate::images::images_of;
use std::alloc::{AllocError, Global};
use wb_base::Grammar;
use wb_determinism_kernels::{Added, Beside, NewKernels, Numbers};
use wb_determinism_lookaheads::NewLookaheads;
use wb_items::{Numbers as Productions, production_numbers};

// Whether the extension is deterministic, by its new kernels.
pub(crate) fn with_numbers(alloc: Global, fit: &Fit) -> Result<bool, AllocError>
    requires { IsFit fit.now }
    ensures { IfOk result (λ answer. IsTrue answer → Answer (asked_in fit.now)) }
{
    let parts = fit.asked.resolved.parts();
    let moved = numbers_of(&fit.asked.host.grammar, fit.holes, parts.extensible.len());
    let count = fit.holes.lookahead_count()?;
    let images = images_of(alloc, parts, fit.asked.grammar, moved.terminals, count)?;
    let answer = with_beside(
        alloc,
        fit,
        &Beside {
            host: &fit.asked.host.kernels,
            own: &fit.asked.host.grammar,
            grammar: fit.holes,
            numbers: &moved,
            images: &images,
        },
    );
    drop(images);
    answer
}

// The numbers of a host's grammar in that of the host with an extension, each with so many holes.
fn numbers_of(host: &Grammar, both: &Grammar, holes: usize) -> Numbers
    requires part { IsPartOf host.now both.now holes }
    requires nonterminals { host.now.nonterminals ≤ both.now.nonterminals }
    ensures { result ≡ moved_by (numbers_of host.now both.now holes) host.now.nonterminals (both.now.nonterminals - host.now.nonterminals) }
{
    Numbers {
        terminals: Added {
            own: host.terminals() - holes,
            more: both.terminals() - host.terminals(),
        },
        nonterminals: Added {
            own: host.nonterminals(),
            more: both.nonterminals() - host.nonterminals(),
        },
        productions: Added {
            own: host.productions() - holes,
            more: both.productions() - host.productions(),
        },
    }
}

// Like `with_numbers`, where new kernels are found by what is given.
fn with_beside(alloc: Global, fit: &Fit, beside: &Beside) -> Result<bool, AllocError>
    requires fit { IsFit fit.now }
    requires beside { IsBesideOf fit.now beside.now }
    ensures { IfOk result (λ answer. IsTrue answer → Answer (asked_in fit.now)) }
{
    let rules = production_numbers(alloc, beside.grammar)?;
    let answer = with_rules(alloc, fit, beside, &rules);
    drop(rules);
    answer
}

// Like `with_beside`, with the productions of each nonterminal.
fn with_rules(
    alloc: Global,
    fit: &Fit,
    beside: &Beside,
    rules: &[Productions],
) -> Result<bool, AllocError>
    requires fit { IsFit fit.now }
    requires beside { IsBesideOf fit.now beside.now }
    requires rules { AreProductions beside.now.grammar.now rules.now }
    ensures { IfOk result (λ answer. IsTrue answer → Answer (asked_in fit.now)) }
{
    let new = NewKernels::find(alloc, beside, rules)?;
    let answer = with_new(alloc, fit, beside, rules, &new);
    drop(new);
    answer
}

// Like `with_rules`, with the new kernels.
fn with_new(
    alloc: Global,
    fit: &Fit,
    beside: &Beside,
    rules: &[Productions],
    new: &NewKernels,
) -> Result<bool, AllocError>
    requires fit { IsFit fit.now }
    requires beside { IsBesideOf fit.now beside.now }
    requires rules { AreProductions beside.now.grammar.now rules.now }
    requires new { AreNewKernels beside.now.host.now beside.now.grammar.now beside.now.numbers.now beside.now.images.now new.now }
    ensures { IfOk result (λ answer. IsTrue answer → Answer (asked_in fit.now)) }
{
    let known = &fit.asked.host.lookaheads;
    let Some(sets) = NewLookaheads::find(alloc, beside, fit.facts, rules, known, new)? else {
        return Ok(false);
    };
    let answer = with_found(
        alloc,
        fit,
        &Found {
            beside,
            new,
            sets: &sets,
        },
    );
    drop(sets);
    answer
}

// Whether the extension is deterministic, where these are the new kernels with their lookaheads.
fn with_found(alloc: Global, fit: &Fit, found: &Found) -> Result<bool, AllocError>
    requires fit { IsFit fit.now }
    requires found { IsFoundOf fit.now found.now }
    ensures { IfOk result (λ answer. IsTrue answer → Answer (asked_in fit.now)) }
{
    if !are_foreign(found) {
        return Ok(false);
    }
    let parts = fit.asked.resolved.parts();
    is_clear(alloc, found, parts, fit.asked.grammar.terminals())
}
