//! What is said of an extension and its host by numbers?

ghost use Rattle.std.specs.Prelude.{◌≡◌, ◌++◌, ◌⊎◌, OnOk};
ghost use Rattle.wb_explain_beside.specs.Said.{IsSide, SaysSides, ShowsSide, sentence};

use crate::checked::is_side;
use crate::declared::place_of;
use crate::hints::hints_of;
use crate::names::{push_nonterminal, push_production, push_symbol};
use crate::search::sides;
use crate::sets::{Marks, firsts, follows};
use crate::told::{Sets, Side, Told};
use std::alloc::{AllocError, Global};
use wb_syntax_resolved::Resolved;

// Appends what is said of each place that is found.
pub(crate) fn push_told(alloc: Global, out: &mut Vec<u8>, told: &Told<'_>) -> Result<(), AllocError>
    ensures { OnOk result (SaysSides told.now.host.now told.now.grammar.now told.now.resolved.now out.old.items out.new.items) }
{
    let firsts = firsts(alloc, told.host, told.grammar)?;
    let answer = push_with(alloc, out, told, &firsts);
    drop(firsts);
    answer
}

// The same, where it is known what nonterminals begin with.
fn push_with(
    alloc: Global,
    out: &mut Vec<u8>,
    told: &Told<'_>,
    firsts: &Marks,
) -> Result<(), AllocError>
    ensures { OnOk result (SaysSides told.now.host.now told.now.grammar.now told.now.resolved.now out.old.items out.new.items) }
{
    let follows = follows(alloc, told.host, firsts)?;
    let sets = Sets {
        firsts,
        follows: &follows,
    };
    let answer = push_found(alloc, out, told, &sets);
    drop(follows);
    answer
}

// The same, where it is known what the host has after them too.
fn push_found(
    alloc: Global,
    out: &mut Vec<u8>,
    told: &Told<'_>,
    sets: &Sets<'_>,
) -> Result<(), AllocError>
    ensures { OnOk result (SaysSides told.now.host.now told.now.grammar.now told.now.resolved.now out.old.items out.new.items) }
{
    let found = sides(alloc, told, sets)?;
    let answer = push_sides(alloc, out, told, sets, found.as_slice());
    drop(found);
    answer
}

// Appends what is said of each of these places.
fn push_sides(
    alloc: Global,
    out: &mut Vec<u8>,
    told: &Told<'_>,
    sets: &Sets<'_>,
    found: &[Side],
) -> Result<(), AllocError>
    ensures { OnOk result (SaysSides told.now.host.now told.now.grammar.now told.now.resolved.now out.old.items out.new.items) }
{
    'sides: for &side in found {
        push_checked(alloc, out, told, sets, side)?;
    }
    Ok(())
}

// Appends what is said of a place, where it is one.
fn push_checked(
    alloc: Global,
    out: &mut Vec<u8>,
    told: &Told<'_>,
    sets: &Sets<'_>,
    side: Side,
) -> Result<(), AllocError>
    ensures { OnOk result ((out.new.items ≡ out.old.items) ⊎ ShowsSide told.now.host.now told.now.grammar.now told.now.resolved.now out.old.items out.new.items) }
{
    if !is_side(told.host, told.grammar, side) {
        return Ok(());
    }
    let hints = hints_of(alloc, told, sets, side)?;
    let answer = push_side(alloc, out, told, side, &hints);
    drop(hints);
    answer
}

// Appends the place, the sentence and what is said after it.
fn push_side(
    alloc: Global,
    out: &mut Vec<u8>,
    told: &Told<'_>,
    side: Side,
    hints: &[u8],
) -> Result<(), AllocError>
    requires { IsSide told.now.host.now told.now.grammar.now side.production side.part side.nonterminal side.behind }
    ensures { OnOk result (ShowsSide told.now.host.now told.now.grammar.now told.now.resolved.now out.old.items out.new.items) }
{
    let place = shown_place(alloc, told, side)?;
    let answer = out.extend_from_slice(&place);
    drop(place);
    answer?;
    push_sentence(alloc, out, told.resolved, side)?;
    out.extend_from_slice(hints)
}

// Where the production is declared.
fn shown_place(alloc: Global, told: &Told<'_>, side: Side) -> Result<Vec<u8>, AllocError> {
    let productions = told
        .resolved
        .parts()
        .attributes
        .parts()
        .productions
        .as_slice();
    match productions.get(side.production) {
        Some(production) => place_of(alloc, told.source, production.name.as_slice()),
        None => Ok(Vec::new(alloc)),
    }
}

// Appends the sentence.
fn push_sentence(
    alloc: Global,
    out: &mut Vec<u8>,
    resolved: &Resolved,
    side: Side,
) -> Result<(), AllocError>
    ensures { OnOk result (out.new.items ≡ out.old.items ++ sentence resolved.now side.production side.nonterminal side.behind) }
{
    out.extend_from_slice(b"\nIn ")?;
    push_production(alloc, out, resolved, side.production)?;
    out.extend_from_slice(b", after ")?;
    push_nonterminal(alloc, out, resolved, side.nonterminal)?;
    out.extend_from_slice(b", which the host has, comes ")?;
    push_symbol(alloc, out, resolved, side.behind)?;
    out.extend_from_slice(b".\n")
}
