//! Lends what is found of extensions to their union, and finds the lookaheads at new kernels.

ghost use Rattle.std.specs.Prelude.{◌≡◌, All, IfOk};
ghost use Rattle.std.specs.List.{AllZip};
ghost use Rattle.wb_grammar.specs.Facts.{AreFacts};
ghost use Rattle.wb_tests_unions.specs.Inner.Found.{IsOwn};
ghost use Rattle.wb_tests_unions.specs.Inner.Lent.{AreSetsFor, IsLentFrom, IsPartFrom, IsReady};

use crate::found::{Found, Own};
use std::alloc::{AllocError, Global};
use wb_base::{Grammar, push};
use wb_compose_kernels::Part;
use wb_determinism_kernels::{Beside, NewKernels};
use wb_determinism_lookaheads::NewLookaheads;
use wb_grammar::{Facts, analyse};
use wb_items::production_numbers;

// What is found of an extension, as references to it.
#[derive(Clone, Copy)]
pub(crate) struct Lent<'a> {
    pub(crate) beside: Beside<'a>,
    pub(crate) new: &'a NewKernels,
}

// What is lent of each extension.
pub(crate) fn lents_of<'a>(
    alloc: Global,
    own: &Own<'a>,
    founds: &'a [Found],
) -> Result<Vec<Lent<'a>>, AllocError>
    ensures { IfOk result (λ lents. AllZip (IsLentFrom own.now) founds.now lents.items) }
{
    let mut lents = Vec::new(alloc);
    'founds: for found in founds {
        let lent = lent_of(own, found);
        push(&mut lents, lent)?;
    }
    Ok(lents)
}

// What is lent of one.
fn lent_of<'a>(own: &Own<'a>, found: &'a Found) -> Lent<'a>
    ensures { IsLentFrom own.now found.now result }
{
    let parts = own.host.parts();
    Lent {
        beside: Beside {
            host: &parts.kernels,
            own: &parts.grammar,
            grammar: &found.grammar,
            numbers: &found.numbers,
            images: &found.images,
        },
        new: &found.new,
    }
}

// What a union takes of each extension.
pub(crate) fn parts_of<'a>(
    alloc: Global,
    lents: &'a [Lent<'a>],
) -> Result<Vec<Part<'a>>, AllocError>
    ensures { IfOk result (λ parts. AllZip IsPartFrom lents.now parts.items) }
{
    let mut parts = Vec::new(alloc);
    'lents: for lent in lents {
        let part = part_of(lent);
        push(&mut parts, part)?;
    }
    Ok(parts)
}

// What it takes of one.
fn part_of<'a>(lent: &'a Lent<'a>) -> Part<'a>
    ensures { IsPartFrom lent.now result }
{
    Part {
        beside: &lent.beside,
        new: lent.new,
    }
}

// The lookaheads at the new kernels of each extension.
pub(crate) fn sets_of(
    alloc: Global,
    own: &Own,
    parts: &[Part],
) -> Result<Vec<NewLookaheads>, AllocError>
    requires own { IsOwn own.now }
    requires ready { All (IsReady own.now) parts.now }
    ensures { IfOk result (λ sets. AllZip AreSetsFor parts.now sets.items) }
{
    let mut sets = Vec::new(alloc);
    'parts: for part in parts {
        let set = sets_at(alloc, own, part)?;
        push(&mut sets, set)?;
    }
    Ok(sets)
}

// The lookaheads at the new kernels of one.
fn sets_at(alloc: Global, own: &Own, part: &Part) -> Result<NewLookaheads, AllocError>
    requires own { IsOwn own.now }
    requires ready { IsReady own.now part.now }
    ensures { IfOk result (AreSetsFor part.now) }
{
    let facts = facts_of(alloc, part.beside.grammar)?;
    let made = sets_by(alloc, own, part, &facts);
    drop(facts);
    made
}

// Like `sets_at`, with the facts of the grammar. Where the answer has to be found otherwise, which a certified extension doesn't ask for,
// it is out of memory, so that its test fails.
fn sets_by(
    alloc: Global,
    own: &Own,
    part: &Part,
    facts: &Facts,
) -> Result<NewLookaheads, AllocError>
    requires own { IsOwn own.now }
    requires ready { IsReady own.now part.now }
    requires facts { AreFacts part.now.beside.now.grammar.now facts.now }
    ensures { IfOk result (AreSetsFor part.now) }
{
    let known = &own.host.parts().lookaheads;
    let rules = production_numbers(alloc, part.beside.grammar)?;
    let Some(sets) = NewLookaheads::find(alloc, part.beside, facts, &rules, known, part.new)? else {
        return Err(AllocError);
    };
    Ok(sets)
}

// The facts of a grammar that passes its analysis. For another one the answer is out of memory, so that its test fails.
pub(crate) fn facts_of(alloc: Global, grammar: &Grammar) -> Result<Facts, AllocError>
    ensures { IfOk result (AreFacts grammar.now) }
{
    match analyse(alloc, grammar) {
        Ok(facts) => Ok(facts),
        Err(_) => Err(AllocError),
    }
}
