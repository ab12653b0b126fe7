//! Makes a union in both ways, and compares them.

ghost use Rattle.std.specs.Prelude.{◌≡◌, All, Some};
ghost use Rattle.std.specs.List.{AllZip};
ghost use Rattle.wb_compose.specs.Composed.{IsWith};
ghost use Rattle.wb_compose_kernels.specs.Lent.{AreSetsOf, AreSpliceable};
ghost use Rattle.wb_grammar.specs.Facts.{AreFacts};
ghost use Rattle.wb_items.specs.LookaheadSets.{AreLookaheads};
ghost use Rattle.wb_tests_unions.specs.Inner.Found.{IsFoundBeside, IsOwn};
ghost use Rattle.wb_tests_unions.specs.Inner.Lent.{AreSetsFor, IsLentBeside, IsPartBeside};
ghost use Rattle.wb_tests_unions.specs.Inner.Made.{IsMade};

use crate::additions::union_of;
use crate::found::{Found, Own, founds_of};
use crate::lent::{Lent, facts_of, lents_of, parts_of, sets_of};
use crate::made::Made;
use crate::walk::are_same;
use std::alloc::{AllocError, Global};
use wb_base::Grammar;
use wb_certify::{CertifiedExtension, CertifiedHost};
use wb_compose_kernels::{Part, Sets, Splice, spliced_kernels, spliced_lookaheads};
use wb_determinism_contexts::PartsRefusal;
use wb_determinism_lookaheads::NewLookaheads;
use wb_grammar::Facts;
use wb_items::{Kernels, Lookaheads};
use wb_lookahead::{TableRefusal, tables};

/// Whether the kernels, lookaheads and tables of the union of a host and extensions, each certified with this host over the same operations,
/// are the same, but for the numbers of states, where they are taken from the parts and where they are made of the union's grammar.
pub fn agree_on_union(
    alloc: Global,
    host: &CertifiedHost,
    extensions: &[CertifiedExtension],
) -> Result<bool, AllocError>
    requires { All (IsWith host.now) extensions.now }
{
    host.parts();
    let resolved = host.resolved();
    match &resolved.parts().grammar {
        Some(grammar) => with_own(alloc, &Own { host, grammar }, extensions),
        None => Ok(false),
    }
}

// Like `agree_on_union`, with the grammar of the host.
fn with_own(alloc: Global, own: &Own, extensions: &[CertifiedExtension]) -> Result<bool, AllocError>
    requires own { IsOwn own.now }
    requires each { All (IsWith own.now.host.now) extensions.now }
{
    let founds = founds_of(alloc, own, extensions)?;
    let agree = with_founds(alloc, own, extensions, &founds);
    drop(founds);
    agree
}

// Like `with_own`, with what is found of each extension.
fn with_founds(
    alloc: Global,
    own: &Own,
    extensions: &[CertifiedExtension],
    founds: &[Found],
) -> Result<bool, AllocError>
    requires own { IsOwn own.now }
    requires founds { AllZip (IsFoundBeside own.now) extensions.now founds.now }
{
    let lents = lents_of(alloc, own, founds)?;
    let agree = with_lents(alloc, own, extensions, &lents);
    drop(lents);
    agree
}

// Like `with_founds`, where it is lent.
fn with_lents(
    alloc: Global,
    own: &Own,
    extensions: &[CertifiedExtension],
    lents: &[Lent],
) -> Result<bool, AllocError>
    requires own { IsOwn own.now }
    requires lents { AllZip (IsLentBeside own.now) extensions.now lents.now }
{
    let parts = parts_of(alloc, lents)?;
    let agree = with_parts(alloc, own, extensions, &parts);
    drop(parts);
    agree
}

// Like `with_lents`, with what the union takes.
fn with_parts(
    alloc: Global,
    own: &Own,
    extensions: &[CertifiedExtension],
    parts: &[Part],
) -> Result<bool, AllocError>
    requires own { IsOwn own.now }
    requires parts { AllZip (IsPartBeside own.now) extensions.now parts.now }
{
    let sets = sets_of(alloc, own, parts)?;
    let agree = with_sets(alloc, own, extensions, parts, &sets);
    drop(sets);
    agree
}

// Like `with_parts`, with the lookaheads at new kernels.
fn with_sets(
    alloc: Global,
    own: &Own,
    extensions: &[CertifiedExtension],
    parts: &[Part],
    sets: &[NewLookaheads],
) -> Result<bool, AllocError>
    requires own { IsOwn own.now }
    requires parts { AllZip (IsPartBeside own.now) extensions.now parts.now }
    requires sets { AllZip AreSetsFor parts.now sets.now }
{
    let union = union_of(alloc, own, extensions)?;
    let host = own.host.parts();
    let agree = agree(
        alloc,
        &Splice {
            host: own.grammar,
            holes: own.host.resolved().parts().extensible.len(),
            kernels: &host.kernels,
            parts,
            union: &union,
        },
        &Sets {
            host: &host.lookaheads,
            new: sets,
        },
    );
    drop(union);
    agree
}

// Whether both ways give the same.
fn agree(alloc: Global, splice: &Splice, sets: &Sets) -> Result<bool, AllocError>
    requires spliceable { AreSpliceable splice.now }
    requires sets { AreSetsOf splice.now sets.now }
{
    let kernels = spliced_kernels(alloc, splice)?;
    let agree = with_kernels(alloc, splice, sets, &kernels);
    drop(kernels);
    agree
}

// Like `agree`, with the kernels that are taken.
fn with_kernels(
    alloc: Global,
    splice: &Splice,
    sets: &Sets,
    kernels: &Kernels,
) -> Result<bool, AllocError>
    requires spliceable { AreSpliceable splice.now }
    requires sets { AreSetsOf splice.now sets.now }
    requires kernels { kernels.now.grammar ≡ splice.now.union.now }
{
    let lookaheads = spliced_lookaheads(alloc, splice, sets, kernels)?;
    let agree = with_lookaheads(alloc, splice.union, kernels, &lookaheads);
    drop(lookaheads);
    agree
}

// Whether these kernels and lookaheads of a grammar, and tables that are made of them, are those that are made of the grammar.
fn with_lookaheads(
    alloc: Global,
    grammar: &Grammar,
    kernels: &Kernels,
    lookaheads: &Lookaheads,
) -> Result<bool, AllocError>
    requires kernels { kernels.now.grammar ≡ grammar.now }
    requires lookaheads { AreLookaheads kernels.now lookaheads.now }
{
    // They are all kernels of the grammar.
    kernels.count();
    match tables(alloc, grammar, kernels, lookaheads) {
        Ok(tables) => with_made(
            alloc,
            &Made {
                grammar,
                kernels,
                lookaheads,
                tables: &tables,
            },
        ),
        Err(TableRefusal::NoMemory(error)) => Err(error),
        Err(TableRefusal::Conflict { .. }) => Ok(false),
    }
}

// Like `with_lookaheads`, with the tables.
fn with_made(alloc: Global, made: &Made) -> Result<bool, AllocError>
    requires { IsMade made.now }
{
    let facts = facts_of(alloc, made.grammar)?;
    let agree = with_facts(alloc, made, &facts);
    drop(facts);
    agree
}

// Like `with_made`, with the facts of the grammar.
fn with_facts(alloc: Global, made: &Made, facts: &Facts) -> Result<bool, AllocError>
    requires made { IsMade made.now }
    requires facts { AreFacts made.now.grammar.now facts.now }
{
    match wb_determinism_contexts::parts_of(alloc, made.grammar, facts) {
        Ok(parts) => are_same(
            alloc,
            made,
            &Made {
                grammar: made.grammar,
                kernels: &parts.kernels,
                lookaheads: &parts.lookaheads,
                tables: &parts.tables,
            },
        ),
        Err(PartsRefusal::NoMemory(error)) => Err(error),
        Err(PartsRefusal::Conflict(_)) => Ok(false),
    }
}
