//! Builds the kernels, lookaheads and tables of a grammar, or finds a prefix with a conflict.

ghost use Rattle.std.specs.Prelude.{◌≡◌, IfErr, IfOk};
ghost use Rattle.wb_grammar.specs.Facts.{AreFacts};
ghost use Rattle.wb_grammar_theory.specs.Lookaheads.{HasNoConflict};
ghost use Rattle.wb_items.specs.Kernels.{AreKernels};
ghost use Rattle.wb_items.specs.LookaheadSets.{AreLookaheads};
ghost use Rattle.wb_lookahead.specs.Tables.{AreTables, AreValidSets, IsTableRefusal};
ghost use Rattle.wb_determinism_contexts.specs.Conflicts.{IsConflictAt};
ghost use Rattle.wb_determinism_contexts.specs.Parts.{ArePartsOf, IsPartsRefusal};

use std::alloc::{AllocError, Global};
use wb_base::{Grammar, Sequence, Symbol};
use wb_grammar::Facts;
use wb_items::{Kernels, Lookaheads};
use wb_lookahead::{Action, TableRefusal, Tables, plain_lookaheads, tables, valid_sets};
use wb_termset::TermSet;

/// What is made of a grammar for a parser.
#[derive(Drop)]
pub struct Parts {
    /// The kernels of its prefixes.
    pub kernels: Kernels,
    /// The lookaheads of their items.
    pub lookaheads: Lookaheads,
    /// What a parser does at each of them.
    pub tables: Tables,
}

/// Two actions that can be taken at a prefix on one terminal.
#[derive(Drop)]
pub struct Conflict {
    /// The prefix.
    pub prefix: Sequence<Symbol>,
    /// The terminal, or the number after all terminals for the end of a text.
    pub terminal: usize,
    /// A shift, where one of the two is one, or the reduction by the lesser production.
    pub first: Action,
    /// The other; to accept comes after every reduction.
    pub second: Action,
}

/// Why a grammar has no tables.
#[derive(Drop)]
pub enum PartsRefusal {
    /// G4: two actions can be taken. Which of several conflicts is shown is left open.
    Conflict(Conflict),
    /// Out of memory, or a number is too large for a table.
    NoMemory(AllocError),
}

impl From<AllocError> for PartsRefusal {
    ghost use Rattle.std.specs.Prelude.{◌≡◌};
    ghost use Rattle.wb_determinism_contexts.specs.declared.parts.PartsRefusal.TheVariants.{NoMemory};

    ghost from_gives = { λ error refusal. refusal ≡ NoMemory error };

    fn from(error: AllocError) -> Self {
        PartsRefusal::NoMemory(error)
    }
}

/// The kernels, lookaheads and tables of a grammar, or a conflict. The only other error is out of memory.
pub fn parts_of(alloc: Global, grammar: &Grammar, facts: &Facts) -> Result<Parts, PartsRefusal>
    requires { AreFacts grammar.now facts.now }
    ensures ok { IfOk result (ArePartsOf grammar.now) }
    ensures refused { IfErr result (IsPartsRefusal grammar.now) }
{
    let kernels = Kernels::build(alloc, grammar, facts)?;
    let decided = decided_by(alloc, grammar, facts, &kernels)?;
    Ok(Parts {
        kernels,
        lookaheads: decided.lookaheads,
        tables: decided.tables,
    })
}

// The parts beside the kernels.
#[derive(Drop)]
struct Decided {
    lookaheads: Lookaheads,
    tables: Tables,
}

// The lookaheads and tables of kernels, or a conflict.
fn decided_by(
    alloc: Global,
    grammar: &Grammar,
    facts: &Facts,
    kernels: &Kernels,
) -> Result<Decided, PartsRefusal>
    requires facts { AreFacts grammar.now facts.now }
    requires kernels { kernels.now.grammar ≡ grammar.now }
    ensures lookaheads { IfOk result (λ made. AreLookaheads kernels.now made.lookaheads) }
    ensures tables { IfOk result (λ made. AreTables kernels.now made.tables) }
    ensures refused { IfErr result (IsPartsRefusal grammar.now) }
{
    let lookaheads = plain_lookaheads(alloc, grammar, facts, kernels)?;
    let tables = tables_of(alloc, grammar, kernels, &lookaheads)?;
    Ok(Decided { lookaheads, tables })
}

// The tables of kernels with their lookaheads, or a conflict.
fn tables_of(
    alloc: Global,
    grammar: &Grammar,
    kernels: &Kernels,
    lookaheads: &Lookaheads,
) -> Result<Tables, PartsRefusal>
    requires kernels { kernels.now.grammar ≡ grammar.now }
    requires lookaheads { AreLookaheads kernels.now lookaheads.now }
    ensures ok { IfOk result (AreTables kernels.now) }
    ensures refused { IfErr result (IsPartsRefusal grammar.now) }
{
    match tables(alloc, grammar, kernels, lookaheads) {
        Ok(made) => Ok(made),
        Err(refusal) => Err(shown(alloc, kernels, refusal)),
    }
}

/// The terminals that are valid at each kernel, or a conflict. The only other error is out of memory.
///
/// It doesn't matter how the lookaheads were found.
pub fn valid_sets_of(
    alloc: Global,
    grammar: &Grammar,
    kernels: &Kernels,
    lookaheads: &Lookaheads,
) -> Result<Vec<TermSet>, PartsRefusal>
    requires kernels { kernels.now.grammar ≡ grammar.now }
    requires lookaheads { AreLookaheads kernels.now lookaheads.now }
    ensures ok { IfOk result (λ sets. AreValidSets kernels.now sets.items) }
    ensures no_conflict { IfOk result (λ sets. HasNoConflict grammar.now) }
    ensures refused { IfErr result (IsPartsRefusal grammar.now) }
{
    match valid_sets(alloc, grammar, kernels, lookaheads) {
        Ok(sets) => Ok(sets),
        Err(refusal) => Err(shown(alloc, kernels, refusal)),
    }
}

// A conflict of a kernel, at its prefix.
fn shown(alloc: Global, kernels: &Kernels, refusal: TableRefusal) -> PartsRefusal
    requires { IsTableRefusal kernels.now refusal }
    ensures { IsPartsRefusal kernels.now.grammar result }
{
    match refusal {
        TableRefusal::Conflict {
            state,
            terminal,
            first,
            second,
        } => match kernels.prefix(alloc, state) {
            Ok(prefix) => PartsRefusal::Conflict(Conflict {
                prefix: Sequence::from_vec(prefix),
                terminal,
                first,
                second,
            }),
            Err(error) => PartsRefusal::NoMemory(error),
        },
        TableRefusal::NoMemory(error) => PartsRefusal::NoMemory(error),
    }
}
