//! Builds the kernels and tables of a deterministic grammar.
//!
//! The only refusal is out of memory.

ghost use Rattle.std.specs.Prelude.{IfOk};
ghost use Rattle.wb_grammar.specs.Facts.{AreFacts};
ghost use Rattle.wb_determinism_contexts.specs.Parts.{ArePartsOf};
ghost use Rattle.wb_scan_theory.specs.Facts.{IsDeterministic};

use std::alloc::{AllocError, Global};
use wb_base::Grammar;
use wb_determinism_contexts::{Parts, PartsRefusal, parts_of};
use wb_grammar::{Facts, GrammarRefusal, analyse};

// The kernels of the grammar, and its tables.
pub(crate) fn parts_in(alloc: Global, grammar: &Grammar) -> Result<Parts, AllocError>
    requires { IsDeterministic grammar.now }
    ensures { IfOk result (ArePartsOf grammar.now) }
{
    let facts = facts_of(alloc, grammar)?;
    match parts_of(alloc, grammar, &facts) {
        Ok(parts) => Ok(parts),
        Err(PartsRefusal::NoMemory(error)) => Err(error),
        Err(PartsRefusal::Conflict(_)) => unreachable!(),
    }
}

// What an analysis knows of it.
fn facts_of(alloc: Global, grammar: &Grammar) -> Result<Facts, AllocError>
    requires { IsDeterministic grammar.now }
    ensures { IfOk result (AreFacts grammar.now) }
{
    match analyse(alloc, grammar) {
        Ok(facts) => Ok(facts),
        Err(GrammarRefusal::NoMemory(error)) => Err(error),
        Err(GrammarRefusal::NotReduced(_)) => unreachable!(),
        Err(GrammarRefusal::UnitCycle(_)) => unreachable!(),
        Err(GrammarRefusal::HiddenLeftRecursion(_)) => unreachable!(),
    }
}
