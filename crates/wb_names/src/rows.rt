//! Builds the rows of a file on its base, but for terminals and nonterminals, each sort in the order of its numbers.
//!
//! What is concrete comes first, in a count of its own. Each sort is made elsewhere. All are owned by one value, which is made empty and
//! lent, so that nothing is owned where memory runs out.

ghost use Rattle.std.specs.Prelude.{OnOk};
ghost use Rattle.wb_names_symbols.specs.Lent.{lent_file};
ghost use Rattle.wb_names_symbols.specs.Symbols.{AreNumbers};
ghost use Rattle.wb_names.specs.Inner.Rest.{IsReady};
ghost use Rattle.wb_names.specs.Inner.Unwritten.{IsUnwritten};
ghost use Rattle.wb_names.specs.Inner.Value.{AreWritten};

use crate::production::Context;
use crate::productions::{Productions, add_productions};
use crate::rest::{Rest, add_rest};
use std::alloc::{AllocError, Global};
use wb_base::{Grammar, Names};
use wb_names_rows::plains::Plains;
use wb_names_symbols::lent::Lent;
use wb_names_symbols::symbols::Symbols;
use wb_names_symbols::writers::{Writers, add_items};
use wb_values::Signatures;

// Which items write on productions; productions, of which so many are concrete, their grammar and signatures; and what else is written.
#[derive(Drop)]
pub(crate) struct Written {
    pub(crate) writers: Writers,
    pub(crate) concrete: usize,
    pub(crate) productions: Productions,
    pub(crate) grammar: Option<Grammar>,
    pub(crate) signatures: Signatures,
    pub(crate) rest: Rest,
}

// Nothing that is written.
pub(crate) fn nothing_written(alloc: Global) -> Written
    ensures { IsUnwritten result }
{
    Written {
        writers: Writers {
            names: Names::new(alloc),
            places: Vec::new(alloc),
        },
        concrete: 0,
        productions: Productions {
            concrete: Vec::new(alloc),
            others: Vec::new(alloc),
        },
        grammar: None,
        signatures: Signatures::new(alloc),
        rest: Rest {
            plains: Plains {
                attributes: Vec::new(alloc),
                occurrences: Vec::new(alloc),
                preferences: Vec::new(alloc),
            },
            extensible: Vec::new(alloc),
            start: None,
        },
    }
}

// Adds the rows to none, where names have their numbers.
pub(crate) fn add_rows(
    alloc: Global,
    file: &Lent,
    symbols: &Symbols,
    written: &mut Written,
) -> Result<(), AllocError>
    requires ready { IsReady (lent_file file.now) }
    requires numbers { AreNumbers (lent_file file.now) symbols.now.scope symbols.now.moves }
    requires nothing { IsUnwritten written.old }
    ensures { OnOk result (AreWritten (lent_file file.now) symbols.now.scope symbols.now.moves written.new.concrete written.new.productions.concrete.items written.new.rest) }
{
    add_items(alloc, file.items, &mut written.writers)?;
    let context = Context {
        file: *file,
        scope: &symbols.scope,
        moves: &symbols.moves,
        writers: &written.writers,
    };
    written.concrete = add_productions(alloc, &context, &mut written.productions)?;
    add_rest(
        alloc,
        file,
        &symbols.scope,
        &symbols.moves,
        &mut written.rest,
    )
}
