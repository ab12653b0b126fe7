//! Gives the numbers of a base's names among those of a file on it.
//!
//! Each name of a base is there, so each has a number.

ghost use Rattle.std.specs.Prelude.{OnOk};
ghost use Rattle.wb_names_symbols.specs.Lent.{lent_file};
ghost use Rattle.wb_names_symbols.specs.Inner.Tables.{AddsTables, HasBase};

use crate::lent::Lent;
use crate::named::add_numbers;
use std::alloc::AllocError;
use wb_names_rows::moves::Moves;
use wb_names_rows::scope::Scope;

// Adds the number of each name of the base.
pub(crate) fn add_tables(file: &Lent, scope: &Scope, moves: &mut Moves) -> Result<(), AllocError>
    requires { HasBase (lent_file file.now) scope.now }
    ensures { OnOk result (AddsTables (lent_file file.now) scope.now moves.old moves.new) }
{
    let attributes = file.base.attributes.parts();
    add_numbers(
        &scope.terminals,
        file.base.terminals.as_slice(),
        &mut moves.terminals,
    )?;
    add_numbers(
        &scope.nonterminals,
        attributes.nonterminals.as_slice(),
        &mut moves.nonterminals,
    )?;
    add_numbers(
        &scope.productions,
        attributes.productions.as_slice(),
        &mut moves.productions,
    )
}
