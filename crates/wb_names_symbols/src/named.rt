//! Lists the names of rows in their order, and finds the numbers of these names.
//!
//! Rows of all sorts are gone through by the same two loops.

ghost use Rattle.std.specs.Prelude.{◌≡◌, ◌++◌, All, Contains, OnOk, map};
ghost use Rattle.wb_names_symbols.specs.Inner.Tables.{AddsNumbers};

use crate::names::add_name;
use std::alloc::AllocError;
use wb_base::{Bytes, push};
use wb_names_rows::index::Index;
use wb_names_rows::scope::number_of;
use wb_syntax_resolved::{Attribute, Nonterminal, Production, Terminal};

// A row with a name.
pub(crate) trait Named {
    ghost use Rattle.std.specs.Prelude.{◌≡◌, List, ℕ};

    // Its name.
    ghost called: { Self → List ℕ };

    // Its name.
    fn name(&self) -> &Bytes
        ensures { result.now ≡ called self.now };
}

impl Named for Terminal {
    ghost called = { λ row. row.name };

    fn name(&self) -> &Bytes {
        &self.name
    }
}

impl Named for Nonterminal {
    ghost called = { λ row. row.name };

    fn name(&self) -> &Bytes {
        &self.name
    }
}

impl Named for Attribute {
    ghost called = { λ row. row.name };

    fn name(&self) -> &Bytes {
        &self.name
    }
}

impl Named for Production {
    ghost called = { λ row. row.name };

    fn name(&self) -> &Bytes {
        &self.name
    }
}

// Adds the names of these rows.
pub(crate) fn add_names<T: Named>(rows: &[T], names: &mut Index) -> Result<(), AllocError>
    ensures { OnOk result (names.new ≡ names.old ++ map T.called rows.now) }
{
    'rows: for row in rows {
        add_name(row.name(), names)?;
    }
    Ok(())
}

// Adds the numbers that the names of these rows have.
pub(crate) fn add_numbers<T: Named>(
    names: &Index,
    rows: &[T],
    table: &mut Vec<usize>,
) -> Result<(), AllocError>
    requires { All (λ row. Contains names.now (T.called row)) rows.now }
    ensures { OnOk result (AddsNumbers T.called names.now rows.now table.old.items table.new.items) }
{
    'rows: for row in rows {
        push(table, number_of(names, row.name().as_slice()))?;
    }
    Ok(())
}
