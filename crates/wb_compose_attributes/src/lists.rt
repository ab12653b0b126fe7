//! Builds the rows of the union.
//!
//! Those of the grammar lead, with attributes and occurrences, and those that are abstract alone follow.

ghost use Rattle.std.specs.Prelude.{◌≡◌, ◌++◌, OnOk};
ghost use Rattle.wb_compose_attributes.specs.Inner.Filled.{AreEmpty, Following, Leading, RowsAdded, parts_in};
ghost use Rattle.wb_compose_attributes.specs.Inner.Gathered.{gathered, names_in};

use crate::placed::Placed;
use crate::productions::{Host, add_host, add_own};
use crate::rows::{add_attributes, add_nonterminals, add_occurrences};
use crate::{Numbers, Rows};
use std::alloc::{AllocError, Global};
use wb_base::{Bytes, push};
use wb_syntax_resolved::{Attribute, Nonterminal, Occurrence, Production};

// The lists in the making. One alone is owned while rows are added, so that a failure has one thing to drop.
#[derive(Drop)]
pub(crate) struct Lists {
    pub(crate) extensions: Vec<Bytes>,
    pub(crate) nonterminals: Vec<Nonterminal>,
    pub(crate) attributes: Vec<Attribute>,
    pub(crate) occurrences: Vec<Occurrence>,
    pub(crate) productions: Vec<Production>,
}

// Adds all rows of a host and its extensions, and their names.
pub(crate) fn add_all(
    alloc: Global,
    made: &mut Lists,
    numbers: &Numbers,
    rows: &Rows,
    placed: &[Placed],
) -> Result<(), AllocError>
    requires { AreEmpty made.old }
    ensures { OnOk result (parts_in made.new ≡ gathered numbers.now rows.now placed.now) }
{
    let host = Host {
        numbers,
        rows,
        placed,
    };
    add_leading(alloc, made, &host)?;
    add_following(alloc, made, &host)?;
    add_names(alloc, &mut made.extensions, placed)
}

// Adds the names of the extensions.
fn add_names(alloc: Global, made: &mut Vec<Bytes>, placed: &[Placed]) -> Result<(), AllocError>
    ensures { OnOk result (made.new.items ≡ made.old.items ++ names_in placed.now) }
{
    'placed: for extension in placed {
        let name = Bytes::from_slice(alloc, extension.addition.name)?;
        push(made, name)?;
    }
    Ok(())
}

// Adds what leads, the host's first.
fn add_leading(alloc: Global, made: &mut Lists, host: &Host) -> Result<(), AllocError>
    requires { AreEmpty made.old }
    ensures { OnOk result (Leading host.now host.now.placed.now made.new) }
{
    add_rows(alloc, made, host.numbers, host.rows)?;
    add_host(alloc, &mut made.productions, host, 0, host.rows.productions)?;
    'placed: for extension in host.placed {
        let rows = &extension.addition.rows;
        add_rows(alloc, made, &extension.numbers, rows)?;
        add_own(
            alloc,
            &mut made.productions,
            &extension.numbers,
            rows.productions,
        )?;
    }
    Ok(())
}

// Adds rows in new numbers, but no productions.
fn add_rows(
    alloc: Global,
    made: &mut Lists,
    numbers: &Numbers,
    rows: &Rows,
) -> Result<(), AllocError>
    ensures { OnOk result (RowsAdded numbers.now rows.now made.old made.new) }
{
    add_nonterminals(alloc, &mut made.nonterminals, numbers, rows.nonterminals)?;
    add_attributes(&mut made.attributes, numbers, rows.attributes)?;
    add_occurrences(alloc, &mut made.occurrences, numbers, rows.occurrences)?;
    Ok(())
}

// Adds what follows, the host's first.
fn add_following(alloc: Global, made: &mut Lists, host: &Host) -> Result<(), AllocError>
    requires { Leading host.now host.now.placed.now made.old }
    ensures { OnOk result (Following host.now host.now.placed.now made.new) }
{
    let rows = host.rows;
    add_nonterminals(
        alloc,
        &mut made.nonterminals,
        host.numbers,
        rows.abstract_nonterminals,
    )?;
    add_host(
        alloc,
        &mut made.productions,
        host,
        rows.productions.len(),
        rows.abstract_productions,
    )?;
    'placed: for extension in host.placed {
        let rows = &extension.addition.rows;
        add_nonterminals(
            alloc,
            &mut made.nonterminals,
            &extension.numbers,
            rows.abstract_nonterminals,
        )?;
        add_own(
            alloc,
            &mut made.productions,
            &extension.numbers,
            rows.abstract_productions,
        )?;
    }
    Ok(())
}
