//! Builds productions in new numbers, with what extensions write on those of the host.

ghost use Rattle.std.specs.Prelude.{◌≡◌, ◌++◌, [], IfOk, OnOk, length};
ghost use Rattle.wb_compose_attributes.specs.Inner.Gathered.{host_productions, own_productions};
ghost use Rattle.wb_compose_attributes.specs.Inner.Written.{host_production_by, production_by};

use crate::placed::{Placed, sum};
use crate::production::new_production;
use crate::written::{HostRow, Writers, total_on, with_locals};
use crate::{Block, Numbers, Rows};
use std::alloc::{AllocError, Global};
use wb_base::push;
use wb_syntax_resolved::Production;

// A host: its new numbers, its rows, and its extensions.
#[derive(Clone, Copy)]
pub(crate) struct Host<'a> {
    pub(crate) numbers: &'a Numbers,
    pub(crate) rows: &'a Rows<'a>,
    pub(crate) placed: &'a [Placed<'a>],
}

// Adds productions of the host, of which the first has this number there.
pub(crate) fn add_host(
    alloc: Global,
    made: &mut Vec<Production>,
    host: &Host,
    first: usize,
    rows: &[Production],
) -> Result<(), AllocError>
    ensures { OnOk result (made.new.items ≡ made.old.items ++ host_productions host.now.numbers.now (length host.now.rows.now.productions.now) host.now.placed.now first rows.now) }
{
    'rows: for place in 0..rows.len() {
        let number = sum(first, place)?;
        let next = host_production(alloc, host, number, &rows[place])?;
        push(made, next)?;
    }
    Ok(())
}

// One, with what extensions write on it.
fn host_production(
    alloc: Global,
    host: &Host,
    number: usize,
    row: &Production,
) -> Result<Production, AllocError>
    ensures { IfOk result (λ made. made ≡ host_production_by (length host.now.rows.now.productions.now) number row.now host.now.numbers.now host.now.placed.now) }
{
    let on = HostRow {
        leading: host.rows.productions.len(),
        number,
        row,
    };
    let total = total_on(&on, host.placed)?;
    let local = Block {
        own: row.locals.len(),
        before: 0,
        size: 0,
        total,
    };
    let numbers = with_locals(host.numbers, local);
    let writers = Writers {
        on,
        placed: host.placed,
        total,
    };
    new_production(alloc, &numbers, &writers)
}

// Adds productions on which no other writes.
pub(crate) fn add_own(
    alloc: Global,
    made: &mut Vec<Production>,
    numbers: &Numbers,
    rows: &[Production],
) -> Result<(), AllocError>
    ensures { OnOk result (made.new.items ≡ made.old.items ++ own_productions numbers.now rows.now) }
{
    'rows: for row in rows {
        let next = own_production(alloc, numbers, row)?;
        push(made, next)?;
    }
    Ok(())
}

// One of them.
fn own_production(
    alloc: Global,
    numbers: &Numbers,
    row: &Production,
) -> Result<Production, AllocError>
    ensures { IfOk result (λ made. made ≡ production_by numbers.now row.now []) }
{
    let on = HostRow {
        leading: 0,
        number: 0,
        row,
    };
    let writers = Writers {
        on,
        placed: &[],
        total: 0,
    };
    new_production(alloc, numbers, &writers)
}
