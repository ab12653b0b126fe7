//! What does each extension write on a production of the host?
//!
//! Its locals and equations there come after the host's own.

ghost use Rattle.std.specs.Prelude.{◌≡◌, IfOk, drop, length, map, slice_get};
ghost use Rattle.wb_compose_theory_lists.specs.Numbers.{locals_in};
ghost use Rattle.wb_compose_theory_grammar.specs.Places.{total_of};
ghost use Rattle.wb_compose_attributes.specs.Lent.{equations_in};
ghost use Rattle.wb_compose_attributes.specs.Inner.Written.{locals_size};
ghost use Rattle.wb_compose_attributes.specs.Inner.Written as spec;

use crate::placed::{Placed, sum};
use crate::slices::behind;
use crate::{Addition, Block, Numbers};
use std::alloc::AllocError;
use wb_syntax_resolved::{Equation, Local, Production};

// A production of the host with its number there, and how many of the host lead.
#[derive(Clone, Copy)]
pub(crate) struct HostRow<'a> {
    pub(crate) leading: usize,
    pub(crate) number: usize,
    pub(crate) row: &'a Production,
}

// One, and the extensions that write on it, so many locals together.
#[derive(Clone, Copy)]
pub(crate) struct Writers<'a> {
    pub(crate) on: HostRow<'a>,
    pub(crate) placed: &'a [Placed<'a>],
    pub(crate) total: usize,
}

// What an extension writes on one: locals and equations.
#[derive(Clone, Copy)]
pub(crate) struct Writing<'a> {
    pub(crate) locals: &'a [Local],
    pub(crate) equations: &'a [Equation],
}

// The block of locals that one writes, which are so many.
pub(crate) fn block_on(writers: &Writers, before: usize, size: usize) -> Block
    ensures { result ≡ record { own = length writers.now.on.row.now.locals; before = before; size = size; total = writers.now.total } }
{
    Block {
        own: writers.on.row.locals.len(),
        before,
        size,
        total: writers.total,
    }
}

// The same numbers, with these of locals.
pub(crate) fn with_locals(numbers: &Numbers, local: Block) -> Numbers
    ensures { result ≡ spec.with_locals local numbers.now }
{
    Numbers { local, ..*numbers }
}

// How many locals all write together.
pub(crate) fn total_on(on: &HostRow, placed: &[Placed]) -> Result<usize, AllocError>
    ensures { IfOk result (λ total. total ≡ total_of (map (locals_size on.now.leading on.now.number on.now.row.now) placed.now)) }
{
    let mut total = 0;
    'placed: for extension in placed {
        total = sum(total, writing_on(on, &extension.addition).locals.len())?;
    }
    Ok(total)
}

// What an extension writes on it.
pub(crate) fn writing_on<'a>(on: &HostRow, addition: &Addition<'a>) -> Writing<'a>
    ensures locals { result.locals.now ≡ drop (length on.now.row.now.locals) (locals_in (spec.row_on on.now addition.now)) }
    ensures equations { result.equations.now ≡ drop (length on.now.row.now.equations) (equations_in (spec.row_on on.now addition.now)) }
{
    let rows = rows_on(on, addition);
    if on.number < rows.len() {
        writing_behind(on.row, &rows[on.number])
    } else {
        Writing {
            locals: &[],
            equations: &[],
        }
    }
}

// What comes after a row's own on the same production elsewhere.
fn writing_behind<'a>(own: &Production, row: &'a Production) -> Writing<'a>
    ensures locals { result.locals.now ≡ drop (length own.now.locals) row.now.locals }
    ensures equations { result.equations.now ≡ drop (length own.now.equations) row.now.equations }
{
    Writing {
        locals: behind(row.locals.as_slice(), own.locals.len()),
        equations: behind(row.equations.as_slice(), own.equations.len()),
    }
}

// Productions of the host with an extension, so that the one of the host's number there has the same number.
fn rows_on<'a>(on: &HostRow, addition: &Addition<'a>) -> &'a [Production]
    ensures { slice_get result.now on.now.number ≡ spec.row_on on.now addition.now }
{
    if on.number < on.leading {
        addition.written
    } else {
        behind(addition.written, addition.rows.productions.len())
    }
}
