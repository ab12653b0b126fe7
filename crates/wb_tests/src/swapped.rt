//! Does the program call the operations of the table that it is given, and no others?

ghost use Rattle.wb_operations.specs.Given.{FitKinds, IsGiven, plains_of};
ghost use Rattle.wb_operations.specs.Standard.{standard};
ghost use Rattle.wb_operations.specs.Takes.{two_ints};

use crate::expected::expect;
use std::alloc::{AllocError, Global};
use wb_base::Kind;
use wb_operations::{Meaning, OperationTable, standard_sub};
use wb_program::Status;
use wb_tests_runs::{CALC0, DIVS, Row, row_ends_by};
use wb_values::Value;

// The first number less the second.
struct Swapped;

impl Meaning for Swapped {
    ghost use Rattle.std.specs.Prelude.{◌+◌};
    ghost use Rattle.wb_operations.specs.Standard.{standard};

    ghost meaning = { λ number. standard (number + 1) };
}

// Whether a row ends as it says by a table whose only operation is called `add` and subtracts.
fn ends_so(alloc: Global, row: &Row) -> Result<bool, AllocError> {
    let mut table: OperationTable<Swapped> = OperationTable::new(alloc);
    let run = Box::new(
        alloc,
        |arguments: &[Value]|
            requires { FitKinds two_ints arguments.now }
            ensures { IsGiven (standard 1 (plains_of arguments.now)) result }
        { standard_sub(arguments) },
    )?;
    table.add(b"add", &[Kind::Int, Kind::Int], Kind::Int, run)?;
    row_ends_by(alloc, row, &table)
}

static CALLED: Row = (
    "workbench value h t value",
    &[CALC0, "add(lit(1), lit(2))"],
    Status::Done,
    "value = -1\n",
);

#[test]
fn operations_are_those_of_the_table(rt: HostRuntime) {
    expect(&rt, ends_so(rt.alloc(), &CALLED));
}

static NOT_DECLARED: Row = (
    "workbench value h t value",
    &[DIVS, "div(lit(7), lit(-2))"],
    Status::SpecRefused,
    "refused h N1 div\n",
);

#[test]
fn an_operation_that_is_not_in_the_table_is_not_declared(rt: HostRuntime) {
    expect(&rt, ends_so(rt.alloc(), &NOT_DECLARED));
}
