//! Does `run` call the operations of the table that it is given, and not the standard ones?
//!
//! The table has two operations: one adds, with a fault of its own if the second number is 4, and one reads a number.

ghost use Rattle.wb_tests_texts.specs.Inner.Odd.{odd, odd_sum};
ghost use Rattle.wb_operations.specs.Given.{FitKinds, IsGiven, plains_of};
ghost use Rattle.wb_operations.specs.Takes.{one_text, two_ints};

use crate::expected::expect;
use std::alloc::{AllocError, Global};
use wb_base::Kind;
use wb_operations::{Meaning, OperationRefusal, OperationTable, standard_to_int};
use wb_program::Status;
use wb_tests_runs::{Row, TINY, row_ends_by};
use wb_values::Value;

// What the two operations mean.
struct Odd;

impl Meaning for Odd {
    ghost use Rattle.wb_tests_texts.specs.Inner.Odd.{odd};

    ghost meaning = { odd };
}

// A sum, or fault 9 if the second number is 4.
fn odd_sum(x: i64, y: i64) -> Result<Value, OperationRefusal>
    ensures { IsGiven (odd_sum x y) result }
{
    if y == 4 {
        Err(OperationRefusal::Fault(9))
    } else {
        match x.checked_add(y) {
            Some(sum) => Ok(Value::Int(sum)),
            None => Err(OperationRefusal::Fault(1)),
        }
    }
}

// The same of two values.
fn odd_add(arguments: &[Value]) -> Result<Value, OperationRefusal>
    requires { FitKinds two_ints arguments.now }
    ensures { IsGiven (odd 0 (plains_of arguments.now)) result }
{
    match arguments {
        [Value::Int(x), Value::Int(y)] => odd_sum(*x, *y),
        _ => unreachable!(),
    }
}

// A number from a text.
#[tactic(auto, unfolding(wb_operations::specs::Standard::standard_at, wb_operations::specs::Standard::standard_operations))]
fn odd_to_int(arguments: &[Value]) -> Result<Value, OperationRefusal>
    requires { FitKinds one_text arguments.now }
    ensures { IsGiven (odd 1 (plains_of arguments.now)) result }
{
    standard_to_int(arguments)
}

// Whether a row ends as it says by a table of both.
fn ends_so(alloc: Global, row: &Row) -> Result<bool, AllocError> {
    let mut table: OperationTable<Odd> = OperationTable::new(alloc);
    let sum = Box::new(
        alloc,
        |arguments: &[Value]|
            requires { FitKinds two_ints arguments.now }
            ensures { IsGiven (odd 0 (plains_of arguments.now)) result }
        { odd_add(arguments) },
    )?;
    table.add(b"add", &[Kind::Int, Kind::Int], Kind::Int, sum)?;
    let read = Box::new(
        alloc,
        |arguments: &[Value]|
            requires { FitKinds one_text arguments.now }
            ensures { IsGiven (odd 1 (plains_of arguments.now)) result }
        { odd_to_int(arguments) },
    )?;
    table.add(b"to_int", &[Kind::Text], Kind::Int, read)?;
    row_ends_by(alloc, row, &table)
}

static SUMS: [Row; 2] = [
    (
        "workbench run --text t --attr value h",
        &[TINY, "3+4"],
        Status::OperationFault,
        "fault add 9\n",
    ),
    (
        "workbench run --text t --attr value h",
        &[TINY, "4+3"],
        Status::Done,
        "value = 7\n",
    ),
];

#[test]
fn the_operations_of_the_table_are_called(rt: HostRuntime) {
    expect(&rt, ends_so(rt.alloc(), &SUMS[0]));
    expect(&rt, ends_so(rt.alloc(), &SUMS[1]));
}
