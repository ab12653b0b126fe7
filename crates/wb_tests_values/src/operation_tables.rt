//! Are operations found by name and called by number, whatever they mean?
//!
//! There are three tables: the standard one, one whose `and` means `or`, and one of two other operations.

ghost use Rattle.wb_tests_values.specs.Inner.Odd.{odd, odd_sum};
ghost use Rattle.wb_operations.specs.Given.{FitKinds, IsGiven, plains_of};
ghost use Rattle.wb_operations.specs.Takes.{one_text, two_bools, two_ints, two_texts};
ghost use Rattle.wb_operations.specs.Standard.{standard};

use crate::holds;
use std::alloc::{AllocError, Global};
use wb_base::{Bytes, Kind};
use wb_operations::{
    Meaning, OperationRefusal, OperationTable, standard_concat, standard_or, standard_table,
    standard_to_int,
};
use wb_values::Value;

// Whether names, numbers and kinds of the standard table are those of the sixteen.
fn is_standard(alloc: Global) -> Result<bool, AllocError> {
    let table = standard_table(alloc)?;
    let found = table.find(b"add") == Some(0) && table.find(b"div") == Some(3);
    let last = table.find(b"to_int") == Some(15) && table.find(b"less_or_equal") == None;
    Ok(table.len() == 16 && found && last)
}

#[test]
fn the_standard_table_has_sixteen_operations(rt: HostRuntime) {
    assert!(rt; holds(is_standard(rt.alloc())));
}

// Whether seven by two is three, by the standard table.
#[tactic(auto, unfolding(wb_operations::specs::Standard::standard_operations))]
fn is_divided(alloc: Global) -> Result<bool, AllocError> {
    let table = standard_table(alloc)?;
    let quotient = table.call(3, &[Value::Int(7), Value::Int(2)]);
    Ok(matches!(quotient, Ok(Value::Int(3))))
}

#[test]
fn a_standard_operation_is_called(rt: HostRuntime) {
    assert!(rt; holds(is_divided(rt.alloc())));
}

// Whether one or both hold.
struct Swapped;

impl Meaning for Swapped {
    ghost use Rattle.std.specs.Prelude.{◌+◌};
    ghost use Rattle.wb_operations.specs.Standard.{standard};

    ghost meaning = { λ number. standard (number + 11) };
}

// Whether a table whose only operation is called `and` and means `or` gives true of true and false.
fn is_either(alloc: Global) -> Result<bool, AllocError> {
    let run = Box::new(
        alloc,
        |arguments: &[Value]|
            requires { FitKinds two_bools arguments.now }
            ensures { IsGiven (standard 11 (plains_of arguments.now)) result }
        { standard_or(arguments) },
    )?;
    let mut table: OperationTable<Swapped> = OperationTable::new(alloc);
    table.add(b"and", &[Kind::Bool, Kind::Bool], Kind::Bool, run)?;
    let either = table.call(0, &[Value::Bool(true), Value::Bool(false)]);
    Ok(matches!(either, Ok(Value::Bool(true))))
}

#[test]
fn a_table_answers_its_own_meaning(rt: HostRuntime) {
    assert!(rt; holds(is_either(rt.alloc())));
}

// The first operation adds, with fault 9 if the second number is 4, and the second reads a number. They are told apart by their numbers.
struct Odd;

impl Meaning for Odd {
    ghost use Rattle.wb_tests_values.specs.Inner.Odd.{odd};

    ghost meaning = { odd };
}

fn odd_sum(x: i64, y: i64) -> Result<Value, OperationRefusal>
    ensures { IsGiven (odd_sum x y) result }
{
    if y == 4 {
        Err(OperationRefusal::Fault(9))
    } else {
        match x.checked_add(y) {
            Some(sum) => Ok(Value::Int(sum)),
            None => Err(OperationRefusal::Fault(1)),
        }
    }
}

fn odd_add(arguments: &[Value]) -> Result<Value, OperationRefusal>
    requires { FitKinds two_ints arguments.now }
    ensures { IsGiven (odd 0 (plains_of arguments.now)) result }
{
    match arguments {
        [Value::Int(x), Value::Int(y)] => odd_sum(*x, *y),
        _ => unreachable!(),
    }
}

#[tactic(auto, unfolding(wb_operations::specs::Standard::standard_at, wb_operations::specs::Standard::standard_operations))]
fn odd_to_int(arguments: &[Value]) -> Result<Value, OperationRefusal>
    requires { FitKinds one_text arguments.now }
    ensures { IsGiven (odd 1 (plains_of arguments.now)) result }
{
    standard_to_int(arguments)
}

// Whether the first operation gives fault 9 for a second number 4, and the second reads -7.
fn is_odd(alloc: Global, seven: &[Value]) -> Result<bool, AllocError>
    requires { FitKinds one_text seven.now }
{
    let sum = Box::new(
        alloc,
        |arguments: &[Value]|
            requires { FitKinds two_ints arguments.now }
            ensures { IsGiven (odd 0 (plains_of arguments.now)) result }
        { odd_add(arguments) },
    )?;
    let mut table: OperationTable<Odd> = OperationTable::new(alloc);
    table.add(b"add", &[Kind::Int, Kind::Int], Kind::Int, sum)?;
    let read = Box::new(
        alloc,
        |arguments: &[Value]|
            requires { FitKinds one_text arguments.now }
            ensures { IsGiven (odd 1 (plains_of arguments.now)) result }
        { odd_to_int(arguments) },
    )?;
    table.add(b"to_int", &[Kind::Text], Kind::Int, read)?;
    let fault = table.call(0, &[Value::Int(3), Value::Int(4)]);
    let number = table.call(1, seven);
    let faults = matches!(fault, Err(OperationRefusal::Fault(9)));
    Ok(faults && matches!(number, Ok(Value::Int(-7))))
}

fn are_odd(alloc: Global) -> Result<bool, AllocError> {
    let seven = Bytes::from_slice(alloc, b"-7")?;
    is_odd(alloc, &[Value::Text(seven)])
}

#[test]
fn operations_go_by_their_number(rt: HostRuntime) {
    assert!(rt; holds(are_odd(rt.alloc())));
}

// The concatenation of the texts.
struct Joining;

impl Meaning for Joining {
    ghost use Rattle.std.specs.Prelude.{◌+◌};
    ghost use Rattle.wb_operations.specs.Standard.{standard};

    ghost meaning = { λ number. standard (number + 12) };
}

// Whether a closure that holds the allocator concatenates two texts to `ab`.
fn is_joined(alloc: Global, texts: &[Value]) -> Result<bool, AllocError>
    requires { FitKinds two_texts texts.now }
{
    let join = Box::new(
        alloc,
        move |arguments: &[Value]|
            requires { FitKinds two_texts arguments.now }
            ensures { IsGiven (standard 12 (plains_of arguments.now)) result }
        { standard_concat(alloc, arguments) },
    )?;
    let mut table: OperationTable<Joining> = OperationTable::new(alloc);
    table.add(b"concat", &[Kind::Text, Kind::Text], Kind::Text, join)?;
    let both = table.call(0, texts);
    Ok(matches!(both, Ok(Value::Text(text)) if text.as_slice() == b"ab".as_slice()))
}

fn are_joined(alloc: Global) -> Result<bool, AllocError> {
    let a = Bytes::from_slice(alloc, b"a")?;
    let b = Bytes::from_slice(alloc, b"b")?;
    is_joined(alloc, &[Value::Text(a), Value::Text(b)])
}

#[test]
fn a_closure_may_hold_the_allocator(rt: HostRuntime) {
    assert!(rt; holds(are_joined(rt.alloc())));
}
