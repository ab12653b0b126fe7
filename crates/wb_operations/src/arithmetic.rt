//! What do the standard operations on numbers that give a number compute?
//!
//! Each answers its row of `specs/Standard`; which names and numbers they have is in `standard`.

ghost use Rattle.std.specs.Prelude.{◌≡◌, ◌≢◌, ◌+ℤ◌, ◌-ℤ◌, ◌*ℤ◌, ℤ, pos, neg_ℤ, int_div, int_rem, FitsSigned, SomeIff};
ghost use Rattle.std.specs.Int.{w64, CanDivide};
ghost use Rattle.wb_operations.specs.Given.{FitKinds, IsGiven, HasMemory, plains_of};
ghost use Rattle.wb_operations.specs.Takes.{one_int, two_ints};
ghost use Rattle.wb_operations.specs.Standard.{standard};
ghost use Rattle.wb_operations.specs.Rows.{inside, quotient, remainder};

use crate::OperationRefusal;
use wb_values::Value;

/// Fault: a number outside 64 bits.
pub const OUTSIDE: u32 = 1;
/// Fault: a divisor that is zero.
pub const ZERO_DIVISOR: u32 = 2;

// The number, where there is one.
fn inside(found: Option<i64>) -> Result<Value, OperationRefusal>
    ensures answer { (z : ℤ) → SomeIff found (FitsSigned w64 z) z → IsGiven (inside z) result }
    ensures memory { HasMemory result }
{
    match found {
        Some(number) => Ok(Value::Int(number)),
        None => Err(OperationRefusal::Fault(OUTSIDE)),
    }
}

// The quotient toward zero.
fn quotient(x: i64, y: i64) -> Result<Value, OperationRefusal>
    ensures answer { IsGiven (quotient x y) result }
    ensures memory { HasMemory result }
{
    if y == 0 {
        return Err(OperationRefusal::Fault(ZERO_DIVISOR));
    }
    match x.checked_div(y) {
        Some(number) => Ok(Value::Int(number)),
        None => Err(OperationRefusal::Fault(OUTSIDE)),
    }
}

// What is left by the quotient toward zero.
fn remainder(x: i64, y: i64) -> Result<Value, OperationRefusal>
    ensures answer { IsGiven (remainder x y) result }
    ensures memory { HasMemory result }
{
    if y == 0 {
        return Err(OperationRefusal::Fault(ZERO_DIVISOR));
    }
    match x.checked_rem(y) {
        Some(number) => Ok(Value::Int(number)),
        None => Err(OperationRefusal::Fault(OUTSIDE)),
    }
}

/// The first and the second together, with fault 1 outside 64 bits.
#[tactic(auto, unfolding(crate::specs::Standard::standard_at, crate::specs::Standard::standard_operations))]
pub fn standard_add(arguments: &[Value]) -> Result<Value, OperationRefusal>
    requires { FitKinds two_ints arguments.now }
    ensures answer { IsGiven (standard 0 (plains_of arguments.now)) result }
    ensures memory { HasMemory result }
{
    match arguments {
        [Value::Int(x), Value::Int(y)] => inside(x.checked_add(*y)),
        _ => unreachable!(),
    }
}

/// The first less the second, with fault 1 outside 64 bits.
#[tactic(auto, unfolding(crate::specs::Standard::standard_at, crate::specs::Standard::standard_operations))]
pub fn standard_sub(arguments: &[Value]) -> Result<Value, OperationRefusal>
    requires { FitKinds two_ints arguments.now }
    ensures answer { IsGiven (standard 1 (plains_of arguments.now)) result }
    ensures memory { HasMemory result }
{
    match arguments {
        [Value::Int(x), Value::Int(y)] => inside(x.checked_sub(*y)),
        _ => unreachable!(),
    }
}

/// The first times the second, with fault 1 outside 64 bits.
#[tactic(auto, unfolding(crate::specs::Standard::standard_at, crate::specs::Standard::standard_operations))]
pub fn standard_mul(arguments: &[Value]) -> Result<Value, OperationRefusal>
    requires { FitKinds two_ints arguments.now }
    ensures answer { IsGiven (standard 2 (plains_of arguments.now)) result }
    ensures memory { HasMemory result }
{
    match arguments {
        [Value::Int(x), Value::Int(y)] => inside(x.checked_mul(*y)),
        _ => unreachable!(),
    }
}

/// The first by the second, toward zero, with fault 2 for a zero divisor and fault 1 outside 64 bits.
#[tactic(auto, unfolding(crate::specs::Standard::standard_at, crate::specs::Standard::standard_operations))]
pub fn standard_div(arguments: &[Value]) -> Result<Value, OperationRefusal>
    requires { FitKinds two_ints arguments.now }
    ensures answer { IsGiven (standard 3 (plains_of arguments.now)) result }
    ensures memory { HasMemory result }
{
    match arguments {
        [Value::Int(x), Value::Int(y)] => quotient(*x, *y),
        _ => unreachable!(),
    }
}

/// What is left by that quotient, with the sign of the first and the faults of the quotient.
#[tactic(auto, unfolding(crate::specs::Standard::standard_at, crate::specs::Standard::standard_operations))]
pub fn standard_rem(arguments: &[Value]) -> Result<Value, OperationRefusal>
    requires { FitKinds two_ints arguments.now }
    ensures answer { IsGiven (standard 4 (plains_of arguments.now)) result }
    ensures memory { HasMemory result }
{
    match arguments {
        [Value::Int(x), Value::Int(y)] => remainder(*x, *y),
        _ => unreachable!(),
    }
}

/// The negative, with fault 1 outside 64 bits.
#[tactic(auto, unfolding(crate::specs::Standard::standard_at, crate::specs::Standard::standard_operations))]
pub fn standard_neg(arguments: &[Value]) -> Result<Value, OperationRefusal>
    requires { FitKinds one_int arguments.now }
    ensures answer { IsGiven (standard 5 (plains_of arguments.now)) result }
    ensures memory { HasMemory result }
{
    match arguments {
        [Value::Int(x)] => inside(x.checked_neg()),
        _ => unreachable!(),
    }
}
