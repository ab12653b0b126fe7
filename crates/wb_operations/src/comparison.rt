//! What do the standard operations that give a truth value compute?
//!
//! Each answers its row of `specs/Standard`; which names and numbers they have is in `standard`.

ghost use Rattle.std.specs.Prelude.{◌&&◌, ◌||◌, not, int_lt};
ghost use Rattle.std.specs.Ordering.{int_eq};
ghost use Rattle.std.specs.Str.{bytes_eq};
ghost use Rattle.wb_values.specs.Tree.{bool};
ghost use Rattle.wb_operations.specs.Given.{gives, FitKinds, IsGiven, HasMemory, plains_of};
ghost use Rattle.wb_operations.specs.Takes.{one_bool, two_ints, two_bools, two_texts};
ghost use Rattle.wb_operations.specs.Standard.{standard};

use crate::OperationRefusal;
use wb_values::Value;

/// Whether two numbers are equal.
#[tactic(auto, unfolding(crate::specs::Standard::standard_at, crate::specs::Standard::standard_operations))]
pub fn standard_eq(arguments: &[Value]) -> Result<Value, OperationRefusal>
    requires { FitKinds two_ints arguments.now }
    ensures answer { IsGiven (standard 6 (plains_of arguments.now)) result }
    ensures memory { HasMemory result }
{
    match arguments {
        [Value::Int(x), Value::Int(y)] => Ok(Value::Bool(*x == *y)),
        _ => unreachable!(),
    }
}

/// Whether the first number is below the second.
#[tactic(auto, unfolding(crate::specs::Standard::standard_at, crate::specs::Standard::standard_operations))]
pub fn standard_less(arguments: &[Value]) -> Result<Value, OperationRefusal>
    requires { FitKinds two_ints arguments.now }
    ensures answer { IsGiven (standard 7 (plains_of arguments.now)) result }
    ensures memory { HasMemory result }
{
    match arguments {
        [Value::Int(x), Value::Int(y)] => Ok(Value::Bool(*x < *y)),
        _ => unreachable!(),
    }
}

/// Whether two texts have the same bytes.
#[tactic(auto, unfolding(crate::specs::Standard::standard_at, crate::specs::Standard::standard_operations))]
pub fn standard_same(arguments: &[Value]) -> Result<Value, OperationRefusal>
    requires { FitKinds two_texts arguments.now }
    ensures answer { IsGiven (standard 8 (plains_of arguments.now)) result }
    ensures memory { HasMemory result }
{
    match arguments {
        [Value::Text(x), Value::Text(y)] => Ok(Value::Bool(x.as_slice() == y.as_slice())),
        _ => unreachable!(),
    }
}

/// Whether it doesn't hold.
#[tactic(auto, unfolding(crate::specs::Standard::standard_at, crate::specs::Standard::standard_operations))]
pub fn standard_not(arguments: &[Value]) -> Result<Value, OperationRefusal>
    requires { FitKinds one_bool arguments.now }
    ensures answer { IsGiven (standard 9 (plains_of arguments.now)) result }
    ensures memory { HasMemory result }
{
    match arguments {
        [Value::Bool(x)] => Ok(Value::Bool(!*x)),
        _ => unreachable!(),
    }
}

/// Whether both hold.
#[tactic(auto, unfolding(crate::specs::Standard::standard_at, crate::specs::Standard::standard_operations))]
pub fn standard_and(arguments: &[Value]) -> Result<Value, OperationRefusal>
    requires { FitKinds two_bools arguments.now }
    ensures answer { IsGiven (standard 10 (plains_of arguments.now)) result }
    ensures memory { HasMemory result }
{
    match arguments {
        [Value::Bool(x), Value::Bool(y)] => Ok(Value::Bool(*x & *y)),
        _ => unreachable!(),
    }
}

/// Whether one or both hold.
#[tactic(auto, unfolding(crate::specs::Standard::standard_at, crate::specs::Standard::standard_operations))]
pub fn standard_or(arguments: &[Value]) -> Result<Value, OperationRefusal>
    requires { FitKinds two_bools arguments.now }
    ensures answer { IsGiven (standard 11 (plains_of arguments.now)) result }
    ensures memory { HasMemory result }
{
    match arguments {
        [Value::Bool(x), Value::Bool(y)] => Ok(Value::Bool(*x | *y)),
        _ => unreachable!(),
    }
}
