//! What do the standard operations on texts compute?
//!
//! Each answers its row of `specs/Standard`; which names and numbers they have is in `standard`.

ghost use Rattle.std.specs.Prelude.{◌≡◌, ◌+◌, ◌≤◌, ◌++◌, length, IfOk};
ghost use Rattle.std.specs.Fmt.{signed_decimal};
ghost use Rattle.std.specs.Char.{is_ascii_digit};
ghost use Rattle.std.specs.List.{list_all};
ghost use Rattle.wb_values.specs.Tree.{int, text};
ghost use Rattle.wb_operations.specs.Given.{gives, FitKinds, IsGiven, HasMemory, plains_of};
ghost use Rattle.wb_operations.specs.Takes.{one_int, one_text, two_texts};
ghost use Rattle.wb_operations.specs.Standard.{standard};
ghost use Rattle.wb_operations.specs.Rows.{joined, number_of, is_numeral, written, inside_or_none};
ghost use Rattle.wb_base.specs.Decimal.{signed};

use crate::OperationRefusal;
use itoa::Buffer;
use std::alloc::{AllocError, Global};
use wb_base::{Bytes, decimal};
use wb_values::Value;

/// Fault: a text that writes no number of 64 bits.
pub const NO_NUMBER: u32 = 3;
/// Fault: a text of more than `LONGEST_TEXT` bytes.
pub const TOO_LONG: u32 = 4;
/// The greatest length of a text that `concat` gives, in bytes.
pub const LONGEST_TEXT: usize = 16777216;

/// The first and then the second, with fault 4 above 16,777,216 bytes, in which case nothing is copied.
#[tactic(auto, unfolding(crate::specs::Standard::standard_at, crate::specs::Standard::standard_operations))]
pub fn standard_concat(alloc: Global, arguments: &[Value]) -> Result<Value, OperationRefusal>
    requires { FitKinds two_texts arguments.now }
    ensures answer { IsGiven (standard 12 (plains_of arguments.now)) result }
{
    match arguments {
        [Value::Text(x), Value::Text(y)] => concat(alloc, x.as_slice(), y.as_slice()),
        _ => unreachable!(),
    }
}

// The first and then the second.
fn concat(alloc: Global, x: &[u8], y: &[u8]) -> Result<Value, OperationRefusal>
    ensures { IsGiven (joined x.now y.now) result }
{
    if x.len() + y.len() > LONGEST_TEXT {
        return Err(OperationRefusal::Fault(TOO_LONG));
    }
    match join(alloc, x, y) {
        Ok(text) => Ok(Value::Text(text)),
        Err(e) => Err(OperationRefusal::NoMemory(e)),
    }
}

// Two texts one after the other, where each byte is copied once.
fn join(alloc: Global, x: &[u8], y: &[u8]) -> Result<Bytes, AllocError>
    requires { length x.now + length y.now ≤ 16777216 }
    ensures { IfOk result (λ made. made ≡ x.now ++ y.now) }
{
    let mut bytes = Vec::new(alloc);
    bytes.reserve(x.len() + y.len())?;
    bytes.extend_from_slice(x)?;
    bytes.extend_from_slice(y)?;
    Bytes::from_vec(bytes)
}

/// How many bytes a text has.
#[tactic(auto, unfolding(crate::specs::Standard::standard_at, crate::specs::Standard::standard_operations))]
pub fn standard_length(arguments: &[Value]) -> Result<Value, OperationRefusal>
    requires { FitKinds one_text arguments.now }
    ensures answer { IsGiven (standard 13 (plains_of arguments.now)) result }
    ensures memory { HasMemory result }
{
    match arguments {
        [Value::Text(x)] => Ok(Value::Int(x.as_slice().len() as i64)),
        _ => unreachable!(),
    }
}

/// The number in decimal digits, with `-` before a negative.
#[tactic(auto, unfolding(crate::specs::Standard::standard_at, crate::specs::Standard::standard_operations))]
pub fn standard_to_text(alloc: Global, arguments: &[Value]) -> Result<Value, OperationRefusal>
    requires { FitKinds one_int arguments.now }
    ensures answer { IsGiven (standard 14 (plains_of arguments.now)) result }
{
    match arguments {
        [Value::Int(x)] => print(alloc, *x),
        _ => unreachable!(),
    }
}

// A number as a text.
fn print(alloc: Global, number: i64) -> Result<Value, OperationRefusal>
    ensures { IsGiven (gives (text (signed_decimal number))) result }
{
    let mut buffer = Buffer::new();
    match Bytes::from_slice(alloc, buffer.format(number).as_bytes()) {
        Ok(text) => Ok(Value::Text(text)),
        Err(e) => Err(OperationRefusal::NoMemory(e)),
    }
}

/// The number that a text writes: an optional `-` and one or more digits, of which the first may be 0. Fault 3 where it is no such text, or
/// the number is outside 64 bits.
#[tactic(auto, unfolding(crate::specs::Standard::standard_at, crate::specs::Standard::standard_operations))]
pub fn standard_to_int(arguments: &[Value]) -> Result<Value, OperationRefusal>
    requires { FitKinds one_text arguments.now }
    ensures answer { IsGiven (standard 15 (plains_of arguments.now)) result }
    ensures memory { HasMemory result }
{
    match arguments {
        [Value::Text(x)] => read(x.as_slice()),
        _ => unreachable!(),
    }
}

// The number that a text writes.
fn read(text: &[u8]) -> Result<Value, OperationRefusal>
    ensures answer { IsGiven (number_of text.now) result }
    ensures memory { HasMemory result }
{
    if !text.is_empty() && text[0] == b'-' {
        read_digits(true, &text[1..])
    } else {
        read_digits(false, text)
    }
}

// The number with this sign that digits write.
fn read_digits(negative: bool, digits: &[u8]) -> Result<Value, OperationRefusal>
    ensures answer { IsGiven (written negative digits.now) result }
    ensures memory { HasMemory result }
{
    if !is_numeral(digits) {
        return Err(OperationRefusal::Fault(NO_NUMBER));
    }
    match decimal::magnitude(digits) {
        None => Err(OperationRefusal::Fault(NO_NUMBER)),
        Some(size) => with_sign(negative, size),
    }
}

// Whether it is one or more digits and nothing else.
fn is_numeral(digits: &[u8]) -> bool
    ensures { result ≡ is_numeral digits.now }
{
    !digits.is_empty() && are_digits(digits)
}

// Whether each byte is a decimal digit.
fn are_digits(bytes: &[u8]) -> bool
    ensures { result ≡ list_all is_ascii_digit bytes.now }
{
    bytes.iter().all(|b| b.is_ascii_digit())
}

// The number or its negative, where it is inside 64 bits.
fn with_sign(negative: bool, size: u64) -> Result<Value, OperationRefusal>
    ensures answer { IsGiven (inside_or_none (signed negative size)) result }
    ensures memory { HasMemory result }
{
    match decimal::with_sign(negative, size) {
        Some(number) => Ok(Value::Int(number)),
        None => Err(OperationRefusal::Fault(NO_NUMBER)),
    }
}
