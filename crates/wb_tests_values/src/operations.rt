//! What do the sixteen standard operations give, at the edges of 64 bits and on texts of any bytes?
//!
//! Rows have arguments and answers, all plain data. Tests of finding and calling operations are in `operation_tables`.

ghost use Rattle.wb_operations.specs.Given.{FitKinds};
ghost use Rattle.wb_operations.specs.Takes.{one_int, one_text, two_bools, two_ints, two_texts};

use crate::holds;
use std::alloc::{AllocError, Global};
use wb_base::Bytes;
use wb_operations::{
    LONGEST_TEXT, OperationRefusal, TOO_LONG, standard_add, standard_and, standard_concat,
    standard_div, standard_eq, standard_length, standard_less, standard_mul, standard_neg,
    standard_not, standard_or, standard_rem, standard_same, standard_sub, standard_to_int,
    standard_to_text,
};
use wb_values::Value;

const LEAST: i64 = i64::MIN;

const GREATEST: i64 = i64::MAX;

// The expected answer of an operation.
#[derive(Clone, Copy)]
enum Wanted {
    Int(i64),
    Bool(bool),
    Text(&'static str),
    // A text of this number of bytes.
    Long(usize),
    Fault(u32),
}

// Whether an answer is the expected one.
fn is(answer: &Result<Value, OperationRefusal>, wanted: Wanted) -> bool {
    match answer {
        Ok(value) => is_value(value, wanted),
        Err(OperationRefusal::Fault(code)) => {
            matches!(wanted, Wanted::Fault(fault) if fault == *code)
        }
        Err(OperationRefusal::NoMemory(_)) => false,
    }
}

fn is_value(value: &Value, wanted: Wanted) -> bool {
    match value {
        Value::Int(number) => matches!(wanted, Wanted::Int(other) if other == *number),
        Value::Bool(truth) => matches!(wanted, Wanted::Bool(other) if other == *truth),
        Value::Text(text) => is_text(text.as_slice(), wanted),
        Value::Tree(_) => false,
    }
}

fn is_text(text: &[u8], wanted: Wanted) -> bool {
    match wanted {
        Wanted::Text(other) => text == other.as_bytes(),
        Wanted::Long(length) => text.len() == length,
        _ => false,
    }
}

// The operations on two numbers.
#[derive(Clone, Copy)]
enum OfInts {
    Add,
    Sub,
    Mul,
    Div,
    Rem,
    Eq,
    Less,
}

fn of_ints(operation: OfInts, arguments: &[Value]) -> Result<Value, OperationRefusal>
    requires { FitKinds two_ints arguments.now }
{
    match operation {
        OfInts::Add => standard_add(arguments),
        OfInts::Sub => standard_sub(arguments),
        OfInts::Mul => standard_mul(arguments),
        OfInts::Div => standard_div(arguments),
        OfInts::Rem => standard_rem(arguments),
        OfInts::Eq => standard_eq(arguments),
        OfInts::Less => standard_less(arguments),
    }
}

fn ints_give(operation: OfInts, x: i64, y: i64, wanted: Wanted) -> bool {
    is(&of_ints(operation, &[Value::Int(x), Value::Int(y)]), wanted)
}

// Whether the operation of each row gives the expected answer for its two numbers.
fn all_ints_give(rows: &[(OfInts, i64, i64, Wanted)]) -> bool {
    for (operation, x, y, wanted) in rows {
        if !ints_give(*operation, *x, *y, *wanted) {
            return false;
        }
    }
    true
}

static SUMS_AND_PRODUCTS: [(OfInts, i64, i64, Wanted); 16] = [
    (OfInts::Add, 3, -5, Wanted::Int(-2)),
    (OfInts::Add, GREATEST, 0, Wanted::Int(GREATEST)),
    (OfInts::Add, GREATEST, 1, Wanted::Fault(1)),
    (OfInts::Add, LEAST, GREATEST, Wanted::Int(-1)),
    (OfInts::Add, LEAST, -1, Wanted::Fault(1)),
    (OfInts::Sub, 3, 5, Wanted::Int(-2)),
    (OfInts::Sub, LEAST, 0, Wanted::Int(LEAST)),
    (OfInts::Sub, LEAST, 1, Wanted::Fault(1)),
    (OfInts::Sub, -1, LEAST, Wanted::Int(GREATEST)),
    (OfInts::Sub, 0, LEAST, Wanted::Fault(1)),
    (OfInts::Mul, -3, 5, Wanted::Int(-15)),
    (OfInts::Mul, -3, -5, Wanted::Int(15)),
    (OfInts::Mul, LEAST, 1, Wanted::Int(LEAST)),
    (OfInts::Mul, LEAST, -1, Wanted::Fault(1)),
    (OfInts::Mul, GREATEST, -1, Wanted::Int(-GREATEST)),
    (OfInts::Mul, GREATEST, 2, Wanted::Fault(1)),
];

#[test]
fn sums_and_products_stay_inside(rt: HostRuntime) {
    assert!(rt; all_ints_give(&SUMS_AND_PRODUCTS));
}

static QUOTIENTS: [(OfInts, i64, i64, Wanted); 16] = [
    (OfInts::Div, 7, 2, Wanted::Int(3)),
    (OfInts::Div, 7, -2, Wanted::Int(-3)),
    (OfInts::Div, -7, 2, Wanted::Int(-3)),
    (OfInts::Div, -7, -2, Wanted::Int(3)),
    (OfInts::Rem, 7, 2, Wanted::Int(1)),
    (OfInts::Rem, 7, -2, Wanted::Int(1)),
    (OfInts::Rem, -7, 2, Wanted::Int(-1)),
    (OfInts::Rem, -7, -2, Wanted::Int(-1)),
    (OfInts::Div, 1, 0, Wanted::Fault(2)),
    (OfInts::Rem, 1, 0, Wanted::Fault(2)),
    (OfInts::Div, LEAST, -1, Wanted::Fault(1)),
    (OfInts::Rem, LEAST, -1, Wanted::Fault(1)),
    (OfInts::Div, LEAST, 1, Wanted::Int(LEAST)),
    (OfInts::Rem, LEAST, 1, Wanted::Int(0)),
    (OfInts::Div, GREATEST, -1, Wanted::Int(-GREATEST)),
    (OfInts::Rem, LEAST, GREATEST, Wanted::Int(-1)),
];

#[test]
fn quotients_go_toward_zero(rt: HostRuntime) {
    assert!(rt; all_ints_give(&QUOTIENTS));
}

static COMPARED: [(OfInts, i64, i64, Wanted); 6] = [
    (OfInts::Eq, 4, 4, Wanted::Bool(true)),
    (OfInts::Eq, 4, -4, Wanted::Bool(false)),
    (OfInts::Less, 3, 4, Wanted::Bool(true)),
    (OfInts::Less, LEAST, GREATEST, Wanted::Bool(true)),
    (OfInts::Less, 4, 4, Wanted::Bool(false)),
    (OfInts::Less, -1, -2, Wanted::Bool(false)),
];

// The operations on a number.
#[derive(Clone, Copy)]
enum OfInt {
    Neg,
    ToText,
}

fn of_int(alloc: Global, operation: OfInt, arguments: &[Value]) -> Result<Value, OperationRefusal>
    requires { FitKinds one_int arguments.now }
{
    match operation {
        OfInt::Neg => standard_neg(arguments),
        OfInt::ToText => standard_to_text(alloc, arguments),
    }
}

fn int_gives(alloc: Global, operation: OfInt, x: i64, wanted: Wanted) -> bool {
    is(&of_int(alloc, operation, &[Value::Int(x)]), wanted)
}

// Whether the operation of each row gives the expected answer for its number.
fn all_int_give(alloc: Global, rows: &[(OfInt, i64, Wanted)]) -> bool {
    for (operation, x, wanted) in rows {
        if !int_gives(alloc, *operation, *x, *wanted) {
            return false;
        }
    }
    true
}

static NEGATED: [(OfInt, i64, Wanted); 3] = [
    (OfInt::Neg, 3, Wanted::Int(-3)),
    (OfInt::Neg, GREATEST, Wanted::Int(-GREATEST)),
    (OfInt::Neg, LEAST, Wanted::Fault(1)),
];

static PRINTED: [(OfInt, i64, Wanted); 2] = [
    (OfInt::ToText, LEAST, Wanted::Text("-9223372036854775808")),
    (OfInt::ToText, 0, Wanted::Text("0")),
];

#[test]
fn numbers_are_printed(rt: HostRuntime) {
    assert!(rt; all_int_give(rt.alloc(), &PRINTED));
}

// The operations on two truth values.
#[derive(Clone, Copy)]
enum OfBools {
    And,
    Or,
}

fn of_bools(operation: OfBools, arguments: &[Value]) -> Result<Value, OperationRefusal>
    requires { FitKinds two_bools arguments.now }
{
    match operation {
        OfBools::And => standard_and(arguments),
        OfBools::Or => standard_or(arguments),
    }
}

fn bools_give(operation: OfBools, x: bool, y: bool, wanted: bool) -> bool {
    is(
        &of_bools(operation, &[Value::Bool(x), Value::Bool(y)]),
        Wanted::Bool(wanted),
    )
}

// Whether the operation of each row gives the expected answer for its two truth values.
fn all_bools_give(rows: &[(OfBools, bool, bool, bool)]) -> bool {
    for (operation, x, y, wanted) in rows {
        if !bools_give(*operation, *x, *y, *wanted) {
            return false;
        }
    }
    true
}

static JOINED_TRUTHS: [(OfBools, bool, bool, bool); 4] = [
    (OfBools::And, true, true, true),
    (OfBools::And, true, false, false),
    (OfBools::Or, true, false, true),
    (OfBools::Or, false, false, false),
];

fn is_turned(truth: bool) -> bool {
    is(&standard_not(&[Value::Bool(truth)]), Wanted::Bool(!truth))
}

#[test]
fn truth_values_are_computed(rt: HostRuntime) {
    assert!(rt; all_ints_give(&COMPARED) && all_int_give(rt.alloc(), &NEGATED));
    assert!(rt; all_bools_give(&JOINED_TRUTHS) && is_turned(true));
}

// The operations on a text.
#[derive(Clone, Copy)]
enum OfText {
    Length,
    ToInt,
}

fn of_text(operation: OfText, arguments: &[Value]) -> Result<Value, OperationRefusal>
    requires { FitKinds one_text arguments.now }
{
    match operation {
        OfText::Length => standard_length(arguments),
        OfText::ToInt => standard_to_int(arguments),
    }
}

fn text_gives(
    alloc: Global,
    operation: OfText,
    x: &str,
    wanted: Wanted,
) -> Result<bool, AllocError> {
    let x = Bytes::from_slice(alloc, x.as_bytes())?;
    Ok(is(&of_text(operation, &[Value::Text(x)]), wanted))
}

// Whether the operation of each row gives the expected answer for its text.
fn all_text_give(alloc: Global, rows: &[(OfText, &str, Wanted)]) -> Result<bool, AllocError> {
    for (operation, x, wanted) in rows {
        if !text_gives(alloc, *operation, x, *wanted)? {
            return Ok(false);
        }
    }
    Ok(true)
}

static COUNTED: [(OfText, &str, Wanted); 2] = [
    (OfText::Length, "a\0c", Wanted::Int(3)),
    (OfText::Length, "", Wanted::Int(0)),
];

static READ: [(OfText, &str, Wanted); 14] = [
    (OfText::ToInt, "-0", Wanted::Int(0)),
    (OfText::ToInt, "-007", Wanted::Int(-7)),
    (OfText::ToInt, "00", Wanted::Int(0)),
    (OfText::ToInt, "9223372036854775807", Wanted::Int(GREATEST)),
    (OfText::ToInt, "-9223372036854775808", Wanted::Int(LEAST)),
    (OfText::ToInt, "9223372036854775808", Wanted::Fault(3)),
    (OfText::ToInt, "-9223372036854775809", Wanted::Fault(3)),
    (OfText::ToInt, "99999999999999999999999", Wanted::Fault(3)),
    (OfText::ToInt, "", Wanted::Fault(3)),
    (OfText::ToInt, "-", Wanted::Fault(3)),
    (OfText::ToInt, "+1", Wanted::Fault(3)),
    (OfText::ToInt, "1\0", Wanted::Fault(3)),
    (OfText::ToInt, "1 ", Wanted::Fault(3)),
    (OfText::ToInt, "--1", Wanted::Fault(3)),
];

#[test]
fn numbers_are_read(rt: HostRuntime) {
    assert!(rt; holds(all_text_give(rt.alloc(), &READ)));
}

// The operations on two texts.
#[derive(Clone, Copy)]
enum OfTexts {
    Same,
    Concat,
}

fn of_texts(
    alloc: Global,
    operation: OfTexts,
    arguments: &[Value],
) -> Result<Value, OperationRefusal>
    requires { FitKinds two_texts arguments.now }
{
    match operation {
        OfTexts::Same => standard_same(arguments),
        OfTexts::Concat => standard_concat(alloc, arguments),
    }
}

fn texts_give(
    alloc: Global,
    operation: OfTexts,
    x: &[u8],
    y: &[u8],
    wanted: Wanted,
) -> Result<bool, AllocError> {
    let x = Bytes::from_slice(alloc, x)?;
    let y = Bytes::from_slice(alloc, y)?;
    Ok(is(
        &of_texts(alloc, operation, &[Value::Text(x), Value::Text(y)]),
        wanted,
    ))
}

// Whether the operation of each row gives the expected answer for its two texts.
fn all_texts_give(
    alloc: Global,
    rows: &[(OfTexts, &str, &str, Wanted)],
) -> Result<bool, AllocError> {
    for (operation, x, y, wanted) in rows {
        if !texts_give(alloc, *operation, x.as_bytes(), y.as_bytes(), *wanted)? {
            return Ok(false);
        }
    }
    Ok(true)
}

static JOINED: [(OfTexts, &str, &str, Wanted); 4] = [
    (OfTexts::Same, "a\0", "a\0", Wanted::Bool(true)),
    (OfTexts::Same, "a\0", "a", Wanted::Bool(false)),
    (OfTexts::Concat, "ab", "c", Wanted::Text("abc")),
    (
        OfTexts::Concat,
        "twenty-two bytes lie ",
        "inside",
        Wanted::Text("twenty-two bytes lie inside"),
    ),
];

#[test]
fn texts_are_joined_and_counted(rt: HostRuntime) {
    assert!(rt; holds(all_texts_give(rt.alloc(), &JOINED)));
    assert!(rt; holds(all_text_give(rt.alloc(), &COUNTED)));
}

// Whether the longest text is concatenated with an empty one, and refused with a longer one.
fn is_limit_kept(alloc: Global) -> Result<bool, AllocError> {
    let longest = vec![in alloc; b'a'; LONGEST_TEXT]?;
    let alone = Wanted::Long(LONGEST_TEXT);
    Ok(
        texts_give(alloc, OfTexts::Concat, &longest, b"", alone)?
            && texts_give(
                alloc,
                OfTexts::Concat,
                &longest,
                b"b",
                Wanted::Fault(TOO_LONG),
            )?,
    )
}

#[test]
fn a_joined_text_may_be_as_long_as_the_limit(rt: HostRuntime) {
    assert!(rt; holds(is_limit_kept(rt.alloc())));
}
