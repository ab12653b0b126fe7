//! Which operations does every language have?
//!
//! The sixteen by their numbers, with names and kinds. What each computes is in `arithmetic`, `comparison` and `texts`.

ghost use Rattle.std.specs.Prelude.{◌≡◌, ◌<◌, IfOk};
ghost use Rattle.wb_operations.specs.Given.{FitKinds, IsGiven, plains_of};
ghost use Rattle.wb_operations.specs.Standard.{standard, standard_signature, standard_signatures};

use crate::arithmetic::{
    standard_add, standard_div, standard_mul, standard_neg, standard_rem, standard_sub,
};
use crate::comparison::{
    standard_and, standard_eq, standard_less, standard_not, standard_or, standard_same,
};
use crate::texts::{standard_concat, standard_length, standard_to_int, standard_to_text};
use crate::{Meaning, OperationRefusal, OperationSignatures};
use std::alloc::{AllocError, Global};
use wb_base::Kind;
use wb_values::Value;

/// The meaning of the sixteen standard operations, in the order add, sub, mul, div, rem, neg, eq, less, same, not, and, or, concat,
/// length, to_text, to_int.
pub struct Standard;

impl Meaning for Standard {
    ghost use Rattle.wb_operations.specs.Standard.{standard};

    ghost meaning = { standard };
}

static ONE_INT: [Kind; 1] = [Kind::Int];

static TWO_INTS: [Kind; 2] = [Kind::Int, Kind::Int];

static ONE_BOOL: [Kind; 1] = [Kind::Bool];

static TWO_BOOLS: [Kind; 2] = [Kind::Bool, Kind::Bool];

static ONE_TEXT: [Kind; 1] = [Kind::Text];

static TWO_TEXTS: [Kind; 2] = [Kind::Text, Kind::Text];

// The name of the operation of a number.
#[tactic(auto, unfolding(crate::specs::Standard::standard_at, crate::specs::Standard::standard_operations))]
fn name_of(number: usize) -> &'static [u8]
    requires { number < 16 }
    ensures { result.now ≡ (standard_signature number).name }
{
    match number {
        0 => b"add",
        1 => b"sub",
        2 => b"mul",
        3 => b"div",
        4 => b"rem",
        5 => b"neg",
        6 => b"eq",
        7 => b"less",
        8 => b"same",
        9 => b"not",
        10 => b"and",
        11 => b"or",
        12 => b"concat",
        13 => b"length",
        14 => b"to_text",
        15 => b"to_int",
        _ => unreachable!(),
    }
}

// The kinds that the operation of a number takes.
#[tactic(auto, unfolding(crate::specs::Standard::standard_at, crate::specs::Standard::standard_operations))]
fn takes_of(number: usize) -> &'static [Kind]
    requires { number < 16 }
    ensures { result.now ≡ (standard_signature number).takes }
{
    match number {
        0 | 1 | 2 | 3 | 4 | 6 | 7 => &TWO_INTS,
        5 | 14 => &ONE_INT,
        8 | 12 => &TWO_TEXTS,
        9 => &ONE_BOOL,
        10 | 11 => &TWO_BOOLS,
        13 | 15 => &ONE_TEXT,
        _ => unreachable!(),
    }
}

// The kind that the operation of a number gives.
#[tactic(auto, unfolding(crate::specs::Standard::standard_at, crate::specs::Standard::standard_operations))]
fn gives_of(number: usize) -> Kind
    requires { number < 16 }
    ensures { result ≡ (standard_signature number).gives }
{
    match number {
        0 | 1 | 2 | 3 | 4 | 5 | 13 | 15 => Kind::Int,
        6 | 7 | 8 | 9 | 10 | 11 => Kind::Bool,
        12 | 14 => Kind::Text,
        _ => unreachable!(),
    }
}

// The signatures of the sixteen.
pub(crate) fn signatures(alloc: Global) -> Result<OperationSignatures, AllocError>
    ensures { IfOk result (λ made. made ≡ standard_signatures) }
{
    let mut made = OperationSignatures::new(alloc);
    for number in 0..16 {
        made.add(name_of(number), takes_of(number), gives_of(number))?;
    }
    Ok(made)
}

/// What the standard operation of a number answers.
#[tactic(auto, unfolding(crate::specs::Standard::standard_at, crate::specs::Standard::standard_operations))]
pub fn run_standard(
    alloc: Global,
    number: usize,
    arguments: &[Value],
) -> Result<Value, OperationRefusal>
    requires there { number < 16 }
    requires fits { FitKinds (standard_signature number).takes arguments.now }
    ensures { IsGiven (standard number (plains_of arguments.now)) result }
{
    match number {
        0 => standard_add(arguments),
        1 => standard_sub(arguments),
        2 => standard_mul(arguments),
        3 => standard_div(arguments),
        4 => standard_rem(arguments),
        5 => standard_neg(arguments),
        6 => standard_eq(arguments),
        7 => standard_less(arguments),
        8 => standard_same(arguments),
        9 => standard_not(arguments),
        10 => standard_and(arguments),
        11 => standard_or(arguments),
        12 => standard_concat(alloc, arguments),
        13 => standard_length(arguments),
        14 => standard_to_text(alloc, arguments),
        15 => standard_to_int(arguments),
        _ => unreachable!(),
    }
}
