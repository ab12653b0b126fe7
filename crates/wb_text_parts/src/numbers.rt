//! Which number does a text begin with?

ghost use Rattle.std.specs.Prelude.{◌≡◌, ◌+◌, ◌++◌, ◌∷◌, [], ◌<◌, ◌≤◌, ◌^◌, MatchOption, IfOk, IfErr, drop, length};
ghost use Rattle.std.specs.Fmt.{decimal};
ghost use Rattle.wb_text_parts.specs.Parts.{number_then, Begins, IsNoDigit, IsSmall, IsStop, Numbers};
ghost use Rattle.wb_text_parts.specs.Inner.Lengths.{CanFollow, HasNoDigit, IsLongest};

use crate::words::{begins, rest};

/// The number at the beginning, which this byte ends, and what is after that byte; or the text from the first byte on with which no number
/// goes on: a digit after the lone zero, one that makes the number too large, or any other byte.
#[tactic(auto, using(crate::proofs::NumberLemmas::number_none, crate::proofs::NumberLemmas::number_stopped_at))]
pub fn number(text: &[u8], end: u8) -> Result<(usize, &[u8]), &[u8]>
    requires { IsNoDigit end }
    ensures read { IfOk result (λ read. Begins IsSmall (number_then end) text.now read.0 read.1.now) }
    ensures stopped { IfErr result (λ rest. IsStop (Numbers end) text.now rest.now) }
{
    match longest(text) {
        None => Err(text),
        Some((value, at)) => {
            let after = rest(text, at);
            if begins(after, end) {
                return Ok((value, rest(after, 1)));
            }
            Err(after)
        }
    }
}

// The longest number at the beginning, and the place after it.
#[tactic(auto, using(crate::proofs::NumberLemmas::one_digit, crate::proofs::NumberLemmas::longer_number))]
fn longest(text: &[u8]) -> Option<(usize, usize)>
    ensures { MatchOption result (HasNoDigit text.now) (λ found. IsLongest text.now found.0 found.1) }
{
    let mut value = first_digit(text)?;
    let mut at = 1;
    while at < text.len() {
        match with_digit(value, text[at]) {
            None => return Some((value, at)),
            Some(longer) => value = longer,
        }
        at += 1;
    }
    Some((value, at))
}

// What the first byte is worth, if it is a digit.
fn first_digit(text: &[u8]) -> Option<usize>
    ensures { MatchOption result (HasNoDigit text.now) (λ digit. (digit < 10) × (text.now ≡ (48 + digit) ∷ drop 1 text.now)) }
{
    if text.is_empty() {
        return None;
    }
    let first = text[0];
    if !first.is_ascii_digit() {
        return None;
    }
    Some(usize::from(first - b'0'))
}

// The number with this digit after it, where there is one.
#[tactic(auto, using(crate::proofs::NumberLemmas::decimal_longer, crate::proofs::NumberLemmas::too_large))]
fn with_digit(value: usize, byte: u8) -> Option<usize>
    ensures { MatchOption result (¬ CanFollow value byte) (λ longer. (longer < 2 ^ 64) × (decimal longer ≡ decimal value ++ byte ∷ [])) }
{
    if value == 0 {
        return None;
    }
    if !byte.is_ascii_digit() {
        return None;
    }
    let digit = usize::from(byte - b'0');
    if value > (usize::MAX - digit) / 10 {
        return None;
    }
    Some(value * 10 + digit)
}
