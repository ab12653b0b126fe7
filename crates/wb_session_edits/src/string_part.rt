//! Which byte does the beginning of a text stand for in a string?

ghost use Rattle.std.specs.Prelude.{◌≡◌, ◌≢◌, ◌<◌, ◌∷◌, [], ℕ, List, Some, IfOk, IfErr};
ghost use Rattle.wb_base.specs.Decimal.{hex_value};
ghost use Rattle.wb_text_parts.specs.Parts.{IsStop};
ghost use Rattle.wb_text_tokens.specs.Spelling.{escaped_byte};
ghost use Rattle.wb_session_edits.specs.Inner.Strings.{BeginsPart, Tails, TailsAfter};

use wb_base::decimal::hex_value;
use wb_text_parts::first;

// The byte that the first bytes stand for and what is after them, or the text from the first byte on with which no string goes on.
#[tactic(auto, using(crate::proofs::PartLemmas::part_none, crate::proofs::PartLemmas::part_line_end, crate::proofs::PartLemmas::part_escape_read, crate::proofs::PartLemmas::part_escape_stopped, crate::proofs::PartLemmas::part_plain))]
pub(crate) fn string_part(text: &[u8]) -> Result<(u8, &[u8]), &[u8]>
    requires { (after : List ℕ) → text.now ≢ 34 ∷ after }
    ensures read { IfOk result (λ read. BeginsPart [] text.now read.0 read.1.now) }
    ensures stopped { IfErr result (λ rest. IsStop Tails text.now rest.now) }
{
    match first(text) {
        None => Err(text),
        Some((byte, after)) => {
            if byte == b'\\' {
                return match escape(after) {
                    Ok((stands, next)) => Ok((stands, next)),
                    Err(stop) => Err(stop),
                };
            }
            if byte == b'\n' {
                return Err(text);
            }
            Ok((byte, after))
        }
    }
}

// Likewise after a backslash.
#[tactic(auto, using(crate::proofs::PartLemmas::escape_none, crate::proofs::PartLemmas::escape_unknown, crate::proofs::PartLemmas::escape_known, crate::proofs::PartLemmas::hexadecimal_read, crate::proofs::PartLemmas::hexadecimal_stopped))]
fn escape(text: &[u8]) -> Result<(u8, &[u8]), &[u8]>
    ensures read { IfOk result (λ read. BeginsPart (92 ∷ []) text.now read.0 read.1.now) }
    ensures stopped { IfErr result (λ rest. IsStop (TailsAfter (92 ∷ [])) text.now rest.now) }
{
    match first(text) {
        None => Err(text),
        Some((byte, after)) => {
            if byte == b'x' {
                return match hexadecimal(after) {
                    Ok((stands, next)) => Ok((stands, next)),
                    Err(stop) => Err(stop),
                };
            }
            match escaped_byte(byte) {
                Some(stands) => Ok((stands, after)),
                None => Err(text),
            }
        }
    }
}

// The byte that a byte after a backslash stands for.
fn escaped_byte(byte: u8) -> Option<u8>
    ensures { result ≡ escaped_byte byte }
{
    match byte {
        b'"' => Some(b'"'),
        b'\\' => Some(b'\\'),
        b'n' => Some(b'\n'),
        b't' => Some(b'\t'),
        b'r' => Some(b'\r'),
        _ => None,
    }
}

// Likewise after `\x`.
#[tactic(auto, using(crate::proofs::PartLemmas::high_none, crate::proofs::PartLemmas::high_unknown, crate::proofs::PartLemmas::low_read, crate::proofs::PartLemmas::low_stopped))]
fn hexadecimal(text: &[u8]) -> Result<(u8, &[u8]), &[u8]>
    ensures read { IfOk result (λ read. BeginsPart (92 ∷ 120 ∷ []) text.now read.0 read.1.now) }
    ensures stopped { IfErr result (λ rest. IsStop (TailsAfter (92 ∷ 120 ∷ [])) text.now rest.now) }
{
    match first(text) {
        None => Err(text),
        Some((digit, after)) => match hex_value(digit) {
            Some(high) => match second_digit(after, digit, high) {
                Ok((stands, next)) => Ok((stands, next)),
                Err(stop) => Err(stop),
            },
            None => Err(text),
        },
    }
}

// Likewise after `\x` and this digit.
#[tactic(auto, using(crate::proofs::PartLemmas::second_none, crate::proofs::PartLemmas::second_unknown, crate::proofs::PartLemmas::second_known))]
fn second_digit(text: &[u8], first_digit: u8, high: u8) -> Result<(u8, &[u8]), &[u8]>
    requires value { hex_value first_digit ≡ Some high }
    requires small { high < 16 }
    ensures read { IfOk result (λ read. BeginsPart (92 ∷ 120 ∷ first_digit ∷ []) text.now read.0 read.1.now) }
    ensures stopped { IfErr result (λ rest. IsStop (TailsAfter (92 ∷ 120 ∷ first_digit ∷ [])) text.now rest.now) }
{
    match first(text) {
        None => Err(text),
        Some((digit, after)) => match hex_value(digit) {
            Some(low) => Ok((16 * high + low, after)),
            None => Err(text),
        },
    }
}
