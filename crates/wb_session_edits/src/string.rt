//! Which string does a text begin with?

ghost use Rattle.std.specs.Prelude.{◌≡◌, ◌≢◌, ◌<◌, ◌∷◌, [], ℕ, List, IfOk, IfErr, OnOk, length};
ghost use Rattle.wb_session_edits.specs.Inner.Strings.{BeginsString, HasDecoded, Strings, Tails};
ghost use Rattle.wb_session_edits.specs.Inner.Progress.{HaltsIn};

use crate::line::Halt;
use crate::string_part::string_part;
use wb_base::push;
use wb_text_parts::{begins, rest, word};

// Decodes the string at the beginning, and answers what is after it.
#[tactic(auto, using(crate::proofs::BodyLemmas::quote_stopped))]
pub(crate) fn string<'t>(text: &'t [u8], decoded: &mut Vec<u8>) -> Result<&'t [u8], Halt<'t>>
    ensures read { OnOk result (IfOk result (λ after. BeginsString text.now decoded.new.items after.now)) }
    ensures halted { IfErr result (HaltsIn Strings text.now) }
{
    decoded.clear();
    match word(text, b"\"") {
        Ok(tail) => match string_tail(tail, decoded) {
            Ok(after) => Ok(after),
            Err(halt) => Err(halt),
        },
        Err(stop) => Err(Halt::At(stop)),
    }
}

// The same after the opening quote.
fn string_tail<'t>(text: &'t [u8], decoded: &mut Vec<u8>) -> Result<&'t [u8], Halt<'t>>
    requires { decoded.old.items ≡ [] }
    ensures read { OnOk result (IfOk result (λ after. HasDecoded text.now (34 ∷ after.now) decoded.new.items)) }
    ensures halted { IfErr result (HaltsIn Tails text.now) }
{
    let mut left = text;
    'parts: while !begins(left, b'"') {
        match decode_part(left, decoded) {
            Ok(after) => left = after,
            Err(halt) => return Err(halt),
        }
    }
    Ok(rest(left, 1))
}

// Decodes the part at the beginning.
fn decode_part<'t>(text: &'t [u8], decoded: &mut Vec<u8>) -> Result<&'t [u8], Halt<'t>>
    requires { (after : List ℕ) → text.now ≢ 34 ∷ after }
    ensures shorter { IfOk result (λ after. length after.now < length text.now) }
    ensures read { OnOk result ((whole : List ℕ) → HasDecoded whole text.now decoded.old.items → IfOk result (λ after. HasDecoded whole after.now decoded.new.items)) }
    ensures halted { IfErr result (λ halt. (whole : List ℕ) → HasDecoded whole text.now decoded.old.items → HaltsIn Tails whole halt) }
{
    match string_part(text) {
        Ok((byte, after)) => match push(decoded, byte) {
            Ok(()) => Ok(after),
            Err(error) => Err(Halt::NoMemory(error)),
        },
        Err(stop) => Err(Halt::At(stop)),
    }
}
