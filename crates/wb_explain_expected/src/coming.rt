//! Can this token come after these bytes in a specification?

ghost use Rattle.std.specs.Prelude.{◌≡◌, ◌++◌, ◌∷◌, [], ◌+◌, IfOk, OnOk, MatchBool};
ghost use Rattle.wb_reader.specs.Refusals.{HasCause};
ghost use Rattle.wb_reader.specs.declared.refusal.SpecRefusal.{SpecRefusal};
ghost use Rattle.wb_reader.specs.declared.refusal.SpecRefusal.TheVariants.{Syntax};
ghost use Rattle.wb_explain_expected.specs.Expected.{CannotCome, with_token};
ghost use Rattle.wb_explain_expected.specs.Inner.Places.{IsElsewhere};

use std::alloc::{AllocError, Global};
use wb_reader::{SpecRefusal, read_spec};

/// Whether a token can come after these bytes: some specification begins with their tokens and this one.
///
/// The token is the bytes that spell it. The bytes before are of at most 1,048,576 bytes together with it.
pub fn can_come(alloc: Global, before: &[u8], token: &[u8]) -> Result<bool, AllocError>
    ensures { IfOk result (λ can. MatchBool can (¬ CannotCome before.now token.now) (CannotCome before.now token.now)) }
{
    let text = joined(alloc, before, token)?;
    let at = before.len() + 1;
    let answer = is_passed(alloc, &text, at);
    drop(text);
    answer
}

// The bytes with the token on a line after them.
fn joined(alloc: Global, before: &[u8], token: &[u8]) -> Result<Vec<u8>, AllocError>
    ensures { IfOk result (λ text. text.items ≡ with_token before.now token.now) }
{
    let mut text = Vec::new(alloc);
    match push_joined(&mut text, before, token) {
        Ok(()) => Ok(text),
        Err(error) => {
            drop(text);
            Err(error)
        }
    }
}

// Appends them.
fn push_joined(text: &mut Vec<u8>, before: &[u8], token: &[u8]) -> Result<(), AllocError>
    ensures { OnOk result (text.new.items ≡ ((text.old.items ++ before.now) ++ 10 ∷ []) ++ token.now) }
{
    text.extend_from_slice(before)?;
    text.extend_from_slice(b"\n")?;
    text.extend_from_slice(token)
}

// Whether a text isn't refused at this place as none of the grammar.
fn is_passed(alloc: Global, text: &[u8], at: usize) -> Result<bool, AllocError>
    ensures { IfOk result (λ is. MatchBool is (¬ HasCause text.now (Syntax at)) (HasCause text.now (Syntax at))) }
{
    match read_spec(alloc, text) {
        Ok(spec) => {
            drop(spec);
            Ok(true)
        }
        Err(refusal) => {
            let answer = passes(&refusal, at);
            refusal.release();
            answer
        }
    }
}

// Whether a refusal is for another reason, or at another place.
fn passes(refusal: &SpecRefusal, at: usize) -> Result<bool, AllocError>
    ensures { IfOk result (λ is. MatchBool is (IsElsewhere at refusal.now) (refusal.now ≡ Syntax at)) }
{
    match refusal {
        SpecRefusal::Syntax(place) => Ok(*place != at),
        SpecRefusal::NoMemory(error) => Err(*error),
        SpecRefusal::TooLong => Ok(true),
        SpecRefusal::WrongFormat => Ok(true),
        SpecRefusal::BadRegex(_) => Ok(true),
        SpecRefusal::MatchesEmpty(_) => Ok(true),
    }
}
