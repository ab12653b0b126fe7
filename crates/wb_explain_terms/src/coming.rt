//! Can this token come after these bytes in a term?

ghost use Rattle.std.specs.Prelude.{◌≡◌, ◌++◌, ◌∷◌, [], ◌+◌, IfOk, OnOk, MatchBool};
ghost use Rattle.wb_terms.specs.TermText.{IsFirstFault};
ghost use Rattle.wb_terms.specs.declared.refusal.TermRefusal.TheVariants.{Bad};
ghost use Rattle.wb_explain_terms.specs.Expected.{CannotCome, with_token};
ghost use Rattle.wb_explain_terms.specs.Inner.Places.{IsElsewhere};

use std::alloc::{AllocError, Global};
use wb_terms::{TermRefusal, read_term};
use wb_values::{Signatures, TreeStore};

/// Whether a token can come after these bytes: some term begins with their tokens and this one.
///
/// The token is the bytes that spell it. What the names of the term stand for isn't asked.
pub fn can_come(alloc: Global, before: &[u8], token: &[u8]) -> Result<bool, AllocError>
    ensures { IfOk result (λ can. MatchBool can (¬ CannotCome before.now token.now) (CannotCome before.now token.now)) }
{
    let text = joined(alloc, before, token)?;
    let at = before.len() + 1;
    let answer = is_passed(alloc, &text, at);
    drop(text);
    answer
}

// The bytes with the token on a line after them.
fn joined(alloc: Global, before: &[u8], token: &[u8]) -> Result<Vec<u8>, AllocError>
    ensures { IfOk result (λ text. text.items ≡ with_token before.now token.now) }
{
    let mut text = Vec::new(alloc);
    match push_joined(&mut text, before, token) {
        Ok(()) => Ok(text),
        Err(error) => {
            drop(text);
            Err(error)
        }
    }
}

// Appends them.
fn push_joined(text: &mut Vec<u8>, before: &[u8], token: &[u8]) -> Result<(), AllocError>
    ensures { OnOk result (text.new.items ≡ ((text.old.items ++ before.now) ++ 10 ∷ []) ++ token.now) }
{
    text.extend_from_slice(before)?;
    text.extend_from_slice(b"\n")?;
    text.extend_from_slice(token)
}

// Whether a text isn't refused at this place as none of the grammar.
fn is_passed(alloc: Global, text: &[u8], at: usize) -> Result<bool, AllocError>
    ensures { IfOk result (λ is. MatchBool is (¬ IsFirstFault text.now at) (IsFirstFault text.now at)) }
{
    let signatures = Signatures::new(alloc);
    let mut store = TreeStore::new(alloc);
    let answer = is_passed_by(alloc, text, at, &signatures, &mut store);
    drop(store);
    drop(signatures);
    answer
}

// The same, with signatures and a store.
fn is_passed_by(
    alloc: Global,
    text: &[u8],
    at: usize,
    signatures: &Signatures,
    store: &mut TreeStore,
) -> Result<bool, AllocError>
    ensures { IfOk result (λ is. MatchBool is (¬ IsFirstFault text.now at) (IsFirstFault text.now at)) }
{
    match read_term(alloc, text, signatures, store) {
        Ok(_) => Ok(true),
        Err(refusal) => passes(&refusal, at),
    }
}

// Whether a refusal is for another reason, or at another place.
fn passes(refusal: &TermRefusal, at: usize) -> Result<bool, AllocError>
    ensures { IfOk result (λ is. MatchBool is (IsElsewhere at refusal.now) (refusal.now ≡ Bad at)) }
{
    match refusal {
        TermRefusal::Bad(place) => Ok(*place != at),
        TermRefusal::Unknown(_) => Ok(true),
        TermRefusal::WrongChild(_) => Ok(true),
        TermRefusal::NoMemory(error) => Err(*error),
    }
}
