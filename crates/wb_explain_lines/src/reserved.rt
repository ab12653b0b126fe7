//! Is a word that is refused a reserved one?
//!
//! Where a name is wanted, a reserved word is refused as every other token is, and nothing in the line says why.

ghost use Rattle.std.specs.Prelude.{◌≤◌, ℕ, List, length, IfOk, IfSome};
ghost use Rattle.wb_text_tokens.specs.NextToken.{IsNextIn};
ghost use Rattle.wb_text_tokens.specs.declared.token.Dialect.{Dialect};
ghost use Rattle.wb_explain_lines.specs.Inner.Reserved.{IsReservedAt};

use std::alloc::{AllocError, Global};
use wb_text_predictive::Next;
use wb_text_tokens::{Dialect, Token, Word, next_token};

// Appends that the word at the place is reserved, for a file that can't be read there.
pub(crate) fn push_reserved(
    alloc: Global,
    out: &mut Vec<u8>,
    code: &[u8],
    contents: &[u8],
    at: usize,
) -> Result<(), AllocError> {
    if at > contents.len() {
        return Ok(());
    }
    match dialect_of(code) {
        Some(dialect) => match reserved_at(alloc, contents, at, dialect)? {
            Some(word) => push_word(out, word),
            None => Ok(()),
        },
        None => Ok(()),
    }
}

// What a file is that can't be read, by the code.
fn dialect_of(code: &[u8]) -> Option<Dialect> {
    match code {
        b"S1" => Some(Dialect::FormatOne),
        b"T1" => Some(Dialect::Terms),
        _ => None,
    }
}

// The reserved word that is next at a place.
fn reserved_at(
    alloc: Global,
    contents: &[u8],
    at: usize,
    dialect: Dialect,
) -> Result<Option<Word>, AllocError>
    requires { at ≤ length contents.now }
    ensures { IfOk result (λ found. IfSome found (IsReservedAt dialect contents.now at)) }
{
    let next = next_token(alloc, contents, at, dialect)?;
    let found = word_of(&next);
    drop(next);
    Ok(found)
}

// The reserved word that is next.
#[tactic(auto, using(crate::proofs::ReservedLemmas::reserved_next))]
fn word_of(next: &Next<Token>) -> Option<Word>
    ensures { IfSome result (λ word. (dialect : Dialect) (text : List ℕ) (from : ℕ) → IsNextIn dialect text from next.now → IsReservedAt dialect text from word) }
{
    match next {
        Next::Found(placed) => match &placed.token {
            Token::Word(word) => Some(*word),
            _ => None,
        },
        _ => None,
    }
}

// Appends that a word is reserved.
fn push_word(out: &mut Vec<u8>, word: Word) -> Result<(), AllocError> {
    out.extend_from_slice(b"\nHere is the reserved word '")?;
    out.extend_from_slice(word.text())?;
    out.extend_from_slice(b"', which is never a name or a label.\n")
}
