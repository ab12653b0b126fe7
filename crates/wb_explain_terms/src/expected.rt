//! How is what can come listed?
//!
//! In a sentence of one line, each sort of token once.

use crate::candidate::{CANDIDATES, Candidate};
use crate::coming::can_come;
use std::alloc::{AllocError, Global};
use wb_base::push;

// The most bytes before a place at which tokens are tried, since each try reads them all.
const MOST: usize = 32_768;

/// Appends what can come at a place of a term that can't be read there, counted in bytes from 0. Nothing is appended where more than 32,768
/// bytes are before it, since the time is that of reading them nine times.
pub fn push_term(
    alloc: Global,
    out: &mut Vec<u8>,
    contents: &[u8],
    at: usize,
) -> Result<(), AllocError> {
    if at > contents.len() || at > MOST {
        return Ok(());
    }
    push_expected(alloc, out, &contents[..at])
}

// Appends what can come after these bytes.
fn push_expected(alloc: Global, out: &mut Vec<u8>, before: &[u8]) -> Result<(), AllocError> {
    let coming = select(alloc, before, &CANDIDATES)?;
    let answer = push_said(out, &coming);
    drop(coming);
    answer
}

// Those of the sorts that can come.
fn select(
    alloc: Global,
    before: &[u8],
    candidates: &[Candidate],
) -> Result<Vec<Candidate>, AllocError> {
    let mut coming = Vec::new(alloc);
    match push_selected(alloc, before, candidates, &mut coming) {
        Ok(()) => Ok(coming),
        Err(error) => {
            drop(coming);
            Err(error)
        }
    }
}

// The same, after those that are there.
fn push_selected(
    alloc: Global,
    before: &[u8],
    candidates: &[Candidate],
    coming: &mut Vec<Candidate>,
) -> Result<(), AllocError> {
    'candidates: for &candidate in candidates {
        if can_come(alloc, before, candidate.spelled())? {
            push(coming, candidate)?;
        }
    }
    Ok(())
}

// Appends the sentence that lists sorts of tokens.
fn push_said(out: &mut Vec<u8>, coming: &[Candidate]) -> Result<(), AllocError> {
    match coming {
        [] => out.extend_from_slice(b"\nNothing can come there: the term ends before it.\n"),
        [first, rest @ ..] => push_some(out, *first, rest),
    }
}

// Appends the sentence that lists these.
fn push_some(out: &mut Vec<u8>, first: Candidate, rest: &[Candidate]) -> Result<(), AllocError> {
    out.extend_from_slice(b"\nWhat can come there: ")?;
    out.extend_from_slice(first.shown_as())?;
    push_further(out, rest)?;
    out.extend_from_slice(b".\n")
}

// Appends further ones, each after a comma.
fn push_further(out: &mut Vec<u8>, coming: &[Candidate]) -> Result<(), AllocError> {
    'coming: for &candidate in coming {
        push_next(out, candidate)?;
    }
    Ok(())
}

// Appends one after a comma.
fn push_next(out: &mut Vec<u8>, candidate: Candidate) -> Result<(), AllocError> {
    out.extend_from_slice(b", ")?;
    out.extend_from_slice(candidate.shown_as())
}
