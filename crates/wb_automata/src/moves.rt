//! Moves from state to state, in 32 bits each.

ghost use Rattle.std.specs.Prelude.{◌≡◌, ◌<◌, ◌≤◌, ◌-◌, ◌++◌, ◌∷◌, [], IfOk, OnOk, None, length, map, replicate, slice_index, slice_index_or};
ghost use Rattle.wb_automata.specs.Moves.{move_at};

use std::alloc::{AllocError, Global};
use std::marker::Model;

// States from this one on have no code.
const LIMIT: usize = 4294967295;

// A list of moves: each leads to a state or nowhere. Numbers that don't fit are reported as out of memory.
#[derive(Drop)]
pub(crate) struct Moves {
    codes: Vec<u32>,
}

impl Model for Moves {
    ghost use Rattle.std.specs.Prelude.{List, ℕ, Option, map};
    ghost use Rattle.wb_automata.specs.Moves.{move_at};

    ghost Value = { List (Option ℕ) };

    ghost view = { λ m. map move_at m.codes.items };
}

impl Moves {
    pub(crate) fn new(alloc: Global) -> Moves
        ensures { result ≡ [] }
    {
        Moves {
            codes: Vec::new(alloc),
        }
    }

    // Puts a move after the others.
    pub(crate) fn push(&mut self, to: Option<usize>) -> Result<(), AllocError>
        ensures { IfOk result (λ _. self.new ≡ self.old ++ to ∷ []) }
    {
        let code = code_of(to)?;
        self.codes.push(code)?;
        Ok(())
    }

    // Puts the move that is so many places back after the others once more.
    pub(crate) fn again(&mut self, back: usize) -> Result<(), AllocError>
        requires some { 0 < back }
        requires within { back ≤ length self.old }
        ensures { IfOk result (λ _. self.new ≡ self.old ++ slice_index_or self.old (length self.old - back) None ∷ []) }
    {
        let code = self.codes[self.codes.len() - back];
        self.codes.push(code)?;
        Ok(())
    }

    // Puts the last move after the others so many times more.
    pub(crate) fn repeat(&mut self, times: usize) -> Result<(), AllocError>
        requires { 0 < length self.old }
        ensures { IfOk result (λ _. self.new ≡ self.old ++ replicate times (slice_index_or self.old (length self.old - 1) None)) }
    {
        let code = last_of(&self.codes);
        add_copies(&mut self.codes, code, times)?;
        Ok(())
    }

    // The codes of the moves.
    pub(crate) fn into_codes(self) -> Vec<u32>
        ensures { map move_at result.items ≡ self }
    {
        self.codes
    }
}

fn last_of(codes: &[u32]) -> u32
    requires { 0 < length codes.now }
    ensures { result ≡ slice_index codes.now (length codes.now - 1) }
{
    codes[codes.len() - 1]
}

// Puts a code after the others, so many times.
fn add_copies(codes: &mut Vec<u32>, code: u32, times: usize) -> Result<(), AllocError>
    ensures { OnOk result (codes.new.items ≡ codes.old.items ++ replicate times code) }
{
    match codes.len().checked_add(times) {
        Some(len) => codes.resize(len, code),
        None => Err(AllocError),
    }
}

// The code of a state, or of none.
fn code_of(to: Option<usize>) -> Result<u32, AllocError>
    ensures { IfOk result (λ code. move_at code ≡ to) }
{
    let Some(state) = to else {
        return Ok(0);
    };
    if state >= LIMIT {
        return Err(AllocError);
    }
    Ok(state as u32 + 1)
}

// The state of a code, where there is one.
pub(crate) fn state_from(code: u32) -> Option<usize>
    ensures { result ≡ move_at code }
{
    if code == 0 {
        return None;
    }
    Some((code - 1) as usize)
}
