//! Where will a leaf lead? To the state to which the last one led that was scanned at the same state and had the same terminal.
//!
//! A reading compares the guess with what its reductions lead to, and goes on at the guess where they agree. So the processor, which foresees
//! how a comparison ends, scans the next leaf before it has looked up these reductions. A wrong guess costs time and nothing else.

ghost use Rattle.std.specs.Prelude.{◌≡◌};

use std::alloc::Global;

// How many places there are for guesses.
const PLACES: usize = 4_096;

// States from here on aren't kept.
const LIMIT: usize = 4_294_967_296;

// Guesses of the state 0 everywhere, or none where there is no memory.
pub(crate) fn guesses_of(alloc: Global) -> Vec<u32> {
    match vec![in alloc; 0; PLACES] {
        Ok(guesses) => guesses,
        Err(_) => Vec::new(alloc),
    }
}

// The place for what is scanned at a state.
#[inline]
pub(crate) fn place_of(state: usize, terminal: usize) -> usize {
    state.wrapping_mul(31).wrapping_add(terminal) % PLACES
}

// The guess at a place.
#[inline]
pub(crate) fn guess_at(guesses: &[u32], place: usize) -> usize {
    if place < guesses.len() {
        return guesses[place] as usize;
    }
    0
}

// The state to which a leaf led, as the guess where that was right. Where it wasn't, the state is the next guess.
#[inline(always)]
pub(crate) fn confirmed(guesses: &mut [u32], place: usize, guess: usize, target: usize) -> usize
    ensures { result ≡ target }
{
    if guess == target {
        return guess;
    }
    corrected(guesses, place, target)
}

// The same where the guess was wrong. Out of line, since a compiler that sees that the answer is the target either way hands on the target,
// and then the next leaf waits for the reductions.
#[inline(never)]
fn corrected(guesses: &mut [u32], place: usize, target: usize) -> usize
    ensures { result ≡ target }
{
    if place < guesses.len() && target < LIMIT {
        guesses[place] = target as u32;
    }
    target
}
