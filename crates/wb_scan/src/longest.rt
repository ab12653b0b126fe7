//! How far does the longest match go from a place of a text on?
//!
//! The automaton is followed until no form that is considered can still match, and what is known of the last state that accepts one is
//! kept. How far it was followed tells which bytes the answer rests on. States that aren't listed are followed in `unlisted`.

ghost use Rattle.std.specs.Prelude.{◌≡◌, ◌+◌, ◌<◌, ◌≤◌, ◌^◌, IfSome, Some, length, slice_get};
ghost use Rattle.wb_scan.specs.Inner.Longest.{IsReached};
ghost use Rattle.wb_scan.specs.Inner.Rankings.{AreMarked};

use crate::landing::{Landing, NO_LANDING};
use crate::word::{accepts, ends};
use wb_automata::Automaton;

// The end of a match, and what is known of its state. Where nothing matches, the end is where the search began.
#[derive(Clone, Copy)]
struct Match {
    end: usize,
    landing: Landing,
}

// The same of the longest match, and the place before which the bytes were looked at for it.
#[derive(Clone, Copy)]
pub(crate) struct Reach {
    pub(crate) end: usize,
    pub(crate) landing: Landing,
    pub(crate) examined: usize,
}

// The longest match of the forms that are considered at a state, or None where the search comes to a state that isn't listed.
#[inline(always)]
pub(crate) fn longest(
    automaton: &Automaton,
    landings: &[Landing],
    set: usize,
    text: &[u8],
    at: usize,
) -> Option<Reach>
    requires landings { AreMarked automaton.now landings.now }
    requires set { set < length automaton.now.sets }
    requires at { at ≤ length text.now }
    ensures { IfSome result (IsReached automaton.now landings.now set text.now at) }
{
    let mut state = automaton.start(set);
    let mut place = at;
    let mut found = Match {
        end: at,
        landing: NO_LANDING,
    };
    'bytes: while place < text.len() {
        let Some(next) = automaton.step(state, text[place]) else {
            return Some(reached(found, place));
        };
        let Some(landing) = listed(landings, next) else {
            return None;
        };
        state = next;
        place += 1;
        if accepts(landing.word) {
            found = Match {
                end: place,
                landing,
            };
            if ends(landing.word) {
                return Some(reached(found, place));
            }
        }
    }
    Some(reached(found, place))
}

// What is listed of a state.
#[inline(always)]
fn listed(landings: &[Landing], state: usize) -> Option<Landing>
    ensures { IfSome result (λ landing. slice_get landings.now state ≡ Some landing) }
{
    if state < landings.len() {
        Some(landings[state])
    } else {
        None
    }
}

// A match, where the byte at the place was the last to be looked at, or the text ended there.
#[inline(always)]
fn reached(found: Match, place: usize) -> Reach
    requires { place + 1 < 2 ^ 64 }
    ensures { result ≡ record { end = found.end; landing = found.landing; examined = place + 1 } }
{
    Reach {
        end: found.end,
        landing: found.landing,
        examined: place + 1,
    }
}
