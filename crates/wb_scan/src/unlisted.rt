//! How far does the longest match go, and what wins there, where states aren't listed or what wins isn't kept?
//!
//! Memory ran out when the language was made, or a number was too large for a word. The answer is the same, and takes longer.

ghost use Rattle.std.specs.Prelude.{◌≡◌, ◌+◌, ◌<◌, ◌≤◌, ◌^◌, length};
ghost use Rattle.wb_scan.specs.Inner.Longest.{IsLongest, IsSeenTo};
ghost use Rattle.wb_scan.specs.Inner.Rankings.{AreRanked, IsWonAt, ranked_by};

use crate::winner::Ranking;
use crate::won::{Won, won_of};
use wb_automata::Automaton;

// The state and the end of a match. Where nothing matches, the end is where the search began.
#[derive(Clone, Copy)]
struct Match {
    state: usize,
    end: usize,
}

// The same of the longest match, and the place before which the bytes were looked at for it.
#[derive(Clone, Copy)]
pub(crate) struct Last {
    pub(crate) state: usize,
    pub(crate) end: usize,
    pub(crate) examined: usize,
}

// The longest match of the forms that are considered at a state.
pub(crate) fn last_match(automaton: &Automaton, set: usize, text: &[u8], at: usize) -> Last
    requires set { set < length automaton.now.sets }
    requires at { at ≤ length text.now }
    ensures longest { IsLongest automaton.now set text.now at (length text.now) result.state result.end }
    ensures state { result.state < length automaton.now.paths }
    ensures examined { IsSeenTo automaton.now set text.now at result.examined }
{
    let mut state = automaton.start(set);
    let mut place = at;
    let mut found = Match { state, end: at };
    'bytes: while place < text.len() {
        let Some(next) = automaton.step(state, text[place]) else {
            return ended(found, place);
        };
        state = next;
        place += 1;
        if !automaton.accepted(state).is_empty() {
            found = Match { state, end: place };
        }
    }
    ended(found, place)
}

// A match, where the byte at the place was the last to be looked at, or the text ended there.
fn ended(found: Match, place: usize) -> Last
    requires { place + 1 < 2 ^ 64 }
    ensures { result ≡ record { state = found.state; end = found.end; examined = place + 1 } }
{
    Last {
        state: found.state,
        end: found.end,
        examined: place + 1,
    }
}

// What wins at a state of the automaton.
pub(crate) fn won_at(automaton: &Automaton, ranking: &Ranking, state: usize) -> Won
    requires ranked { AreRanked ranking.now automaton.now }
    requires state { state < length automaton.now.paths }
    ensures { IsWonAt (ranked_by ranking.now) automaton.now state result }
{
    won_of(ranking, automaton.accepted(state))
}
