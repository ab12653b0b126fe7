//! What is known of each state of the automaton before a text is scanned?
//!
//! Whether a form is accepted there, whether no match goes on, and what wins: so a scan reads one word for each byte, and compares no
//! forms.

ghost use Rattle.std.specs.Prelude.{◌≡◌, ◌<◌, ◌∷◌, ◌++◌, [], ℕ, List, false, length, true};
ghost use Rattle.wb_automata.specs.Automata.{GoesOn, LeadsTo};
ghost use Rattle.wb_scan.specs.Landings.{AreLandings, IsLanding};
ghost use Rattle.wb_scan.specs.Inner.Rankings.{AreRanked, ranked_by};

use crate::winner::Ranking;
use crate::won::won_of;
use crate::word::word_of;
use std::alloc::Global;
use wb_automata::Automaton;
use wb_base::push;

// What is known of a state, as a word.
#[derive(Clone, Copy)]
pub(crate) struct Landing {
    pub(crate) word: u64,
}

// Nothing is accepted, and nothing wins.
pub(crate) const NO_LANDING: Landing = Landing { word: 0 };

// What is known of each state, and where memory runs out, of the first ones.
pub(crate) fn landings_of(alloc: Global, automaton: &Automaton, ranking: &Ranking) -> Vec<Landing>
    requires { AreRanked ranking.now automaton.now }
    ensures { AreLandings (ranked_by ranking.now) automaton.now result.items }
{
    let mut landings = Vec::new(alloc);
    'states: for state in 0..automaton.states() {
        match push(&mut landings, landing_of(automaton, ranking, state)) {
            Ok(()) => {}
            Err(_) => return landings,
        }
    }
    landings
}

// What is known of a state.
fn landing_of(automaton: &Automaton, ranking: &Ranking, state: usize) -> Landing
    requires ranked { AreRanked ranking.now automaton.now }
    requires state { state < length automaton.now.paths }
    ensures { IsLanding (ranked_by ranking.now) automaton.now state result }
{
    let ends = ends_at(automaton, state);
    let places = automaton.accepted(state);
    let accepts = !places.is_empty();
    let won = won_of(ranking, places);
    Landing {
        word: word_of(accepts, ends, Some(won)),
    }
}

// Whether a state accepts and no match goes on from it.
fn ends_at(automaton: &Automaton, state: usize) -> bool
    requires { state < length automaton.now.paths }
    ensures { result ≡ true → (set byte : ℕ) (text : List ℕ) → LeadsTo automaton.now set text state → ¬ GoesOn automaton.now set (text ++ byte ∷ []) }
{
    if automaton.accepted(state).is_empty() {
        return false;
    }
    !goes_on(automaton, state)
}

// Whether a match may go on from a state.
fn goes_on(automaton: &Automaton, state: usize) -> bool
    requires { state < length automaton.now.paths }
    ensures { result ≡ false → (set byte : ℕ) (text : List ℕ) → LeadsTo automaton.now set text state → ¬ GoesOn automaton.now set (text ++ byte ∷ []) }
{
    'bytes: for byte in 0..256_usize {
        if automaton.step(state, byte as u8).is_some() {
            return true;
        }
    }
    false
}
