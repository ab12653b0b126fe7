//! Which of the forms that match one text wins?
//!
//! A prefixed form beats every bare one; of two of one sort the one whose terminal is preferred beats the other.

ghost use Rattle.std.specs.Prelude.{◌≡◌, ◌≢◌, ◌<◌, ◌↔◌, [], ℕ, All, Contains, IfSome, IsNone, IsTrue, Some, length, slice_get};
ghost use Rattle.wb_scan_theory.specs.declared.form.Form.{Form};
ghost use Rattle.wb_scan_theory.specs.Languages.{forms_of};
ghost use Rattle.wb_scan_theory.specs.Winners.{BeatsAt};
ghost use Rattle.wb_scan.specs.Landings.{IsChampion};
ghost use Rattle.wb_scan.specs.Inner.Rankings.{ranked_by};

use crate::preferences::Preferences;
use wb_scan_theory::Form;

// What decides which form beats which.
#[derive(Clone, Copy)]
pub(crate) struct Ranking<'a> {
    pub(crate) forms: &'a [Form],
    pub(crate) layout: &'a [usize],
    pub(crate) preferences: &'a Preferences,
}

// Of these places of forms, that of the form that beats each other one.
#[inline(never)]
pub(crate) fn winner(ranking: &Ranking, places: &[usize]) -> Option<usize>
    requires { All (λ p. p < length (forms_of (ranked_by ranking.now))) places.now }
    ensures some { IfSome result (IsChampion (ranked_by ranking.now) places.now) }
    ensures none { IsNone result → (place : ℕ) → ¬ IsChampion (ranked_by ranking.now) places.now place }
{
    'places: for place in places {
        if beats_others(ranking, *place, places) {
            return Some(*place);
        }
    }
    None
}

// Whether the form at a place beats that at each other one of these.
fn beats_others(ranking: &Ranking, place: usize, places: &[usize]) -> bool
    requires place { place < length (forms_of (ranked_by ranking.now)) }
    requires places { All (λ p. p < length (forms_of (ranked_by ranking.now))) places.now }
    ensures { IsTrue result ↔ ((other : ℕ) → Contains places.now other → other ≢ place → BeatsAt (ranked_by ranking.now) place other) }
{
    'others: for other in places {
        if *other != place && !beats(ranking, place, *other) {
            return false;
        }
    }
    true
}

// Whether the form at the one place beats that at the other.
fn beats(ranking: &Ranking, place: usize, other: usize) -> bool
    requires place { place < length (forms_of (ranked_by ranking.now)) }
    requires other { other < length (forms_of (ranked_by ranking.now)) }
    ensures { IsTrue result ↔ BeatsAt (ranked_by ranking.now) place other }
{
    let one = is_prefixed(ranking, place);
    let two = is_prefixed(ranking, other);
    if one != two {
        return one;
    }
    ranking
        .preferences
        .prefers(terminal_at(ranking, place), terminal_at(ranking, other))
}

// Whether the form at a place has a prefix.
fn is_prefixed(ranking: &Ranking, place: usize) -> bool
    requires { place < length (forms_of (ranked_by ranking.now)) }
    ensures { (form : Form) → slice_get (forms_of (ranked_by ranking.now)) place ≡ Some form → IsTrue result ↔ (form.prefix ≢ []) }
{
    if place < ranking.forms.len() {
        !ranking.forms[place].prefix.as_slice().is_empty()
    } else {
        false
    }
}

// The terminal of the form at a place.
fn terminal_at(ranking: &Ranking, place: usize) -> usize
    requires { place < length (forms_of (ranked_by ranking.now)) }
    ensures { (form : Form) → slice_get (forms_of (ranked_by ranking.now)) place ≡ Some form → result ≡ form.terminal }
{
    if place < ranking.forms.len() {
        ranking.forms[place].terminal
    } else {
        ranking.layout[place - ranking.forms.len()]
    }
}
