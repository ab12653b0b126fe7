//! Where does a pair of places go on without reading?
//!
//! The left place goes first, and the right one only where the left one waits for a byte or an end: so pairs of one closure aren't all met
//! with all of the other.

ghost use Rattle.std.specs.Prelude.{◌≡◌, ℕ, ◌-◌, ◌*◌, ◌/◌, ◌%◌, ◌^◌, ◌<◌, length};
ghost use Rattle.wb_automata.specs.Inner.Pairs.{AreSmall, AreStepsBelow, LeadTo, both_steps, left_of, pair_steps, right_steps, step_to, steps_of, steps_to, unstuck};

use crate::stuck::is_stuck;
use wb_automata_positions::Place;

// The one or two numbers to which something goes on.
#[derive(Clone, Copy)]
pub(crate) enum Steps {
    Still,
    One(usize),
    Two(usize, usize),
}

// The pairs to which a pair goes on.
pub(crate) fn pair_steps(places: &[Place], pair: usize) -> Steps
    requires small { AreSmall places.now }
    requires pair { left_of places.now pair < length places.now }
    ensures { result ≡ pair_steps places.now pair }
{
    let count = places.len();
    let left = pair / count;
    let right = pair % count;
    let steps = both_steps(count, pair, steps_of(places[left]), steps_of(places[right]));
    unstuck(places, steps)
}

// The steps to pairs that aren't stuck.
fn unstuck(places: &[Place], steps: Steps) -> Steps
    requires { (d : ℕ) → LeadTo steps d → left_of places.now d < length places.now }
    ensures { result ≡ unstuck places.now steps }
{
    match steps {
        Steps::Still => Steps::Still,
        Steps::One(q) => step_to(is_stuck(places, q), q),
        Steps::Two(q, r) => steps_to(is_stuck(places, q), is_stuck(places, r), q, r),
    }
}

fn step_to(stuck: bool, q: usize) -> Steps
    ensures { result ≡ step_to stuck q }
{
    if stuck { Steps::Still } else { Steps::One(q) }
}

fn steps_to(stuck: bool, other: bool, q: usize, r: usize) -> Steps
    ensures { result ≡ steps_to stuck other q r }
{
    if stuck {
        return step_to(other, r);
    }
    if other {
        return Steps::One(q);
    }
    Steps::Two(q, r)
}

// The pairs to which the places of a pair go on, by where each does.
fn both_steps(count: usize, pair: usize, lefts: Steps, rights: Steps) -> Steps
    requires count { count * count < 2 ^ 64 }
    requires pair { pair < count * count }
    requires lefts { AreStepsBelow count lefts }
    requires rights { AreStepsBelow count rights }
    ensures { result ≡ both_steps count (pair / count) (pair % count) lefts rights }
{
    let right = pair % count;
    match lefts {
        Steps::Still => right_steps(pair / count * count, rights),
        Steps::One(q) => Steps::One(q * count + right),
        Steps::Two(q, r) => Steps::Two(q * count + right, r * count + right),
    }
}

fn right_steps(first: usize, rights: Steps) -> Steps
    requires { AreStepsBelow (2 ^ 64 - first) rights }
    ensures { result ≡ right_steps first rights }
{
    match rights {
        Steps::Still => Steps::Still,
        Steps::One(q) => Steps::One(first + q),
        Steps::Two(q, r) => Steps::Two(first + q, first + r),
    }
}

// Where a place goes on without reading.
fn steps_of(place: Place) -> Steps
    ensures { result ≡ steps_of place }
{
    match place {
        Place::Read(_, _) => Steps::Still,
        Place::Go(q) => Steps::One(q),
        Place::Fork(q, r) => Steps::Two(q, r),
        Place::End(_) => Steps::Still,
    }
}
