//! Which of some places is the least?
//!
//! Faults are found in the order in which nodes end, and reported in the order of their places.

ghost use Rattle.std.specs.Prelude.{◌≡◌};
ghost use Rattle.wb_terms.specs.Inner.Smallest.{smallest_with, smaller_of};

// The smaller of the place so far and this one, where this one counts.
pub(crate) fn smallest_with(least: Option<usize>, counts: bool, place: usize) -> Option<usize>
    ensures { result ≡ smallest_with counts place least }
{
    if !counts {
        return least;
    }
    match least {
        None => Some(place),
        Some(other) => Some(other.min(place)),
    }
}

// The smaller of two places, where they are there.
pub(crate) fn smaller_of(least: Option<usize>, other: Option<usize>) -> Option<usize>
    ensures { result ≡ smaller_of other least }
{
    match other {
        None => least,
        Some(place) => smallest_with(least, true, place),
    }
}
