//! With which starts does each set begin?

ghost use Rattle.std.specs.Prelude.{◌≡◌, ℕ, ◌<◌, ◌≤◌, ◌+◌, ◌^◌, length, IfOk};
ghost use Rattle.wb_termset.specs.Sets.{IsMember};
ghost use Rattle.wb_automata_positions.specs.Transitions.{IsPlaceList};
ghost use Rattle.wb_automata_positions.specs.Inner.Starts.{AreStarts};
ghost use Rattle.wb_automata_positions.specs.Tables.{IsStartsOf};

use crate::rows::{Leaves, Rows};
use std::alloc::{AllocError, Global};
use wb_termset::TermSet;

// The starts of the roots that are in each set, in order. There are this many roots.
pub(crate) fn starts_of(
    alloc: Global,
    n: usize,
    count: usize,
    sets: &[TermSet],
) -> Result<Rows, AllocError>
    requires { n + count < 2 ^ 64 }
    ensures { IfOk result (λ starts. AreStarts n count sets.now starts (length sets.now)) }
{
    let mut room = Leaves::new(alloc);
    all_starts(alloc, n, count, sets, &mut room)
}

// The same, with room for the starts of one set.
fn all_starts(
    alloc: Global,
    n: usize,
    count: usize,
    sets: &[TermSet],
    room: &mut Leaves,
) -> Result<Rows, AllocError>
    requires { n + count < 2 ^ 64 }
    ensures { IfOk result (λ starts. AreStarts n count sets.now starts (length sets.now)) }
{
    let mut starts = Rows::new(alloc);
    for set in sets {
        find_starts(n, count, set, room)?;
        let places = room.copy(alloc)?;
        starts.push(places)?;
    }
    Ok(starts)
}

// Finds the starts of the roots in one set.
fn find_starts(n: usize, count: usize, set: &TermSet, places: &mut Leaves) -> Result<(), AllocError>
    requires { n + count < 2 ^ 64 }
    ensures exact { IfOk result (λ _. IsStartsOf n count set.now places.new) }
    ensures places { IfOk result (λ _. IsPlaceList (n + count) places.new) }
{
    places.clear();
    let mut k = next_start(set, count, 0);
    'starts: while k < count {
        places.push(n + k)?;
        k = next_start(set, count, k + 1);
    }
    Ok(())
}

// The least member of the set from a number on that is below the count, or the count.
fn next_start(set: &TermSet, count: usize, from: usize) -> usize
    requires { from ≤ count }
    ensures from { from ≤ result }
    ensures within { result ≤ count }
    ensures member { result < count → IsMember set.now result }
    ensures none { (m : ℕ) → from ≤ m → m < result → ¬ IsMember set.now m }
{
    let Some(number) = set.next_member(from) else {
        return count;
    };
    if number < count { number } else { count }
}
