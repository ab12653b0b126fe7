//! Which expressions share a text, and which text is the least that they share?
//!
//! All pairs are asked at once, by one walk over pairs of places (`walk`): no automaton is built, whose states may double with each place.

ghost use Rattle.std.specs.Prelude.{◌≡◌, ◌+◌, ◌*◌, ◌^◌, ◌<◌, ◌≤◌, ◌↔◌, ◌∷◌, [], Contains, IfOk, IsTrue, length, map};
ghost use Rattle.wb_automata_positions.specs.Places.{ArePlacesBelow};
ghost use Rattle.wb_automata.specs.Overlaps.{IsOverlap};
ghost use Rattle.wb_automata.specs.Sharing.{ArePairsBelow, AreSharing, IsSharedText};
ghost use Rattle.wb_automata.specs.Inner.Pairs.{AreAllMet};
ghost use Rattle.wb_automata.specs.Inner.Starts.{AreEndFlags, AreStartsBelow, end_pair, seed_of};

use crate::met::Met;
use crate::shared::{Overlap, SharedText};
use crate::walk::{Seeds, all_met, least_common};
use std::alloc::{AllocError, Global};
use wb_automata_positions::{Places, places_of};
use wb_base::push;
use wb_regex::Regex;

/// The least text that the two expressions of one of the pairs share, with such a pair.
///
/// Texts are in the order of their lengths, and those of one length in the order of their bytes. Which of several pairs that share the
/// least text is shown is left open. The time and the memory are about the nodes of all expressions and the pairs of places that a
/// common text leads to, each met once.
pub fn shared_text(
    alloc: Global,
    terminals: &[Regex],
    pairs: &[(usize, usize)],
) -> Result<Option<SharedText>, AllocError>
    requires pairs { ArePairsBelow (length terminals.now) pairs.now }
    ensures { IfOk result (IsSharedText terminals.now pairs.now) }
{
    let machine = places_of(alloc, terminals)?;
    let seeds = seeds_of(alloc, &machine, pairs)?;
    least_common(
        alloc,
        &Seeds {
            places: machine.places.as_slice(),
            pairs: seeds.as_slice(),
        },
    )
}

/// Which of the pairs share a text: a flag for each, in their order.
///
/// It is the walk of `shared_text`, which doesn't stop at the first text.
pub fn sharing(
    alloc: Global,
    terminals: &[Regex],
    pairs: &[(usize, usize)],
) -> Result<Vec<bool>, AllocError>
    requires pairs { ArePairsBelow (length terminals.now) pairs.now }
    ensures { IfOk result (λ flags. AreSharing terminals.now pairs.now flags.items) }
{
    let machine = places_of(alloc, terminals)?;
    let met = met_from(alloc, &machine, pairs)?;
    flags_of(alloc, &machine, &met, pairs)
}

/// The least text that both expressions match, by length and then by bytes, or that there is none.
///
/// It is `shared_text` for one pair.
pub fn overlap(alloc: Global, left: &Regex, right: &Regex) -> Result<Overlap, AllocError>
    ensures { IfOk result (IsOverlap left.now right.now) }
{
    let both = pair_of(alloc, left, right)?;
    let shared = shared_text(alloc, both.as_slice(), &[(0, 1)])?;
    match shared {
        None => Ok(Overlap::Disjoint),
        Some(shared) => Ok(Overlap::Both(shared.text)),
    }
}

fn pair_of(alloc: Global, left: &Regex, right: &Regex) -> Result<Vec<Regex>, AllocError>
    ensures { IfOk result (λ both. both.items ≡ left.now ∷ right.now ∷ []) }
{
    let mut both = Vec::new(alloc);
    push(&mut both, left.copy()?)?;
    push(&mut both, right.copy()?)?;
    Ok(both)
}

// The pairs of the starts of the two expressions of each pair.
fn seeds_of(
    alloc: Global,
    machine: &Places,
    pairs: &[(usize, usize)],
) -> Result<Vec<usize>, AllocError>
    requires starts { AreStartsBelow machine.now }
    requires pairs { ArePairsBelow (length machine.now.starts.items) pairs.now }
    ensures fits { IfOk result (λ seeds. length machine.now.places.items * length machine.now.places.items < 2 ^ 64) }
    ensures seeds { IfOk result (λ seeds. seeds.items ≡ map (seed_of machine.now.starts.items (length machine.now.places.items)) pairs.now) }
{
    let count = machine.places.len();
    // So many pairs don't fit into memory.
    let Some(_) = count.checked_mul(count) else {
        return Err(AllocError);
    };
    let mut seeds = Vec::new(alloc);
    for pair in pairs {
        push(&mut seeds, seed_of(machine, *pair))?;
    }
    Ok(seeds)
}

// The pair of the starts of two expressions.
fn seed_of(machine: &Places, pair: (usize, usize)) -> usize
    requires starts { AreStartsBelow machine.now }
    requires left { pair.0 < length machine.now.starts.items }
    requires right { pair.1 < length machine.now.starts.items }
    requires fits { length machine.now.places.items * length machine.now.places.items < 2 ^ 64 }
    ensures { result ≡ seed_of machine.now.starts.items (length machine.now.places.items) pair }
{
    machine.starts[pair.0] * machine.places.len() + machine.starts[pair.1]
}

// All pairs of places that texts lead to from the starts of the two expressions of each pair.
fn met_from(alloc: Global, machine: &Places, pairs: &[(usize, usize)]) -> Result<Met, AllocError>
    requires below { ArePlacesBelow machine.now.places.items }
    requires starts { AreStartsBelow machine.now }
    requires pairs { ArePairsBelow (length machine.now.starts.items) pairs.now }
    ensures fits { IfOk result (λ met. length machine.now.places.items * length machine.now.places.items < 2 ^ 64) }
    ensures met { IfOk result (AreAllMet machine.now.places.items (map (seed_of machine.now.starts.items (length machine.now.places.items)) pairs.now)) }
{
    let seeds = seeds_of(alloc, machine, pairs)?;
    all_met(
        alloc,
        &Seeds {
            places: machine.places.as_slice(),
            pairs: seeds.as_slice(),
        },
    )
}

// Whether the ends of the two expressions of each pair were met.
fn flags_of(
    alloc: Global,
    machine: &Places,
    met: &Met,
    pairs: &[(usize, usize)],
) -> Result<Vec<bool>, AllocError>
    requires ends { machine.now.first_end + length machine.now.starts.items ≤ length machine.now.places.items }
    requires pairs { ArePairsBelow (length machine.now.starts.items) pairs.now }
    requires fits { length machine.now.places.items * length machine.now.places.items < 2 ^ 64 }
    ensures { IfOk result (λ flags. AreEndFlags machine.now met.now pairs.now flags.items) }
{
    let mut flags = Vec::new(alloc);
    for pair in pairs {
        push(&mut flags, is_met(machine, met, *pair))?;
    }
    Ok(flags)
}

// Whether the ends of the two expressions were met.
fn is_met(machine: &Places, met: &Met, pair: (usize, usize)) -> bool
    requires ends { machine.now.first_end + length machine.now.starts.items ≤ length machine.now.places.items }
    requires left { pair.0 < length machine.now.starts.items }
    requires right { pair.1 < length machine.now.starts.items }
    requires fits { length machine.now.places.items * length machine.now.places.items < 2 ^ 64 }
    ensures { IsTrue result ↔ Contains met.now (end_pair machine.now pair) }
{
    let left = machine.first_end + pair.0;
    let right = machine.first_end + pair.1;
    met.has(left * machine.places.len() + right)
}
