//! Pairs of places in groups: those of a group are met by one text, which no earlier one does, so that groups are in the order of their
//! texts.
//!
//! A group is closed before the next one begins: what its pairs go on to without reading is in it, or in an earlier one.

ghost use Rattle.std.specs.Prelude.{◌≡◌, ◌<◌, ◌++◌, ◌∷◌, [], Contains, IfOk, length};
ghost use Rattle.wb_automata.specs.Paths.{path_by, paths_of};
ghost use Rattle.wb_automata.specs.Inner.Pairs.{Adds, Any, ArePairs, AreSmall, Closes, IsGrown, LeadTo, left_of, met_of};

use crate::flat_rows::FlatRows;
use crate::met::Met;
use crate::predecessor::Predecessor;
use crate::steps::{Steps, pair_steps};
use std::alloc::{AllocError, Global};
use wb_automata_positions::{Leaves, Place};
use wb_base::push;

// The pairs that were met, in groups, and from where each group was met. With m places the places p and q are the pair p * m + q.
#[derive(Drop)]
pub(crate) struct Groups {
    pub(crate) alloc: Global,
    pub(crate) met: Met,
    pub(crate) pairs: FlatRows,
    pub(crate) predecessors: Vec<Predecessor>,
}

pub(crate) fn no_groups(alloc: Global) -> Groups
    ensures met { result.met ≡ [] }
    ensures pairs { result.pairs ≡ [] }
    ensures predecessors { result.predecessors.items ≡ [] }
{
    Groups {
        alloc,
        met: Met::new(alloc),
        pairs: FlatRows::new(alloc),
        predecessors: Vec::new(alloc),
    }
}

// Puts a group after the others, which begins with these pairs.
pub(crate) fn add_group(
    places: &[Place],
    mut next: Leaves,
    predecessor: Predecessor,
    groups: &mut Groups,
) -> Result<(), AllocError>
    requires small { AreSmall places.now }
    requires pairs { ArePairs places.now next }
    ensures { IfOk result (λ _. IsGrown places.now (met_of groups.old) groups.old.met next (path_by (paths_of groups.old.predecessors.items) predecessor) (met_of groups.new)) }
{
    close(places, &mut groups.met, &mut next)?;
    groups.pairs.push(next.as_slice())?;
    push(&mut groups.predecessors, predecessor)
}

// Puts all pairs to which these go on without reading after them.
fn close(places: &[Place], met: &mut Met, next: &mut Leaves) -> Result<(), AllocError>
    requires small { AreSmall places.now }
    requires pairs { ArePairs places.now next.old }
    ensures { IfOk result (λ _. Closes places.now met.old next.old met.new next.new (length next.new)) }
{
    let mut i = 0;
    'pairs: while i < next.as_slice().len() {
        let pair = next.as_slice()[i];
        meet_steps(pair_steps(places, pair), met, next)?;
        i += 1;
    }
    Ok(())
}

// Meets the pairs to which a pair goes on.
fn meet_steps(steps: Steps, met: &mut Met, next: &mut Leaves) -> Result<(), AllocError>
    ensures { IfOk result (λ _. Adds (LeadTo steps) met.old next.old met.new next.new) }
{
    match steps {
        Steps::Still => {}
        Steps::One(q) => meet(q, met, next)?,
        Steps::Two(q, r) => {
            meet(q, met, next)?;
            meet(r, met, next)?;
        }
    }
    Ok(())
}

// Meets a pair, and puts it after the others if it is new.
pub(crate) fn meet(pair: usize, met: &mut Met, next: &mut Leaves) -> Result<(), AllocError>
    ensures { IfOk result (λ _. Adds (λ d. d ≡ pair) met.old next.old met.new next.new) }
{
    if met.insert(pair)? {
        next.push(pair)?;
    }
    Ok(())
}
