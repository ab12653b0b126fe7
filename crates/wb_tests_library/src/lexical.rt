//! Are clashes and cycles of preferences found?

ghost use Rattle.std.specs.Prelude.{All};
ghost use Rattle.wb_graph.specs.Graphs.{IsEdgeBelow};

use crate::automata::{expressions, sets_of};
use crate::holds;
use std::alloc::{AllocError, Global};
use wb_lexical::{Clash, find_clash, preference_cycle, prefers};
use wb_regex::{Regex, RegexRefusal};

// The cycles through three terminals.
static ROUNDS: [[usize; 3]; 3] = [[0, 1, 2], [1, 2, 0], [2, 0, 1]];

fn is_round(cycle: &[usize]) -> bool {
    cycle == ROUNDS[0].as_slice() || cycle == ROUNDS[1].as_slice() || cycle == ROUNDS[2].as_slice()
}

// Whether a cycle of preferences among three terminals is shown or not. One that is shown goes through all three.
fn is_cycle(alloc: Global, preferences: &[(usize, usize)], shown: bool) -> Result<bool, AllocError>
    requires { All (IsEdgeBelow 3) preferences.now }
{
    match preference_cycle(alloc, 3, preferences)? {
        Some(cycle) => Ok(shown && is_round(cycle.as_slice())),
        None => Ok(!shown),
    }
}

#[test]
fn preferences_in_a_round_are_a_cycle(rt: HostRuntime) {
    assert!(rt; holds(is_cycle(rt.alloc(), &[(0, 1), (1, 2), (2, 0)], true)));
    assert!(rt; holds(is_cycle(rt.alloc(), &[(0, 1), (1, 2)], false)));
}

// Whether a clash is that of names and keywords in the second set, with the least text that they share.
fn is_of_keywords(clash: &Clash) -> bool {
    clash.set == 1
        && clash.left == 0
        && clash.right == 2
        && clash.text.as_slice() == b"if".as_slice()
}

static NAMES_AND_KEYWORDS: [&[usize]; 2] = [&[0, 1], &[0, 1, 2]];

// Whether that clash is shown or none, where one set has names and numbers, and the other all three.
fn is_found(
    alloc: Global,
    terminals: &[Regex],
    preferences: &[(usize, usize)],
    shown: bool,
) -> Result<bool, AllocError> {
    let sets = sets_of(alloc, 3, &NAMES_AND_KEYWORDS)?;
    match find_clash(alloc, terminals, &sets, preferences)? {
        Some(clash) => Ok(shown && is_of_keywords(&clash)),
        None => Ok(!shown),
    }
}

static PREFERENCES: [(&[(usize, usize)], bool); 3] = [
    (&[], true),
    (&[(2, 1), (1, 0)], true),
    (&[(2, 0)], false),
];

// Whether it is shown under exactly the preferences that leave it.
fn are_found(alloc: Global, terminals: &[Regex]) -> Result<bool, AllocError> {
    for (preferences, shown) in &PREFERENCES {
        if !is_found(alloc, terminals, preferences, *shown)? {
            return Ok(false);
        }
    }
    Ok(true)
}

fn are_clashes(alloc: Global) -> Result<bool, RegexRefusal> {
    let terminals = expressions(alloc, "[a-z]+\n[0-9]+\nif|of")?;
    Ok(are_found(alloc, &terminals)?)
}

#[test]
fn a_keyword_clashes_with_a_name_until_it_is_preferred(rt: HostRuntime) {
    assert!(rt; holds(are_clashes(rt.alloc())));
    assert!(rt; prefers(&[(2, 0)], 2, 0) && !prefers(&[(2, 0)], 0, 2));
}
