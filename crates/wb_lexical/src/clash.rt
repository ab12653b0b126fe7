//! Do preferences decide every choice between terminals that match the same text?
//!
//! A scanner is right only on sets without a clash, so certification asks `find_clash` for all valid sets at once, and a
//! scan tests nothing. Which pairs have to be compared is in `candidates`, and cycles of preferences are in `cycle`.

ghost use Rattle.std.specs.Prelude.{◌↔◌, ◌<◌, ◌≡◌, ℕ, List, Contains, IfOk, IfSome, IsNone, IsTrue, length};
ghost use Rattle.wb_automata.specs.Automata.{IsConsidered, IsMatch, MatchesIn};
ghost use Rattle.wb_automata.specs.Order.{IsAtMost};
ghost use Rattle.wb_automata.specs.Sharing.{ArePairsBelow};
ghost use Rattle.wb_termset.specs.Sets.{IsMember};
ghost use Rattle.wb_lexical.specs.Clash.{IsClash, HasNoClash};
ghost use Rattle.wb_lexical.specs.Inner.Rows.{AreTogether};
ghost use Rattle.wb_lexical.specs.Inner.Shared.{IsSharedIn, SharesNone};
ghost use Rattle.wb_lexical.specs.Inner.Undecided.{IsLeastClash, HasNoUndecided};

use crate::candidates::candidates;
use crate::pair::undecided_pair;
use crate::rows::has;
use std::alloc::{AllocError, Global};
use wb_automata::{Automaton, shared_text};
use wb_base::Bytes;
use wb_regex::Regex;
use wb_termset::TermSet;

/// Two terminals of a set that match a text, with no preference between them.
#[derive(Drop)]
pub struct Clash {
    pub set: usize,
    pub left: usize,
    pub right: usize,
    pub text: Bytes,
}

/// Looks for two terminals of one set that match a common text, with no preference between them.
///
/// A terminal is a place in `terminals`, and `Clash::set` a place in `sets`. The pair `(t, u)` prefers t to u, and pairs don't chain: `(t,
/// u)` and `(u, v)` leave t and v unordered. Members without a terminal count for nothing. The text is the least that the two share,
/// shorter ones first and then by bytes. Which of several clashes is shown is left open. The only error is out of memory. No automaton is
/// built: each pair that is in some set is looked at once, and most are told apart by a preference or as two texts. No clause bounds the
/// time.
pub fn find_clash(
    alloc: Global,
    terminals: &[Regex],
    sets: &[TermSet],
    preferences: &[(usize, usize)],
) -> Result<Option<Clash>, AllocError>
    ensures clash { IfOk result (λ found. IfSome found (λ clash. IsClash terminals.now sets.now preferences.now clash.set clash.left clash.right clash.text)) }
    ensures in_order { IfOk result (λ found. IfSome found (λ clash. clash.left < clash.right)) }
    ensures least { IfOk result (λ found. IfSome found (λ clash. (text : List ℕ) → IsMatch terminals.now clash.left text → IsMatch terminals.now clash.right text → IsAtMost clash.text text)) }
    ensures none { IfOk result (λ found. IsNone found ↔ HasNoClash terminals.now sets.now preferences.now) }
{
    let pairs = candidates(alloc, terminals, sets, preferences)?;
    let found = clash_among(alloc, terminals, sets, &pairs);
    drop(pairs);
    found
}

// Looks for a text that the two of one of these pairs share, and a set that has both.
fn clash_among(
    alloc: Global,
    terminals: &[Regex],
    sets: &[TermSet],
    pairs: &[(usize, usize)],
) -> Result<Option<Clash>, AllocError>
    requires within { ArePairsBelow (length terminals.now) pairs.now }
    requires together { (t u : ℕ) → Contains pairs.now (t, u) → AreTogether sets.now t u }
    ensures clash { IfOk result (λ found. IfSome found (IsSharedIn terminals.now sets.now pairs.now)) }
    ensures none { IfOk result (λ found. IsNone found → SharesNone terminals.now pairs.now) }
{
    match shared_text(alloc, terminals, pairs)? {
        Some(shared) => match set_with(sets, shared.left, shared.right) {
            Some(set) => Ok(Some(Clash {
                set,
                left: shared.left,
                right: shared.right,
                text: shared.text,
            })),
            None => unreachable!(),
        },
        None => Ok(None),
    }
}

// The first set that has both terminals.
fn set_with(sets: &[TermSet], left: usize, right: usize) -> Option<usize>
    ensures left { IfSome result (λ set. IsConsidered sets.now set left) }
    ensures right { IfSome result (λ set. IsConsidered sets.now set right) }
    ensures none { IsNone result → ¬ AreTogether sets.now left right }
{
    'sets: for set in 0..sets.len() {
        if has_both(&sets[set], left, right) {
            return Some(set);
        }
    }
    None
}

// Whether both numbers, which may be any, are members.
fn has_both(set: &TermSet, left: usize, right: usize) -> bool
    ensures { IsTrue result ↔ (IsMember set.now left × IsMember set.now right) }
{
    has(set, left) && has(set, right)
}

/// Like `find_clash`, where the automaton of the terminals and sets is there already.
pub fn find_clash_in(
    alloc: Global,
    automaton: &Automaton,
    preferences: &[(usize, usize)],
) -> Result<Option<Clash>, AllocError>
    ensures clash { IfOk result (λ found. IfSome found (λ clash. IsClash automaton.now.terminals automaton.now.sets preferences.now clash.set clash.left clash.right clash.text)) }
    ensures in_order { IfOk result (λ found. IfSome found (λ clash. clash.left < clash.right)) }
    ensures least { IfOk result (λ found. IfSome found (λ clash. (text : List ℕ) → IsMatch automaton.now.terminals clash.left text → IsMatch automaton.now.terminals clash.right text → IsAtMost clash.text text)) }
    ensures none { IfOk result (λ found. IsNone found ↔ HasNoClash automaton.now.terminals automaton.now.sets preferences.now) }
{
    clash_in(alloc, automaton, preferences)
}

// The first clash by the order of states.
fn clash_in(
    alloc: Global,
    automaton: &Automaton,
    preferences: &[(usize, usize)],
) -> Result<Option<Clash>, AllocError>
    ensures clash { IfOk result (λ found. IfSome found (λ clash. IsLeastClash automaton.now preferences.now clash.set clash.left clash.right clash.text)) }
    ensures none { IfOk result (λ found. IsNone found → HasNoUndecided automaton.now preferences.now) }
{
    for state in 0..automaton.states() {
        let accepted = automaton.accepted(state);
        if let Some(pair) = undecided_pair(accepted, preferences) {
            let text = automaton.text(alloc, state)?;
            return Ok(Some(Clash {
                set: automaton.set(state),
                left: pair.left,
                right: pair.right,
                text,
            }));
        }
    }
    Ok(None)
}
