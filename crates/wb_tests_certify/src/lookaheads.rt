//! Are the lookaheads by relations those by propagation, on hosts with their holes and on hosts with their extensions?
//!
//! Each host and extension of these tests that is certified is asked, set by set, and so are the hosts here.

ghost use Rattle.std.specs.Prelude.{◌≡◌, ◌<◌, IfOk, length};
ghost use Rattle.wb_grammar.specs.Facts.{AreFacts};
ghost use Rattle.wb_items.specs.Lookaheads.{AreLookaheadsOf};

use crate::extensions::extensions_get;
use std::alloc::{AllocError, Global};
use wb_base::Grammar;
use wb_digraph::digraph_lookaheads;
use wb_grammar::{Facts, analyse};
use wb_items::{Kernels, Lookaheads};
use wb_lookahead::plain_lookaheads;
use wb_termset::TermSet;

// Whether both calls find the same lookaheads of this grammar.
pub(crate) fn agree(alloc: Global, grammar: &Grammar) -> bool {
    are_same_of(alloc, grammar).unwrap_or(false)
}

fn are_same_of(alloc: Global, grammar: &Grammar) -> Result<bool, AllocError> {
    let facts = facts_of(alloc, grammar)?;
    let kernels = Kernels::build(alloc, grammar, &facts)?;
    let one = plain_lookaheads(alloc, grammar, &facts, &kernels)?;
    let other = digraph_lookaheads(alloc, grammar, &facts, &kernels)?;
    Ok(are_same(&kernels, &one, &other))
}

// The facts of a grammar that passes its analysis. For another one the answer is out of memory, so that its test fails.
fn facts_of(alloc: Global, grammar: &Grammar) -> Result<Facts, AllocError>
    ensures { IfOk result (λ facts. AreFacts grammar.now facts) }
{
    match analyse(alloc, grammar) {
        Ok(facts) => Ok(facts),
        Err(_) => Err(AllocError),
    }
}

// Whether the kernels have the same items, with the same sets.
fn are_same(kernels: &Kernels, one: &Lookaheads, other: &Lookaheads) -> bool
    requires one { AreLookaheadsOf kernels.now one.now }
    requires other { AreLookaheadsOf kernels.now other.now }
{
    for state in 0..kernels.count() {
        if !are_same_at(one, other, state) {
            return false;
        }
    }
    true
}

// Whether this kernel has.
fn are_same_at(one: &Lookaheads, other: &Lookaheads, state: usize) -> bool
    requires one { state < length one.now.items }
    requires other { state < length other.now.items }
{
    if one.len(state) != other.len(state) {
        return false;
    }
    for place in 0..one.len(state) {
        let same = one.item_at(state, place) == other.item_at(state, place);
        if !same || !are_equal(one.at(state, place), other.at(state, place)) {
            return false;
        }
    }
    true
}

// Whether the sets have the same members.
fn are_equal(one: &TermSet, other: &TermSet) -> bool {
    one.count() == other.count() && one.equals(other)
}

// A grammar that is LALR(1) and not SLR(1).
pub(crate) static ASSIGNMENTS: &str =
    "format 1; host ptr; terminal Star /\\*/; terminal Eq /=/; terminal Id /[a-z]+/; \
    nonterminal S; nonterminal L; nonterminal R; start S; \
    concrete assign : S ::= l : L e : Eq r : R { } \
    concrete just : S ::= r : R { } \
    concrete star : L ::= s : Star r : R { } \
    concrete id : L ::= x : Id { } \
    concrete ofl : R ::= l : L { }";

// A word that is a keyword where one can come.
pub(crate) static KEYWORDS: &str =
    "format 1; host kw; ignore Space /[ ]+/; terminal If /if/; terminal Id /[a-z]+/; prefer If over Id; \
    nonterminal S; start S; \
    concrete one : S ::= k : If x : Id { } \
    concrete two : S ::= x : Id { }";

// A list that may be empty.
pub(crate) static LISTS: &str =
    "format 1; host list; ignore Space /[ \\n]+/; terminal Num /[0-9]+/; \
    nonterminal L; start L; \
    concrete none : L ::= { } \
    concrete more : L ::= a : L n : Num { }";

#[test]
fn relations_agree_with_propagation(rt: HostRuntime) {
    extensions_get(&rt, ASSIGNMENTS, &[]);
    extensions_get(&rt, KEYWORDS, &[]);
    extensions_get(&rt, LISTS, &[]);
}
