//! Are kernels with their lookaheads and tables the same as others, but for their numbers?
//!
//! Both are walked in step from the kernel of the empty prefix: each kernel gets the partner to which the same symbols lead.

ghost use Rattle.std.specs.Prelude.{◌≡◌, ◌<◌, length};
ghost use Rattle.wb_items.specs.Kernels.{count_of};
ghost use Rattle.wb_lookahead.specs.Contents.{size_of};
ghost use Rattle.wb_tests_unions.specs.Inner.Made.{IsMade};

use crate::made::Made;
use std::alloc::{AllocError, Global};
use wb_base::{Symbol, push};
use wb_items::{Kernels, Lookaheads, Move};
use wb_lookahead::Action;
use wb_termset::TermSet;

// Whether they are.
pub(crate) fn are_same(alloc: Global, one: &Made, other: &Made) -> Result<bool, AllocError>
    requires one { IsMade one.now }
    requires other { IsMade other.now }
    requires grammar { one.now.grammar.now ≡ other.now.grammar.now }
{
    let count = one.kernels.count();
    if other.kernels.count() != count {
        return Ok(false);
    }
    let mut partners = without_partners(alloc, count)?;
    let walked = are_walked(one, other, &mut partners) && are_different(&partners);
    let same = walked && have_prefixes(alloc, one, other, &partners)?;
    Ok(same)
}

// No partner for each of so many kernels.
fn without_partners(alloc: Global, count: usize) -> Result<Vec<Option<usize>>, AllocError> {
    let mut partners = Vec::new(alloc);
    for _kernel in 0..count {
        push(&mut partners, None)?;
    }
    Ok(partners)
}

// Whether all kernels are the same as their partners. Each after the first is led to from one before it.
fn are_walked(one: &Made, other: &Made, partners: &mut Vec<Option<usize>>) -> bool
    requires one { IsMade one.now }
    requires other { IsMade other.now }
    requires grammar { one.now.grammar.now ≡ other.now.grammar.now }
{
    if !add_partner(partners, 0, 0) {
        return false;
    }
    for state in 0..one.kernels.count() {
        let Some(partner) = partner_of(partners, state) else {
            return false;
        };
        if partner >= other.kernels.count() || !are_same_at(one, other, state, partner, partners) {
            return false;
        }
    }
    true
}

// Whether two kernels are the same. The kernels to which each symbol leads are partners then.
fn are_same_at(
    one: &Made,
    other: &Made,
    state: usize,
    partner: usize,
    partners: &mut Vec<Option<usize>>,
) -> bool
    requires one { IsMade one.now }
    requires other { IsMade other.now }
    requires grammar { one.now.grammar.now ≡ other.now.grammar.now }
    requires state { state < count_of one.now.kernels.now }
    requires partner { partner < count_of other.now.kernels.now }
{
    have_same_items(one.kernels, other.kernels, state, partner)
        && add_partners(
            one.kernels.moves(state),
            other.kernels.moves(partner),
            partners,
        )
        && have_same_sets(one.lookaheads, other.lookaheads, state, partner)
        && have_same_actions(one, other, state, partner, partners)
        && have_same_gotos(one, other, state, partner, partners)
        && are_equal(one.tables.valid(state), other.tables.valid(partner))
}

// Whether both kernels have the same items, and so have their closures.
fn have_same_items(one: &Kernels, other: &Kernels, state: usize, partner: usize) -> bool
    requires state { state < count_of one.now }
    requires partner { partner < count_of other.now }
{
    one.kernel(state) == other.kernel(partner) && one.closure(state) == other.closure(partner)
}

// Whether both have moves over the same symbols. The kernels to which each leads are partners then.
fn add_partners(one: &[Move], other: &[Move], partners: &mut Vec<Option<usize>>) -> bool {
    if one.len() != other.len() {
        return false;
    }
    for place in 0..one.len() {
        let moved = one[place];
        let partner = other[place];
        if moved.symbol != partner.symbol || !add_partner(partners, moved.state, partner.state) {
            return false;
        }
    }
    true
}

// Whether the kernel has this partner, which it gets if it has none yet.
fn add_partner(partners: &mut Vec<Option<usize>>, state: usize, partner: usize) -> bool {
    if state >= partners.len() {
        return false;
    }
    match partners[state] {
        Some(other) => other == partner,
        None => {
            partners[state] = Some(partner);
            true
        }
    }
}

// The partner of a kernel, if it has one yet.
fn partner_of(partners: &[Option<usize>], state: usize) -> Option<usize> {
    if state < partners.len() {
        partners[state]
    } else {
        None
    }
}

// Whether this is the partner.
fn is_partner(partners: &[Option<usize>], state: usize, partner: usize) -> bool {
    match partner_of(partners, state) {
        Some(other) => other == partner,
        None => false,
    }
}

// Whether the items of both closures, in order, have the same sets.
fn have_same_sets(one: &Lookaheads, other: &Lookaheads, state: usize, partner: usize) -> bool
    requires state { state < length one.now.items }
    requires partner { partner < length other.now.items }
{
    if one.len(state) != other.len(partner) {
        return false;
    }
    for place in 0..one.len(state) {
        let same = one.item_at(state, place) == other.item_at(partner, place);
        if !same || !are_equal(one.at(state, place), other.at(partner, place)) {
            return false;
        }
    }
    true
}

// Whether the sets have the same members.
fn are_equal(one: &TermSet, other: &TermSet) -> bool {
    one.count() == other.count() && one.equals(other)
}

// Whether a parser does the same at both on each terminal and on the end of a text.
fn have_same_actions(
    one: &Made,
    other: &Made,
    state: usize,
    partner: usize,
    partners: &[Option<usize>],
) -> bool
    requires one { IsMade one.now }
    requires other { IsMade other.now }
    requires grammar { one.now.grammar.now ≡ other.now.grammar.now }
    requires state { state < count_of one.now.kernels.now }
    requires partner { partner < count_of other.now.kernels.now }
{
    let end = one.grammar.terminals();
    for terminal in 0..end {
        let action = one.tables.action(state, terminal);
        if !is_same_action(action, other.tables.action(partner, terminal), partners) {
            return false;
        }
    }
    let action = one.tables.action(state, end);
    is_same_action(action, other.tables.action(partner, end), partners)
}

// Whether an action is another one, but for the numbers of kernels.
fn is_same_action(one: Action, other: Action, partners: &[Option<usize>]) -> bool {
    match one {
        Action::Shift(state) => match other {
            Action::Shift(partner) => is_partner(partners, state, partner),
            _ => false,
        },
        _ => one == other,
    }
}

// Whether nonterminals lead from both to partners.
fn have_same_gotos(
    one: &Made,
    other: &Made,
    state: usize,
    partner: usize,
    partners: &[Option<usize>],
) -> bool
    requires one { IsMade one.now }
    requires other { IsMade other.now }
    requires grammar { one.now.grammar.now ≡ other.now.grammar.now }
    requires state { state < count_of one.now.kernels.now }
    requires partner { partner < count_of other.now.kernels.now }
{
    for nonterminal in 0..one.grammar.nonterminals() {
        let goto = one.tables.goto(state, nonterminal);
        if !is_same_goto(goto, other.tables.goto(partner, nonterminal), partners) {
            return false;
        }
    }
    true
}

// Whether both are partners, or none is there.
fn is_same_goto(one: Option<usize>, other: Option<usize>, partners: &[Option<usize>]) -> bool {
    match one {
        Some(state) => match other {
            Some(partner) => is_partner(partners, state, partner),
            None => false,
        },
        None => other.is_none(),
    }
}

// Whether no two kernels have one partner.
fn are_different(partners: &[Option<usize>]) -> bool {
    for place in 0..partners.len() {
        for before in 0..place {
            if partners[before] == partners[place] {
                return false;
            }
        }
    }
    true
}

// Whether the prefix of each of the other kernels leads to it by the other tables, and to its partner by the first ones.
fn have_prefixes(
    alloc: Global,
    one: &Made,
    other: &Made,
    partners: &[Option<usize>],
) -> Result<bool, AllocError>
    requires one { IsMade one.now }
    requires other { IsMade other.now }
    requires grammar { one.now.grammar.now ≡ other.now.grammar.now }
{
    for partner in 0..other.kernels.count() {
        let prefix = other.kernels.prefix(alloc, partner)?;
        let there = leads_to_partners(one, other, &prefix, partner, partners);
        drop(prefix);
        if !there {
            return Ok(false);
        }
    }
    Ok(true)
}

// Whether the prefix leads to this kernel by the other tables, and to its partner by the first ones.
fn leads_to_partners(
    one: &Made,
    other: &Made,
    prefix: &[Symbol],
    partner: usize,
    partners: &[Option<usize>],
) -> bool
    requires one { IsMade one.now }
    requires other { IsMade other.now }
{
    let Some(state) = end_of(one, prefix) else {
        return false;
    };
    let Some(end) = end_of(other, prefix) else {
        return false;
    };
    end == partner && is_partner(partners, state, end)
}

// The kernel to which shifts and gotos over these symbols lead.
fn end_of(made: &Made, symbols: &[Symbol]) -> Option<usize>
    requires { IsMade made.now }
{
    let mut state: usize = 0;
    for symbol in symbols {
        match next_of(made, state, *symbol) {
            Some(next) => state = next,
            None => return None,
        }
    }
    Some(state)
}

// The kernel to which one symbol leads.
fn next_of(made: &Made, state: usize, symbol: Symbol) -> Option<usize>
    requires { IsMade made.now }
{
    if state >= made.tables.count() {
        return None;
    }
    match symbol {
        Symbol::Terminal(terminal) => shift_over(made, state, terminal),
        Symbol::Nonterminal(nonterminal) => goto_over(made, state, nonterminal),
    }
}

// The kernel to which a terminal is shifted.
fn shift_over(made: &Made, state: usize, terminal: usize) -> Option<usize>
    requires made { IsMade made.now }
    requires state { state < size_of made.now.tables.now }
{
    if terminal >= made.grammar.terminals() {
        return None;
    }
    match made.tables.action(state, terminal) {
        Action::Shift(next) => Some(next),
        _ => None,
    }
}

// The kernel to which a nonterminal leads.
fn goto_over(made: &Made, state: usize, nonterminal: usize) -> Option<usize>
    requires made { IsMade made.now }
    requires state { state < size_of made.now.tables.now }
{
    if nonterminal >= made.grammar.nonterminals() {
        return None;
    }
    made.tables.goto(state, nonterminal)
}
