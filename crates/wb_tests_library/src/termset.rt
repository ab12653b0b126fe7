//! Do sets of numbers keep their members across words, and are unions, subsets and the order of members right?
use crate::holds;
use std::alloc::{AllocError, Global};
use wb_termset::TermSet;

// The set of these numbers below 200.
fn set_of(alloc: Global, numbers: &[usize]) -> Result<TermSet, AllocError> {
    let mut set = TermSet::new(alloc, 200)?;
    for &number in numbers {
        if number < set.count() {
            set.insert(number);
        }
    }
    Ok(set)
}

// Whether two sets are disjoint, and then not, after the second is added to the first; the first then grew once.
fn is_joined(low: &mut TermSet, high: &TermSet) -> bool {
    if low.count() != high.count() {
        return false;
    }
    let apart = !low.intersects(high) && !high.is_subset(low);
    let grew = low.union_with(high);
    let stayed = !low.union_with(high);
    apart && grew && stayed && low.intersects(high) && high.is_subset(low) && !low.equals(high)
}

// Whether the members of the set are these, in order.
fn has_members(set: &TermSet, members: &[usize]) -> bool {
    let mut from = 0;
    for &member in members {
        match set.next_member(from) {
            Some(number) if number == member && member < usize::MAX => from = member + 1,
            _ => return false,
        }
    }
    let is_last = set.next_member(from).is_none() && set.next_member(usize::MAX).is_none();
    is_last && set.is_empty() == members.is_empty()
}

// Whether the set of these numbers has these members, in order.
fn is_set_of(alloc: Global, numbers: &[usize], members: &[usize]) -> Result<bool, AllocError> {
    let set = set_of(alloc, numbers)?;
    Ok(has_members(&set, members))
}

// Whether a copy of the set of these numbers has them, in order.
fn is_copied(alloc: Global, numbers: &[usize]) -> Result<bool, AllocError> {
    let set = set_of(alloc, numbers)?.copy()?;
    Ok(has_members(&set, numbers))
}

// Whether 64 is new only once, and 63 and 129 are members already.
fn is_added(set: &mut TermSet) -> bool {
    if set.count() != 200 {
        return false;
    }
    let new = set.insert(64);
    let old = set.insert(64) || set.insert(129);
    new && !old && set.contains(63) && !set.contains(65)
}

fn is_added_to(alloc: Global, numbers: &[usize]) -> Result<bool, AllocError> {
    let mut set = set_of(alloc, numbers)?;
    Ok(is_added(&mut set))
}

#[test]
fn numbers_are_new_once(rt: HostRuntime) {
    assert!(rt; holds(is_added_to(rt.alloc(), &[63, 129])));
}

#[test]
fn members_come_in_increasing_order(rt: HostRuntime) {
    assert!(rt; holds(is_set_of(rt.alloc(), &[199, 5, 64, 63], &[5, 63, 64, 199])));
}

// Whether the union of the sets of these two numbers is right.
fn are_joined(alloc: Global, one: usize, other: usize) -> Result<bool, AllocError> {
    let mut low = set_of(alloc, &[one])?;
    let high = set_of(alloc, &[other])?;
    Ok(is_joined(&mut low, &high))
}

#[test]
fn unions_and_subsets_agree(rt: HostRuntime) {
    assert!(rt; holds(are_joined(rt.alloc(), 1, 64)));
}

#[test]
fn a_copy_is_equal(rt: HostRuntime) {
    assert!(rt; holds(is_copied(rt.alloc(), &[0, 199])));
}
