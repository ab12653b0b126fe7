//! Do lists and stacks give back what was pushed?

use crate::holds;
use std::alloc::{AllocError, Global};
use wb_base::{List, Stack};

// Whether a list has the values that were pushed, in order.
fn is_list_of(alloc: Global, values: &[usize]) -> Result<bool, AllocError> {
    let mut list = List::new(alloc);
    for value in values {
        list.push(*value)?;
    }
    let right = list.len() == values.len();
    Ok(right && list.into_sequence().as_slice() == values)
}

fn is_stack_of(alloc: Global, first: usize, last: usize) -> Result<bool, AllocError> {
    let mut stack = Stack::new(alloc);
    gives_back(&mut stack, first, last)
}

// Whether a stack gives back two values, the last first.
fn gives_back(stack: &mut Stack<usize>, first: usize, last: usize) -> Result<bool, AllocError> {
    stack.push(first)?;
    stack.push(last)?;
    let taken = stack.pop() == Some(last) && stack.pop() == Some(first);
    Ok(taken && stack.pop().is_none())
}

#[test]
fn a_list_and_a_stack_have_what_is_pushed(rt: HostRuntime) {
    assert!(rt; holds(is_list_of(rt.alloc(), &[3, 1, 2])));
    assert!(rt; holds(is_stack_of(rt.alloc(), 1, 2)));
}
