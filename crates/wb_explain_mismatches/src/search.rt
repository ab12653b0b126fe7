//! Which steps lead from one kind to another?
//!
//! Kinds are gone through breadth first, so a shortest way is found. That it leads there is tested by `steps`, and nothing is said of it here.

use crate::step::{Maker, Step};
use crate::steps::is_one;
use std::alloc::{AllocError, Global};
use wb_base::{Kind, push};
use wb_operations::OperationSignatures;
use wb_values::Signatures;

// The most kinds that are gone through, and the most steps of a way.
const MOST: usize = 200;

// The steps from one kind to another, the outermost first. None where no way is found.
pub(crate) fn way(
    alloc: Global,
    signatures: &Signatures,
    operations: &OperationSignatures,
    from: Kind,
    to: Kind,
) -> Result<Vec<Step>, AllocError> {
    let mut reached = Vec::new(alloc);
    match push_reached(&mut reached, signatures, operations, from, to) {
        Ok(()) => {
            let answer = way_back(alloc, &reached, from, to);
            drop(reached);
            answer
        }
        Err(error) => {
            drop(reached);
            Err(error)
        }
    }
}

// Appends a step to each kind that is reached, in the order in which they are.
fn push_reached(
    reached: &mut Vec<Step>,
    signatures: &Signatures,
    operations: &OperationSignatures,
    from: Kind,
    to: Kind,
) -> Result<(), AllocError> {
    let mut kind = from;
    'kinds: for done in 0..MOST {
        push_productions(reached, signatures, from, kind)?;
        push_operations(reached, operations, from, kind)?;
        if step_to(reached, to).is_some() || done >= reached.len() {
            return Ok(());
        }
        kind = reached[done].to;
    }
    Ok(())
}

// Appends the productions whose one child is of this kind, where they make one that isn't reached.
fn push_productions(
    reached: &mut Vec<Step>,
    signatures: &Signatures,
    start: Kind,
    kind: Kind,
) -> Result<(), AllocError> {
    'signatures: for number in 0..signatures.len() {
        if is_one(signatures.children(number), kind) {
            let step = Step {
                maker: Maker::Production(number),
                from: kind,
                to: Kind::Tree(signatures.left(number)),
            };
            push_new(reached, start, step)?;
        }
    }
    Ok(())
}

// Appends the operations whose one argument is.
fn push_operations(
    reached: &mut Vec<Step>,
    operations: &OperationSignatures,
    start: Kind,
    kind: Kind,
) -> Result<(), AllocError> {
    'operations: for number in 0..operations.len() {
        if is_one(operations.takes(number), kind) {
            let step = Step {
                maker: Maker::Operation(number),
                from: kind,
                to: operations.gives(number),
            };
            push_new(reached, start, step)?;
        }
    }
    Ok(())
}

// Appends a step, where it makes a kind that isn't reached.
fn push_new(reached: &mut Vec<Step>, start: Kind, step: Step) -> Result<(), AllocError> {
    if step.to == start || step_to(reached, step.to).is_some() {
        return Ok(());
    }
    push(reached, step)
}

// The step that makes this kind.
fn step_to(reached: &[Step], kind: Kind) -> Option<Step> {
    'steps: for step in reached {
        if step.to == kind {
            return Some(*step);
        }
    }
    None
}

// The steps back from a kind to the one from which all began.
fn way_back(
    alloc: Global,
    reached: &[Step],
    from: Kind,
    to: Kind,
) -> Result<Vec<Step>, AllocError> {
    let mut steps = Vec::new(alloc);
    match push_back(&mut steps, reached, from, to) {
        Ok(()) => Ok(steps),
        Err(error) => {
            drop(steps);
            Err(error)
        }
    }
}

// Appends them.
fn push_back(
    steps: &mut Vec<Step>,
    reached: &[Step],
    from: Kind,
    to: Kind,
) -> Result<(), AllocError> {
    let mut kind = to;
    'steps: for _ in 0..MOST {
        if kind == from {
            return Ok(());
        }
        match step_to(reached, kind) {
            Some(step) => {
                push(steps, step)?;
                kind = step.from;
            }
            None => return Ok(()),
        }
    }
    Ok(())
}
