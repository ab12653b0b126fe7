//! Which attributes took the most steps? A step is an attribute of a node, or the tree of a local or forward, that was needed.

ghost use Rattle.wb_eval_memo.specs.Memos.{IsWhole};

use crate::Shown;
use crate::instance::push_attribute;
use crate::position::{is_child, origin_of};
use crate::writing::{push_number, push_text};
use std::alloc::{AllocError, Global};
use wb_eval::Key;

// The most attributes that are named.
const MOST: usize = 10;

// Appends the attributes that took the most steps, with how many.
pub(crate) fn push_counts(
    alloc: Global,
    out: &mut Vec<u8>,
    shown: &Shown<'_>,
) -> Result<(), AllocError>
    requires { IsWhole shown.now.waiting.now.memo }
{
    let mut counts = Vec::new(alloc);
    let answer = push_counted(&mut counts, out, shown);
    drop(counts);
    answer
}

// Counts into this list, which is empty, and appends what was counted.
fn push_counted(
    counts: &mut Vec<usize>,
    out: &mut Vec<u8>,
    shown: &Shown<'_>,
) -> Result<(), AllocError>
    requires { IsWhole shown.now.waiting.now.memo }
{
    'zeros: for _ in 0..shown.attributes.attributes.as_slice().len() {
        counts.push(0)?;
    }
    counts.push(0)?;
    count_known(counts, shown)?;
    'waiting: for key in shown.waiting.keys.as_slice() {
        count_one(counts, number_of(counts.len(), *key));
    }
    push_text(out, "\nThe most steps were taken by:\n\n")?;
    push_most(out, shown, counts)
}

// Counts what is known: values of attributes, and trees that equations make, which are counted last.
fn count_known(counts: &mut Vec<usize>, shown: &Shown<'_>) -> Result<(), AllocError>
    requires { IsWhole shown.now.waiting.now.memo }
{
    let memo = &shown.waiting.memo;
    let trees = memo.trees.as_slice();
    let last = counts.len().saturating_sub(1);
    'sites: for site in 0..trees.len() {
        'attributes: for attribute in 0..last {
            let value = memo.attribute(site, attribute)?;
            let is_known = value.is_some();
            drop(value);
            if is_known {
                count_one(counts, attribute);
            }
        }
        if trees[site].is_some() && is_made(shown, site) {
            count_one(counts, last);
        }
    }
    Ok(())
}

// Whether an equation makes the tree of a site.
fn is_made(shown: &Shown<'_>, site: usize) -> bool {
    match origin_of(shown, site) {
        Some(origin) => !is_child(origin.step),
        None => false,
    }
}

// The number under which something is counted that waits, where so many are.
fn number_of(count: usize, key: Key) -> usize {
    match key {
        Key::Synthesized { site: _, attribute } => attribute,
        Key::Inherited { site: _, attribute } => attribute,
        Key::Tree { site: _ } => count.saturating_sub(1),
    }
}

// Counts one more.
fn count_one(counts: &mut Vec<usize>, number: usize) {
    if number < counts.len() {
        counts[number] = counts[number].saturating_add(1);
    }
}

// Appends those that were counted most, and forgets them.
fn push_most(
    out: &mut Vec<u8>,
    shown: &Shown<'_>,
    counts: &mut Vec<usize>,
) -> Result<(), AllocError> {
    'most: for _ in 0..MOST {
        let number = greatest(counts);
        if number >= counts.len() || counts[number] == 0 {
            return Ok(());
        }
        push_count(out, shown, number, counts[number])?;
        counts[number] = 0;
    }
    Ok(())
}

// The number of which most were counted.
fn greatest(counts: &[usize]) -> usize {
    let mut found = 0;
    'numbers: for number in 0..counts.len() {
        if found < counts.len() && counts[number] > counts[found] {
            found = number;
        }
    }
    found
}

// Appends how many were counted under a number.
fn push_count(
    out: &mut Vec<u8>,
    shown: &Shown<'_>,
    number: usize,
    count: usize,
) -> Result<(), AllocError> {
    push_text(out, "    ")?;
    push_number(out, count)?;
    push_text(out, " ")?;
    if number < shown.attributes.attributes.as_slice().len() {
        push_attribute(out, shown.attributes, number)?;
    } else {
        push_text(out, "trees of locals and forwards")?;
    }
    push_text(out, "\n")
}
