//! How many levels of a tree are drawn? As many as there is room for: the nodes and leaves of each level are counted.

ghost use Rattle.std.specs.Prelude.{◌<◌, length};

use std::alloc::{AllocError, Global};
use wb_values::{TreeId, TreeStore};

/// How many levels of a tree are shown where that are so many at most, and so many nodes and leaves. One at least.
pub fn levels_of(
    alloc: Global,
    store: &TreeStore,
    root: TreeId,
    levels: usize,
    items: usize,
) -> Result<usize, AllocError>
    requires { root.0 < length store.now }
{
    let counts = counts_of(alloc, store, root, levels)?;
    let found = fitting(&counts, items);
    drop(counts);
    Ok(found)
}

// How many of the first levels have so many nodes and leaves at most.
fn fitting(counts: &[usize], items: usize) -> usize {
    let mut sum: usize = 0;
    'levels: for (level, count) in counts.iter().enumerate() {
        sum = sum.saturating_add(*count);
        if sum > items {
            return level.max(1);
        }
    }
    counts.len().max(1)
}

// How many nodes and leaves each of the first levels has.
fn counts_of(
    alloc: Global,
    store: &TreeStore,
    root: TreeId,
    levels: usize,
) -> Result<Vec<usize>, AllocError>
    requires { root.0 < length store.now }
{
    let mut counts = zeros(alloc, levels)?;
    match count_all(alloc, store, root, &mut counts) {
        Ok(()) => Ok(counts),
        Err(error) => {
            drop(counts);
            Err(error)
        }
    }
}

// So many zeros.
pub(crate) fn zeros(alloc: Global, count: usize) -> Result<Vec<usize>, AllocError> {
    vec![in alloc; 0; count]
}

// Counts them.
fn count_all(
    alloc: Global,
    store: &TreeStore,
    root: TreeId,
    counts: &mut Vec<usize>,
) -> Result<(), AllocError>
    requires { root.0 < length store.now }
{
    // At the place of a tree is one more than the number of its level, or 0 where it isn't in the tree of the root.
    let mut levels = zeros(alloc, root.0.saturating_add(1))?;
    put(&mut levels, root.0, 1);
    count(counts, 0);
    'trees: for done in 0..=root.0 {
        count_below(store, TreeId(root.0 - done), &mut levels, counts);
    }
    drop(levels);
    Ok(())
}

// Counts the children of a tree.
fn count_below(store: &TreeStore, tree: TreeId, levels: &mut Vec<usize>, counts: &mut Vec<usize>)
    requires { tree.0 < length store.now }
{
    let level = at(levels, tree.0);
    if level == 0 || level >= counts.len() {
        return;
    }
    'children: for place in 0..store.arity(tree) {
        count(counts, level);
        if let Some(child) = store.child_tree(tree, place) {
            put(levels, child.0, level.saturating_add(1));
        }
    }
}

// Counts one more on a level.
fn count(counts: &mut Vec<usize>, level: usize) {
    let count = at(counts, level);
    put(counts, level, count.saturating_add(1));
}

// The number at a place, or 0.
pub(crate) fn at(numbers: &[usize], place: usize) -> usize {
    if place < numbers.len() {
        return numbers[place];
    }
    0
}

// Puts a number at a place, where there is one.
pub(crate) fn put(numbers: &mut Vec<usize>, place: usize, number: usize) {
    if place < numbers.len() {
        numbers[place] = number;
    }
}
