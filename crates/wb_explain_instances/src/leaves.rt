//! How many leaves has each tree of a store? Those of a text are its lexemes.

ghost use Rattle.std.specs.Prelude.{◌<◌, length};

use std::alloc::{AllocError, Global};
use wb_values::{TreeId, TreeStore};

/// How many leaves each tree of a store has, by its number: its children that are no trees, and the leaves of the others.
pub fn leaf_counts(alloc: Global, store: &TreeStore) -> Result<Vec<usize>, AllocError> {
    let mut counts = Vec::new(alloc);
    match push_counts(&mut counts, store) {
        Ok(()) => Ok(counts),
        Err(error) => {
            drop(counts);
            Err(error)
        }
    }
}

// Appends how many each has.
fn push_counts(counts: &mut Vec<usize>, store: &TreeStore) -> Result<(), AllocError> {
    'trees: for tree in 0..store.len() {
        let count = leaves_of(counts, store, TreeId(tree));
        counts.push(count)?;
    }
    Ok(())
}

// How many leaves a tree has, where those of earlier trees are known.
fn leaves_of(counts: &[usize], store: &TreeStore, tree: TreeId) -> usize
    requires { tree.0 < length store.now }
{
    let mut count: usize = 0;
    'children: for child in 0..store.arity(tree) {
        let more = match store.child_tree(tree, child) {
            Some(below) => known(counts, below),
            None => 1,
        };
        count = count.saturating_add(more);
    }
    count
}

// How many leaves an earlier tree has.
fn known(counts: &[usize], tree: TreeId) -> usize {
    match counts.get(tree.0) {
        Some(count) => *count,
        None => 0,
    }
}
