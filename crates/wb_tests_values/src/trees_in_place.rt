//! Are children found, wherever they are: directly before one another, among older trees, or beyond the place up to which a node tells?
//!
//! A tree of width n has n children: every third is a new leaf, and the next two are a text and the oldest tree. Where these trees and
//! leaves are follows from their widths alone.

ghost use Rattle.std.specs.Prelude.{OnOk, All, length};
ghost use Rattle.wb_values.specs.ValuesIn.{IsIn};

use crate::holds;
use std::alloc::{AllocError, Global};
use wb_values::{PackedValues, TreeId, TreeStore, Value};

// How many leaves are among so many children.
fn leaves(width: usize) -> usize {
    width / 3 + if width % 3 == 0 { 0 } else { 1 }
}

// Adds the child of this number to the values.
fn add_child(
    store: &mut TreeStore,
    packed: &mut PackedValues,
    number: usize,
) -> Result<(), AllocError>
    requires { All (IsIn (length store.old)) packed.old }
    ensures { OnOk result (All (IsIn (length store.new)) packed.new) }
{
    if number % 3 == 0 {
        let leaf = store.build_packed(100, packed, 0)?;
        return packed.push_tree(leaf);
    }
    if number % 3 == 1 || store.is_empty() {
        return packed.push_text(b"a text");
    }
    packed.push_tree(TreeId(0))
}

fn add_children(
    store: &mut TreeStore,
    packed: &mut PackedValues,
    width: usize,
) -> Result<(), AllocError>
    requires { All (IsIn (length store.old)) packed.old }
    ensures { OnOk result (All (IsIn (length store.new)) packed.new) }
{
    for number in 0..width {
        add_child(store, packed, number)?;
    }
    Ok(())
}

// Adds a tree of this width.
fn add_tree(
    store: &mut TreeStore,
    packed: &mut PackedValues,
    width: usize,
) -> Result<TreeId, AllocError> {
    packed.truncate(0);
    add_children(store, packed, width)?;
    let count = packed.len();
    store.build_packed(width, packed, count)
}

// Whether the child of this number is the expected one, where the leaves begin at this place.
fn is_child(
    store: &TreeStore,
    tree: TreeId,
    number: usize,
    first: usize,
) -> Result<bool, AllocError> {
    if tree.0 >= store.len() || store.arity(tree) <= number {
        return Ok(false);
    }
    let child = store.child_tree(tree, number);
    if number % 3 == 0 {
        return Ok(child == Some(TreeId(first.saturating_add(number / 3))));
    }
    if number % 3 == 2 {
        return Ok(child == Some(TreeId(0)));
    }
    let is_text = matches!(store.child(tree, number)?, Value::Text(_));
    Ok(is_text && child.is_none())
}

// Whether a tree is that of a width, where its leaves begin at this place.
fn is_wide(
    store: &TreeStore,
    tree: TreeId,
    width: usize,
    first: usize,
) -> Result<bool, AllocError> {
    for number in 0..width {
        if !is_child(store, tree, number, first)? {
            return Ok(false);
        }
    }
    Ok(tree.0 < store.len() && store.production(tree) == width && store.arity(tree) == width)
}

// Whether the trees of all widths below one are those that were built, as far as they are still there, and what place follows them.
fn are_wide(store: &TreeStore, widths: usize) -> Result<Option<usize>, AllocError> {
    let mut first: usize = 0;
    for width in 0..widths {
        let tree = first.saturating_add(leaves(width));
        if tree < store.len() && !is_wide(store, TreeId(tree), width, first)? {
            return Ok(None);
        }
        first = tree.saturating_add(1);
    }
    Ok(Some(first))
}

fn add_trees(
    store: &mut TreeStore,
    packed: &mut PackedValues,
    widths: usize,
) -> Result<(), AllocError> {
    for width in 0..widths {
        add_tree(store, packed, width)?;
    }
    Ok(())
}

// Whether the trees that are left are the same after the store was cut to so many.
fn stay(store: &mut TreeStore, kept: usize) -> Result<bool, AllocError> {
    if store.len() < kept {
        return Ok(false);
    }
    store.truncate(kept);
    let next = are_wide(store, 41)?;
    Ok(store.len() == kept && next.is_some())
}

// Whether trees of the widths 0 to 40 are built, and stay when the store is cut after a tree, and between the leaves of one.
fn are_built(store: &mut TreeStore, packed: &mut PackedValues) -> Result<bool, AllocError> {
    add_trees(store, packed, 41)?;
    let built = are_wide(store, 41)? == Some(store.len());
    Ok(built && stay(store, 301)? && stay(store, 300)? && stay(store, 295)? && stay(store, 2)?)
}

fn are_found(alloc: Global) -> Result<bool, AllocError> {
    let mut store = TreeStore::new(alloc);
    let mut packed = PackedValues::new(alloc);
    are_built(&mut store, &mut packed)
}

#[test]
fn children_are_found_in_place_and_elsewhere(rt: HostRuntime) {
    assert!(rt; holds(are_found(rt.alloc())));
}
