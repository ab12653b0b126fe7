//! Which nodes and leaves has a tree? It is gone through from the left, with a stack of the nodes that are open in the place of calls within
//! calls.

ghost use Rattle.std.specs.Prelude.{◌≡◌, ◌++◌, ◌∷◌, ◌<◌, ◌+◌, ◌^◌, [], IfOk, OnOk, MatchBool, length};
ghost use Rattle.wb_values.specs.Tree.{empty};
ghost use Rattle.wb_values.specs.ValuesIn.{tree_in};
ghost use Rattle.wb_explain_drawing.specs.Listings.{IsListing, listed, seen};
ghost use Rattle.wb_explain_drawing.specs.Inner.Remaining.{HasNext, Leads, left_of, remaining};

use crate::{Item, Listing, Part};
use std::alloc::{AllocError, Global};
use wb_base::{Stack, push};
use wb_values::{TreeId, TreeStore};

// A node that is gone through: its tree, the next child, and how many nodes it is below.
#[derive(Clone, Copy)]
struct Open {
    id: TreeId,
    next: usize,
    depth: usize,
}

// What comes after a step: so many leaves are before what is left, or nothing is left, or it can't be counted.
#[derive(Clone, Copy)]
enum Walked {
    At(usize),
    End,
    Stop,
}

/// Lists the nodes and leaves of a tree, from its top on: those of the first levels, and no more than so many.
pub fn listing_of(
    alloc: Global,
    store: &TreeStore,
    root: TreeId,
    levels: usize,
    most: usize,
) -> Result<Listing, AllocError>
    requires { root.0 < length store.now }
    ensures { IfOk result (λ made. IsListing levels (tree_in store.now root.0) made.items.items made.whole) }
{
    let mut listing = Listing::new(alloc);
    let mut stack = Stack::new(alloc);
    let answer = list_all(store, root, levels, most, &mut listing, &mut stack);
    drop(stack);
    match answer {
        Ok(whole) => {
            listing.whole = whole;
            Ok(listing)
        }
        Err(error) => {
            drop(listing);
            Err(error)
        }
    }
}

// Lists them, and answers whether the listing is whole.
fn list_all(
    store: &TreeStore,
    root: TreeId,
    levels: usize,
    most: usize,
    listing: &mut Listing,
    stack: &mut Stack<Open>,
) -> Result<bool, AllocError>
    requires root { root.0 < length store.now }
    requires none { listing.old.items.items ≡ [] }
    requires closed { stack.old ≡ [] }
    ensures { IfOk result (IsListing levels (tree_in store.now root.0) listing.new.items.items) }
{
    begin(store, root, levels, listing, stack)?;
    let mut leaf = 0;
    'steps: for _ in 0..usize::MAX {
        if listing.items.len() >= most {
            return Ok(false);
        }
        match step(store, levels, leaf, listing, stack)? {
            Walked::At(next) => leaf = next,
            Walked::End => return Ok(true),
            Walked::Stop => return Ok(false),
        }
    }
    Ok(false)
}

// Lists the root, and opens it.
fn begin(
    store: &TreeStore,
    root: TreeId,
    levels: usize,
    listing: &mut Listing,
    stack: &mut Stack<Open>,
) -> Result<(), AllocError>
    requires root { root.0 < length store.now }
    requires none { listing.old.items.items ≡ [] }
    requires closed { stack.old ≡ [] }
    ensures { OnOk result (listed levels 0 0 (tree_in store.now root.0) ≡ listing.new.items.items ++ remaining levels store.now stack.new 0) }
{
    let part = Part::Node(store.production(root));
    let item = Item {
        part,
        depth: 0,
        leaf: 0,
    };
    add(listing, levels, item)?;
    stack.push(Open {
        id: root,
        next: 0,
        depth: 0,
    })?;
    Ok(())
}

// Goes on to the next child of the node that was opened last, or closes that.
fn step(
    store: &TreeStore,
    levels: usize,
    leaf: usize,
    listing: &mut Listing,
    stack: &mut Stack<Open>,
) -> Result<Walked, AllocError>
    ensures { IfOk result (Leads levels store.now (listing.old.items.items ++ remaining levels store.now stack.old leaf) listing.new.items.items stack.new) }
{
    if leaf == usize::MAX {
        return Ok(Walked::Stop);
    }
    let Some(top) = stack.pop() else {
        return Ok(Walked::End);
    };
    if is_endless(top) {
        return Ok(Walked::Stop);
    }
    if !has_next(store, top) {
        return Ok(Walked::At(leaf));
    }
    below(store, levels, leaf, top, listing, stack)
}

// Whether the next level, or the next child, can't be counted.
fn is_endless(top: Open) -> bool
    ensures { MatchBool result (Unit {0}) ((top.depth + 1 < 2 ^ 64) × (top.next + 1 < 2 ^ 64)) }
{
    if top.depth == usize::MAX {
        return true;
    }
    top.next == usize::MAX
}

// Whether a child of an open node is left.
fn has_next(store: &TreeStore, top: Open) -> bool
    ensures { MatchBool result (HasNext store.now top) (left_of store.now top ≡ empty) }
{
    if top.id.0 >= store.len() {
        return false;
    }
    if top.next >= store.arity(top.id) {
        return false;
    }
    true
}

// Lists the next child of an open node, and opens it, where it is a node.
fn below(
    store: &TreeStore,
    levels: usize,
    leaf: usize,
    top: Open,
    listing: &mut Listing,
    stack: &mut Stack<Open>,
) -> Result<Walked, AllocError>
    requires next { HasNext store.now top }
    requires leaf { leaf + 1 < 2 ^ 64 }
    requires depth { top.depth + 1 < 2 ^ 64 }
    requires place { top.next + 1 < 2 ^ 64 }
    ensures { IfOk result (Leads levels store.now (listing.old.items.items ++ remaining levels store.now (top ∷ stack.old) leaf) listing.new.items.items stack.new) }
{
    let depth = top.depth + 1;
    stack.push(Open {
        id: top.id,
        next: top.next + 1,
        depth: top.depth,
    })?;
    match store.child_tree(top.id, top.next) {
        Some(tree) => {
            let part = Part::Node(store.production(tree));
            add(listing, levels, Item { part, depth, leaf })?;
            stack.push(Open {
                id: tree,
                next: 0,
                depth,
            })?;
            Ok(Walked::At(leaf))
        }
        None => {
            let part = Part::Leaf;
            add(listing, levels, Item { part, depth, leaf })?;
            Ok(Walked::At(leaf + 1))
        }
    }
}

// Lists an item, where it is on one of the first levels.
fn add(listing: &mut Listing, levels: usize, item: Item) -> Result<(), AllocError>
    ensures { OnOk result (listing.new.items.items ≡ listing.old.items.items ++ seen levels item) }
{
    if item.depth < levels {
        listing.hidden.reserve(1)?;
        push(&mut listing.items, item)?;
        listing.hidden.push_reserved(0);
        return Ok(());
    }
    let count = listing.hidden.len();
    if count > 0 {
        listing.hidden[count - 1] = listing.hidden[count - 1].saturating_add(1);
    }
    Ok(())
}
