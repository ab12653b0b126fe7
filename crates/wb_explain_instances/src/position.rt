//! Where is the node of a site? In the text, or in a tree that an equation makes for a node of the text.

ghost use Rattle.std.specs.Prelude.{IfSome};
ghost use Rattle.wb_explain_instances.specs.Equations.{IsReachedBy};

use crate::shown::tree_of;
use crate::writing::{push_number, push_text};
use crate::{Leaves, Shown};
use std::alloc::AllocError;
use wb_eval_memo::{Origin, Step};
use wb_values::TreeId;

// How a site is reached, unless it is that of the root.
pub(crate) fn origin_of(shown: &Shown<'_>, site: usize) -> Option<Origin>
    ensures { IfSome result (IsReachedBy shown.now.attributes.now.productions shown.now.store.now shown.now.waiting.now site) }
{
    let origins = shown.waiting.memo.sites.origins.as_slice();
    if site == 0 || site > origins.len() {
        return None;
    }
    Some(origins[site - 1])
}

// How the innermost tree is reached that an equation makes and in which a site is. None in the tree of the root.
pub(crate) fn made_above(shown: &Shown<'_>, site: usize) -> Option<Origin> {
    let mut at = site;
    'up: while let Some(origin) = origin_of(shown, at) {
        if !is_child(origin.step) || origin.parent as usize >= at {
            return Some(origin);
        }
        at = origin.parent as usize;
    }
    None
}

// Whether a step is one to a child.
pub(crate) fn is_child(step: Step) -> bool {
    matches!(step, Step::Child(_))
}

// Appends the line and the column of a site's node in the text, or of the node for which its tree is made. Nothing in a term.
pub(crate) fn push_position(
    out: &mut Vec<u8>,
    shown: &Shown<'_>,
    site: usize,
) -> Result<(), AllocError> {
    let Some(leaves) = &shown.leaves else {
        return Ok(());
    };
    if made_above(shown, site).is_some() {
        push_text(out, ",")?;
    }
    push_text(out, " at ")?;
    push_line_column(
        out,
        leaves.text,
        place_of(leaves, leaf_of(shown, leaves, site)),
    )
}

// The place of a leaf, or of the end of the text.
fn place_of(leaves: &Leaves<'_>, leaf: usize) -> usize {
    match leaves.places.get(leaf) {
        Some(place) => *place,
        None => leaves.text.len(),
    }
}

// How many leaves of the text are before the node of a site, or before that for which its tree is made.
fn leaf_of(shown: &Shown<'_>, leaves: &Leaves<'_>, site: usize) -> usize {
    let mut before: usize = 0;
    let mut at = site;
    'up: while let Some(origin) = origin_of(shown, at) {
        let parent = origin.parent as usize;
        if parent >= at {
            return before;
        }
        match origin.step {
            Step::Child(child) => {
                let more = leaves_before(shown, leaves, parent, child as usize);
                before = before.saturating_add(more);
            }
            _ => before = 0,
        }
        at = parent;
    }
    before
}

// How many leaves the children of a site's node have that are before a child.
fn leaves_before(shown: &Shown<'_>, leaves: &Leaves<'_>, site: usize, child: usize) -> usize {
    match tree_of(shown, site) {
        Some(tree) => leaves_of_first(shown, leaves, tree, child),
        None => 0,
    }
}

// How many leaves the first children of a tree have.
fn leaves_of_first(shown: &Shown<'_>, leaves: &Leaves<'_>, tree: TreeId, count: usize) -> usize {
    if tree.0 >= shown.store.len() {
        return 0;
    }
    let mut before: usize = 0;
    'children: for child in 0..count.min(shown.store.arity(tree)) {
        let more = match shown.store.child_tree(tree, child) {
            Some(below) => count_of(leaves, below),
            None => 1,
        };
        before = before.saturating_add(more);
    }
    before
}

// How many leaves a tree of the text has.
fn count_of(leaves: &Leaves<'_>, tree: TreeId) -> usize {
    match leaves.counts.get(tree.0) {
        Some(count) => *count,
        None => 0,
    }
}

// Appends the line and the column of a place.
fn push_line_column(out: &mut Vec<u8>, text: &[u8], place: usize) -> Result<(), AllocError> {
    let mut line: usize = 1;
    let mut column: usize = 1;
    'bytes: for byte in &text[..place.min(text.len())] {
        if *byte == b'\n' {
            line = line.saturating_add(1);
            column = 1;
        } else if *byte < 128 || *byte >= 192 {
            column = column.saturating_add(1);
        }
    }
    push_number(out, line)?;
    push_text(out, ":")?;
    push_number(out, column)
}
