//! Where is a child of a node, and which are all of them?
//!
//! Trees in place are found from the last child on, by stepping back over their sizes.

ghost use Rattle.std.specs.Prelude.{◌≡◌, ◌<◌, ◌≤◌, ◌+◌, ◌-◌, ◌++◌, [], Some, List, length, take, count_ones, slice_get, OnOk};
ghost use Rattle.wb_values.specs.declared.value.Value.{Value as Item};
ghost use Rattle.wb_values.specs.InPlace.{AreSized, node_at};
ghost use Rattle.wb_values.specs.Inner.Begin.{begin};
ghost use Rattle.wb_values.specs.Inner.Layouts.{backwards, IsPosition};

use crate::node::Node;
use crate::{PackedValues, TreeId};
use std::alloc::AllocError;

// Where a child is.
#[derive(Clone, Copy)]
pub(crate) enum Position {
    // A tree in place, of this number.
    Tree(usize),
    // A value of this number.
    Cell(usize),
}

// Where the values of the node at a place begin: at the end of those of the node before.
pub(crate) fn begin(nodes: &[Node], place: usize) -> usize
    requires { place ≤ length nodes.now }
    ensures { result ≡ begin 0 nodes.now place }
{
    if place == 0 {
        return 0;
    }
    nodes[place - 1].end as usize
}

// Where the child of a tree is that comes before so many others.
pub(crate) fn child_position(nodes: &[Node], tree: usize, after: usize) -> Position
    requires tree { tree < length nodes.now }
    requires sized { AreSized [] nodes.now }
    requires after { after < count_ones (node_at nodes.now tree).inner + ((node_at nodes.now tree).end - begin 0 nodes.now tree) }
    ensures { (values : List Item) (child : Item) → (node_at nodes.now tree).end ≤ length values → slice_get (backwards nodes.now values tree (node_at nodes.now tree)) after ≡ Some child → IsPosition values child result }
{
    let node = nodes[tree];
    let end = node.end as usize;
    let mut digits = node.inner;
    let mut top = tree;
    let mut at = begin(nodes, tree);
    let mut left = after;
    'children: while digits != 0 {
        if digits % 2 == 1 {
            if left == 0 {
                return Position::Tree(top - 1);
            }
            top -= nodes[top - 1].size as usize;
            left -= 1;
            digits /= 2;
            continue 'children;
        }
        digits /= 2;
        if at < end {
            if left == 0 {
                return Position::Cell(at);
            }
            at += 1;
            left -= 1;
        }
    }
    Position::Cell(at + left)
}

// Adds copies of the children of a tree to values, the last one first. After a refusal there may be some of them.
pub(crate) fn push_backwards(
    nodes: &[Node],
    cells: &PackedValues,
    tree: usize,
    values: &mut PackedValues,
) -> Result<(), AllocError>
    requires tree { tree < length nodes.now }
    requires sized { AreSized [] nodes.now }
    requires end { (node_at nodes.now tree).end ≤ length cells.now }
    ensures ok { OnOk result (values.new ≡ values.old ++ backwards nodes.now cells.now tree (node_at nodes.now tree)) }
    ensures begins { take (length values.old) values.new ≡ values.old }
    ensures longer { length values.old ≤ length values.new }
{
    let node = nodes[tree];
    let end = node.end as usize;
    let mut digits = node.inner;
    let mut top = tree;
    let mut at = begin(nodes, tree);
    'children: while digits != 0 {
        if digits % 2 == 1 {
            values.push_tree(TreeId(top - 1))?;
            top -= nodes[top - 1].size as usize;
            digits /= 2;
            continue 'children;
        }
        digits /= 2;
        if at < end {
            values.push_copy(cells, at)?;
            at += 1;
        }
    }
    'others: while at < end {
        values.push_copy(cells, at)?;
        at += 1;
    }
    Ok(())
}
