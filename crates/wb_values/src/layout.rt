//! Which children of a new node lie in place?
//!
//! They are gone through from the last on: a tree that ends where the next one begins lies in place, and each other child gets a cell.

ghost use Rattle.std.specs.Prelude.{◌≡◌, ◌<◌, ◌≤◌, [], ◌∷◌, ◌++◌, List, length, take, drop, IfOk, IfSome, OnErr};
ghost use Rattle.wb_values.specs.declared.value.Value.{Value as Item};
ghost use Rattle.wb_values.specs.declared.value.Value.TheVariants.{Tree as Stored};
ghost use Rattle.wb_values.specs.declared.node.Node.{Node as Kept};
ghost use Rattle.wb_values.specs.InPlace.{AreSized};
ghost use Rattle.wb_values.specs.Inner.Layouts.{IsWithin, IsLayout, IsWhole};

use crate::node::Node;
use crate::{PackedValues, TreeId, Value};
use std::alloc::AllocError;

// How many values a number of 32 bits has.
const LOW: usize = 4_294_967_296;

// What is known after some of the children, those from the last on.
#[derive(Clone, Copy)]
pub(crate) struct Layout {
    // Which of them lie in place, by a binary digit for each, the lowest for the last.
    pub(crate) digits: usize,
    // What the next digit counts, or 2^32 where none is left.
    unit: usize,
    // Where those that lie in place begin.
    pub(crate) top: usize,
}

// Lays the packed values from a place on as children of the next node. Those that don't lie in place are added to the cells.
#[inline]
pub(crate) fn lay_packed(
    nodes: &[Node],
    cells: &mut PackedValues,
    values: &PackedValues,
    start: usize,
) -> Result<Layout, AllocError>
    requires start { start ≤ length values.now }
    requires sized { AreSized [] nodes.now }
    ensures ok { IfOk result (IsWhole nodes.now cells.old cells.new (drop start values.now)) }
    ensures err { OnErr result (cells.new ≡ cells.old) }
{
    if let Some(layout) = only_tree(nodes, values, start) {
        return Ok(layout);
    }
    lay_each_packed(nodes, cells, values, start)
}

// The layout of the packed values from a place on, if they are one tree that lies in place.
#[inline]
fn only_tree(nodes: &[Node], values: &PackedValues, start: usize) -> Option<Layout>
    requires start { start ≤ length values.now }
    requires sized { AreSized [] nodes.now }
    ensures { IfSome result (λ layout. (cells : List Item) → IsWhole nodes.now cells cells (drop start values.now) layout) }
{
    if values.len() - start != 1 {
        return None;
    }
    let Some(tree) = values.tree(start) else {
        return None;
    };
    with_tree(nodes, no_children(nodes), tree)
}

// Like `lay_packed`, by going through all of the values.
fn lay_each_packed(
    nodes: &[Node],
    cells: &mut PackedValues,
    values: &PackedValues,
    start: usize,
) -> Result<Layout, AllocError>
    requires start { start ≤ length values.now }
    requires sized { AreSized [] nodes.now }
    ensures ok { IfOk result (IsWhole nodes.now cells.old cells.new (drop start values.now)) }
    ensures err { OnErr result (cells.new ≡ cells.old) }
{
    let len = cells.len();
    let laid = lay_some_packed(nodes, cells, values, start);
    if laid.is_err() {
        cells.truncate(len);
    }
    laid
}

// Like `lay_packed`, but after a refusal there may be some cells more.
fn lay_some_packed(
    nodes: &[Node],
    cells: &mut PackedValues,
    values: &PackedValues,
    start: usize,
) -> Result<Layout, AllocError>
    requires start { start ≤ length values.now }
    requires sized { AreSized [] nodes.now }
    ensures ok { IfOk result (IsWhole nodes.now cells.old cells.new (drop start values.now)) }
    ensures begins { take (length cells.old) cells.new ≡ cells.old }
    ensures longer { length cells.old ≤ length cells.new }
{
    let mut layout = no_children(nodes);
    let mut place = values.len();
    'children: while place > start {
        place -= 1;
        layout = lay_packed_child(nodes, cells, values, place, layout)?;
    }
    Ok(layout)
}

// Lays the packed value at a place as the next child.
#[inline]
fn lay_packed_child(
    nodes: &[Node],
    cells: &mut PackedValues,
    values: &PackedValues,
    place: usize,
    layout: Layout,
) -> Result<Layout, AllocError>
    requires place { place < length values.now }
    requires sized { AreSized [] nodes.now }
    requires within { IsWithin nodes.now layout }
    ensures ok { IfOk result (λ next. (start done : List Item) → IsLayout nodes.now start cells.old done layout → IsLayout nodes.now start cells.new (done ++ take 1 (drop place values.now)) next) }
    ensures err { OnErr result (cells.new ≡ cells.old) }
{
    if let Some(tree) = values.tree(place) {
        if let Some(next) = with_tree(nodes, layout, tree) {
            return Ok(next);
        }
    }
    cells.push_copy(values, place)?;
    Ok(with_other(layout))
}

// Lays values as children of the next node. Copies of those that don't lie in place are added to the cells.
pub(crate) fn lay_values(
    nodes: &[Node],
    cells: &mut PackedValues,
    values: &[Value],
) -> Result<Layout, AllocError>
    requires sized { AreSized [] nodes.now }
    ensures ok { IfOk result (IsWhole nodes.now cells.old cells.new values.now) }
    ensures err { OnErr result (cells.new ≡ cells.old) }
{
    let len = cells.len();
    let laid = lay_some_values(nodes, cells, values);
    if laid.is_err() {
        cells.truncate(len);
    }
    laid
}

// Like `lay_values`, but after a refusal there may be some cells more.
fn lay_some_values(
    nodes: &[Node],
    cells: &mut PackedValues,
    values: &[Value],
) -> Result<Layout, AllocError>
    requires sized { AreSized [] nodes.now }
    ensures ok { IfOk result (IsWhole nodes.now cells.old cells.new values.now) }
    ensures begins { take (length cells.old) cells.new ≡ cells.old }
    ensures longer { length cells.old ≤ length cells.new }
{
    let mut layout = no_children(nodes);
    let mut place = values.len();
    'children: while place > 0 {
        place -= 1;
        layout = lay_value(nodes, cells, &values[place], layout)?;
    }
    Ok(layout)
}

// Lays a value as the next child.
fn lay_value(
    nodes: &[Node],
    cells: &mut PackedValues,
    value: &Value,
    layout: Layout,
) -> Result<Layout, AllocError>
    requires sized { AreSized [] nodes.now }
    requires within { IsWithin nodes.now layout }
    ensures ok { IfOk result (λ next. (start done : List Item) → IsLayout nodes.now start cells.old done layout → IsLayout nodes.now start cells.new (done ++ value.now ∷ []) next) }
    ensures err { OnErr result (cells.new ≡ cells.old) }
{
    if let Value::Tree(tree) = value {
        if let Some(next) = with_tree(nodes, layout, *tree) {
            return Ok(next);
        }
    }
    cells.push(value.copy()?)?;
    Ok(with_other(layout))
}

// None of the children.
#[inline]
fn no_children(nodes: &[Node]) -> Layout
    ensures { (start : List Item) → IsLayout nodes.now start start [] result }
{
    Layout {
        digits: 0,
        unit: 1,
        top: nodes.len(),
    }
}

// The layout with a tree as its next child, if it lies in place.
#[inline]
fn with_tree(nodes: &[Node], layout: Layout, tree: TreeId) -> Option<Layout>
    requires sized { AreSized [] nodes.now }
    requires within { IsWithin nodes.now layout }
    ensures { IfSome result (λ next. (start listed done : List Item) → IsLayout nodes.now start listed done layout → IsLayout nodes.now start listed (done ++ Stored tree ∷ []) next) }
{
    if layout.unit >= LOW || tree.0 >= layout.top || layout.top - tree.0 != 1 {
        return None;
    }
    Some(Layout {
        digits: layout.digits + layout.unit,
        unit: layout.unit * 2,
        top: layout.top - nodes[tree.0].size as usize,
    })
}

// The layout with a child that has a cell.
#[inline]
fn with_other(layout: Layout) -> Layout
    ensures { (nodes : List Kept) (start listed done : List Item) (child : Item) → IsLayout nodes start listed done layout → IsLayout nodes start (listed ++ child ∷ []) (done ++ child ∷ []) result }
{
    if layout.unit >= LOW {
        return layout;
    }
    Layout {
        digits: layout.digits,
        unit: layout.unit * 2,
        top: layout.top,
    }
}
