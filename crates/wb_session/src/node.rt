//! Which tree is the node of a production over children? One that is in the store already, where it is that node, and else a new one.

ghost use Rattle.std.specs.Prelude.{◌≡◌, ◌<◌, IfOk, IsTrue, Some, All, length, take};
ghost use Rattle.wb_values.specs.Tree.{children_of, count_of, plain, value_at};
ghost use Rattle.wb_values.specs.Tree.{text as words};
ghost use Rattle.wb_values.specs.ValuesIn.{IsIn, tree_in, value_in, values_in};
ghost use Rattle.wb_session.specs.Inner.Nodes.{IsNode};

use std::alloc::AllocError;
use wb_values::{TreeId, TreeStore, Value};

// The node of a production over children: the tree that is likely to be it, where it is, and else a new one.
pub(crate) fn node_of(
    store: &mut TreeStore,
    children: &mut Vec<Value>,
    production: usize,
    likely: usize,
) -> Result<TreeId, AllocError>
    requires { All (IsIn (length store.old)) children.old.items }
    ensures node { IfOk result (λ tree. IsNode store.new production (values_in store.old children.old.items) tree.0) }
    ensures store { take (length store.old) store.new ≡ store.old }
{
    if is_node(store, children, production, likely) {
        return Ok(TreeId(likely));
    }
    let count = children.len();
    let tree = store.build_from(production, children, count)?;
    Ok(tree)
}

// Whether a tree is the node of a production over children.
fn is_node(store: &TreeStore, children: &[Value], production: usize, tree: usize) -> bool
    ensures { IsTrue result → IsNode store.now production (values_in store.now children.now) tree }
{
    if tree >= store.len() {
        return false;
    }
    let id = TreeId(tree);
    let width = store.arity(id);
    if width != children.len() || store.production(id) != production {
        return false;
    }
    'children: for place in 0..width {
        if !is_child(store, id, place, &children[place]) {
            return false;
        }
    }
    true
}

// Whether a value is the child of a tree at a place.
fn is_child(store: &TreeStore, tree: TreeId, place: usize, child: &Value) -> bool
    requires there { tree.0 < length store.now }
    requires place { place < count_of (children_of (tree_in store.now tree.0)) }
    ensures { IsTrue result → value_at (children_of (tree_in store.now tree.0)) place ≡ Some (value_in store.now child.now) }
{
    match child {
        Value::Tree(id) => match store.child_tree(tree, place) {
            Some(old) => old.0 == id.0,
            None => false,
        },
        Value::Text(text) => has_text(store, tree, place, text.as_slice()),
        _ => false,
    }
}

// Whether the child of a tree at a place is a text.
fn has_text(store: &TreeStore, tree: TreeId, place: usize, text: &[u8]) -> bool
    requires there { tree.0 < length store.now }
    requires place { place < count_of (children_of (tree_in store.now tree.0)) }
    ensures { IsTrue result → value_at (children_of (tree_in store.now tree.0)) place ≡ Some (plain (words text.now)) }
{
    match store.child(tree, place) {
        Ok(Value::Text(old)) => old.as_slice() == text,
        _ => false,
    }
}
