//! How is a tree walked by the numbers of its nodes?

ghost use Rattle.std.specs.Prelude.{◌≤◌, IfErr, IfOk, length};
ghost use Rattle.wb_session_library.specs.Nodes.{HasNoChild, IsChild, IsNode};
ghost use Rattle.wb_session_library.specs.Refusals.{IsPlaceRefusal};

use crate::{CallRefusal, Child, Node};
use wb_values::{TreeId, TreeStore};

// What is at the node of a number.
pub(crate) fn node_at(store: &TreeStore, node: usize) -> Result<Node, CallRefusal>
    ensures ok { IfOk result (IsNode store.now node) }
    ensures refused { IfErr result (IsPlaceRefusal (length store.now ≤ node)) }
{
    if node >= store.len() {
        return Err(CallRefusal::OutOfRange);
    }
    let tree = TreeId(node);
    Ok(Node {
        production: store.production(tree),
        children: store.arity(tree),
    })
}

// The child of a node at a place, counted from 0.
pub(crate) fn child_at(store: &TreeStore, node: usize, place: usize) -> Result<Child, CallRefusal>
    ensures ok { IfOk result (IsChild store.now node place) }
    ensures refused { IfErr result (IsPlaceRefusal (HasNoChild store.now node place)) }
{
    if node >= store.len() || place >= store.arity(TreeId(node)) {
        return Err(CallRefusal::OutOfRange);
    }
    match store.child_tree(TreeId(node), place) {
        Some(child) => Ok(Child::Node(child.0)),
        None => Ok(Child::Leaf),
    }
}
