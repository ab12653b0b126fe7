//! How are trees kept, so that an id stands for one tree as long as the store holds it?
//!
//! A node takes 16 bytes, and a child that isn't directly before the next one or before its node, 8 more. What they stand for is in
//! `specs/Trees` and `specs/InPlace`.

ghost use Rattle.std.specs.Prelude.{◌≡◌, ◌≢◌, ◌↔◌, ◌<◌, ◌≤◌, ◌+◌, ◌-◌, suc, List, [], ◌∷◌, ◌++◌, Some, length, take, drop, reverse, All, IsTrue, IfOk, IfSome, IfNone, OnErr, OnOk};
ghost use Rattle.wb_values.specs.Tree.{Tree, node, empty, tree as subtree, production_of, children_of, value_at, count_of};
ghost use Rattle.wb_values.specs.ValuesIn.{tree_in, value_in, values_in, last, IsIn, AreChildren};
ghost use Rattle.wb_values.specs.declared.value.Value.{Value as Item};
ghost use Rattle.wb_values.specs.declared.value.Value.TheVariants.{Tree as Stored};

use crate::layout::{Layout, lay_packed, lay_values};
use crate::node::Node;
use crate::walk::{Position, begin, child_position, push_backwards};
use crate::{PackedValues, TreeId, Value};
use std::alloc::{AllocError, Global};
use std::marker::Model;

// How many values a number of 32 bits has.
const LOW: usize = 4_294_967_296;

/// A store of trees, one for each node. A tree that is built over the last trees of the store takes 16 bytes, and 8 for each child that is
/// none of them. The numbers of trees, of productions and of such children have 32 bits each: where there is none left, it is out of
/// memory.
pub struct TreeStore {
    nodes: Vec<Node>,
    // The children that don't lie in place, those of each node from the last on.
    children: PackedValues,
}

impl Model for TreeStore {
    ghost use Rattle.std.specs.Prelude.{List};
    ghost use Rattle.std.specs.Coded.{coded_list};
    ghost use Rattle.wb_values.specs.Tree.{Tree};
    ghost use Rattle.wb_values.specs.Inner.TreeCode.{coded_tree};
    ghost use Rattle.wb_values.specs.Trees.{trees_of, IsStore};

    ghost Value = { List Tree };

    ghost coded = { coded_list coded_tree };

    ghost view = { λ s. trees_of s.nodes.items s.children };

    ghost invariant = { λ s. IsStore s.nodes.items s.children };
}

impl TreeStore {
    /// A store without trees.
    pub fn new(alloc: Global) -> TreeStore
        ensures { result ≡ [] }
    {
        TreeStore {
            nodes: Vec::new(alloc),
            children: PackedValues::new(alloc),
        }
    }

    /// How many trees there are.
    pub fn len(&self) -> usize
        ensures { result ≡ length self.now }
    {
        self.nodes.len()
    }

    /// Whether there is no tree.
    pub fn is_empty(&self) -> bool
        ensures { IsTrue result ↔ (self.now ≡ []) }
    {
        self.len() == 0
    }

    /// Adds the tree of a production over these children, after the others. If memory runs out, the children are dropped.
    pub fn build(
        &mut self,
        production: usize,
        mut children: Vec<Value>,
    ) -> Result<TreeId, AllocError>
        requires { All (IsIn (length self.old)) children.items }
        ensures id { IfOk result (λ tree. tree.0 ≡ length self.old) }
        ensures ok { OnOk result (self.new ≡ self.old ++ node production (values_in self.old children.items) ∷ []) }
        ensures err { OnErr result (self.new ≡ self.old) }
    {
        let count = children.len();
        self.build_from(production, &mut children, count)
    }

    /// Adds the tree of a production over the last values of a vector, so many of them, in order, and takes them off it. A caller that
    /// gathers children in one vector takes memory for a node in this store alone.
    pub fn build_from(
        &mut self,
        production: usize,
        values: &mut Vec<Value>,
        count: usize,
    ) -> Result<TreeId, AllocError>
        requires count { count ≤ length values.old.items }
        requires children { All (IsIn (length self.old)) (last count values.old.items) }
        ensures id { IfOk result (λ tree. tree.0 ≡ length self.old) }
        ensures ok { OnOk result (self.new ≡ self.old ++ node production (values_in self.old (last count values.old.items)) ∷ []) }
        ensures taken { OnOk result (values.new.items ≡ take (length values.old.items - count) values.old.items) }
        ensures err { OnErr result (self.new ≡ self.old) }
        ensures err_values { OnErr result (values.new.items ≡ values.old.items) }
    {
        let tree = TreeId(self.nodes.len());
        let start = values.len() - count;
        if !has_numbers(production, tree.0, self.children.len(), count) {
            return Err(AllocError);
        }
        self.nodes.reserve(1)?;
        let nodes = self.nodes.as_slice();
        let layout = lay_values(nodes, &mut self.children, &values[start..])?;
        values.truncate(start);
        let node = node_of(production, tree.0, self.children.len(), layout);
        self.nodes.push_reserved(node);
        Ok(tree)
    }

    /// Adds the tree of a production over the last of packed values, so many of them, in order, and takes them off.
    pub fn build_packed(
        &mut self,
        production: usize,
        values: &mut PackedValues,
        count: usize,
    ) -> Result<TreeId, AllocError>
        requires count { count ≤ length values.old }
        requires children { All (IsIn (length self.old)) (last count values.old) }
        ensures id { IfOk result (λ tree. tree.0 ≡ length self.old) }
        ensures ok { OnOk result (self.new ≡ self.old ++ node production (values_in self.old (last count values.old)) ∷ []) }
        ensures taken { OnOk result (values.new ≡ take (length values.old - count) values.old) }
        ensures err { OnErr result (self.new ≡ self.old) }
        ensures err_values { OnErr result (values.new ≡ values.old) }
    {
        let start = values.len() - count;
        let tree = self.add_over(production, values, start)?;
        values.truncate(start);
        Ok(tree)
    }

    /// Adds the tree of a production over the last of packed values, so many of them, in order, and puts it in their place.
    #[inline]
    pub fn build_over(
        &mut self,
        production: usize,
        values: &mut PackedValues,
        count: usize,
    ) -> Result<TreeId, AllocError>
        requires count { count ≤ length values.old }
        requires children { All (IsIn (length self.old)) (last count values.old) }
        ensures id { IfOk result (λ tree. tree.0 ≡ length self.old) }
        ensures ok { OnOk result (self.new ≡ self.old ++ node production (values_in self.old (last count values.old)) ∷ []) }
        ensures placed { IfOk result (λ tree. values.new ≡ take (length values.old - count) values.old ++ Stored tree ∷ []) }
        ensures err { OnErr result (self.new ≡ self.old) }
        ensures err_values { OnErr result (values.new ≡ values.old) }
    {
        if count == 0 {
            return self.build_empty(production, values);
        }
        let start = values.len() - count;
        let tree = self.add_over(production, values, start)?;
        values.put_tree(start, tree);
        Ok(tree)
    }

    // Adds the tree of a production without children, and adds it to the values.
    fn build_empty(
        &mut self,
        production: usize,
        values: &mut PackedValues,
    ) -> Result<TreeId, AllocError>
        ensures id { IfOk result (λ tree. tree.0 ≡ length self.old) }
        ensures ok { OnOk result (self.new ≡ self.old ++ node production empty ∷ []) }
        ensures placed { IfOk result (λ tree. values.new ≡ values.old ++ Stored tree ∷ []) }
        ensures err { OnErr result (self.new ≡ self.old) }
        ensures err_values { OnErr result (values.new ≡ values.old) }
    {
        let tree = self.build_packed(production, values, 0)?;
        match values.push_tree(tree) {
            Ok(()) => Ok(tree),
            Err(error) => {
                self.truncate(tree.0);
                Err(error)
            }
        }
    }

    // Adds the tree of a production over the packed values from a place on.
    #[inline]
    fn add_over(
        &mut self,
        production: usize,
        values: &PackedValues,
        start: usize,
    ) -> Result<TreeId, AllocError>
        requires start { start ≤ length values.now }
        requires children { All (IsIn (length self.old)) (drop start values.now) }
        ensures id { IfOk result (λ tree. tree.0 ≡ length self.old) }
        ensures number { IfOk result (λ tree. tree.0 < 4294967296) }
        ensures ok { OnOk result (self.new ≡ self.old ++ node production (values_in self.old (drop start values.now)) ∷ []) }
        ensures err { OnErr result (self.new ≡ self.old) }
    {
        let tree = TreeId(self.nodes.len());
        if !has_numbers(
            production,
            tree.0,
            self.children.len(),
            values.len() - start,
        ) {
            return Err(AllocError);
        }
        self.nodes.reserve(1)?;
        let nodes = self.nodes.as_slice();
        let layout = lay_packed(nodes, &mut self.children, values, start)?;
        let node = node_of(production, tree.0, self.children.len(), layout);
        self.nodes.push_reserved(node);
        Ok(tree)
    }

    /// Makes room for so many times as many trees as there are from a place on, and for as many children as these have. It is a hint: where
    /// there is no memory for so much, there is no more room than before. The trees stay as they are.
    pub fn make_room(&mut self, from: usize, times: usize)
        requires { from ≤ length self.old }
        ensures { self.new ≡ self.old }
    {
        let nodes = self.nodes.as_slice();
        let first = begin(nodes, from);
        let more_nodes = (self.nodes.len() - from).saturating_mul(times);
        let more_children = (self.children.len() - first).saturating_mul(times);
        let _nodes = self.nodes.reserve_exact(more_nodes);
        self.children.make_room(more_children);
    }

    /// Keeps the first trees, so many of them, and takes the others away.
    pub fn truncate(&mut self, len: usize)
        requires { len ≤ length self.old }
        ensures { self.new ≡ take len self.old }
    {
        let nodes = self.nodes.as_slice();
        let kept = begin(nodes, len);
        self.children.truncate(kept);
        self.nodes.truncate(len);
    }

    /// The production of a tree.
    pub fn production(&self, tree: TreeId) -> usize
        requires { tree.0 < length self.now }
        ensures { result ≡ production_of (tree_in self.now tree.0) }
    {
        self.nodes[tree.0].production as usize
    }

    /// How many children a tree has.
    pub fn arity(&self, tree: TreeId) -> usize
        requires { tree.0 < length self.now }
        ensures { result ≡ count_of (children_of (tree_in self.now tree.0)) }
    {
        let nodes = self.nodes.as_slice();
        let first = begin(nodes, tree.0);
        let node = &self.nodes[tree.0];
        node.end as usize - first + node.inner.count_ones() as usize
    }

    /// The child of a tree at a place, counted from 0 and copied in constant time. One that is a tree has a smaller id. The only error is
    /// that a text has too many copies to be counted.
    pub fn child(&self, tree: TreeId, place: usize) -> Result<Value, AllocError>
        requires there { tree.0 < length self.now }
        requires place { place < count_of (children_of (tree_in self.now tree.0)) }
        ensures value { IfOk result (λ made. value_at (children_of (tree_in self.now tree.0)) place ≡ Some (value_in self.now made)) }
        ensures below { IfOk result (IsIn tree.0) }
    {
        let after = self.arity(tree) - 1 - place;
        match child_position(self.nodes.as_slice(), tree.0, after) {
            Position::Tree(id) => Ok(Value::Tree(TreeId(id))),
            Position::Cell(at) => self.children.get(at),
        }
    }

    /// Adds copies of the children of a tree to values, the last one first. If memory runs out, the values stay.
    pub fn push_children(&self, tree: TreeId, values: &mut PackedValues) -> Result<(), AllocError>
        requires { tree.0 < length self.now }
        ensures ok { OnOk result ((children : List Item) × AreChildren self.now tree.0 children × (values.new ≡ values.old ++ reverse children)) }
        ensures err { OnErr result (values.new ≡ values.old) }
    {
        let len = values.len();
        let pushed = push_backwards(self.nodes.as_slice(), &self.children, tree.0, values);
        if pushed.is_err() {
            values.truncate(len);
        }
        pushed
    }

    /// The child of a tree at a place, if it is a tree. It has a smaller id.
    pub fn child_tree(&self, tree: TreeId, place: usize) -> Option<TreeId>
        requires there { tree.0 < length self.now }
        requires place { place < count_of (children_of (tree_in self.now tree.0)) }
        ensures some { IfSome result (λ child. value_at (children_of (tree_in self.now tree.0)) place ≡ Some (subtree (tree_in self.now child.0))) }
        ensures below { IfSome result (λ child. child.0 < tree.0) }
        ensures none { IfNone result ((child : Tree) → value_at (children_of (tree_in self.now tree.0)) place ≢ Some (subtree child)) }
    {
        let after = self.arity(tree) - 1 - place;
        match child_position(self.nodes.as_slice(), tree.0, after) {
            Position::Tree(id) => Some(TreeId(id)),
            Position::Cell(at) => self.children.tree(at),
        }
    }
}

impl Drop for TreeStore {
    fn drop(self) {
        let TreeStore { nodes, children } = self;
        drop(nodes);
        drop(children);
    }
}

// Whether there are numbers for a node: for its production, for its place, and for the end of its cells, of which there are so many before
// and at most so many more.
fn has_numbers(production: usize, place: usize, cells: usize, more: usize) -> bool
    ensures { IsTrue result → (production < 4294967296) × (suc place < 4294967296) × (cells + more < 4294967296) }
{
    production < LOW && place < LOW - 1 && cells < LOW && more < LOW - cells
}

// The node of a production at a place, over children that were laid and cells that end here.
fn node_of(production: usize, place: usize, end: usize, layout: Layout) -> Node
    requires production { production < 4294967296 }
    requires place { suc place < 4294967296 }
    requires end { end < 4294967296 }
    requires top { layout.top ≤ place }
    requires digits { layout.digits < 4294967296 }
    ensures { result ≡ record { production = production; size = suc place - layout.top; end = end; inner = layout.digits } }
{
    Node {
        production: production as u32,
        size: (place + 1 - layout.top) as u32,
        end: end as u32,
        inner: layout.digits as u32,
    }
}
