//! How are numbers found by two others, where rows are wide and little of each is written?
//!
//! A row's first sixteen numbers lie together. Those of higher columns are in a radix tree, so that a row takes memory of what is in it.

ghost use Rattle.std.specs.Prelude.{◌≡◌, ◌≢◌, ◌<◌, ℕ, IfOk, OnOk};
ghost use Rattle.wb_eval_rows.specs.Sparse.{node_of, number_at, IsForest};
ghost use Rattle.wb_eval_rows.specs.Inner.Nodes.{IsPlaced, IsReached};

use crate::rows::Rows;
use std::alloc::{AllocError, Global};

/// Numbers by row and column, of which few are written. What is not written is 0.
pub struct SparseRows {
    /// Those of columns below 16, by row and column.
    pub near: Rows,
    /// The nodes of rows, from 1 on, by row and digit.
    pub first: Rows,
    /// Those below nodes, by node and digit.
    pub links: Rows,
    /// The numbers of other columns, by node and last digit.
    pub cells: Rows,
    /// How many nodes there are.
    pub nodes: usize,
}

impl SparseRows {
    /// Nothing is written. A row that is written has room for so many numbers at least.
    pub fn new(alloc: Global, least: usize) -> SparseRows
        ensures forest { IsForest result }
        ensures none { (row column : ℕ) → number_at result row column ≡ 0 }
    {
        SparseRows {
            near: Rows::new(alloc, least),
            first: Rows::new(alloc, 16),
            links: Rows::new(alloc, 16),
            cells: Rows::new(alloc, 16),
            nodes: 0,
        }
    }

    /// The number at a place, or 0.
    #[inline(always)]
    pub fn get(&self, row: usize, column: usize) -> usize
        ensures { result ≡ number_at self.now row column }
    {
        if column < 16 {
            self.near.get(row, column)
        } else {
            let node = self.node(row, column / 16);
            self.cells.get(node, column % 16)
        }
    }

    /// Writes the number at a place.
    #[inline(always)]
    pub fn put(&mut self, row: usize, column: usize, number: usize) -> Result<(), AllocError>
        requires { IsForest self.old }
        ensures forest { OnOk result (IsForest self.new) }
        ensures set { OnOk result (number_at self.new row column ≡ number) }
        ensures columns { OnOk result ((other : ℕ) → other ≢ column → number_at self.new row other ≡ number_at self.old row other) }
        ensures rows { OnOk result ((i other : ℕ) → i ≢ row → number_at self.new i other ≡ number_at self.old i other) }
    {
        if column < 16 {
            self.near.put(row, column, number)?;
        } else {
            let node = self.reach(row, column / 16)?;
            self.cells.put(node, column % 16, number)?;
        }
        Ok(())
    }

    // The node of a row for sixteen columns, or 0.
    #[inline(never)]
    fn node(&self, row: usize, block: usize) -> usize
        requires { 0 < block }
        ensures { result ≡ node_of self.now row block }
    {
        if block < 16 {
            self.first.get(row, block)
        } else {
            let above = self.node(row, block / 16);
            self.links.get(above, block % 16)
        }
    }

    // The node of a row for sixteen columns, which is made where it isn't there.
    #[inline(never)]
    fn reach(&mut self, row: usize, block: usize) -> Result<usize, AllocError>
        requires forest { IsForest self.old }
        requires some { 0 < block }
        ensures { IfOk result (λ node. IsReached self.old self.new row block node) }
    {
        if block < 16 {
            place(&mut self.first, &mut self.nodes, row, block)
        } else {
            let above = self.reach(row, block / 16)?;
            place(&mut self.links, &mut self.nodes, above, block % 16)
        }
    }
}

impl Drop for SparseRows {
    fn drop(self) {
        let SparseRows {
            near: _,
            first: _,
            links: _,
            cells: _,
            nodes: _,
        } = self;
    }
}

// The node at a place of rows, which is made where it isn't there.
fn place(rows: &mut Rows, nodes: &mut usize, row: usize, digit: usize) -> Result<usize, AllocError>
    ensures { IfOk result (λ node. IsPlaced rows.old rows.new nodes.old nodes.new row digit node) }
{
    let found = rows.get(row, digit);
    if found != 0 {
        return Ok(found);
    }
    match nodes.checked_add(1) {
        Some(node) => {
            rows.put(row, digit, node)?;
            *nodes = node;
            Ok(node)
        }
        None => Err(AllocError),
    }
}
