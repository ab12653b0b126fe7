//! How are rows of one length kept? In one block of memory.

ghost use Rattle.std.specs.Prelude.{◌≡◌, ◌<◌, ◌++◌, ◌∷◌, [], OnOk, length, slice_index, slice_index_or};

use std::alloc::{AllocError, Global};
use std::marker::Model;

#[derive(Drop)]
pub(crate) struct Matrix {
    width: usize,
    height: usize,
    codes: Vec<u32>,
}

impl Model for Matrix {
    ghost use Rattle.std.specs.Prelude.{◌≡◌, ◌*◌, length};
    ghost use Rattle.wb_lookahead.specs.Matrices.{MatrixView, rows_of};

    ghost Value = { MatrixView };

    ghost view = { λ g. record { width = g.width; rows = rows_of g.height g.width g.codes.items } };

    ghost invariant = { λ g. length g.codes.items ≡ g.height * g.width };
}

impl Matrix {
    // No rows.
    pub(crate) fn new(alloc: Global, width: usize) -> Matrix
        ensures { result ≡ record { width = width; rows = [] } }
    {
        Matrix {
            width,
            height: 0,
            codes: Vec::new(alloc),
        }
    }

    // Adds a row after the others.
    pub(crate) fn add(&mut self, row: &[u32]) -> Result<(), AllocError>
        requires { length row.now ≡ self.old.width }
        ensures { OnOk result (self.new ≡ record { width = self.old.width; rows = self.old.rows ++ row.now ∷ [] }) }
    {
        let Some(height) = self.height.checked_add(1) else {
            return Err(AllocError);
        };
        self.codes.extend_from_slice(row)?;
        self.height = height;
        Ok(())
    }

    // The number at a place of a row.
    pub(crate) fn at(&self, row: usize, place: usize) -> u32
        requires row { row < length self.now.rows }
        requires place { place < self.now.width }
        ensures is { result ≡ slice_index (slice_index_or self.now.rows row []) place }
        ensures within { place < length (slice_index_or self.now.rows row []) }
    {
        self.codes[row * self.width + place]
    }
}
